//! Whom a session is told for: its open channels at a place, one by one or as a group.

ghost use Rattle.std.specs.Prelude.{◌≡◌, ◌==◌, ◌&&◌, ◌++◌, ◌∷◌, [], ◌^◌, ◌<◌, Some, false, not, if◌then◌else◌, IfOk, OnOk, map, nat_lt};
ghost use Rattle.std.specs.Int.{bit_at};
ghost use Rattle.pool_history.specs.News.{alone, audience_of};
ghost use Rattle.event_store.specs.Chains.{AreLinked, IsLastOf};
ghost use Rattle.event_store.specs.Places.{OpeningsRise, if_since, openings_since};
ghost use Rattle.event_store.specs.Told as told;

use crate::audience::{Heard, StandardChannel};
use crate::marks::{Listener, OpeningMark, SessionMark};
use pool_history::Kind;
use std::alloc::{AllocError, Global};

/// A channel is told by itself.
pub(crate) fn alone(listener: &Listener) -> Heard
    ensures { told.heard_as result ≡ alone (told.channel_by listener.now) }
{
    let id = listener.id;
    match listener.kind {
        Kind::Standard => Heard::Single(StandardChannel {
            id,
            lead: listener.lead,
        }),
        Kind::Extended | Kind::V1 => Heard::Rolling(id),
    }
}

// Whether a place comes before another.
fn is_before(at: Option<u64>, place: u64) -> bool
    ensures { result ≡ told.is_before at place }
{
    match at {
        Some(at) => at < place,
        None => false,
    }
}

/// Whether a session had left at a place.
pub(crate) fn has_left(mark: &SessionMark, place: u64) -> bool
    ensures { result ≡ told.has_left_at place (Some mark.now) }
{
    is_before(mark.left, place)
}

/// The flags of a session at a place: none before it was entered.
pub(crate) fn flags_at(mark: &SessionMark, place: u64) -> u32
    ensures { result ≡ told.flags_at place (Some mark.now) }
{
    if mark.at < place { mark.flags } else { 0 }
}

/// The channels of a session that are open at a place, from the last of its openings on.
pub(crate) fn listeners_at(
    alloc: Global,
    openings: &[OpeningMark],
    last: Option<u32>,
    session: u32,
    place: u64,
) -> Result<Vec<Listener>, AllocError>
    requires openings { AreLinked openings.now }
    requires last { IsLastOf session openings.now last }
    ensures { IfOk result (λ listeners. listeners.items
        ≡ told.listeners_in openings.now session place) }
{
    let mut listeners = Vec::new(alloc);
    let mut next = last;
    while let Some(at) = next {
        let mark = &openings[at as usize];
        add_listener(&mut listeners, mark, place)?;
        next = mark.before;
    }
    listeners.reverse();
    Ok(listeners)
}

// Puts an opening's channel behind the others, where it is open at a place.
fn add_listener(
    listeners: &mut Vec<Listener>,
    mark: &OpeningMark,
    place: u64,
) -> Result<(), AllocError>
    ensures { OnOk result (listeners.new.items ≡ listeners.old.items
        ++ (if nat_lt mark.now.at place && not (told.is_before mark.now.closed place)
        then mark.now.listener ∷ [] else [])) }
{
    if mark.at < place && !is_before(mark.closed, place) {
        listeners.push(mark.listener)?;
    }
    Ok(())
}

/// The places of a session's openings from one on, by the last of its openings. Of those before
/// it goes over one alone.
pub(crate) fn openings_since(
    alloc: Global,
    openings: &[OpeningMark],
    last: Option<u32>,
    session: u32,
    from: u64,
) -> Result<Vec<u64>, AllocError>
    requires openings { AreLinked openings.now }
    requires rising { OpeningsRise openings.now }
    requires last { IsLastOf session openings.now last }
    ensures { IfOk result (λ places. places.items ≡ openings_since openings.now session from) }
{
    let mut places = Vec::new(alloc);
    let mut next = if_since(openings, last, from);
    while let Some(at) = next {
        let mark = &openings[at as usize];
        places.push(mark.at)?;
        next = if_since(openings, mark.before, from);
    }
    places.reverse();
    Ok(places)
}

// The place of an opening's mark, where the opening stands at a place or behind it.
fn if_since(openings: &[OpeningMark], place: Option<u32>, from: u64) -> Option<u32>
    ensures { result ≡ if_since from openings.now place }
{
    let at = place?;
    let mark = openings.get(at as usize)?;
    if from <= mark.at { Some(at) } else { None }
}

/// Whom a session with these flags is told for, by its open channels.
pub(crate) fn hear(
    alloc: Global,
    session: u32,
    flags: u32,
    listeners: &[Listener],
) -> Result<Vec<Heard>, AllocError>
    requires { session < 2 ^ 31 }
    ensures { IfOk result (λ heard. map told.heard_as heard.items
        ≡ audience_of session (bit_at flags 0 == 1) (map told.channel_by listeners.now)) }
{
    if flags % 2 == 1 {
        hear_alone(alloc, listeners)
    } else {
        hear_together(alloc, session, listeners)
    }
}

// Each by itself.
fn hear_alone(alloc: Global, listeners: &[Listener]) -> Result<Vec<Heard>, AllocError>
    ensures { IfOk result (λ heard. map told.heard_as heard.items
        ≡ map alone (map told.channel_by listeners.now)) }
{
    let mut heard = Vec::new(alloc);
    for listener in listeners {
        heard.push(alone(listener))?;
    }
    Ok(heard)
}

// Those that roll, and then the standard ones as a group.
fn hear_together(
    alloc: Global,
    session: u32,
    listeners: &[Listener],
) -> Result<Vec<Heard>, AllocError>
    requires { session < 2 ^ 31 }
    ensures { IfOk result (λ heard. map told.heard_as heard.items
        ≡ audience_of session false (map told.channel_by listeners.now)) }
{
    let mut heard = Vec::new(alloc);
    let mut has_standard = false;
    for listener in listeners {
        match listener.kind {
            Kind::Standard => has_standard = true,
            Kind::Extended | Kind::V1 => heard.push(Heard::Rolling(listener.id))?,
        }
    }
    if has_standard {
        heard.push(Heard::Group((1 << 31) + session))?;
    }
    Ok(heard)
}
