//! Lists of places, which rise.

ghost use Rattle.std.specs.Prelude.{◌≡◌, ◌++◌, ◌<◌, ◌≤◌, true, false, length, nat_lt, slice_get, vec_capacity, vec_len};
ghost use Rattle.std.specs.List.Sorted.{IsPartitionPoint, IsPartitionedBy};
ghost use Rattle.event_store.specs.Places as listed;

use crate::index::put;
use pool_history::Event;

// Whether an event may be news to any session.
fn is_common(event: &Event, is_block: bool) -> bool
    ensures { result ≡ listed.is_common is_block event.now }
{
    match event {
        Event::Template { .. } | Event::Tip { .. } => true,
        Event::Credit { .. } => is_block,
        _ => false,
    }
}

/// Puts the place of an event behind the others, where it may be news to any session.
pub(crate) fn list_common(places: &mut Vec<u64>, at: u64, event: &Event, is_block: bool)
    requires { vec_len places.old < vec_capacity places.old }
    ensures { places.new.items
        ≡ places.old.items ++ listed.common_place is_block event.now at }
{
    if is_common(event, is_block) {
        put(places, at);
    }
}

/// The places from one on. It goes over no more of them than a search by halves does.
pub(crate) fn since(places: &[u64], from: u64) -> &[u64]
    requires { listed.AreRisingFrom 0 places.now }
    ensures { result.now ≡ listed.since from places.now }
{
    &places[count_before(places, from)..]
}

// How many stand before a place.
fn count_before(places: &[u64], from: u64) -> usize
    requires { IsPartitionedBy (λ at. nat_lt at from) places.now }
    ensures within { result ≤ length places.now }
    ensures parted { IsPartitionPoint (λ at. nat_lt at from ≡ true)
        (λ at. nat_lt at from ≡ false) places.now result }
{
    places.partition_point(|at| *at < from)
}

/// The first place of two lists.
pub(crate) fn first_of(places: &[u64], others: &[u64]) -> Option<u64>
    ensures { result ≡ listed.earlier (slice_get places.now 0) (slice_get others.now 0) }
{
    match (places.first(), others.first()) {
        (Some(at), Some(other)) => Some((*at).min(*other)),
        (Some(at), None) => Some(*at),
        (None, Some(other)) => Some(*other),
        (None, None) => None,
    }
}

/// The places without the first, where it is this one.
pub(crate) fn behind(places: &[u64], at: u64) -> &[u64]
    ensures { result.now ≡ listed.behind at places.now }
{
    match places {
        [first, rest @ ..] if *first == at => rest,
        _ => places,
    }
}
