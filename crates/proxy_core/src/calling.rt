//! What is done for the miner with a caller's number.

ghost use Rattle.std.specs.Prelude.{◌≡◌, IfOk, map, option_map};
ghost use Rattle.proxy_rules.specs.Miners as callers;
ghost use Rattle.proxy_rules.specs.Steps as steps;
ghost use Rattle.v1_translate.specs.Heard.{told_by};
ghost use Rattle.v1_translate.specs.Saying.{asking_of};

use crate::channel::Seat;
use crate::miners::{Miner, place_of};
use mining_msgs::Mining;
use std::alloc::{AllocError, Global};
use v1_translate::{LineId, V1Ask, V1Terms};

/// Whether a caller is joined.
pub(crate) fn is_joined(miners: &[Miner], caller: u32) -> bool
    ensures { result ≡ callers.is_joined caller miners.now }
{
    match place_of(miners, caller) {
        Some(place) => miners[place].is_joined(),
        None => false,
    }
}

/// What was written to a caller since it last joined.
pub(crate) fn output_of(miners: &[Miner], caller: u32) -> &[u8]
    ensures { result.now ≡ callers.output_in (callers.miner_of caller miners.now) }
{
    match place_of(miners, caller) {
        Some(place) => miners[place].output(),
        None => &[],
    }
}

/// The seat of a caller that is joined and subscribed.
pub(crate) fn seat_of(miners: &[Miner], caller: u32) -> Option<&Seat>
    ensures { option_map (λ seat. seat.now) result
        ≡ callers.seat_in (callers.session_of caller miners.now) }
{
    match place_of(miners, caller) {
        Some(place) => miners[place].seat(),
        None => None,
    }
}

/// Joins a caller that isn't joined: what was written to it before is gone.
pub(crate) fn join(alloc: Global, miners: &mut Vec<Miner>, caller: u32) -> Result<(), AllocError>
    ensures { IfOk result (λ done. miners.new.items
        ≡ callers.with_new caller (callers.miner_of caller miners.old.items) miners.old.items) }
{
    match place_of(miners.as_slice(), caller) {
        Some(place) => {
            miners[place].rejoin(alloc);
            Ok(())
        }
        None => {
            miners.push(Miner::new(alloc, caller))?;
            Ok(())
        }
    }
}

pub(crate) fn leave(miners: &mut Vec<Miner>, caller: u32)
    ensures { miners.new.items ≡ callers.at_caller caller callers.left miners.old.items }
{
    match place_of(miners.as_slice(), caller) {
        Some(place) => miners[place].leave(),
        None => {}
    }
}

/// Tells all miners that are subscribed a message.
pub(crate) fn relay(
    alloc: Global,
    terms: &V1Terms,
    miners: &mut Vec<Miner>,
    message: &Mining<'_>,
) -> Result<(), AllocError>
    ensures { IfOk result (λ done. miners.new.items
        ≡ map (callers.relayed_to terms.now (told_by message.now)) miners.old.items) }
{
    for miner in miners.iter_mut() {
        miner.relay(alloc, terms, message)?;
    }
    Ok(())
}

/// Hears a caller's line, and answers what it asks of its pool.
pub(crate) fn hear_line(
    alloc: Global,
    terms: &V1Terms,
    miners: &mut Vec<Miner>,
    caller: u32,
    line: &[u8],
) -> Result<V1Ask, AllocError>
    ensures hears { IfOk result (λ ask. miners.new.items
        ≡ callers.at_caller caller (steps.line_said terms.now line.now) miners.old.items) }
    ensures asks { IfOk result (λ ask. asking_of ask ≡ steps.asks_by terms.now line.now
        (callers.session_of caller miners.old.items)) }
{
    match place_of(miners.as_slice(), caller) {
        Some(place) => miners[place].hear_line(alloc, terms, line),
        None => Ok(V1Ask::Nothing),
    }
}

/// Takes an account that a caller asked for, where it has no other.
pub(crate) fn take_name(
    alloc: Global,
    miners: &mut Vec<Miner>,
    caller: u32,
    account: &str,
) -> Result<(), AllocError>
    ensures { IfOk result (λ done. miners.new.items
        ≡ callers.at_caller caller (steps.named account.now) miners.old.items) }
{
    match place_of(miners.as_slice(), caller) {
        Some(place) => miners[place].take_name(alloc, account),
        None => Ok(()),
    }
}

/// Takes over a caller's share that waits: its line is to be answered.
pub(crate) fn take_share(miners: &mut Vec<Miner>, caller: u32, sequence: u32) -> Option<LineId>
    ensures id { result ≡ steps.share_id sequence (callers.session_of caller miners.old.items) }
    ensures rest { miners.new.items
        ≡ callers.at_caller caller (steps.handed_over sequence) miners.old.items }
{
    match place_of(miners.as_slice(), caller) {
        Some(place) => miners[place].take_share(sequence),
        None => None,
    }
}
