//! What a subscriber is given.

ghost use Rattle.std.specs.Prelude.{◌≡◌, IfOk, map, option_map};
ghost use Rattle.proxy_rules.specs.Jobs as jobs;
ghost use Rattle.proxy_rules.specs.Miners as callers;
ghost use Rattle.proxy_rules.specs.Refusals.{code_of};
ghost use Rattle.proxy_rules.specs.Steps as steps;
ghost use Rattle.v1_translate.specs.Heard as heard;

use crate::channel::{Offer, UpChannel};
use crate::jobs::{RelayedJob, RelayedTip};
use crate::miners::{Miner, place_of};
use mining_msgs::{Mining, OpenMiningChannelError};
use proxy_rules::ProxyRefusal;
use std::alloc::{AllocError, Global};
use v1_translate::V1Terms;

/// How many leads there are.
const LEADS: u32 = 65536;

/// Whether a lead is held by a miner that is joined.
fn is_held(held: &[Miner], lead: u16) -> bool
    ensures { result ≡ callers.is_held lead held.now }
{
    held.iter().any(|miner| miner.holds(lead))
}

/// The least lead that is free.
fn least_free(held: &[Miner]) -> Option<u16>
    ensures { result ≡ callers.least_free held.now }
{
    for place in 0..LEADS {
        let lead = place as u16;
        if !is_held(held, lead) {
            return Some(lead);
        }
    }
    None
}

/// What a subscriber is given, or why it is given nothing.
pub(crate) fn offer(
    alloc: Global,
    is_ended: bool,
    opened: Option<&UpChannel>,
    held: &[Miner],
) -> Result<Result<Offer, ProxyRefusal>, AllocError>
    ensures { IfOk result (λ offer. offer ≡ steps.offer_by is_ended
        (option_map (λ channel. channel.now) opened.entry) held.now) }
{
    let Some(channel) = opened else {
        return Ok(Err(ProxyRefusal::NoUpstream));
    };
    if is_ended || !channel.serves() {
        return Ok(Err(ProxyRefusal::NoUpstream));
    }
    match least_free(held) {
        Some(lead) => Ok(Ok(channel.offer(alloc, lead)?)),
        None => Ok(Err(ProxyRefusal::NoSpace)),
    }
}

/// Does so for the miner with a caller's number.
pub(crate) fn subscribe_at(
    alloc: Global,
    terms: &V1Terms,
    tip: Option<&RelayedTip>,
    held: &[RelayedJob],
    offer: Result<Offer, ProxyRefusal>,
    miners: &mut Vec<Miner>,
    caller: u32,
) -> Result<(), AllocError>
    ensures { IfOk result (λ done. miners.new.items ≡ callers.at_caller caller
        (steps.subscribed terms.now (option_map (λ tip. tip.now) tip.entry) held.now offer)
        miners.old.items) }
{
    match place_of(miners.as_slice(), caller) {
        Some(place) => subscribe(alloc, terms, tip, held, offer, &mut miners[place]),
        None => Ok(()),
    }
}

/// Refuses a subscriber, or gives it its seat and tells it the channel and its jobs.
fn subscribe(
    alloc: Global,
    terms: &V1Terms,
    tip: Option<&RelayedTip>,
    held: &[RelayedJob],
    offer: Result<Offer, ProxyRefusal>,
    miner: &mut Miner,
) -> Result<(), AllocError>
    ensures { IfOk result (λ done. miner.new ≡ steps.subscribed terms.now
        (option_map (λ tip. tip.now) tip.entry) held.now offer miner.old) }
{
    match offer {
        Ok(offer) => {
            miner.take_seat(offer.seat());
            // In a tuple, since no proof covers a local of an enum whose structs borrow.
            let opening = (offer.opening(),);
            miner.tell(alloc, terms, &opening.0)?;
            tell_jobs(alloc, terms, tip, held, miner)
        }
        Err(refusal) => refuse(alloc, terms, refusal, miner),
    }
}

/// Tells a subscriber why it is given nothing.
fn refuse(
    alloc: Global,
    terms: &V1Terms,
    refusal: ProxyRefusal,
    miner: &mut Miner,
) -> Result<(), AllocError>
    ensures { IfOk result (λ done. miner.new
        ≡ callers.told_to terms.now (heard.NotOpened (code_of refusal)) miner.old) }
{
    let message = (
        Mining::OpenMiningChannelError(OpenMiningChannelError {
            request_id: 0,
            error_code: refusal.code(),
        }),
    );
    miner.tell(alloc, terms, &message.0)
}

/// Tells a subscriber the tip's job without its time, the tip, and the other jobs.
fn tell_jobs(
    alloc: Global,
    terms: &V1Terms,
    tip: Option<&RelayedTip>,
    held: &[RelayedJob],
    miner: &mut Miner,
) -> Result<(), AllocError>
    ensures { IfOk result (λ done. miner.new ≡ callers.told_all terms.now
        (jobs.jobs_told (option_map (λ tip. tip.now) tip.entry) held.now) miner.old) }
{
    match tip {
        Some(tip) => tell_over(alloc, terms, tip, held, miner),
        None => tell_all(alloc, terms, held, miner),
    }
}

/// The same where there is a tip.
fn tell_over(
    alloc: Global,
    terms: &V1Terms,
    tip: &RelayedTip,
    held: &[RelayedJob],
    miner: &mut Miner,
) -> Result<(), AllocError>
    ensures { IfOk result (λ done. miner.new ≡ callers.told_all terms.now
        (jobs.jobs_told (Some tip.now) held.now) miner.old) }
{
    let number = tip.job();
    tell_future(alloc, terms, number, held, miner)?;
    let message = (tip.message(),);
    miner.tell(alloc, terms, &message.0)?;
    tell_others(alloc, terms, number, held, miner)
}

/// Tells all jobs.
fn tell_all(
    alloc: Global,
    terms: &V1Terms,
    held: &[RelayedJob],
    miner: &mut Miner,
) -> Result<(), AllocError>
    ensures { IfOk result (λ done. miner.new ≡ callers.told_all terms.now
        (map jobs.job_told held.now) miner.old) }
{
    for job in held {
        let message = (job.own_message(),);
        miner.tell(alloc, terms, &message.0)?;
    }
    Ok(())
}

/// Tells the job of a number without its time.
fn tell_future(
    alloc: Global,
    terms: &V1Terms,
    number: u32,
    held: &[RelayedJob],
    miner: &mut Miner,
) -> Result<(), AllocError>
    ensures { IfOk result (λ done. miner.new ≡ callers.told_all terms.now
        (map jobs.future_told (jobs.only number held.now)) miner.old) }
{
    for job in held {
        if job.is_job(number) {
            let message = (job.message(None),);
            miner.tell(alloc, terms, &message.0)?;
        }
    }
    Ok(())
}

/// Tells the jobs but that of a number.
fn tell_others(
    alloc: Global,
    terms: &V1Terms,
    number: u32,
    held: &[RelayedJob],
    miner: &mut Miner,
) -> Result<(), AllocError>
    ensures { IfOk result (λ done. miner.new ≡ callers.told_all terms.now
        (map jobs.job_told (jobs.without number held.now)) miner.old) }
{
    for job in held {
        if !job.is_job(number) {
            let message = (job.own_message(),);
            miner.tell(alloc, terms, &message.0)?;
        }
    }
    Ok(())
}
