//! Submissions that went upstream and wait, and what answers them.

ghost use Rattle.std.specs.Prelude.{◌≡◌, ◌==◌, ◌≤◌, true, false, ◌++◌, IfOk, IfNone, IfSome, length, not, nat_lt};
ghost use Rattle.std.specs.List.{filter};
ghost use Rattle.std.specs.List.Sorted.{IsPartitionPoint, IsPartitionedBy};
ghost use Rattle.std.specs.Option.{option_to_list};

use crate::miners::{Miner, place_of};
use proxy_rules::ProxyRefusal;
use std::alloc::{AllocError, Global};
use std::collections::VecDeque;
use std::marker::Model;
use v1_translate::LineId;

/// A submission that went upstream and waits.
#[derive(Drop)]
pub(crate) struct SentOn {
    number: u32,
    caller: u32,
    id: LineId,
}

impl Model for SentOn {
    ghost use Rattle.proxy_core.specs.Codes.{sent_code};
    ghost use Rattle.proxy_rules.specs.State as state;

    ghost Value = { state.SentOn };

    ghost coded = { sent_code };

    ghost view = { λ s. record { number = s.number; caller = s.caller; id = s.id } };
}

impl SentOn {
    ghost use Rattle.std.specs.Prelude.{◌≡◌, ◌==◌};

    pub(crate) fn new(number: u32, caller: u32, id: LineId) -> SentOn
        ensures { result ≡ record { number = number; caller = caller; id = id } }
    {
        SentOn { number, caller, id }
    }

    pub(crate) fn is_of(&self, caller: u32) -> bool
        ensures { result ≡ (self.now.caller == caller) }
    {
        self.caller == caller
    }
}

/// What the upstream says of submissions.
#[derive(Clone, Copy)]
pub(crate) enum Verdict<'a> {
    /// Those up to this number are taken.
    UpTo(u32),
    /// That of this number is refused, by this code.
    Refused(u32, &'a str),
    /// None is answered any more.
    Lost,
}

impl Verdict<'_> {
    ghost use Rattle.std.specs.Prelude.{◌≡◌, IfOk};
    ghost use Rattle.proxy_core.specs.Verdicts as verdicts;
    ghost use Rattle.proxy_rules.specs.Miners.{at_caller, with_line};

    /// Whether it is about this submission.
    fn is_about(&self, sent: &SentOn) -> bool
        ensures { result ≡ verdicts.is_about self.now sent.now }
    {
        match self {
            Verdict::UpTo(number) => sent.number <= *number,
            Verdict::Refused(number, _) => sent.number == *number,
            Verdict::Lost => true,
        }
    }

    /// Answers a submission's line.
    fn say(&self, alloc: Global, sent: SentOn, miners: &mut Vec<Miner>) -> Result<(), AllocError>
        ensures { IfOk result (λ done. miners.new.items
            ≡ at_caller sent.caller (with_line (verdicts.said_by self.now sent.id))
            miners.old.items) }
    {
        let SentOn {
            number: _,
            caller,
            id,
        } = sent;
        match self {
            Verdict::UpTo(_) => say_yes_at(alloc, miners, caller, id),
            Verdict::Refused(_, code) => say_code_at(alloc, miners, caller, id, code),
            Verdict::Lost => say_code_at(
                alloc,
                miners,
                caller,
                id,
                ProxyRefusal::UpstreamLost.code(),
            ),
        }
    }
}

ghost use Rattle.proxy_core.specs.Verdicts as verdicts;
ghost use Rattle.proxy_core.specs.Waiting as shares;
ghost use Rattle.proxy_rules.specs.Miners.{at_caller, with_line};
ghost use Rattle.v1_translate.specs.Lines.{yes};
ghost use Rattle.v1_translate.specs.State.{Answer, CodeRefusal};

/// Answers a line of a caller by true.
fn say_yes_at(
    alloc: Global,
    miners: &mut Vec<Miner>,
    caller: u32,
    id: LineId,
) -> Result<(), AllocError>
    ensures { IfOk result (λ done. miners.new.items
        ≡ at_caller caller (with_line (Answer id yes)) miners.old.items) }
{
    match place_of(miners.as_slice(), caller) {
        Some(place) => miners[place].say_yes(alloc, id),
        None => Ok(()),
    }
}

/// Answers a line of a caller by the error that a code becomes.
pub(crate) fn say_code_at(
    alloc: Global,
    miners: &mut Vec<Miner>,
    caller: u32,
    id: LineId,
    code: &str,
) -> Result<(), AllocError>
    ensures { IfOk result (λ done. miners.new.items
        ≡ at_caller caller (with_line (CodeRefusal id code.now)) miners.old.items) }
{
    match place_of(miners.as_slice(), caller) {
        Some(place) => miners[place].say_code(alloc, id, code),
        None => Ok(()),
    }
}

/// Lets go of the first that waits, where a verdict is about it.
fn pop_about(waiting: &mut VecDeque<SentOn>, verdict: &Verdict<'_>) -> Option<SentOn>
    ensures popped { waiting.old.items ≡ option_to_list result ++ waiting.new.items }
    ensures about { IfSome result (λ sent. verdicts.is_about verdict.now sent ≡ true) }
    ensures none { IfNone result (shares.is_about_first verdict.now waiting.old.items ≡ false) }
{
    match waiting.front() {
        Some(first) if verdict.is_about(first) => waiting.pop_front(),
        _ => None,
    }
}

/// Answers the first that wait, as long as a verdict is about them.
fn answer_first(
    alloc: Global,
    verdict: &Verdict<'_>,
    waiting: &mut VecDeque<SentOn>,
    miners: &mut Vec<Miner>,
) -> Result<(), AllocError>
    requires { shares.is_of_first verdict.now ≡ true }
    ensures answers { IfOk result (λ done. shares.AnswersRising verdict.now waiting.old.items
        miners.old.items waiting.new.items miners.new.items) }
    ensures rising { shares.StayRising waiting.old.items waiting.new.items }
{
    while let Some(sent) = pop_about(waiting, verdict) {
        verdict.say(alloc, sent, miners)?;
    }
    Ok(())
}

/// The place behind those with lower numbers.
fn place_of_number(waiting: &VecDeque<SentOn>, number: u32) -> usize
    ensures within { result ≤ length waiting.now.items }
    ensures place { IsPartitionedBy (λ sent. nat_lt sent.number number) waiting.now.items
        → IsPartitionPoint (λ sent. nat_lt sent.number number ≡ true)
        (λ sent. nat_lt sent.number number ≡ false) waiting.now.items result }
{
    waiting.partition_point(|sent| sent.number < number)
}

/// Lets go of the one with a number, which is found by halves.
fn take_number(waiting: &mut VecDeque<SentOn>, number: u32) -> Option<SentOn>
    ensures { shares.TakesNumber number waiting.old.items result waiting.new.items }
{
    let at = place_of_number(waiting, number);
    match waiting.get(at) {
        Some(found) if found.number == number => waiting.remove(at),
        _ => None,
    }
}

/// Answers the one with a number, where it waits.
fn answer_number(
    alloc: Global,
    number: u32,
    verdict: &Verdict<'_>,
    waiting: &mut VecDeque<SentOn>,
    miners: &mut Vec<Miner>,
) -> Result<(), AllocError>
    requires { shares.IsOfNumber number verdict.now }
    ensures answers { IfOk result (λ done. shares.AnswersRising verdict.now waiting.old.items
        miners.old.items waiting.new.items miners.new.items) }
    ensures rising { shares.StayRising waiting.old.items waiting.new.items }
{
    match take_number(waiting, number) {
        Some(sent) => verdict.say(alloc, sent, miners),
        None => Ok(()),
    }
}

/// Answers all that a verdict is about, in their order. It goes over no others.
fn answer_those(
    alloc: Global,
    verdict: &Verdict<'_>,
    waiting: &mut VecDeque<SentOn>,
    miners: &mut Vec<Miner>,
) -> Result<(), AllocError>
    ensures answers { IfOk result (λ done. shares.AnswersRising verdict.now waiting.old.items
        miners.old.items waiting.new.items miners.new.items) }
    ensures rising { shares.StayRising waiting.old.items waiting.new.items }
{
    match verdict {
        Verdict::UpTo(_) | Verdict::Lost => answer_first(alloc, verdict, waiting, miners),
        Verdict::Refused(number, _) => answer_number(alloc, *number, verdict, waiting, miners),
    }
}

/// Lets go of the submissions of a caller.
fn forget(waiting: &mut VecDeque<SentOn>, caller: u32)
    ensures { waiting.new.items
        ≡ filter (λ sent. not (sent.caller == caller)) waiting.old.items }
{
    waiting.retain(|sent| !sent.is_of(caller));
}

/// Submissions that went upstream: how many, and those that wait, in the order of their numbers.
#[derive(Drop)]
pub(crate) struct SharesSent {
    count: u32,
    waiting: VecDeque<SentOn>,
}

impl Model for SharesSent {
    ghost use Rattle.proxy_core.specs.Waiting as shares;

    ghost Value = { shares.SharesSent };

    ghost coded = { shares.shares_code };

    ghost view = { λ s. record { count = s.count; waiting = s.waiting.items } };

    ghost invariant = { λ s. shares.AreRising 0 s.waiting.items s.count };
}

impl SharesSent {
    ghost use Rattle.std.specs.Prelude.{◌≡◌, ◌==◌, ◌+◌, ◌<◌, [], ◌∷◌, ◌++◌, IfOk, not};
    ghost use Rattle.std.specs.List.{filter};
    ghost use Rattle.proxy_core.specs.Verdicts.{AnswersThose};
    ghost use Rattle.proxy_rules.specs.Steps.{most_sent};

    pub(crate) fn new(alloc: Global) -> SharesSent
        ensures { result ≡ record { count = 0; waiting = [] } }
    {
        SharesSent {
            count: 0,
            waiting: VecDeque::new(alloc),
        }
    }

    /// How many there were.
    pub(crate) fn count(&self) -> u32
        ensures { result ≡ self.now.count }
    {
        self.count
    }

    /// One more, which waits.
    pub(crate) fn add(&mut self, caller: u32, id: LineId) -> Result<(), AllocError>
        requires { self.old.count < most_sent }
        ensures { IfOk result (λ done. self.new ≡ record {
          count = self.old.count + 1;
          waiting = self.old.waiting
              ++ record { number = self.old.count; caller = caller; id = id } ∷ [];
        }) }
    {
        self.waiting.push_back(SentOn::new(self.count, caller, id))?;
        self.count += 1;
        Ok(())
    }

    /// Lets go of those of a caller.
    pub(crate) fn forget(&mut self, caller: u32)
        ensures { self.new ≡ record {
          count = self.old.count;
          waiting = filter (λ sent. not (sent.caller == caller)) self.old.waiting;
        } }
    {
        forget(&mut self.waiting, caller);
    }

    /// Answers those that a verdict is about, in their order.
    pub(crate) fn answer(
        &mut self,
        alloc: Global,
        verdict: &Verdict<'_>,
        miners: &mut Vec<Miner>,
    ) -> Result<(), AllocError>
        ensures answers { IfOk result (λ done. AnswersThose verdict.now self.old.waiting
            miners.old.items self.new.waiting miners.new.items) }
        ensures count { self.new.count ≡ self.old.count }
    {
        answer_those(alloc, verdict, &mut self.waiting, miners)
    }
}
