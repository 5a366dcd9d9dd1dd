//! Shares that are judged and booked.

use crate::planning::{Change, Crediting, Planned, Step};
use crate::tables::Tables;
use channels::{Channels, tables_show_histories};
use payouts::{Tally, TallyPlan};
use pool_history::{Checked, Event, Failed, Reply, Submission};
use pool_tables::{Passed, admit};
use share_headers::{brief_of, checked_headers_are_rebuilt, header_by_parts};
use std::alloc::{AllocError, Global};
use sv2_types::Blob;

impl Tables {
    ghost use Rattle.std.specs.Prelude.{◌≡◌, IfErr, IfOk, Some};
    ghost use Rattle.pool_history.specs.declared.asking.Request.TheVariants as request;
    ghost use Rattle.pool_history.specs.Judging.{share_of};
    ghost use Rattle.pool_history.specs.Sessions.{rules_of};
    ghost use Rattle.share_ledger.specs.Planning.{IsStepWithin, past_in};
    ghost use Rattle.pool_tables.specs.Passing.{IsPayable};
    ghost use Rattle.share_ledger.specs.Shares.{IsPassed, failed_within};
    ghost use Rattle.share_ledger.specs.Booking.{BooksPassed};

    /// What is needed to hash a share.
    pub(crate) fn brief(&self, session: u32, sub: Submission) -> Result<Step, AllocError>
        ensures { IfOk result (IsStepWithin self.now self.now session (request.Brief sub)) }
    {
        tables_show_histories();
        let rules = self.history.rules();
        match admit(rules, &self.channels, &self.jobs, session, &sub) {
            Ok(found) => {
                let brief = brief_of(&found.parts())?;
                Ok(Step::Answer(Reply::Brief(brief)))
            }
            Err(code) => Ok(Step::Answer(Reply::Refused(code))),
        }
    }

    /// A share that is booked, unless one of the nine conditions fails.
    pub(crate) fn plan_commit(
        &mut self,
        alloc: Global,
        session: u32,
        checked: Checked,
    ) -> Result<Step, AllocError>
        ensures same { self.new.history ≡ self.old.history }
        ensures step { IfOk result
            (IsStepWithin self.old self.new session (request.Commit checked)) }
    {
        match self.pass(session, &checked) {
            Ok(passed) => self.book(alloc, session, &checked.sub, passed),
            Err(code) => Ok(Step::Answer(Reply::Refused(code))),
        }
    }

    /// What is booked of a share that meets the nine conditions, or the first that fails.
    fn pass(&self, session: u32, checked: &Checked) -> Result<Passed, Failed>
        ensures ok { IfOk result (λ passed. IsPassed (past_in self.now) session
            (share_of checked.now.sub) passed.header passed.is_block passed.work passed.reward) }
        ensures small { IfOk result (λ passed. IsPayable passed.work passed.reward) }
        ensures err { IfErr result (λ code. Some code
            ≡ failed_within (rules_of (past_in self.now)) (past_in self.now) session
            (share_of checked.now.sub)) }
    {
        checked_headers_are_rebuilt();
        tables_show_histories();
        let rules = self.history.rules();
        let found = match admit(rules, &self.channels, &self.jobs, session, &checked.sub) {
            Ok(found) => found,
            Err(code) => return Err(code),
        };
        let (header, hash) = header_by_parts(checked, &found.parts());
        let credits = self.tally.pushes();
        found.pass(rules, header, &hash, &self.headers, credits)
    }

    /// Books a share that passed.
    fn book(
        &mut self,
        alloc: Global,
        session: u32,
        sub: &Submission,
        passed: Passed,
    ) -> Result<Step, AllocError>
        requires passes { IsPassed (past_in self.old) session (share_of sub.now)
            passed.header passed.is_block passed.work passed.reward }
        requires small { IsPayable passed.work passed.reward }
        ensures same { self.new.history ≡ self.old.history }
        ensures booked { IfOk result (BooksPassed self.new session (share_of sub.now) passed.work) }
    {
        tables_show_histories();
        let fee = self.history.rules().fee;
        let plan = plan_push(&self.channels, &mut self.tally, sub.channel, fee, &passed)?;
        self.headers.reserve()?;
        Ok(Step::Move(Planned {
            event: credit_event(alloc, session, sub)?,
            change: Change::Credit(Crediting {
                plan,
                header: passed.header,
                is_block: passed.is_block,
            }),
            reply: Reply::Credited(passed.work),
        }))
    }
}

ghost use Rattle.std.specs.Prelude.{◌≡◌, IfOk};
ghost use Rattle.history_laws.specs.Answered.{credit_of};
ghost use Rattle.pool_history.specs.Judging.{share_of};

/// The event of a share that is booked.
fn credit_event(alloc: Global, session: u32, sub: &Submission) -> Result<Event, AllocError>
    ensures { IfOk result (λ event. event ≡ credit_of session (share_of sub.now)) }
{
    let sent = &sub.extranonce[..usize::from(sub.extranonce_len)];
    Ok(Event::Credit {
        session,
        channel: sub.channel,
        job: sub.job,
        nonce: sub.nonce,
        ntime: sub.ntime,
        version: sub.version,
        extranonce: Blob::of(alloc, sent)?,
    })
}

ghost use Rattle.std.specs.Prelude.{ℕ, ◌+◌, ◌<◌, ◌≤◌, ◌^◌, if◌then◌else◌, List, None, Some};
ghost use Rattle.pool_tables.specs.Passing.{IsPayable};
ghost use Rattle.std.specs.Option.{option_map};
ghost use Rattle.pool_history.specs.Channels.{channel_in};
ghost use Rattle.payouts.specs.Plans.{Fits, IsPlanOf};
ghost use Rattle.payouts.specs.Tallies.{DiffersInRoom};
ghost use Rattle.share_ledger.specs.Shares.{HasChannel};

/// Plans the push of a share's work for its channel's account, and its block where it is one.
fn plan_push(
    channels: &Channels,
    tally: &mut Tally,
    channel: u32,
    fee: u16,
    passed: &Passed,
) -> Result<TallyPlan, AllocError>
    requires there { HasChannel (channel_in channels.now.open_channels channel) }
    requires few { tally.old.pushes + 1 < 2 ^ 24 }
    requires small { IsPayable passed.now.work passed.now.reward }
    requires fee { fee ≤ 10000 }
    ensures same { DiffersInRoom tally.old tally.new }
    ensures asked { IfOk result (λ plan. (account : List ℕ)
        × (option_map (λ shown. shown.account) (channel_in channels.now.open_channels channel)
        ≡ Some account)
        × IsPlanOf account passed.now.work
        (if passed.now.is_block then Some (passed.now.reward, fee) else None) plan) }
    ensures fits { IfOk result (Fits tally.new) }
{
    let Some(channel) = channels.channel(channel) else {
        unreachable!();
    };
    tally.plan(channel.account.text(), passed.work, passed.block(fee))
}
