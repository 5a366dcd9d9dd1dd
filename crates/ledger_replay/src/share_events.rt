//! Shares that are credited.

use crate::error::ReplayError;
use crate::replay::Replay;
use crate::sessions_by::{Right, session_cause};
use channels::{Channel, Channels, tables_show_histories};
use payouts::Tally;
use pool_history::{Cause, Failed, Kind, Rules, Submission};
use pool_tables::{Headers, Passed, admit, other_events_leave_grants, other_events_leave_sessions};
use share_headers::{Foresight, checked_headers_are_rebuilt};
use std::alloc::AllocError;
use template_jobs::Jobs;

/// A share as a Credit says it.
#[derive(Clone, Copy)]
pub struct Credited<'a> {
    pub channel: u32,
    pub job: u32,
    pub nonce: u32,
    /// In seconds since 1970.
    pub ntime: u32,
    pub version: u32,
    pub extranonce: &'a [u8],
}

impl Replay {
    ghost use Rattle.std.specs.Prelude.{◌≡◌, ◌+◌, ◌<◌, ◌≤◌, ◌-◌, ◌^◌, OnOk, length};
    ghost use Rattle.ledger_replay.specs.Replays.{Judges, event_count};
    ghost use Rattle.ledger_replay.specs.Shares.{credit_event};

    /// A Credit.
    pub fn credit(&mut self, session: u32, share: &Credited<'_>) -> Result<(), ReplayError>
        requires count { event_count self.old < 2 ^ 64 - 1 }
        requires sent { length share.now.extranonce.now ≤ 32 }
        ensures judged { Judges self.old (credit_event session share.now) result self.new }
        ensures counts { OnOk result (event_count self.new ≡ event_count self.old + 1) }
    {
        other_events_leave_sessions();
        other_events_leave_grants();
        tables_show_histories();
        if let Some(cause) = session_cause(&self.sessions, Right::Mine, session) {
            return Err(ReplayError::Illegal(cause));
        }
        match book_share(
            &self.rules,
            &self.channels,
            &self.jobs,
            &mut self.tally,
            &mut self.headers,
            &self.foresight,
            session,
            share,
        ) {
            Ok(()) => {
                self.events += 1;
                Ok(())
            }
            Err(refusal) => Err(share_error(refusal)),
        }
    }
}

ghost use Rattle.std.specs.Prelude.{◌≡◌, ℕ, ◌+◌, ◌<◌, ◌≤◌, ◌^◌, List, Some, IfErr, IfOk, IsTrue, OnErr, OnOk, length, take};
ghost use Rattle.std.specs.Option.{option_copied, option_map};
ghost use Rattle.channels.specs.Tables.{kept_of};
ghost use Rattle.pool_history.specs.declared.events.Event.{Event};
ghost use Rattle.pool_history.specs.Accounts.{are_in_range};
ghost use Rattle.pool_history.specs.Judging.{is_standard, share_of};
ghost use Rattle.pool_tables.specs.Passing.{IsPayable};
ghost use Rattle.ledger_replay.specs.Kept.{is_standard_kept};
ghost use Rattle.pool_history.specs.Channels.{channel_in, channels_of};
ghost use Rattle.pool_history.specs.Crediting.{first_failed};
ghost use Rattle.pool_history.specs.Legal.{is_standard_in};
ghost use Rattle.ledger_replay.specs.Shares.{BooksNothing, BooksPassed, BooksShare, IsPassed, JudgesAfter, ShowsCredits, share_after, share_error_of};

/// Why a share isn't booked.
#[derive(Clone, Copy)]
enum Unbooked {
    Failed(Failed),
    Memory,
}

/// What an unbooked share is called.
fn share_error(refusal: Unbooked) -> ReplayError
    ensures { result ≡ share_error_of refusal }
{
    match refusal {
        Unbooked::Failed(code) => ReplayError::Illegal(Cause::Share(code)),
        Unbooked::Memory => ReplayError::Memory,
    }
}

/// Judges a share by the tables, and tells it to the tally and the headers where it passes.
fn book_share(
    rules: &Rules,
    channels: &Channels,
    jobs: &Jobs,
    tally: &mut Tally,
    headers: &mut Headers,
    foresight: &Foresight,
    session: u32,
    share: &Credited<'_>,
) -> Result<(), Unbooked>
    requires range { IsTrue (are_in_range rules.now) }
    requires sent { length share.now.extranonce.now ≤ 32 }
    ensures { (past : List Event)
        → JudgesAfter rules.now channels.now jobs.now tally.old headers.old past
        → BooksShare rules.now tally.new headers.new past session share.now result }
{
    let sub = submission_of(kind_of(channels.channel(share.channel)), share);
    match judge(
        rules,
        channels,
        jobs,
        headers,
        tally.pushes(),
        foresight,
        session,
        &sub,
    ) {
        Ok(judged) => match push(tally, headers, judged.account, &judged.passed, rules.fee) {
            Ok(()) => Ok(()),
            Err(_) => Err(Unbooked::Memory),
        },
        Err(code) => Err(Unbooked::Failed(code)),
    }
}

/// What is booked of a share, and for which account.
#[derive(Clone, Copy)]
struct Judged<'a> {
    account: &'a str,
    passed: Passed,
}

/// What is booked of a share, or the first of the nine conditions that fails.
fn judge<'a>(
    rules: &Rules,
    channels: &'a Channels,
    jobs: &'a Jobs,
    headers: &Headers,
    credits: u32,
    foresight: &Foresight,
    session: u32,
    sub: &Submission,
) -> Result<Judged<'a>, Failed>
    ensures passed { (past : List Event)
        → ShowsCredits rules.now channels.now jobs.now headers.now credits past
        → IfOk result (λ judged. IsPassed rules.now past session (share_of sub.now)
        judged.account.now judged.passed) }
    ensures refused { (past : List Event)
        → ShowsCredits rules.now channels.now jobs.now headers.now credits past
        → IfErr result (λ code. first_failed rules.now past session (share_of sub.now)
        ≡ Some code) }
    ensures short { IfOk result (λ judged. length judged.account.now ≤ 255) }
    ensures payable { IfOk result (λ judged. IsPayable judged.passed.work judged.passed.reward) }
    ensures few { OnOk result (credits < rules.now.credit_limit) }
{
    checked_headers_are_rebuilt();
    let found = match admit(rules, channels, jobs, session, sub) {
        Ok(found) => found,
        Err(code) => return Err(code),
    };
    let (header, hash) = foresight.header_of(&found.parts(), sub);
    match found.pass(rules, header, &hash, headers, credits) {
        Ok(passed) => Ok(Judged {
            account: found.channel.account.text(),
            passed,
        }),
        Err(code) => Err(code),
    }
}

/// Tells the tally and the headers what is booked of a share.
fn push(
    tally: &mut Tally,
    headers: &mut Headers,
    account: &str,
    passed: &Passed,
    fee: u16,
) -> Result<(), AllocError>
    requires short { length account.now ≤ 255 }
    requires payable { IsPayable passed.now.work passed.now.reward }
    requires few { tally.old.pushes + 1 < 2 ^ 24 }
    requires fee { fee ≤ 10000 }
    ensures ok { OnOk result
        (BooksPassed tally.old headers.old tally.new headers.new account.now passed.now fee) }
    ensures err { OnErr result (BooksNothing tally.old headers.old tally.new headers.new) }
{
    let plan = tally.plan(account, passed.work, passed.block(fee))?;
    headers.reserve()?;
    let _settled = tally.apply(plan);
    headers.insert(passed.header);
    Ok(())
}

/// The kind of a share's channel.
fn kind_of(there: Option<&Channel>) -> Kind
    ensures { is_standard result ≡ is_standard_kept (option_map kept_of (option_copied there.entry)) }
{
    match there {
        Some(channel) => channel.kind,
        None => Kind::Extended,
    }
}

/// The share as it was submitted, of a kind.
pub fn submission_of(kind: Kind, share: &Credited<'_>) -> Submission
    requires { length share.now.extranonce.now ≤ 32 }
    ensures { (past : List Event)
        → is_standard kind ≡ is_standard_in (channel_in (channels_of past) share.now.channel)
        → share_of result ≡ share_after past share.now }
{
    Submission {
        kind,
        channel: share.channel,
        sequence: 0,
        job: share.job,
        nonce: share.nonce,
        ntime: share.ntime,
        version: share.version,
        extranonce: padded(share.extranonce),
        extranonce_len: share.extranonce.len() as u8,
    }
}

/// The bytes with zeros behind them.
fn padded(sent: &[u8]) -> [u8; 32]
    requires { length sent.now ≤ 32 }
    ensures { take (length sent.now) result ≡ sent.now }
{
    let mut bytes = [0; 32];
    bytes[..sent.len()].copy_from_slice(sent);
    bytes
}
