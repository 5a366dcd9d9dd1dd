//! A summary over a tally.

ghost use Rattle.std.specs.Prelude.{◌≡◌, ◌++◌, List, length, OnOk, OnErr};
ghost use Rattle.std.specs.List.{flat_map};
ghost use Rattle.pool_base.specs.Lists.{Begins};
ghost use Rattle.pool_history.specs.declared.events.Event.{Event};
ghost use Rattle.pool_history.specs.Sessions.{enters};
ghost use Rattle.pool_history.specs.Summary.{account_line, summary_of, summary_text};
ghost use Rattle.payouts.specs.SummaryTotals.{IsToldHistory, account_sums, counted_lines, summary_in};

use crate::Tally;
use crate::lines::{put_account, put_line};
use std::alloc::AllocError;

/// Appends the summary of a history of so many sessions and events, whose credits a tally was told.
/// Lack of memory leaves `out` as it was.
pub fn write_summary(
    sessions: u32,
    events: u64,
    tally: &Tally,
    out: &mut Vec<u8>,
) -> Result<(), AllocError>
    ensures ok { OnOk result (out.new.items
        ≡ out.old.items ++ summary_text (summary_in sessions events tally.now)) }
    // It is the summary of each history whose numbers and credits these are.
    ensures told { OnOk result ((past : List Event) → IsToldHistory tally.now past
        → sessions ≡ enters past → events ≡ length past
        → out.new.items ≡ out.old.items ++ summary_text (summary_of past)) }
    ensures err { OnErr result (out.new.items ≡ out.old.items) }
{
    let start = out.len();
    match put_summary(sessions, events, tally, out) {
        Ok(()) => Ok(()),
        Err(error) => {
            out.truncate(start);
            Err(error)
        }
    }
}

// As `write_summary`; lack of memory can leave some bytes behind the old ones.
fn put_summary(
    sessions: u32,
    events: u64,
    tally: &Tally,
    out: &mut Vec<u8>,
) -> Result<(), AllocError>
    ensures ok { OnOk result (out.new.items
        ≡ out.old.items ++ summary_text (summary_in sessions events tally.now)) }
    ensures err { OnErr result (Begins out.old.items out.new.items) }
{
    put_counts(sessions, events, tally, out)?;
    put_accounts(tally, out)
}

// Appends what is counted of the whole history.
fn put_counts(
    sessions: u32,
    events: u64,
    tally: &Tally,
    out: &mut Vec<u8>,
) -> Result<(), AllocError>
    ensures ok { OnOk result (out.new.items
        ≡ out.old.items ++ counted_lines (summary_in sessions events tally.now)) }
    ensures err { OnErr result (Begins out.old.items out.new.items) }
{
    put_line(out, b"sessions", u64::from(sessions))?;
    put_line(out, b"events", events)?;
    put_line(out, b"credits", u64::from(tally.pushes()))?;
    put_line(out, b"blocks", u64::from(tally.blocks()))?;
    put_line(out, b"pool", tally.pool())
}

// Appends the sums of each account, in the order of its first push.
fn put_accounts(tally: &Tally, out: &mut Vec<u8>) -> Result<(), AllocError>
    ensures ok { OnOk result (out.new.items
        ≡ out.old.items ++ flat_map account_line (account_sums tally.now)) }
    ensures err { OnErr result (Begins out.old.items out.new.items) }
{
    for place in 0..tally.len() {
        let sums = tally.account(place);
        put_account(out, sums.account, sums.work, sums.balance)?;
    }
    Ok(())
}
