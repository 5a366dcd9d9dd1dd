//! The sessions that were present when an earlier run ended, which are over.

ghost use Rattle.std.specs.Prelude.{◌≡◌, OnErr, OnOk};
ghost use Rattle.pool_io.specs.Outside.{CountsFailure};
ghost use Rattle.share_ledger.specs.Books.{KeepsInstead, is_keeper_fault};
ghost use Rattle.share_ledger.specs.Recovery.{KeepsBeginning};
ghost use Rattle.ledger_resume.specs.Leaving.{IsAskedToLeave, LeaveInTurn};

use pool_history::{BookError, Request};
use pool_io::Keeper;
use share_ledger::Book;

/// How many workers a pool can have had: one for the feed, and one for each of 64 doors.
pub const WORKERS: u32 = 65;

/// Ends the session of each worker that a pool can have had, one after the other, up to the first
/// whose Leave isn't answered.
pub(crate) fn end_sessions<K: Keeper>(book: &mut Book<K>) -> Result<(), BookError>
    ensures left { LeaveInTurn WORKERS book.old.events book.new.events result }
    ensures kept { KeepsInstead book.old.keeper.records book.new.keeper.records book.new.events }
    ensures begun { KeepsBeginning book.old.keeper book.new.keeper }
    ensures counts { CountsFailure (is_keeper_fault result) book.old.keeper.faults
        book.new.keeper.faults }
{
    book.history_is_kept();
    for worker in 0..WORKERS {
        match ask_to_leave(book, worker) {
            Ok(()) => {}
            Err(error) => return Err(error),
        }
    }
    Ok(())
}

/// Ends the session of a worker, if it has one.
fn ask_to_leave<K: Keeper>(book: &mut Book<K>, worker: u32) -> Result<(), BookError>
    ensures left { OnOk result (IsAskedToLeave worker book.old.events book.new.events) }
    ensures refused { OnErr result (book.new.events ≡ book.old.events) }
    ensures kept { KeepsInstead book.old.keeper.records book.new.keeper.records book.new.events }
    ensures begun { KeepsBeginning book.old.keeper book.new.keeper }
    ensures counts { CountsFailure (is_keeper_fault result) book.old.keeper.faults
        book.new.keeper.faults }
{
    match book.act(worker, Request::Leave) {
        Ok(_answer) => Ok(()),
        Err(error) => Err(error),
    }
}
