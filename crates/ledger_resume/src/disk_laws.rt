//! What is said of runs one after the other.

ghost use Rattle.ledger_resume.specs.Laws.{CrashesAreGoneOnWith, NextRunsGoOn};
ghost use Rattle.ledger_resume.specs.Runs.{NothingStoredIsLost, OwnLedgersAreNotRefused};

use history_laws::{empty_is_legal, legal_histories_start, prefixes_are_legal};
use ledger_records::ledgers_are_of_one_history;

/// Whatever a crash leaves of a ledger's disk, at whichever moment, the next run finds no record, or
/// those of a legal history that goes on from all that was there for good at that moment.
pub fn crashes_are_gone_on_with()
    ensures { CrashesAreGoneOnWith }
{
    prefixes_are_legal();
    legal_histories_start();
}

/// The book that is ready on what a crash left begins with all that was there for good when the machine
/// crashed.
pub fn next_runs_go_on()
    ensures { NextRunsGoOn }
{
    crashes_are_gone_on_with();
    ledgers_are_of_one_history();
}

/// What was there for good when a machine crashed stands at the front of the history of each run that
/// follows, through any number of crashes, and of runs that had no book.
pub fn nothing_stored_is_lost()
    ensures { NothingStoredIsLost }
{
    crashes_are_gone_on_with();
    ledgers_are_of_one_history();
    empty_is_legal();
}

/// No later run of the same rules is told that the ledger is another's, where the Start was there for
/// good when the machine crashed.
pub fn own_ledgers_are_not_refused()
    ensures { OwnLedgersAreNotRefused }
{
    crashes_are_gone_on_with();
    ledgers_are_of_one_history();
    empty_is_legal();
}
