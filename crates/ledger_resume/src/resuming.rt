//! The call that resumes.

ghost use Rattle.std.specs.Prelude.{◌≡◌, IfErr, IfOk, List, OnOk};
ghost use Rattle.pool_history.specs.declared.events.Event.{Event};
ghost use Rattle.pool_io.specs.Crashes.{IsSettledWith};
ghost use Rattle.ledger_resume.specs.Histories.{IsHistoryOf};
ghost use Rattle.ledger_resume.specs.Refusals.{IsRefusalOf, TellsJust};

use crate::error::ResumeError;
use crate::refusing::refusal_of;
use crate::restored::restore;
use pool_io::Keeper;
use share_ledger::Book;
use std::alloc::Global;
use sv2_types::Blob;

/// The book of the history that has these records, over the keeper that has just these, if it tells
/// them. Nothing is kept by it.
pub fn resume<K: Keeper>(
    alloc: Global,
    keeper: K,
    records: &[Blob],
) -> Result<Book<K>, (K, ResumeError)>
    requires told { TellsJust (K.seen keeper).records records.now }
    // Where it tells what is there for good, these all are, and a crash left no others.
    requires settled { IsSettledWith (K.seen keeper).stored (K.may_find keeper) records.now }
    ensures history { IfOk result (λ book. IsHistoryOf records.now book.events) }
    ensures keeper { IfOk result (λ book. book.keeper ≡ K.seen keeper) }
    ensures back { IfErr result (λ failed. failed.0 ≡ keeper) }
    // What is refused is so for its records' first defect, or for want of memory;
    ensures refused { IfErr result (λ failed. IsRefusalOf records.now failed.1) }
    // the records of a history are refused for want of memory alone;
    ensures good { IfErr result (λ failed. (history : List Event) → IsHistoryOf records.now history
        → failed.1 ≡ ResumeError.Memory) }
    // and records that have a refusal lead to no book.
    ensures bad { (refusal : ResumeError) → (refusal ≡ ResumeError.Memory → ⊥)
        → IsRefusalOf records.now refusal → OnOk result ⊥ }
{
    match restore(alloc, records) {
        Ok(Some(restored)) => {
            let hash = restored.hash;
            match Book::of_tables(alloc, restored.into_tables(), hash, keeper) {
                Ok(book) => Ok(book),
                Err((keeper, _)) => Err((keeper, ResumeError::Memory)),
            }
        }
        Ok(None) => Err((keeper, refusal_of(alloc, records))),
        Err(_) => Err((keeper, ResumeError::Memory)),
    }
}
