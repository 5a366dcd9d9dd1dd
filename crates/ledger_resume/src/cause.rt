//! Why there is no book.

ghost use Rattle.std.specs.Prelude.{◌≡◌};
ghost use Rattle.ledger_resume.specs.Causes.{cause_of_opening, cause_of_refusal, cause_of_start};

use crate::ResumeError;
use ledger_disk::DiskOpenError;
use pool_history::BookError;
use thiserror::Error;

/// Why a disk gives no book that can be served on.
#[derive(Clone, Copy, Debug, Error)]
pub enum NoBook {
    /// The disk failed.
    #[error("the disk failed")]
    Fault,
    /// The disk holds something else, or records that are of no history with this Start.
    #[error("the ledger is none of this pool's")]
    WrongLedger,
    /// Out of memory.
    #[error("out of memory")]
    Memory,
}

/// Why there is none where the ledger wasn't opened.
pub(crate) fn opening_cause(error: DiskOpenError) -> NoBook
    ensures { result ≡ cause_of_opening error }
{
    match error {
        DiskOpenError::Fault => NoBook::Fault,
        DiskOpenError::Foreign => NoBook::WrongLedger,
        DiskOpenError::Memory => NoBook::Memory,
    }
}

/// Why there is none where a record wasn't kept.
pub(crate) fn keeping_cause(error: BookError) -> NoBook
    ensures { result ≡ cause_of_start error }
{
    match error {
        BookError::KeeperFault => NoBook::Fault,
        BookError::Memory => NoBook::Memory,
    }
}

/// Why there is none where the records weren't resumed.
pub(crate) fn refusal_cause(error: ResumeError) -> NoBook
    ensures { result ≡ cause_of_refusal error }
{
    match error {
        ResumeError::NotALedger(_) | ResumeError::Broken(_) | ResumeError::Illegal(_) => {
            NoBook::WrongLedger
        }
        ResumeError::Memory => NoBook::Memory,
    }
}
