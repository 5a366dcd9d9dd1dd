//! Why bytes can't be read as a record.

ghost use Rattle.std.specs.Prelude.{◌≡◌};
ghost use Rattle.ledger_records.specs.declared.error.RecordError.TheVariants.{NoRecord, Memory};

use std::alloc::{AllocError, AllocFailed};
use sv2_messages::MsgError;
use thiserror::Error;

/// Why no event was read.
#[derive(Clone, Copy, Debug, Error)]
pub enum RecordError {
    /// The bytes end inside of a record.
    #[error("the bytes end inside of a record")]
    NotWhole = 1,
    /// The bytes begin with no record, whatever follows.
    #[error("the bytes are no record")]
    NoRecord = 2,
    /// Out of memory.
    #[error("out of memory")]
    Memory = 3,
}

impl From<MsgError> for RecordError {
    ghost from_gives = { λ _ e. e ≡ NoRecord };

    fn from(_error: MsgError) -> RecordError {
        RecordError::NoRecord
    }
}

impl From<AllocError> for RecordError {
    ghost from_gives = { λ _ e. e ≡ Memory };

    fn from(_error: AllocError) -> RecordError {
        RecordError::Memory
    }
}

impl<T: Drop> From<AllocFailed<T>> for RecordError {
    ghost from_gives = { λ _ e. e ≡ Memory };

    fn from(_error: AllocFailed<T>) -> RecordError {
        RecordError::Memory
    }
}
