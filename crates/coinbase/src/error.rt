//! What may be wrong with a transaction or with the terms of a coinbase.

ghost use Rattle.std.specs.Prelude.{◌≡◌};
ghost use Rattle.coinbase.specs.declared.error.TxError.TheVariants.{Memory};

use std::alloc::{AllocError, AllocFailed};
use thiserror::Error;

/// Why bytes are no transaction: the first defect in reading order. A place is that of the first
/// byte of the field that has the defect.
#[derive(Clone, Copy, Debug, PartialEq, Eq, Drop, Error)]
pub enum TxError {
    #[error("the field at byte {0} passes the end")]
    Short(usize),
    #[error("the size at byte {0} isn't in its shortest spelling")]
    LongSize(usize),
    #[error("the marker isn't followed by the flag 01 and inputs")]
    BadMarker,
    #[error("no witness has an item")]
    EmptyWitness,
    #[error("{0} bytes follow the transaction")]
    Trailing(usize),
    #[error("out of memory")]
    Memory,
}

impl From<AllocError> for TxError {
    ghost from_gives = { λ _ e. e ≡ Memory };

    fn from(_error: AllocError) -> TxError {
        TxError::Memory
    }
}

impl<T: Drop> From<AllocFailed<T>> for TxError {
    ghost from_gives = { λ _ e. e ≡ Memory };

    fn from(_error: AllocFailed<T>) -> TxError {
        TxError::Memory
    }
}

/// Why a template has no coinbase here: the first of these that holds.
#[derive(Clone, Copy, Debug, Drop, Error)]
pub enum AssemblyError {
    #[error("a coinbase prefix of {0} bytes, and 88 is the most")]
    ScriptTooLong(usize),
    #[error("no whole output begins at byte {0} of the outputs")]
    BadOutputs(usize),
    #[error("{0} outputs were said, and there are {1}")]
    CountDiffers(u32, usize),
    #[error("a reward of {0} satoshis, and the most is less than 2^40")]
    RewardTooLarge(u64),
    #[error("a coinbase of {0} bytes, and 65,535 is the most")]
    TooLong(usize),
    #[error("out of memory")]
    Memory,
}

impl From<AllocError> for AssemblyError {
    ghost use Rattle.std.specs.Prelude.{◌≡◌};
    ghost use Rattle.coinbase.specs.declared.error.AssemblyError.TheVariants as assembly;

    ghost from_gives = { λ _ e. e ≡ assembly.Memory };

    fn from(_error: AllocError) -> AssemblyError {
        AssemblyError::Memory
    }
}

/// Why a miner's own job has no coinbase here: the first of these that holds.
#[derive(Clone, Copy, Debug, Drop, Error)]
pub enum OutputsError {
    #[error("a coinbase prefix of {0} bytes, and 88 is the most")]
    ScriptTooLong(usize),
    #[error("outputs of {0} bytes, and 1,024 is the most")]
    TooLong(usize),
    #[error("no whole output begins at byte {0} of the outputs")]
    BadOutputs(usize),
    #[error("there is no output")]
    NoOutputs,
    #[error("output {0} pays to another script than the pool's")]
    ForeignOutput(usize),
    #[error("a reward of {0} satoshis, and the most is less than 2^40")]
    RewardTooLarge(u128),
    #[error("out of memory")]
    Memory,
}

impl From<AllocError> for OutputsError {
    ghost use Rattle.std.specs.Prelude.{◌≡◌};
    ghost use Rattle.coinbase.specs.declared.error.OutputsError.TheVariants as outputs;

    ghost from_gives = { λ _ e. e ≡ outputs.Memory };

    fn from(_error: AllocError) -> OutputsError {
        OutputsError::Memory
    }
}
