//! Why a request is refused. Where several reasons hold, the first in the order of an enum is told.

use coinbase::{AssemblyError, OutputsError};
use thiserror::Error;

/// The conditions of a share that can fail, in their order.
#[derive(Clone, Copy, Debug, Drop, Error)]
pub enum Failed {
    #[error("invalid-channel-id")]
    Channel,
    #[error("invalid-extranonce-size")]
    ExtranonceSize,
    #[error("invalid-job-id")]
    Job,
    #[error("stale-share")]
    Stale,
    #[error("invalid-version")]
    Version,
    #[error("invalid-ntime")]
    Ntime,
    #[error("difficulty-too-low")]
    Difficulty,
    #[error("duplicate-share")]
    Duplicate,
    #[error("ledger-full")]
    Full,
}

/// Why a template or a tip is refused.
#[derive(Clone, Copy, Debug, Drop, Error)]
pub enum JobError {
    #[error("{0} templates were accepted, which is the most")]
    TooMany(u32),
    #[error("template {0} has a live or future job")]
    TemplateKnown(u64),
    #[error("there is no tip")]
    NoTip,
    #[error("no future job has the template {0}")]
    UnknownTemplate(u64),
    #[error("no coinbase: {0}")]
    Coinbase(AssemblyError),
    #[error("out of memory")]
    Memory,
}

/// Why a channel isn't opened.
#[derive(Clone, Copy, Debug, Drop, Error)]
pub enum OpenError {
    #[error("unknown-user")]
    UnknownUser,
    #[error("max-target-out-of-range: the target has class {0}")]
    TargetOutOfRange(u16),
    #[error("min-extranonce-size-too-large: {0} bytes")]
    SizeTooLarge(u16),
    #[error("too-many-channels: {0} are open, and {1} were opened")]
    TooManyChannels(u32, u32),
    #[error("no-extranonce-space")]
    NoSpace,
    #[error("out of memory")]
    Memory,
}

/// Why a channel doesn't get an account.
#[derive(Clone, Copy, Debug, Drop, Error)]
pub enum NameError {
    #[error("the channel isn't open in this session")]
    NotOpen,
    #[error("the account isn't known")]
    UnknownUser,
    #[error("the channel has another account")]
    OtherAccount,
    #[error("out of memory")]
    Memory,
}

/// Why a channel's class isn't set.
#[derive(Clone, Copy, Debug, Drop, Error)]
pub enum UpdateError {
    #[error("invalid-channel-id")]
    NotOpen,
    #[error("max-target-out-of-range: the target has class {0}")]
    TargetOutOfRange(u16),
}

/// Why a token isn't granted.
#[derive(Clone, Copy, Debug, Drop, Error)]
pub enum GrantError {
    #[error("the account isn't known")]
    UnknownUser,
    #[error("{0} tokens were granted, which is the most")]
    TooManyGrants(u32),
    #[error("a merkle path of {0} entries, and 32 is the most")]
    PathTooLong(usize),
}

/// Why a miner's own job is refused.
#[derive(Clone, Copy, Debug, Drop, Error)]
pub enum CustomError {
    #[error("invalid-channel-id")]
    NotOpen,
    #[error("invalid-mining-job-token")]
    BadToken,
    #[error("stale-prev-hash")]
    StaleTip,
    #[error("invalid-min-ntime: the least is {0}")]
    EarlyTime(u32),
    #[error("invalid-merkle-path: {0} entries")]
    BadPath(usize),
    #[error("invalid-coinbase: {0}")]
    Coinbase(OutputsError),
}

/// Why a request of a book isn't answered; the book is then as before.
#[derive(Clone, Copy, Debug, Drop, Error)]
pub enum BookError {
    #[error("the keeper failed")]
    KeeperFault,
    #[error("out of memory")]
    Memory,
}
