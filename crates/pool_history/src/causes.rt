//! Why an event isn't legal after the events before it.

use crate::refusals::Failed;
use thiserror::Error;

/// The cause of the first condition of an event that is false. An auditor prints these words.
#[derive(Clone, Copy, Debug, Drop, Error)]
pub enum Cause {
    #[error("bad-start")]
    BadStart,
    #[error("pool-full")]
    PoolFull,
    #[error("bad-flags")]
    BadFlags,
    #[error("no-session")]
    NoSession,
    #[error("bad-role")]
    BadRole,
    #[error("bad-template")]
    BadTemplate,
    #[error("bad-tip")]
    BadTip,
    #[error("unknown-user")]
    UnknownUser,
    #[error("bad-class")]
    BadClass,
    #[error("too-many-channels")]
    TooManyChannels,
    #[error("bad-lead")]
    BadLead,
    #[error("bad-name")]
    BadName,
    #[error("not-open")]
    NotOpen,
    #[error("{0}")]
    Share(Failed),
    #[error("too-many-grants")]
    TooManyGrants,
    #[error("bad-path")]
    BadPath,
    #[error("bad-token")]
    BadToken,
    #[error("stale-prev-hash")]
    StalePrevHash,
    #[error("bad-ntime")]
    BadNtime,
    #[error("bad-coinbase")]
    BadCoinbase,
}
