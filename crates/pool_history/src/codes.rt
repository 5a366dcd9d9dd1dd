//! The codes of refusals, as messages say them.

ghost use Rattle.std.specs.Prelude.{◌≡◌, ◌≤◌, length};
ghost use Rattle.pool_history.specs.Codes.{custom_code, open_code, share_code, update_code};

use crate::refusals::{CustomError, Failed, OpenError, UpdateError};

impl Failed {
    /// The code in SubmitShares.Error.
    pub fn code(self) -> &'static str
        ensures code { result.now ≡ share_code self }
        ensures short { length result.now ≤ 255 }
    {
        match self {
            Failed::Channel => "invalid-channel-id",
            Failed::ExtranonceSize => "invalid-extranonce-size",
            Failed::Job => "invalid-job-id",
            Failed::Stale => "stale-share",
            Failed::Version => "invalid-version",
            Failed::Ntime => "invalid-ntime",
            Failed::Difficulty => "difficulty-too-low",
            Failed::Duplicate => "duplicate-share",
            Failed::Full => "ledger-full",
        }
    }
}

impl OpenError {
    /// The code in OpenMiningChannel.Error.
    pub fn code(self) -> &'static str
        ensures code { result.now ≡ open_code self }
        ensures short { length result.now ≤ 255 }
    {
        match self {
            OpenError::UnknownUser => "unknown-user",
            OpenError::TargetOutOfRange(_) => "max-target-out-of-range",
            OpenError::SizeTooLarge(_) => "min-extranonce-size-too-large",
            OpenError::TooManyChannels(_, _) => "too-many-channels",
            OpenError::NoSpace => "no-extranonce-space",
            OpenError::Memory => "out-of-memory",
        }
    }
}

impl UpdateError {
    /// The code in UpdateChannel.Error.
    pub fn code(self) -> &'static str
        ensures code { result.now ≡ update_code self }
        ensures short { length result.now ≤ 255 }
    {
        match self {
            UpdateError::NotOpen => "invalid-channel-id",
            UpdateError::TargetOutOfRange(_) => "max-target-out-of-range",
        }
    }
}

impl CustomError {
    /// The code in SetCustomMiningJob.Error.
    pub fn code(self) -> &'static str
        ensures code { result.now ≡ custom_code self }
        ensures short { length result.now ≤ 255 }
    {
        match self {
            CustomError::NotOpen => "invalid-channel-id",
            CustomError::BadToken => "invalid-mining-job-token",
            CustomError::StaleTip => "stale-prev-hash",
            CustomError::EarlyTime(_) => "invalid-min-ntime",
            CustomError::BadPath(_) => "invalid-merkle-path",
            CustomError::Coinbase(_) => "invalid-coinbase",
        }
    }
}
