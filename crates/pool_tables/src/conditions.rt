//! The tests of single conditions.

ghost use Rattle.std.specs.Prelude.{◌≡◌, ◌==◌, ◌&&◌};
ghost use Rattle.pool_history.specs.Judging.{agree, is_standard, outside, rolling_mask};
ghost use Rattle.channels.specs.Tables.{kept_of};
ghost use Rattle.pool_tables.specs.Conditions.{is_within_window, serves_kept};

use channels::Channel;
use pool_history::{Kind, Rules};

/// Whether a kind is that of a standard channel.
pub(crate) fn is_standard_kind(kind: Kind) -> bool
    ensures { result ≡ is_standard kind }
{
    match kind {
        Kind::Standard => true,
        Kind::Extended | Kind::V1 => false,
    }
}

/// Whether a channel is the session's, has an account, and is standard where the share is.
pub(crate) fn serves(session: u32, kind: Kind, channel: &Channel) -> bool
    ensures { result ≡ serves_kept session (is_standard kind) (kept_of channel.now) }
{
    channel.session == session
        && !channel.account.text().is_empty()
        && is_standard_kind(channel.kind) == is_standard_kind(kind)
}

/// Whether a version is a job's but for the bits that miners may roll (BIP 320).
pub(crate) fn is_version_of(rules: &Rules, version: u32, job_version: u32) -> bool
    ensures { result ≡ (outside (rolling_mask rules.now) version
        == outside (rolling_mask rules.now) job_version) }
{
    let mask: u32 = if rules.version_rolling {
        0x1fff_e000
    } else {
        0
    };
    version & (u32::MAX - mask) == job_version & (u32::MAX - mask)
}

/// Whether a time is in the window behind the least one, both in seconds.
pub(crate) fn is_in_window(rules: &Rules, least: u32, ntime: u32) -> bool
    ensures { result ≡ is_within_window least rules.now.ntime_window ntime }
{
    least <= ntime && u64::from(ntime) <= u64::from(least) + u64::from(rules.ntime_window)
}
