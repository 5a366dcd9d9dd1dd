//! Why a job of a miner's own is refused.

ghost use Rattle.std.specs.Prelude.{◌≡◌, None};
ghost use Rattle.std.specs.Option.{option_copied};
ghost use Rattle.pool_tables.specs.OwnJobs.{refusal_before_coinbase, tip_refusal};
ghost use Rattle.pool_tables.specs.GrantTables.{HasOneToSpend, MaySpend};
ghost use Rattle.pool_history.specs.Refusing.{is_bad_path, is_other_tip, same_path};

use crate::granted::Granted;
use crate::grants::Grants;
use channels::Channel;
use pool_history::{CustomData, CustomError, Kind, TipData};

/// Why a job of a miner's own is refused before its coinbase is looked at, by its channel, its token
/// and the tip.
pub fn own_job_refusal(
    there: Option<&Channel>,
    grants: &Grants,
    tip: Option<&TipData>,
    custom: &CustomData,
) -> Option<CustomError>
    ensures refusal { result
        ≡ refusal_before_coinbase (option_copied there.entry) grants.now
        (option_copied tip.entry) custom.now }
    ensures ready { result ≡ None → MaySpend grants.now custom.now.token }
    ensures few { result ≡ None → HasOneToSpend grants.now }
{
    let Some(channel) = there else {
        return Some(CustomError::NotOpen);
    };
    if channel.kind != Kind::Extended {
        return Some(CustomError::NotOpen);
    }
    let Some(granted) = grants.unspent(custom.token.bytes(), channel.account.text()) else {
        return Some(CustomError::BadToken);
    };
    over_tip(granted, tip, custom)
}

/// The same by the tip, the token being good.
fn over_tip(granted: &Granted, tip: Option<&TipData>, custom: &CustomData) -> Option<CustomError>
    ensures { result ≡ tip_refusal granted.now (option_copied tip.entry) custom.now }
{
    let Some(tip) = tip else {
        return Some(CustomError::StaleTip);
    };
    if is_of_other_block(tip, custom) {
        return Some(CustomError::StaleTip);
    }
    if custom.min_ntime < tip.header_timestamp {
        return Some(CustomError::EarlyTime(tip.header_timestamp));
    }
    if breaks_path(granted, custom.merkle_path.items()) {
        return Some(CustomError::BadPath(custom.merkle_path.items().len()));
    }
    None
}

/// Whether a job is for another block than the tip's.
fn is_of_other_block(tip: &TipData, custom: &CustomData) -> bool
    ensures { result ≡ is_other_tip tip.now custom.now }
{
    tip.prev_hash.bytes() != custom.prev_hash.bytes() || tip.nbits != custom.nbits
}

/// Whether a path is too long, or another than the one that was fixed.
fn breaks_path(granted: &Granted, path: &[[u8; 32]]) -> bool
    ensures { result ≡ is_bad_path granted.now path.now }
{
    32 < path.len() || (granted.fixed && !is_same_path(path, granted.path.items()))
}

fn is_same_path(path: &[[u8; 32]], other: &[[u8; 32]]) -> bool
    ensures { result ≡ same_path path.now other.now }
{
    path == other
}
