//! Whether a channel may be opened, and what it gets.

ghost use Rattle.std.specs.Prelude.{◌≡◌, ℕ, ◌<◌, ◌≤◌, ◌^◌, None, List, IfOk, length};
ghost use Rattle.pool_history.specs.Accounts.{account_of};
ghost use Rattle.pool_history.specs.Answering.{account_for};
ghost use Rattle.pool_history.specs.Channels.{OpenChannel};
ghost use Rattle.pool_history.specs.Conditions.{first_false};
ghost use Rattle.pool_history.specs.Refusing.{class_for, class_of_target, conditions_among, count_among, lead_length, may_open};

use block_header::class_of_target;
use pool_history::{Class, Kind, OpenAsk, OpenError, Rules, account_in, is_known_account};
use std::alloc::{AllocError, Global};
use sv2_types::{Str255, U256};

/// The most open channels of a session.
const MOST_CHANNELS: u32 = 1024;

/// The most openings of a history.
const MOST_OPENINGS: u32 = 1 << 22;

/// Why a session that has so many channels open may not open one, after so many openings; that no
/// lead is free is not among the reasons.
pub(crate) fn opening_refusal(
    rules: &Rules,
    own_count: u32,
    openings: u32,
    ask: &OpenAsk,
) -> Option<OpenError>
    ensures refusal { (channels : List OpenChannel) (session : ℕ)
        → count_among channels session ≡ own_count
        → result ≡ first_false (conditions_among rules.now channels openings session ask.now) None }
    ensures class { result ≡ None → class_of_target ask.now.max_target ≤ 60 }
    ensures size { result ≡ None → ask.now.min_size ≤ 11 }
    ensures few { result ≡ None → openings < 2 ^ 22 }
{
    if !may_open_for(rules, ask.kind, ask.identity.text()) {
        return Some(OpenError::UnknownUser);
    }
    let class = class_of_target(&ask.max_target);
    if 60 < class {
        return Some(OpenError::TargetOutOfRange(class));
    }
    if 11 < ask.min_size {
        return Some(OpenError::SizeTooLarge(ask.min_size));
    }
    if MOST_CHANNELS <= own_count || MOST_OPENINGS <= openings {
        return Some(OpenError::TooManyChannels(own_count, openings));
    }
    None
}

/// Whether a channel of a kind is opened for a user.
fn may_open_for(rules: &Rules, kind: Kind, identity: &str) -> bool
    ensures { result ≡ may_open rules.now kind (account_of identity.now) }
{
    match kind {
        Kind::Standard => is_known_account(rules, account_in(identity)),
        Kind::Extended => is_known_account(rules, account_in(identity)),
        Kind::V1 => true,
    }
}

/// How many bytes the lead of a channel has.
pub(crate) fn lead_len(kind: Kind, size: u16) -> u8
    requires { size ≤ 11 }
    ensures value { result ≡ lead_length kind size }
    ensures some { 1 ≤ result }
    ensures most { result ≤ 4 }
{
    match kind {
        Kind::Standard => 4,
        Kind::Extended => (12 - size).min(4) as u8,
        Kind::V1 => (12 - size).min(4) as u8,
    }
}

/// The class that a target gets, which has none above 60.
pub fn class_given(rules: &Rules, target: &U256) -> Class
    requires class { class_of_target target.now ≤ 60 }
    requires least { rules.now.least_class ≤ 60 }
    ensures { result ≡ class_for rules.now target.now }
{
    let class = class_of_target(target) as u8;
    Class::of(class.max(rules.least_class))
}

/// The account that a channel is opened with: none for V1.
pub(crate) fn opening_account(
    alloc: Global,
    kind: Kind,
    identity: &str,
) -> Result<Str255, AllocError>
    requires { length identity.now ≤ 255 }
    ensures { IfOk result (λ account. account ≡ account_for kind identity.now) }
{
    match kind {
        Kind::Standard => Str255::of(alloc, account_in(identity)),
        Kind::Extended => Str255::of(alloc, account_in(identity)),
        Kind::V1 => Str255::of(alloc, ""),
    }
}
