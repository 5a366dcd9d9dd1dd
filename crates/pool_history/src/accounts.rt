//! The accounts of users, and which of them are known.

ghost use Rattle.std.specs.Prelude.{◌≡◌, ◌≤◌, ◌&&◌, ◌||◌, IsTrue, length, nat_le};
ghost use Rattle.std.specs.List.{list_all, list_any};
ghost use Rattle.std.specs.Str.{bytes_eq};
ghost use Rattle.pool_history.specs.Accounts.{account_of, is_empty, is_known, is_visible};

use crate::settings::Rules;
use sv2_types::Str255;

/// The account of a user: the part before the first point, or all.
pub fn account_in(identity: &str) -> &str
    ensures { result.now ≡ account_of identity.now }
{
    match identity.split_once('.') {
        Some((account, _rest)) => account,
        None => identity,
    }
}

/// Whether an account is known by the rules.
pub fn is_known_account(rules: &Rules, account: &str) -> bool
    ensures value { result ≡ is_known rules.now account.now }
    ensures short { IsTrue result → length account.now ≤ 255 }
{
    has_account_length(account)
        && is_visible_text(account)
        && is_listed(rules.users.accounts(), account)
}

/// Whether a text has 1 to 255 bytes.
fn has_account_length(text: &str) -> bool
    ensures value { result ≡ (nat_le 1 (length text.now) && nat_le (length text.now) 255) }
    ensures short { IsTrue result → length text.now ≤ 255 }
{
    let len = text.len();
    1 <= len && len <= 255
}

/// Whether a text has visible characters alone.
fn is_visible_text(text: &str) -> bool
    ensures { result ≡ list_all is_visible text.now }
{
    text.bytes().all(|byte| 0x21 <= byte && byte <= 0x7e)
}

/// Whether an account is listed, or none is.
fn is_listed(users: &[Str255], account: &str) -> bool
    ensures { result ≡ (is_empty users.now || list_any (bytes_eq account.now) users.now) }
{
    is_without_users(users) || is_among(users, account)
}

/// Whether no user is listed.
fn is_without_users(users: &[Str255]) -> bool
    ensures { result ≡ is_empty users.now }
{
    match users {
        [] => true,
        [_, ..] => false,
    }
}

/// Whether an account is among others.
fn is_among(users: &[Str255], account: &str) -> bool
    ensures { result ≡ list_any (bytes_eq account.now) users.now }
{
    users.iter().any(|user| account == user.text())
}
