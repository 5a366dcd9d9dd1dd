//! Whether rules are in the ranges that settings have.

ghost use Rattle.std.specs.Prelude.{◌≡◌, ◌==◌, ◌&&◌, length, nat_le};
ghost use Rattle.std.specs.List.{list_all, list_any};
ghost use Rattle.std.specs.Str.{bytes_eq};
ghost use Rattle.pool_history.specs.Accounts as accounts;

use crate::settings::Rules;
use sv2_types::Str255;

/// Whether rules are in their ranges, with distinct users that may be listed.
pub fn are_rules_in_range(rules: &Rules) -> bool
    ensures { result ≡ accounts.are_in_range rules.now }
{
    let script = rules.pool_script.bytes().len();
    let users = rules.users.accounts();
    1 <= script
        && script <= 100
        && rules.least_class <= 60
        && rules.fee <= 10_000
        && is_window(rules.window)
        && rules.ntime_window <= 86_400
        && 1 <= rules.credit_limit
        && rules.credit_limit <= 16_777_215
        && users.len() <= 1_000
        && are_users(users)
        && are_distinct(users)
}

/// Whether a window is at least one unit of work, where there is one.
fn is_window(window: Option<u64>) -> bool
    ensures { result ≡ accounts.is_window window }
{
    match window {
        None => true,
        Some(window) => 1 <= window,
    }
}

/// Whether each of the texts may be listed.
fn are_users(users: &[Str255]) -> bool
    ensures { result ≡ list_all accounts.is_user users.now }
{
    users.iter().all(|user| is_user(user.text()))
}

/// Whether an account may be listed: 1 to 255 visible characters, none of which is a point.
fn is_user(account: &str) -> bool
    ensures { result ≡ accounts.is_user account.now }
{
    has_account_length(account) && has_visible_bytes(account) && !has_point(account)
}

fn has_account_length(account: &str) -> bool
    ensures { result ≡ (nat_le 1 (length account.now) && nat_le (length account.now) 255) }
{
    1 <= account.len() && account.len() <= 255
}

fn has_visible_bytes(account: &str) -> bool
    ensures { result ≡ list_all accounts.is_visible account.now }
{
    account.bytes().all(|byte| 0x21 <= byte && byte <= 0x7e)
}

fn has_point(account: &str) -> bool
    ensures { result ≡ list_any (λ byte. byte == 46) account.now }
{
    account.bytes().any(|byte| byte == b'.')
}

/// Whether no account stands twice.
fn are_distinct(users: &[Str255]) -> bool
    ensures { result ≡ accounts.are_distinct users.now }
{
    match users {
        [] => true,
        [first, rest @ ..] => !is_among(rest, first.text()) && are_distinct(rest),
    }
}

fn is_among(users: &[Str255], account: &str) -> bool
    ensures { result ≡ list_any (bytes_eq account.now) users.now }
{
    users.iter().any(|user| account == user.text())
}
