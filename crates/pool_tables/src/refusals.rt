//! Why a token isn't granted.

ghost use Rattle.std.specs.Prelude.{◌≡◌};
ghost use Rattle.pool_tables.specs.GrantTables.{grant_refusal_after};

use pool_history::{GrantError, Rules, is_known_account};

/// Why no token is granted to an account after so many others, for a path of so many entries.
pub fn grant_refusal_of(
    rules: &Rules,
    count: u32,
    account: &str,
    path_len: usize,
) -> Option<GrantError>
    ensures { result ≡ grant_refusal_after rules.now count account.now path_len }
{
    if !is_known_account(rules, account) {
        return Some(GrantError::UnknownUser);
    }
    if 262_144 <= count {
        return Some(GrantError::TooManyGrants(count));
    }
    if 32 < path_len {
        return Some(GrantError::PathTooLong(path_len));
    }
    None
}
