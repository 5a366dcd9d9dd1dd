//! The places of tokens among those that were granted.

ghost use Rattle.std.specs.Prelude.{◌≡◌, ◌≤◌, ◌^◌, IfNone, IfSome, length};
ghost use Rattle.pool_history.specs.Refusing.{most_grants, token_of};
ghost use Rattle.pool_tables.specs.GrantTables.{HasNoPlace, HasPlace};

/// The place of a token among so many, the first of which has the number 1.
pub(crate) fn place_of(token: &[u8], count: u32) -> Option<usize>
    requires { count ≤ most_grants }
    ensures found { IfSome result (HasPlace token.now count) }
    ensures missing { IfNone result (HasNoPlace token.now count) }
{
    if token.len() != 8 {
        return None;
    }
    let number = number_of(token);
    if number == 0 || (count as u64) < number {
        return None;
    }
    Some((number - 1) as usize)
}

/// The number that a token of eight bytes is.
fn number_of(token: &[u8]) -> u64
    requires { length token.now ≡ 8 }
    ensures { token_of result ≡ token.now }
{
    u64::from_le_bytes([
        token[0], token[1], token[2], token[3], token[4], token[5], token[6], token[7],
    ])
}
