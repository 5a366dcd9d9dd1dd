//! The tokens that were given.

ghost use Rattle.std.specs.Prelude.{◌≡◌, ◌∷◌, ◌++◌, ◌<◌, [], vec_capacity, vec_len};
ghost use Rattle.std.specs.Option.{option_copied};
ghost use Rattle.std.specs.Str.{bytes_eq};
ghost use Rattle.job_declaration.specs.Declaring as rules;
ghost use Rattle.pool_history.specs.Refusing.{token_of};

use crate::Given;

/// The Grant of a token.
pub(crate) fn given_by<'a>(given: &'a [Given], token: &[u8]) -> Option<&'a Given>
    ensures { option_copied result ≡ rules.given_by given.entry.now token.now }
{
    given.iter().find(|grant| is_token_of(token, grant.number))
}

fn is_token_of(token: &[u8], number: u64) -> bool
    ensures { result ≡ bytes_eq token.now (token_of number) }
{
    token == number.to_le_bytes().as_slice()
}

/// Puts a token behind the others, for which there is room.
pub(crate) fn push_given(given: &mut Vec<Given>, grant: Given)
    requires { vec_len given.old < vec_capacity given.old }
    ensures { given.new.items ≡ given.old.items ++ grant ∷ [] }
{
    let _done = given.push(grant);
}
