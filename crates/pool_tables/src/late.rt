//! The last three conditions of a share, by its header.

ghost use Rattle.std.specs.Prelude.{◌≡◌, ◌<◌, List, None};
ghost use Rattle.block_header.specs.Hash.{dsha};
ghost use Rattle.pool_history.specs.declared.events.Event.{Event};
ghost use Rattle.pool_history.specs.Conditions.{first_false};
ghost use Rattle.pool_history.specs.Crediting.{admitted_class, last_conditions};
ghost use Rattle.pool_history.specs.Crediting as crediting;
ghost use Rattle.pool_history.specs.Judging.{Admitted};
ghost use Rattle.pool_history.specs.Sessions as sessions;
ghost use Rattle.pool_tables.specs.Headers.{ShowsHeaders};

use crate::headers::Headers;
use block_header::meets_class;
use pool_history::{Class, Failed, Rules};

/// The first of the last three conditions that fails for a share with this header, which has this
/// double hash, at this class: the class, an earlier credit of the header, the limit of credits,
/// of which there are so many. It takes no memory.
pub fn late_refusal(
    rules: &Rules,
    class: Class,
    header: &[u8; 80],
    hash: &[u8; 32],
    headers: &Headers,
    credits: u32,
) -> Option<Failed>
    requires { hash.now ≡ dsha header.now }
    ensures first { (past : List Event) (with : Admitted) → class ≡ admitted_class with
        → ShowsHeaders headers.now (crediting.headers past) → credits ≡ sessions.credits past
        → result ≡ first_false (last_conditions rules.now past with header.now) None }
    // Whatever the history is: fewer shares than the limit were credited.
    ensures few { result ≡ None → credits < rules.now.credit_limit }
{
    if !meets_class(hash, class.value()) {
        return Some(Failed::Difficulty);
    }
    if headers.contains(header) {
        return Some(Failed::Duplicate);
    }
    if credits >= rules.credit_limit {
        return Some(Failed::Full);
    }
    None
}
