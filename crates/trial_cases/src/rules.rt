//! The rules of the worked session.

ghost use Rattle.std.specs.Prelude.{◌≡◌, ◌≤◌, IfOk, IsTrue};
ghost use Rattle.pool_history.specs.Accounts.{are_in_range};
ghost use Rattle.trial_cases.specs.Examples.{rules_of_example};

use pool_history::{Rules, Users};
use std::alloc::{AllocError, Global};
use sv2_types::Blob;

/// The worked session's rules, with this limit of credits, and with versions that may be rolled or
/// not.
pub fn example_rules(
    alloc: Global,
    version_rolling: bool,
    credit_limit: u32,
) -> Result<Rules, AllocError>
    requires some { 1 ≤ credit_limit }
    requires few { credit_limit ≤ 16777215 }
    ensures rules { IfOk result (λ rules. rules ≡ rules_of_example version_rolling credit_limit) }
    ensures range { IfOk result (λ rules. IsTrue (are_in_range rules)) }
{
    Ok(Rules {
        pool_script: Blob::of(alloc, b"\x51")?,
        least_class: 0,
        fee: 100,
        window: None,
        ntime_window: 600,
        credit_limit,
        version_rolling,
        users: Users::of(Vec::new(alloc)),
    })
}
