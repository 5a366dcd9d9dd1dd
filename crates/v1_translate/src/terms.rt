//! What all sessions of a pool have in common.

ghost use Rattle.std.specs.Prelude.{◌≡◌, IfOk};

use pool_history::{Rules, Users};
use std::alloc::{AllocError, Global};
use std::marker::Model;
use sv2_types::{Blob, Str255};

/// The rules of a pool, and the class whose difficulty is shown as 1 (`v1_base`).
#[derive(Drop)]
pub struct V1Terms {
    rules: Rules,
    base: u8,
}

impl Model for V1Terms {
    ghost use Rattle.std.specs.Prelude.{◌≤◌};
    ghost use Rattle.v1_translate.specs.State.{Terms};

    ghost Value = { Terms };

    ghost view = { λ terms. record { rules = terms.rules; base = terms.base } };

    ghost invariant = { λ terms. terms.base ≤ 60 };
}

impl V1Terms {
    ghost use Rattle.std.specs.Prelude.{◌≡◌, ◌≤◌};

    /// The terms by a pool's rules, which takes no memory.
    pub fn new(rules: Rules, base: u8) -> V1Terms
        requires { base ≤ 60 }
        ensures { result ≡ record { rules = rules; base = base } }
    {
        V1Terms { rules, base }
    }

    /// The same, with a copy of the rules.
    pub fn of(alloc: Global, rules: &Rules, base: u8) -> Result<V1Terms, AllocError>
        requires { base ≤ 60 }
        ensures { IfOk result (λ terms. terms ≡ record { rules = rules.now; base = base }) }
    {
        Ok(V1Terms {
            rules: copy_rules(alloc, rules)?,
            base,
        })
    }

    pub fn rules(&self) -> &Rules
        ensures { result.now ≡ self.now.rules }
    {
        &self.rules
    }

    pub fn base(&self) -> u8
        ensures base { result ≡ self.now.base }
        ensures most { result ≤ 60 }
    {
        self.base
    }
}

/// A copy of the rules.
fn copy_rules(alloc: Global, rules: &Rules) -> Result<Rules, AllocError>
    ensures { IfOk result (λ copy. copy ≡ rules.now) }
{
    Ok(Rules {
        pool_script: Blob::of(alloc, rules.pool_script.bytes())?,
        least_class: rules.least_class,
        fee: rules.fee,
        window: rules.window,
        ntime_window: rules.ntime_window,
        credit_limit: rules.credit_limit,
        version_rolling: rules.version_rolling,
        users: copy_users(alloc, &rules.users)?,
    })
}

/// A copy of the accounts.
fn copy_users(alloc: Global, users: &Users) -> Result<Users, AllocError>
    ensures { IfOk result (λ copy. copy ≡ users.now) }
{
    let known = users.accounts();
    let mut accounts = Vec::new(alloc);
    for account in known {
        accounts.push(Str255::of(alloc, account.text())?)?;
    }
    Ok(Users::of(accounts))
}
