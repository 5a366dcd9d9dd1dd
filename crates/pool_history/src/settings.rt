//! The rules that a Start event has.

use std::marker::Model;
use sv2_types::{Blob, Str255};

/// Owned accounts, which contracts see as a list of texts.
#[derive(Debug, Drop)]
pub struct Users {
    accounts: Vec<Str255>,
}

impl Model for Users {
    ghost use Rattle.std.specs.Prelude.{ℕ, List};

    ghost Value = { List (List ℕ) };

    ghost view = { λ users. users.accounts.items };
}

impl Users {
    ghost use Rattle.std.specs.Prelude.{◌≡◌};

    /// The accounts themselves, which takes no memory.
    pub fn of(accounts: Vec<Str255>) -> Users
        ensures { result ≡ accounts.items }
    {
        Users { accounts }
    }

    pub fn accounts(&self) -> &[Str255]
        ensures { result.now ≡ self.now }
    {
        self.accounts.as_slice()
    }
}

/// The rules of a pool, as its Start event says them.
#[derive(Debug, Drop)]
pub struct Rules {
    /// The output script that rewards are paid to.
    pub pool_script: Blob,
    /// The class that an easier target is raised to.
    pub least_class: u8,
    /// In basis points.
    pub fee: u16,
    /// The window of PPLNS in units of work; the proportional rule where there is none.
    pub window: Option<u64>,
    /// In seconds.
    pub ntime_window: u32,
    pub credit_limit: u32,
    /// Whether miners may roll the bits of BIP 320 in the version.
    pub version_rolling: bool,
    /// The accounts that are known; all are where there is none.
    pub users: Users,
}
