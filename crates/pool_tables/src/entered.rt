//! What a session was entered with.

use pool_history::Role;
use std::marker::Model;

/// A session's worker, its role and the flags of its setup.
#[derive(Clone, Copy)]
pub struct Entered {
    pub worker: u32,
    pub role: Role,
    pub flags: u32,
}

impl Model for Entered {
    ghost use Rattle.pool_history.specs.Sessions.{Entrance};

    ghost Value = { Entrance };

    ghost view = { λ entered. record {
      worker = entered.worker;
      role = entered.role;
      flags = entered.flags;
    } };

    ghost inverse = { λ entrance. record {
      worker = entrance.worker;
      role = entrance.role;
      flags = entrance.flags;
    } };
}

impl Entered {
    ghost use Rattle.std.specs.Prelude.{◌≡◌};
    ghost use Rattle.pool_history.specs.Legal as legal;

    /// Whether it may send templates and tips.
    pub fn may_feed(&self) -> bool
        ensures { result ≡ legal.may_feed self.now }
    {
        match self.role {
            Role::Miner => false,
            Role::Feed | Role::Solo => true,
        }
    }

    /// Whether it may open channels and submit shares.
    pub fn may_mine(&self) -> bool
        ensures { result ≡ legal.may_mine self.now }
    {
        match self.role {
            Role::Feed => false,
            Role::Miner | Role::Solo => true,
        }
    }

    /// Whether it may bring jobs of its own: it mines, and its setup asked for it by
    /// REQUIRES_WORK_SELECTION (Stratum V2, "SetupConnection").
    pub fn may_select_work(&self) -> bool
        ensures { result ≡ legal.may_select_work self.now }
    {
        self.may_mine() && (self.flags >> 1) % 2 == 1
    }
}
