//! What a token was granted for.

use std::marker::Model;
use sv2_types::{Hashes, Str255};

/// The account that may spend a token, for any merkle path or for one that is fixed.
#[derive(Drop)]
pub struct Granted {
    pub account: Str255,
    pub fixed: bool,
    pub path: Hashes,
}

impl Model for Granted {
    ghost use Rattle.pool_history.specs.Refusing.{Granted as Grant};

    ghost Value = { Grant };

    ghost view = { λ granted. record {
      account = granted.account;
      fixed = granted.fixed;
      path = granted.path;
    } };
}
