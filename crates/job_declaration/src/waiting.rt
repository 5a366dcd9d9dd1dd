//! A declaration that lacks transactions.

use crate::Listed;
use std::marker::Model;
use sv2_types::Str255;

/// A declaration that waits for transactions. Contracts see it as the rules have it.
#[derive(Drop)]
pub(crate) struct Waiting {
    pub request_id: u32,
    /// Whose token it has.
    pub identity: Str255,
    /// What it lists: fewer than 2^16.
    pub listed: Vec<Listed>,
}

impl Model for Waiting {
    ghost use Rattle.std.specs.Prelude.{◌^◌, ◌<◌, length};
    ghost use Rattle.job_declaration.specs.State.{Declaration};

    ghost Value = { Declaration };

    ghost view = { λ waiting. record {
      request_id = waiting.request_id;
      identity = waiting.identity;
      listed = waiting.listed.items;
    } };

    ghost invariant = { λ waiting. length waiting.listed.items < 2 ^ 16 };
}
