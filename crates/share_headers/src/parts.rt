//! What a channel and a job give to a header, borrowed.

use pool_history::{Kind, Lead, RootSource};
use std::alloc::Global;
use std::marker::Model;
use std::sync::Arc;

/// What one open channel, one live job and the last tip give to a header. A standard channel's lead has four
/// bytes. Contracts see it as they see a `Brief`.
#[derive(Drop)]
pub struct Parts<'a> {
    /// The job's own.
    pub root: &'a Arc<RootSource, Global>,
    /// As it stands in a header.
    pub prev_hash: [u8; 32],
    pub nbits: u32,
    pub lead: Lead,
    pub kind: Kind,
}

impl<'a> Model for Parts<'a> {
    ghost use Rattle.pool_history.specs.Headers.{Briefing, IsBriefing};

    ghost Value = { Briefing };

    ghost view = { λ parts. record {
      prefix = parts.root.now.value.coinbase.prefix;
      suffix = parts.root.now.value.coinbase.suffix;
      path = parts.root.now.value.path;
      prev_hash = parts.prev_hash;
      nbits = parts.nbits;
      lead = parts.lead;
      kind = parts.kind;
    } };

    ghost invariant = { λ parts. IsBriefing parts.kind parts.lead };
}
