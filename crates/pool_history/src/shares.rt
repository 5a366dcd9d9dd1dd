//! A submission, and what is kept of a channel and a job to judge it.

ghost use Rattle.std.specs.Prelude.{◌≡◌, ◌≤◌, take};
ghost use Rattle.block_header.specs.Hash.{dsha};
ghost use Rattle.pool_history.specs.Headers.{header_by};

use crate::events::Kind;
use crate::leads::Lead;
use coinbase::Assembly;
use std::alloc::Global;
use std::marker::Model;
use std::sync::Arc;
use sv2_types::Hashes;

/// A share as it was submitted (Stratum V2, "SubmitSharesStandard" and "SubmitSharesExtended").
#[derive(Clone, Copy)]
pub struct Submission {
    /// Standard exactly where the message is SubmitSharesStandard.
    pub kind: Kind,
    pub channel: u32,
    pub sequence: u32,
    pub job: u32,
    pub nonce: u32,
    /// In seconds since 1970.
    pub ntime: u32,
    pub version: u32,
    pub extranonce: [u8; 32],
    /// How many bytes of `extranonce` were sent.
    pub extranonce_len: u8,
    ghost extranonce_fits: { extranonce_len ≤ 32 },
}

/// What a job gives to the merkle root of a header: its coinbase, which lacks its extranonce, and its
/// merkle path.
#[derive(Drop)]
pub struct RootSource {
    pub coinbase: Assembly,
    pub path: Hashes,
}

/// What an open channel, a live job and the last tip give to a header. Contracts see it as a record of
/// these.
#[derive(Drop)]
pub struct Brief {
    /// Shared with the job.
    pub root: Arc<RootSource, Global>,
    pub prev_hash: [u8; 32],
    pub nbits: u32,
    pub lead: Lead,
    pub kind: Kind,
}

impl Model for Brief {
    ghost use Rattle.pool_history.specs.Headers.{Briefing, IsBriefing};

    ghost Value = { Briefing };

    ghost view = { λ brief. record {
      prefix = brief.root.value.coinbase.prefix;
      suffix = brief.root.value.coinbase.suffix;
      path = brief.root.value.path;
      prev_hash = brief.prev_hash;
      nbits = brief.nbits;
      lead = brief.lead;
      kind = brief.kind;
    } };

    ghost invariant = { λ brief. IsBriefing brief.kind brief.lead };
}

/// A submission with its header and that header's hash.
#[derive(Drop)]
pub struct Checked {
    pub brief: Brief,
    pub sub: Submission,
    /// The 80 bytes of the rebuilt header.
    pub header: [u8; 80],
    pub hash: [u8; 32],
    ghost rebuilt: { header
        ≡ header_by brief sub.version sub.ntime sub.nonce
        (take sub.extranonce_len sub.extranonce) },
    ghost hashed: { hash ≡ dsha header },
}
