//! What a session is told of events.

ghost use Rattle.std.specs.Prelude.{◌≡◌};
ghost use Rattle.std.specs.List.{AllByRecursion};
ghost use Rattle.pool_history.specs.Telling.{NoteFits};

use std::marker::Model;
use sv2_types::{Blob, Hashes, U256};

/// One message that is owed to a session, with its fields in owned form.
#[derive(Drop)]
pub enum Note {
    /// Stratum V2, "NewExtendedMiningJob".
    Extended {
        channel_id: u32,
        job_id: u32,
        min_ntime: Option<u32>,
        version: u32,
        version_rolling_allowed: bool,
        merkle_path: Hashes,
        coinbase_tx_prefix: Blob,
        coinbase_tx_suffix: Blob,
    },
    /// Stratum V2, "NewMiningJob".
    Standard {
        channel_id: u32,
        job_id: u32,
        min_ntime: Option<u32>,
        version: u32,
        merkle_root: U256,
    },
    /// Stratum V2, "SetNewPrevHash" of the mining protocol.
    PrevHash {
        channel_id: u32,
        job_id: u32,
        prev_hash: U256,
        min_ntime: u32,
        nbits: u32,
    },
    /// Stratum V2, "SubmitSolution".
    Solution {
        template_id: u64,
        version: u32,
        header_timestamp: u32,
        header_nonce: u32,
        coinbase_tx: Blob,
    },
}

/// Owned notes, each of which fits its message. Contracts see them as a list.
#[derive(Drop)]
pub struct Notes {
    items: Vec<Note>,
}

impl Model for Notes {
    ghost use Rattle.std.specs.Prelude.{List};
    ghost use Rattle.std.specs.List.{AllByRecursion};
    ghost use Rattle.pool_history.specs.declared.telling.Note.{Note};
    ghost use Rattle.pool_history.specs.Telling.{NoteFits};

    ghost Value = { List Note };

    ghost view = { λ notes. notes.items.items };

    ghost invariant = { λ notes. AllByRecursion NoteFits notes.items.items };
}

impl Notes {
    /// The notes themselves, which takes no memory.
    pub fn of(items: Vec<Note>) -> Notes
        requires { AllByRecursion NoteFits items.items }
        ensures { result ≡ items.items }
    {
        Notes { items }
    }

    pub fn items(&self) -> &[Note]
        ensures value { result.now ≡ self.now }
        ensures fits { AllByRecursion NoteFits self.now }
    {
        self.items.as_slice()
    }
}
