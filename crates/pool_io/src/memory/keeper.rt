//! Keepers in memory.

ghost use Rattle.std.specs.Prelude.{◌≡◌};

use super::failing::FailingCalls;
use crate::{Keeper, KeeperFailed};
use std::alloc::Global;
use std::marker::Model;

/// A record that is kept. Contracts see its bytes.
#[derive(Debug, Drop)]
pub struct KeptRecord {
    bytes: Vec<u8>,
}

impl Model for KeptRecord {
    ghost use Rattle.std.specs.Prelude.{ℕ, List};

    ghost Value = { List ℕ };

    ghost view = { λ r. r.bytes.items };
}

impl KeptRecord {
    pub fn bytes(&self) -> &[u8]
        ensures { result.now ≡ self.now }
    {
        &self.bytes
    }
}

/// Keeps what is appended. It never fails but for lack of memory.
#[derive(Drop)]
pub struct SureKeeper {
    alloc: Global,
    records: Vec<KeptRecord>,
}

impl Model for SureKeeper {
    ghost use Rattle.std.specs.Prelude.{ℕ, List};

    ghost Value = { List (List ℕ) };

    ghost view = { λ k. k.records.items };
}

impl SureKeeper {
    ghost use Rattle.std.specs.Prelude.{[]};

    /// A keeper that keeps no record yet.
    pub fn new(alloc: Global) -> SureKeeper
        ensures { result ≡ [] }
    {
        SureKeeper {
            alloc,
            records: Vec::new(alloc),
        }
    }

    /// The records, from the first on.
    pub fn records(&self) -> &[KeptRecord]
        ensures { result.now ≡ self.now }
    {
        &self.records
    }
}

impl Keeper for SureKeeper {
    ghost use Rattle.std.specs.Prelude.{None, Some};

    ghost seen = { λ k. record { faults = 0; records = Some k; stored = None } };

    fn append(&mut self, bytes: &[u8]) -> Result<(), KeeperFailed> {
        let Ok(bytes) = Vec::from_slice(self.alloc, bytes) else {
            return Err(KeeperFailed::Memory);
        };
        match self.records.push(KeptRecord { bytes }) {
            Ok(()) => Ok(()),
            Err(_) => Err(KeeperFailed::Memory),
        }
    }
}

/// Keeps what is appended, and fails at the calls whose numbers are listed, the first call being
/// number 0.
#[derive(Drop)]
pub struct MemKeeper {
    keeper: SureKeeper,
    failing: FailingCalls,
}

impl MemKeeper {
    ghost use Rattle.std.specs.Prelude.{[], None, Some};
    ghost use Rattle.pool_io.specs.Memory.{keeper_seen};

    /// A keeper that keeps no record yet.
    pub fn new(alloc: Global, failing: Vec<u64>) -> MemKeeper
        ensures { keeper_seen result
            ≡ record { faults = 0; records = Some []; stored = None } }
    {
        MemKeeper {
            keeper: SureKeeper::new(alloc),
            failing: FailingCalls::of(failing),
        }
    }

    /// The records, from the first on.
    pub fn records(&self) -> &[KeptRecord]
        ensures { Some result.now ≡ (keeper_seen self.now).records }
    {
        self.keeper.records()
    }
}

impl Keeper for MemKeeper {
    ghost use Rattle.pool_io.specs.Memory.{keeper_seen};

    ghost seen = { keeper_seen };

    fn append(&mut self, bytes: &[u8]) -> Result<(), KeeperFailed> {
        if self.failing.next_fails() {
            return Err(KeeperFailed::Failed);
        }
        self.keeper.append(bytes)
    }
}
