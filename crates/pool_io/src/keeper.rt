//! Where records are kept.

ghost use Rattle.std.specs.Prelude.{◌≡◌, ◌≤◌, ℕ, List, Some, length, OnOk, OnErr};
ghost use Rattle.pool_io.specs.Crashes.{FindsMore, StoresNext};
ghost use Rattle.pool_io.specs.Outside.{AddsRecord, CountsFailure, is_failed_append};
ghost use Rattle.pool_io.specs.Seen.{KeeperSeen};

use thiserror::Error;

/// Why a keeper kept nothing.
#[derive(Clone, Copy, Debug, PartialEq, Eq, Error)]
pub enum KeeperFailed {
    #[error("the keeper failed")]
    Failed,
    #[error("no memory for the keeper")]
    Memory,
}

/// Keeps a program's records, one behind the other: each is kept whole, or not at all.
pub trait Keeper {
    ghost use Rattle.std.specs.Prelude.{ℕ, List, Option};

    /// How often the keeper has failed (a counter stays at 2^64 - 1 once it is there), the records
    /// that it keeps, and how many of them were there for good at each moment so far, where it tells
    /// them.
    ghost seen: { Self → KeeperSeen };

    /// What may be found after a crash at a moment so far, when so many records were there for good:
    /// these records, or no ledger at all. It says something of a keeper that tells what was there.
    ghost may_find: { Self → ℕ → Option (List (List ℕ)) → Type 0 } = { λ _ _ _. ⊥ };

    /// Keeps one more record, of at most 300,100 bytes.
    fn append(&mut self, bytes: &[u8]) -> Result<(), KeeperFailed>
        requires { length bytes.now ≤ 300100 }
        ensures kept { OnOk result (AddsRecord (seen self.old).records (seen self.new).records
            bytes.now) }
        ensures refused { OnErr result ((seen self.new).records ≡ (seen self.old).records) }
        ensures stored { (before : List (List ℕ)) → (seen self.old).records ≡ Some before
            → StoresNext result (length before) (seen self.old).stored (seen self.new).stored }
        ensures crash { (before : List (List ℕ)) → (seen self.old).records ≡ Some before
            → FindsMore before bytes.now result (may_find self.old) (may_find self.new) }
        ensures counts { CountsFailure (is_failed_append result) (seen self.old).faults
            (seen self.new).faults };
}
