//! What the accounts have worked and are owed, and what the blocks left the pool.

ghost use Rattle.std.specs.Prelude.{◌≡◌, ◌+◌, ◌<◌, ◌≤◌, ◌^◌, [], ◌∷◌, ◌++◌, length, OnOk};
ghost use Rattle.std.specs.Vec.{vec_len, vec_capacity};
ghost use Rattle.payouts.specs.Sums.{DiffersInRows, HasRow};
ghost use Rattle.payouts.specs.Window.{added, weights_sum};

use std::alloc::{AllocError, Global};

/// The sums, of the accounts by their places.
#[derive(Drop)]
pub(crate) struct Sums {
    pub(crate) works: Vec<u128>,
    // In satoshis.
    pub(crate) balances: Vec<u64>,
    pub(crate) pool: u64,
    pub(crate) blocks: u32,
}

impl Sums {
    /// No sums.
    pub(crate) fn new(alloc: Global) -> Sums
        ensures works { result.works.items ≡ [] }
        ensures balances { result.balances.items ≡ [] }
        ensures pool { result.pool ≡ 0 }
        ensures blocks { result.blocks ≡ 0 }
    {
        Sums {
            works: Vec::new(alloc),
            balances: Vec::new(alloc),
            pool: 0,
            blocks: 0,
        }
    }

    /// Room for one account more.
    pub(crate) fn reserve(&mut self) -> Result<(), AllocError>
        ensures same { DiffersInRows self.old self.new }
        ensures room { OnOk result (HasRow self.new) }
    {
        self.works.reserve(1)?;
        self.balances.reserve(1)
    }

    /// One account more, with no work and no balance.
    pub(crate) fn push_newcomer(&mut self)
        requires { HasRow self.old }
        ensures works { self.new.works.items ≡ self.old.works.items ++ 0 ∷ [] }
        ensures balances { self.new.balances.items ≡ self.old.balances.items ++ 0 ∷ [] }
        ensures pool { self.new.pool ≡ self.old.pool }
        ensures blocks { self.new.blocks ≡ self.old.blocks }
    {
        self.works.push_reserved(0);
        self.balances.push_reserved(0);
    }
}

/// Adds work at a place.
pub(crate) fn add_work(works: &mut Vec<u128>, place: usize, work: u64)
    requires within { place < length works.old.items }
    requires small { weights_sum works.old.items + work < 2 ^ 128 }
    ensures added { works.new.items ≡ added works.old.items place work }
    ensures length { vec_len works.new ≡ vec_len works.old }
{
    works[place] += u128::from(work);
}

/// Adds an amount at a place.
pub(crate) fn add_amount(balances: &mut Vec<u64>, place: usize, amount: u64)
    requires within { place < length balances.old.items }
    requires small { weights_sum balances.old.items + amount < 2 ^ 64 }
    ensures added { balances.new.items ≡ added balances.old.items place amount }
    ensures length { vec_len balances.new ≡ vec_len balances.old }
{
    balances[place] += amount;
}
