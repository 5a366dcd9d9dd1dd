//! The weights of the accounts by their places, and the places that have one.

ghost use Rattle.std.specs.Prelude.{◌≡◌, ℕ, ◌+◌, ◌-◌, ◌<◌, ◌≤◌, ◌^◌, [], ◌∷◌, ◌++◌, length, replicate, slice_index, slice_set, IfOk, OnOk};
ghost use Rattle.std.specs.Vec.{vec_len, vec_capacity};
ghost use Rattle.payouts.specs.Listings.{HasSlots, HasWeightsAt, ListsOnce, times_listed};
ghost use Rattle.payouts.specs.Weights.{IsRisingFrom, weighed_places};
ghost use Rattle.payouts.specs.Window.{added, weights_sum};

use crate::places::{list_place, unlist_place};
use std::alloc::{AllocError, Global};
use std::marker::Model;

/// The weights of the accounts. The places that have one are listed in no order, so that nobody
/// has to go over the others, and each account knows at which slot of that list it stands.
#[derive(Drop)]
pub(crate) struct Weights {
    numbers: Vec<u128>,
    places: Vec<usize>,
    slots: Vec<usize>,
}

impl Model for Weights {
    ghost use Rattle.std.specs.Prelude.{◌-◌, min};
    ghost use Rattle.std.specs.Vec.{vec_len, vec_capacity};
    ghost use Rattle.payouts.specs.Listings.{IsWeighed};
    ghost use Rattle.payouts.specs.Weights.{AccountWeights};

    ghost Value = { AccountWeights };

    ghost view = { λ weights. record {
      numbers = weights.numbers.items;
      room = min (vec_capacity weights.numbers - vec_len weights.numbers)
          (vec_capacity weights.slots - vec_len weights.slots);
      list_room = vec_capacity weights.places - vec_len weights.places;
    } };

    ghost invariant = { λ weights. IsWeighed weights.numbers.items weights.places.items
        weights.slots.items };
}

impl Weights {
    /// No weights.
    pub(crate) fn new(alloc: Global) -> Weights
        ensures { result.numbers ≡ [] }
    {
        Weights {
            numbers: Vec::new(alloc),
            places: Vec::new(alloc),
            slots: Vec::new(alloc),
        }
    }

    /// The weights by the accounts' places.
    pub(crate) fn numbers(&self) -> &[u128]
        ensures { result.now ≡ self.now.numbers }
    {
        self.numbers.as_slice()
    }

    /// The places that have a weight, in order.
    pub(crate) fn sorted_places(&self, alloc: Global) -> Result<Vec<usize>, AllocError>
        ensures { IfOk result (λ places. places.items ≡ weighed_places self.now.numbers) }
    {
        let mut places = Vec::from_slice(alloc, self.places.as_slice())?;
        places.sort_unstable();
        Ok(places)
    }

    /// Room for one account more, and for its weight.
    pub(crate) fn reserve(&mut self) -> Result<(), AllocError>
        ensures numbers { self.new.numbers ≡ self.old.numbers }
        ensures room { OnOk result (1 ≤ self.new.room) }
        ensures list_room { OnOk result (1 ≤ self.new.list_room) }
    {
        self.numbers.reserve(1)?;
        self.slots.reserve(1)?;
        self.places.reserve(1)
    }

    /// One account more, without a weight.
    pub(crate) fn push_newcomer(&mut self)
        requires { 1 ≤ self.old.room }
        ensures numbers { self.new.numbers ≡ self.old.numbers ++ 0 ∷ [] }
        ensures list_room { self.new.list_room ≡ self.old.list_room }
    {
        self.numbers.push_reserved(0);
        self.slots.push_reserved(0);
    }

    /// Adds work to the weight at a place.
    pub(crate) fn add(&mut self, place: usize, work: u64)
        requires within { place < length self.old.numbers }
        requires some { 1 ≤ work }
        requires small { weights_sum self.old.numbers + work < 2 ^ 128 }
        requires room { 1 ≤ self.old.list_room }
        ensures { self.new.numbers ≡ added self.old.numbers place work }
    {
        let before = self.numbers[place];
        self.numbers[place] = before + u128::from(work);
        if before == 0 {
            list_place(&mut self.places, &mut self.slots, place);
        }
    }

    /// Takes work out of the weight at a place.
    pub(crate) fn take(&mut self, place: usize, work: u128)
        requires within { place < length self.old.numbers }
        requires some { 1 ≤ work }
        requires enough { work ≤ slice_index self.old.numbers place }
        ensures { self.new.numbers
            ≡ slice_set self.old.numbers place (slice_index self.old.numbers place - work) }
    {
        let left = self.numbers[place] - work;
        self.numbers[place] = left;
        if left == 0 {
            unlist_place(&mut self.places, &mut self.slots, place);
        }
    }

    /// Takes all weights back, by the places that have one alone.
    pub(crate) fn clear(&mut self)
        ensures { self.new.numbers ≡ replicate (length self.old.numbers) 0 }
    {
        clear_places(&mut self.numbers, self.places.as_slice());
        self.places.clear();
    }
}

// Writes 0 at the places that have a weight.
fn clear_places(numbers: &mut Vec<u128>, places: &[usize])
    requires known { (slot : ℕ) → slot < length places.now
        → slice_index places.now slot < length numbers.old.items }
    requires all { HasWeightsAt numbers.old.items places.now }
    ensures numbers { numbers.new.items ≡ replicate (length numbers.old.items) 0 }
    ensures length { vec_len numbers.new ≡ vec_len numbers.old }
    ensures capacity { vec_capacity numbers.new ≡ vec_capacity numbers.old }
{
    for place in places {
        numbers[*place] = 0;
    }
}
