//! Lists of places: some that rise, and some in no order, of which each account knows its slot.

ghost use Rattle.std.specs.Prelude.{◌≡◌, ℕ, ◌+◌, ◌<◌, ◌≤◌, [], ◌∷◌, ◌++◌, length, vec_capacity, vec_len};
ghost use Rattle.payouts.specs.Listings.{HasSlots, times_listed};
ghost use Rattle.payouts.specs.Weights.{IsRisingFrom, with_place};

/// Puts a place among others, in order, where it isn't there.
pub(crate) fn insert_place(places: &mut Vec<usize>, place: usize)
    requires rising { IsRisingFrom 0 places.old.items }
    requires room { vec_len places.old < vec_capacity places.old }
    ensures places { places.new.items ≡ with_place place places.old.items }
    ensures capacity { vec_capacity places.new ≡ vec_capacity places.old }
{
    match places.binary_search(&place) {
        Ok(_at) => {}
        Err(at) => {
            let _done = places.insert(at, place);
        }
    }
}

/// Lists a place behind others, among which it isn't.
pub(crate) fn list_place(places: &mut Vec<usize>, slots: &mut Vec<usize>, place: usize)
    requires slotted { HasSlots places.old.items slots.old.items }
    requires known { place < length slots.old.items }
    requires absent { times_listed place places.old.items ≡ 0 }
    requires room { vec_len places.old < vec_capacity places.old }
    ensures places { places.new.items ≡ places.old.items ++ place ∷ [] }
    ensures slotted { HasSlots places.new.items slots.new.items }
    ensures length { vec_len slots.new ≡ vec_len slots.old }
{
    slots[place] = places.len();
    places.push_reserved(place);
}

/// Takes a place off a list, at whose slot the last one is put.
pub(crate) fn unlist_place(places: &mut Vec<usize>, slots: &mut Vec<usize>, place: usize)
    requires slotted { HasSlots places.old.items slots.old.items }
    requires known { place < length slots.old.items }
    requires listed { 1 ≤ times_listed place places.old.items }
    ensures places { (other : ℕ) → times_listed other places.old.items
        ≡ times_listed other (place ∷ places.new.items) }
    ensures slotted { HasSlots places.new.items slots.new.items }
    ensures length { vec_len slots.new ≡ vec_len slots.old }
{
    let slot = slots[place];
    let _place = places.swap_remove(slot);
    if slot < places.len() {
        let moved = places[slot];
        slots[moved] = slot;
    }
}
