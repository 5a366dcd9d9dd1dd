//! The credits in the window of PPLNS, and the weights of their accounts.

ghost use Rattle.std.specs.Prelude.{◌≡◌, ◌+◌, ◌-◌, ◌<◌, ◌≤◌, ◌^◌, [], ◌∷◌, ◌++◌, length};
ghost use Rattle.std.specs.VecDeque.{deque_len, deque_capacity};
ghost use Rattle.payouts.specs.Weights.{AreAtMost};
ghost use Rattle.payouts.specs.Window.{IsKeptCredit, IsCreditWindow, added, without_oldest, weights_sum};

use crate::weights::Weights;
use std::collections::VecDeque;

/// What is in the window of a credit: the place of its account, and the part of its work.
#[derive(Clone, Copy)]
pub(crate) struct Kept {
    pub(crate) place: usize,
    pub(crate) part: u64,
}

// A credit with less of its work.
fn shortened(kept: Kept, cut: u128) -> Kept
    requires { cut ≤ kept.part }
    ensures { result ≡ record { place = kept.place; part = kept.part - cut } }
{
    Kept {
        place: kept.place,
        part: kept.part - cut as u64,
    }
}

// Takes work out of the oldest credit and of its account's weight, as much as is there; answers
// what is left to be taken.
fn cut_oldest(kept: &mut VecDeque<Kept>, weights: &mut Weights, excess: u128) -> u128
    requires some { 0 < length kept.old.items }
    requires wanted { 0 < excess }
    requires weighed { IsCreditWindow kept.old.items weights.old.numbers }
    requires enough { excess ≤ weights_sum weights.old.numbers }
    ensures kept { without_oldest result kept.new.items
        ≡ without_oldest excess kept.old.items }
    ensures weighed { IsCreditWindow kept.new.items weights.new.numbers }
    ensures enough { result ≤ weights_sum weights.new.numbers }
    ensures taken { weights_sum weights.new.numbers + excess
        ≡ weights_sum weights.old.numbers + result }
    ensures less { result < excess }
    ensures shorter { deque_len kept.new ≤ deque_len kept.old }
    ensures room { deque_capacity kept.new ≡ deque_capacity kept.old }
    ensures length { length weights.new.numbers ≡ length weights.old.numbers }
{
    let oldest = kept[0];
    let part = u128::from(oldest.part);
    if part <= excess {
        let _oldest = kept.pop_front();
        weights.take(oldest.place, part);
        return excess - part;
    }
    kept[0] = shortened(oldest, excess);
    weights.take(oldest.place, excess);
    0
}

/// Takes so much work out of the oldest credits, and of their accounts' weights.
pub(crate) fn drop_oldest(kept: &mut VecDeque<Kept>, weights: &mut Weights, excess: u128)
    requires weighed { IsCreditWindow kept.old.items weights.old.numbers }
    requires enough { excess ≤ weights_sum weights.old.numbers }
    ensures kept { kept.new.items ≡ without_oldest excess kept.old.items }
    ensures weighed { IsCreditWindow kept.new.items weights.new.numbers }
    ensures taken { weights_sum weights.new.numbers + excess ≡ weights_sum weights.old.numbers }
    ensures shorter { deque_len kept.new ≤ deque_len kept.old }
    ensures room { deque_capacity kept.new ≡ deque_capacity kept.old }
    ensures length { length weights.new.numbers ≡ length weights.old.numbers }
{
    let mut left = excess;
    while left > 0 && !kept.is_empty() {
        left = cut_oldest(kept, weights, left);
    }
}

/// Takes a credit into the window, and as much work out of the oldest as the window is
/// exceeded by; answers the work that is in it.
pub(crate) fn enter(
    kept: &mut VecDeque<Kept>,
    weights: &mut Weights,
    sum: u128,
    credit: Kept,
    window: u64,
) -> u128
    requires weighed { IsCreditWindow kept.old.items weights.old.numbers }
    requires known { IsKeptCredit (length weights.old.numbers) credit }
    requires room { deque_len kept.old < deque_capacity kept.old }
    requires list_room { 1 ≤ weights.old.list_room }
    requires summed { sum ≡ weights_sum weights.old.numbers }
    requires within { sum ≤ window }
    ensures kept { kept.new.items ≡ without_oldest
        (weights_sum weights.old.numbers + credit.part - window) (kept.old.items ++ credit ∷ []) }
    ensures weighed { IsCreditWindow kept.new.items weights.new.numbers }
    ensures most { AreAtMost weights.new.numbers
        (added weights.old.numbers credit.place credit.part) }
    ensures summed { result ≡ weights_sum weights.new.numbers }
    ensures within { result ≤ window }
    ensures grown { result ≤ sum + credit.part }
    ensures some { 1 ≤ window → 1 ≤ result }
    ensures length { length weights.new.numbers ≡ length weights.old.numbers }
{
    weights.add(credit.place, credit.part);
    kept.push_back_reserved(credit);
    let grown = sum + u128::from(credit.part);
    let window = u128::from(window);
    if grown <= window {
        return grown;
    }
    drop_oldest(kept, weights, grown - window);
    window
}
