//! The accounts, in the order of their first push.

ghost use Rattle.std.specs.Prelude.{◌≡◌, ◌+◌, ◌<◌, ◌≤◌, map, position, length, slice_index_or};
ghost use Rattle.std.specs.String.{string_bytes};
ghost use Rattle.indexmap.specs.IndexSet.{index_set_len, spare};
ghost use Rattle.pool_history.specs.Settling.{with_account};
ghost use Rattle.payouts.specs.Sums.{HasRow};
ghost use Rattle.payouts.specs.Tallies.{account_place, with_newcomer};

use crate::sums::Sums;
use crate::weights::Weights;
use indexmap::IndexSet;

/// The place of an account, or where it would get one.
pub(crate) fn place_of(names: &IndexSet<String>, account: &str) -> usize
    ensures { result ≡ account_place (map string_bytes names.now.keys) account.now }
{
    match names.get_index_of(account) {
        Some(place) => place,
        None => names.len(),
    }
}

/// The text of the account at a place; behind all places that of a newcomer.
pub(crate) fn text_at<'a>(names: &'a [String], newcomer: &'a str, place: usize) -> &'a str
    ensures { result.now ≡ slice_index_or (map string_bytes names.now) place newcomer.now }
{
    if place < names.len() {
        names[place].as_str()
    } else {
        newcomer
    }
}

/// The place of an account, which gets one behind the others where it is new.
pub(crate) fn place_for(
    names: &mut IndexSet<String>,
    weights: &mut Weights,
    sums: &mut Sums,
    account: String,
) -> usize
    requires same { length names.old.keys ≡ length weights.old.numbers }
    requires room { 0 < spare names.old }
    requires weights_room { 1 ≤ weights.old.room }
    requires sums_room { HasRow sums.old }
    ensures place { result ≡ account_place (map string_bytes names.old.keys)
        (string_bytes account) }
    ensures within { result < length weights.new.numbers }
    ensures names { map string_bytes names.new.keys
        ≡ with_account (string_bytes account) (map string_bytes names.old.keys) }
    ensures weights { weights.new.numbers ≡ with_newcomer (string_bytes account)
        (map string_bytes names.old.keys) weights.old.numbers }
    ensures works { sums.new.works.items ≡ with_newcomer (string_bytes account)
        (map string_bytes names.old.keys) sums.old.works.items }
    ensures balances { sums.new.balances.items ≡ with_newcomer (string_bytes account)
        (map string_bytes names.old.keys) sums.old.balances.items }
    ensures pool { sums.new.pool ≡ sums.old.pool }
    ensures blocks { sums.new.blocks ≡ sums.old.blocks }
    ensures list_room { weights.new.list_room ≡ weights.old.list_room }
    ensures same { length names.new.keys ≡ length weights.new.numbers }
{
    match names.insert_full(account) {
        Ok((place, is_new)) => {
            if is_new {
                weights.push_newcomer();
                sums.push_newcomer();
            }
            place
        }
        Err(_refused) => names.len(),
    }
}
