//! The settlement of a block.

ghost use Rattle.std.specs.Prelude.{◌≡◌, ◌+◌, ◌*◌, ◌<◌, ◌≤◌, ◌^◌, ◌/◌, [], ◌∷◌, ◌++◌, length, map, sum_by, IfOk};
ghost use Rattle.std.specs.List.{AllByRecursion};
ghost use Rattle.std.specs.String.{string_bytes};
ghost use Rattle.std.specs.Vec.{vec_len, vec_capacity};
ghost use Rattle.payouts.specs.Settlements.{payments_by};
ghost use Rattle.payouts.specs.Sheets.{AreListed, balances_with, listed_at, listed_weights, payments_to};
ghost use Rattle.payouts.specs.Window.{weights_sum};

use crate::accounts::text_at;
use crate::quotients::quotient;
use crate::sums::add_amount;
use std::alloc::{AllocError, Global};
use std::marker::Model;
use sv2_types::Str255;

/// What an account is paid for a block.
#[derive(Drop)]
pub struct Payout {
    pub account: Str255,
    /// What the account's credits count in the block.
    pub weight: u128,
    /// In satoshis.
    pub amount: u64,
}

impl Model for Payout {
    ghost use Rattle.pool_history.specs.Settling.{Payment};

    ghost Value = { Payment };

    ghost view = { λ payout. record {
      account = payout.account;
      weight = payout.weight;
      amount = payout.amount;
    } };
}

/// The payouts of a block, in the order of the accounts' first push.
#[derive(Drop)]
pub struct Payouts {
    items: Vec<Payout>,
}

impl Model for Payouts {
    ghost use Rattle.std.specs.Prelude.{List};
    ghost use Rattle.pool_history.specs.Settling.{Payment};

    ghost Value = { List Payment };

    ghost view = { λ payouts. payouts.items.items };
}

impl Payouts {
    /// The payouts themselves, which takes no memory.
    pub fn from_vec(items: Vec<Payout>) -> Payouts
        ensures { result ≡ items.items }
    {
        Payouts { items }
    }

    /// The payouts, borrowed.
    pub fn items(&self) -> &[Payout]
        ensures { result.now ≡ self.now }
    {
        self.items.as_slice()
    }

    /// The payouts, given back.
    pub fn into_vec(self) -> Vec<Payout>
        ensures { result.items ≡ self }
    {
        self.items
    }
}

/// How a block is settled: its reward is the payouts and what stays with the pool.
#[derive(Drop)]
pub struct Settlement {
    /// The pool's fee, which is a part of what stays with it.
    pub fee: u64,
    pub pool: u64,
    pub payouts: Payouts,
}

impl Model for Settlement {
    ghost use Rattle.pool_history.specs.Settling.{Settled};

    ghost Value = { Settled };

    ghost view = { λ settlement. record {
      fee = settlement.fee;
      payments = settlement.payouts;
      pool = settlement.pool;
    } };
}

/// An account that a block may pay, and its place.
#[derive(Drop)]
pub(crate) struct Listed {
    place: usize,
    account: Str255,
}

/// The accounts that a block may pay, with room for a payout to each.
#[derive(Drop)]
pub(crate) struct Sheet {
    listed: Vec<Listed>,
    payouts: Vec<Payout>,
}

impl Model for Sheet {
    ghost use Rattle.std.specs.Prelude.{◌≡◌, ◌≤◌, List, []};
    ghost use Rattle.std.specs.Vec.{vec_len, vec_capacity};
    ghost use Rattle.payouts.specs.declared.settlement.Listed.{Listed};

    ghost Value = { List Listed };

    ghost view = { λ sheet. sheet.listed.items };

    ghost invariant = { λ sheet. (sheet.payouts.items ≡ [])
        × (vec_len sheet.listed ≤ vec_capacity sheet.payouts) };
}

impl Sheet {
    /// A sheet of the accounts at these places; behind all places stands a newcomer.
    pub(crate) fn of(
        alloc: Global,
        names: &[String],
        newcomer: &str,
        places: &[usize],
    ) -> Result<Sheet, AllocError>
        requires short { AllByRecursion (λ account. length account ≤ 255)
            (map string_bytes names.now) }
        requires newcomer { length newcomer.now ≤ 255 }
        ensures { IfOk result (λ sheet. sheet
            ≡ map (listed_at (map string_bytes names.now) newcomer.now) places.now) }
    {
        let mut listed = Vec::with_capacity(alloc, places.len())?;
        for place in places {
            let account = Str255::of(alloc, text_at(names, newcomer, *place))?;
            listed.push(Listed {
                place: *place,
                account,
            })?;
        }
        let payouts = Vec::with_capacity(alloc, places.len())?;
        Ok(Sheet { listed, payouts })
    }
}

/// The payouts of a block, with their sum.
#[derive(Drop)]
pub(crate) struct Paid {
    pub(crate) payouts: Vec<Payout>,
    pub(crate) sum: u64,
}

// Pays an account, if it has a weight; answers the amount.
fn pay_account(
    payouts: &mut Vec<Payout>,
    account: Str255,
    weight: u128,
    all: u128,
    paid_out: u64,
) -> u64
    requires amount { paid_out < 2 ^ 40 }
    requires some { 1 ≤ all }
    requires small { all < 2 ^ 84 }
    requires part { weight ≤ all }
    requires room { vec_len payouts.old < vec_capacity payouts.old }
    ensures paid { payouts.new.items ≡ payouts.old.items
        ++ payments_by paid_out all (account ∷ []) (weight ∷ []) }
    ensures amount { result ≡ paid_out * weight / all }
    ensures within { result * all ≤ paid_out * weight }
    ensures grown { vec_len payouts.new ≤ vec_len payouts.old + 1 }
    ensures capacity { vec_capacity payouts.new ≡ vec_capacity payouts.old }
{
    if weight == 0 {
        return 0;
    }
    let amount = quotient(paid_out, weight, all);
    payouts.push_reserved(Payout {
        account,
        weight,
        amount,
    });
    amount
}

/// Pays the listed accounts by their weights, which goes over no others, and adds it to their
/// balances.
pub(crate) fn pay(
    sheet: Sheet,
    weights: &[u128],
    balances: &mut Vec<u64>,
    all: u128,
    paid_out: u64,
) -> Paid
    requires amount { paid_out < 2 ^ 40 }
    requires some { 1 ≤ all }
    requires small { all < 2 ^ 84 }
    requires summed { listed_weights weights.now sheet ≤ all }
    requires listed { AreListed (length weights.now) sheet }
    requires length { length balances.old.items ≡ length weights.now }
    requires balances_small { weights_sum balances.old.items + paid_out < 2 ^ 64 }
    ensures paid { result.payouts.items ≡ payments_to paid_out all weights.now sheet }
    ensures sum { result.sum ≡ sum_by (λ payout. payout.amount) result.payouts.items }
    ensures within { result.sum ≤ paid_out }
    ensures balances { balances.new.items
        ≡ balances_with paid_out all weights.now sheet balances.old.items }
    ensures balances_sum { weights_sum balances.new.items
        ≡ weights_sum balances.old.items + result.sum }
    ensures balances_length { vec_len balances.new ≡ vec_len balances.old }
{
    let Sheet {
        listed,
        mut payouts,
    } = sheet;
    let mut sum = 0;
    for Listed { place, account } in listed {
        let amount = pay_account(&mut payouts, account, weights[place], all, paid_out);
        add_amount(balances, place, amount);
        sum += amount;
    }
    Paid { payouts, sum }
}
