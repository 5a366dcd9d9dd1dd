//! The tally of pushes.

ghost use Rattle.std.specs.Prelude.{◌≡◌, ℕ, ◌+◌, ◌<◌, ◌≤◌, ◌^◌, [], ◌∷◌, ◌++◌, if◌then◌else◌, length, map, sum_by, IsTrue, IfOk, OnOk, OnErr, slice_index, slice_index_or};
ghost use Rattle.std.specs.List.{AllByRecursion};
ghost use Rattle.std.specs.String.{string_bytes};
ghost use Rattle.std.specs.VecDeque.{deque_len, deque_capacity};
ghost use Rattle.pool_history.specs.Accounts.{is_window};
ghost use Rattle.payouts.specs.Settlements.{EndsRound, SettlesBlock, settled_by, weights_behind};
ghost use Rattle.payouts.specs.Plans.{Applies, Fits, IsPayable, IsPlanOf, IsRewarded};
ghost use Rattle.payouts.specs.Tallies.{AddsCredit, DiffersInRoom, account_place, IsPushed, KeepsCredits, Remembers, RemembersPush, weights_in, window_of};
ghost use Rattle.payouts.specs.Sheets.{ListsWeighed, listed_at};
ghost use Rattle.payouts.specs.Totals.{HasSums, PaysBlock, PaysPlan, SumsBlock, SumsPlan, SumsPush};
ghost use Rattle.payouts.specs.Weights.{AreAtMost, IsRisingFrom, with_place};
ghost use Rattle.payouts.specs.Window.{IsKeptCredit, added, weights_sum};

use crate::accounts::{place_for, place_of};
use crate::places::insert_place;
use crate::settlement::{Payouts, Settlement, Sheet, pay};
use crate::sums::{Sums, add_work};
use crate::weights::Weights;
use crate::window::{Kept, enter};
use indexmap::IndexSet;
use payout_laws::fee_of;
use std::alloc::{AllocError, Global};
use std::collections::VecDeque;
use std::marker::Model;
use sv2_types::Str255;

/// How the credits up to a block are weighed.
#[derive(Clone, Copy)]
pub enum Rule {
    /// By their work since the block before.
    Proportional,
    /// By their work in a window of so much work, which ends with the block's own credit.
    Pplns(u64),
}

/// What the pushes of credits come to. It keeps no credit that counts nothing for a later block.
#[derive(Drop)]
pub struct Tally {
    alloc: Global,
    rule: Rule,
    names: IndexSet<String>,
    weights: Weights,
    sums: Sums,
    kept: VecDeque<Kept>,
    sum: u128,
    pushes: u32,
    // A push came since the last settlement.
    unsettled: bool,
}

impl Model for Tally {
    ghost use Rattle.std.specs.Prelude.{map, min, length, ◌-◌};
    ghost use Rattle.std.specs.String.{string_bytes};
    ghost use Rattle.std.specs.VecDeque.{deque_len, deque_capacity};
    ghost use Rattle.indexmap.specs.IndexSet.{spare};
    ghost use Rattle.payouts.specs.Sums.{AreSums, rows_left};
    ghost use Rattle.payouts.specs.Tallies.{IsTallied, Weighing, round_works_by, window_of};

    ghost Value = { Weighing };

    ghost view = { λ tally. record {
      window = window_of tally.rule;
      accounts = map string_bytes tally.names.keys;
      round_works = round_works_by (window_of tally.rule) tally.weights.numbers;
      kept = tally.kept.items;
      works = tally.sums.works.items;
      balances = tally.sums.balances.items;
      pool = tally.sums.pool;
      blocks = tally.sums.blocks;
      pushes = tally.pushes;
      unsettled = tally.unsettled;
      room = min (min (spare tally.names) (min tally.weights.room tally.weights.list_room))
          (min (rows_left tally.sums) (deque_capacity tally.kept - deque_len tally.kept));
    } };

    ghost invariant = { λ tally. record {
      weighed : IsTallied (window_of tally.rule) (map string_bytes tally.names.keys)
          tally.weights.numbers tally.kept.items tally.sum tally.pushes tally.unsettled;
      summed : AreSums (length tally.weights.numbers) tally.sums.works.items
          tally.sums.balances.items tally.sums.pool tally.sums.blocks tally.pushes
          tally.unsettled;
    } };
}

/// What an account has worked, and its balance in satoshis.
#[derive(Clone, Copy)]
pub struct AccountSums<'a> {
    pub account: &'a str,
    pub work: u128,
    pub balance: u64,
}

/// A push that was planned, and the settlement after it, with their memory.
#[derive(Drop)]
pub struct TallyPlan {
    account: String,
    work: u64,
    block: Option<PlannedBlock>,
}

impl Model for TallyPlan {
    ghost use Rattle.std.specs.Prelude.{◌≤◌, ◌^◌, length};
    ghost use Rattle.std.specs.Option.{option_map};
    ghost use Rattle.std.specs.String.{string_bytes};
    ghost use Rattle.payouts.specs.Plans.{IsPlan, Planning};

    ghost Value = { Planning };

    ghost view = { λ plan. record {
      account = string_bytes plan.account;
      work = plan.work;
      block = option_map (λ block. record {
        reward = block.reward;
        fee = block.fee;
        listed = block.sheet;
      }) plan.block;
    } };

    ghost invariant = { λ plan. IsPlan (string_bytes plan.account) plan.work };
}

// A block that is to be settled, with the accounts that it may pay.
#[derive(Drop)]
struct PlannedBlock {
    reward: u64,
    fee: u16,
    sheet: Sheet,
    ghost payable: { IsRewarded reward fee },
}

impl Tally {
    /// A tally without pushes.
    pub fn new(alloc: Global, rule: Rule) -> Result<Tally, AllocError>
        requires window { IsTrue (is_window (window_of rule)) }
        ensures window { IfOk result (λ tally. tally.window ≡ window_of rule) }
        ensures told { IfOk result (λ tally. Remembers tally []) }
        ensures summed { IfOk result (λ tally. (basis_points : ℕ) → HasSums tally basis_points []) }
    {
        Ok(Tally {
            alloc,
            rule,
            names: IndexSet::new(alloc),
            weights: Weights::new(alloc),
            sums: Sums::new(alloc),
            kept: VecDeque::new(alloc),
            sum: 0,
            pushes: 0,
            unsettled: false,
        })
    }

    /// How many pushes there were.
    pub fn pushes(&self) -> u32
        ensures { result ≡ self.now.pushes }
    {
        self.pushes
    }

    /// Whether a push came since the last settlement.
    pub fn is_unsettled(&self) -> bool
        ensures { result ≡ self.now.unsettled }
    {
        self.unsettled
    }

    /// How many blocks were settled.
    pub fn blocks(&self) -> u32
        ensures { result ≡ self.now.blocks }
    {
        self.sums.blocks
    }

    /// What stayed with the pool of all blocks, in satoshis.
    pub fn pool(&self) -> u64
        ensures { result ≡ self.now.pool }
    {
        self.sums.pool
    }

    /// How many accounts there are.
    pub fn len(&self) -> usize
        ensures { result ≡ length self.now.accounts }
    {
        self.names.len()
    }

    /// The account at a place, in the order of the first push, with its work and its balance.
    pub fn account(&self, place: usize) -> AccountSums<'_>
        requires { place < length self.now.accounts }
        ensures account { result.account.now ≡ slice_index_or self.now.accounts place [] }
        ensures work { result.work ≡ slice_index self.now.works place }
        ensures balance { result.balance ≡ slice_index self.now.balances place }
    {
        AccountSums {
            account: self.names.as_slice()[place].as_str(),
            work: self.sums.works[place],
            balance: self.sums.balances[place],
        }
    }

    /// Takes in a credit's account and work.
    pub fn push(&mut self, account: &str, work: u64) -> Result<(), AllocError>
        requires short { length account.now ≤ 255 }
        requires some { 1 ≤ work }
        requires small { work ≤ 2 ^ 60 }
        requires few { self.old.pushes + 1 < 2 ^ 24 }
        ensures told { OnOk result (RemembersPush self.old self.new account.now work) }
        ensures summed { OnOk result (SumsPush self.old self.new account.now work) }
        ensures window { OnOk result (self.new.window ≡ self.old.window) }
        ensures err { OnErr result (DiffersInRoom self.old self.new) }
    {
        self.make_room()?;
        let account = String::from_str(self.alloc, account)?;
        self.take_in(account, work);
        Ok(())
    }

    /// Settles a block, which is the last credit that was pushed.
    pub fn settle(&mut self, reward: u64, fee: u16) -> Result<Settlement, AllocError>
        requires reward { reward < 2 ^ 40 }
        requires fee { fee ≤ 10000 }
        requires unsettled { IsTrue self.old.unsettled }
        ensures settled { IfOk result (SettlesBlock self.old self.new reward fee) }
        ensures summed { OnOk result (SumsBlock self.old self.new reward fee) }
        ensures pays { IfOk result (PaysBlock self.old self.new reward fee) }
        ensures window { OnOk result (self.new.window ≡ self.old.window) }
        ensures whole { IfOk result (λ settled.
            sum_by (λ paid. paid.amount) settled.payments + settled.pool ≡ reward) }
        ensures err { OnErr result (self.new ≡ self.old) }
    {
        let places = self.weights.sorted_places(self.alloc)?;
        let sheet = Sheet::of(self.alloc, self.names.as_slice(), "", places.as_slice())?;
        Ok(self.close(sheet, reward, fee))
    }

    /// Plans a push and, where it is a block with a reward and a fee, the settlement after it. It
    /// takes the memory of both.
    pub fn plan(
        &mut self,
        account: &str,
        work: u64,
        block: Option<(u64, u16)>,
    ) -> Result<TallyPlan, AllocError>
        requires short { length account.now ≤ 255 }
        requires some { 1 ≤ work }
        requires small { work ≤ 2 ^ 60 }
        requires few { self.old.pushes + 1 < 2 ^ 24 }
        requires block { IsPayable block }
        ensures same { DiffersInRoom self.old self.new }
        ensures asked { IfOk result (IsPlanOf account.now work block) }
        ensures fits { IfOk result (Fits self.new) }
    {
        self.make_room()?;
        let text = String::from_str(self.alloc, account)?;
        let block = match block {
            None => None,
            Some((reward, fee)) => {
                let places = self.weights.sorted_places(self.alloc)?;
                let sheet = sheet_with(self.alloc, &self.names, places, account)?;
                Some(PlannedBlock { reward, fee, sheet })
            }
        };
        Ok(TallyPlan {
            account: text,
            work,
            block,
        })
    }

    /// Does what was planned. It takes no memory.
    pub fn apply(&mut self, plan: TallyPlan) -> Option<Settlement>
        requires fits { Fits self.old plan }
        ensures applied { Applies self.old self.new plan.account plan.work plan.block result }
        ensures summed { SumsPlan self.old self.new plan.account plan.work plan.block }
        ensures pays { PaysPlan self.old self.new plan.account plan.work plan.block result }
        ensures window { self.new.window ≡ self.old.window }
    {
        let TallyPlan {
            account,
            work,
            block,
        } = plan;
        self.take_in(account, work);
        match block {
            None => None,
            Some(block) => Some(self.close(block.sheet, block.reward, block.fee)),
        }
    }

    // Room for a push.
    fn make_room(&mut self) -> Result<(), AllocError>
        ensures same { DiffersInRoom self.old self.new }
        ensures room { OnOk result (1 ≤ self.new.room) }
    {
        self.names.reserve(1)?;
        self.weights.reserve()?;
        self.sums.reserve()?;
        self.kept.reserve(1)
    }

    // Settles a block with the sheet of all accounts.
    fn close(&mut self, sheet: Sheet, reward: u64, basis_points: u16) -> Settlement
        requires reward { reward < 2 ^ 40 }
        requires fee { basis_points ≤ 10000 }
        requires unsettled { IsTrue self.old.unsettled }
        requires accounts { ListsWeighed self.old.accounts (weights_in self.old) sheet }
        ensures some { 1 ≤ weights_sum (weights_in self.old) }
        ensures settled { result ≡ settled_by self.old reward basis_points }
        ensures ends { EndsRound self.old self.new }
        ensures pays { PaysBlock self.old self.new reward basis_points result }
        ensures whole { sum_by (λ paid. paid.amount) result.payments + result.pool ≡ reward }
    {
        let fee = fee_of(reward, basis_points);
        let paid = pay(
            sheet,
            self.weights.numbers(),
            &mut self.sums.balances,
            self.sum,
            reward - fee,
        );
        let pool = reward - paid.sum;
        self.sums.pool += pool;
        self.sums.blocks += 1;
        self.sum = end_round(self.rule, &mut self.weights, self.sum);
        self.unsettled = false;
        Settlement {
            fee,
            pool,
            payouts: Payouts::from_vec(paid.payouts),
        }
    }

    // Takes in a push, for which there is room.
    fn take_in(&mut self, account: String, work: u64)
        requires short { length (string_bytes account) ≤ 255 }
        requires some { 1 ≤ work }
        requires small { work ≤ 2 ^ 60 }
        requires few { self.old.pushes + 1 < 2 ^ 24 }
        requires room { 1 ≤ self.old.room }
        ensures pushed { IsPushed self.old self.new (string_bytes account) work }
    {
        let place = place_for(&mut self.names, &mut self.weights, &mut self.sums, account);
        add_work(&mut self.sums.works, place, work);
        let credit = Kept { place, part: work };
        self.sum = weigh(
            self.rule,
            &mut self.kept,
            &mut self.weights,
            self.sum,
            credit,
        );
        self.pushes += 1;
        self.unsettled = true;
    }
}

// Weighs a credit, for which there is room, by the rule; answers the sum of all weights.
fn weigh(
    rule: Rule,
    kept: &mut VecDeque<Kept>,
    weights: &mut Weights,
    sum: u128,
    credit: Kept,
) -> u128
    requires keeps { KeepsCredits (window_of rule) kept.old.items weights.old.numbers }
    requires known { IsKeptCredit (length weights.old.numbers) credit }
    requires room { deque_len kept.old < deque_capacity kept.old }
    requires list_room { 1 ≤ weights.old.list_room }
    requires summed { sum ≡ weights_sum weights.old.numbers }
    requires small { sum + credit.part < 2 ^ 128 }
    ensures adds { AddsCredit (window_of rule) kept.old.items weights.old.numbers credit
        kept.new.items weights.new.numbers }
    ensures keeps { KeepsCredits (window_of rule) kept.new.items weights.new.numbers }
    ensures most { AreAtMost weights.new.numbers
        (added weights.old.numbers credit.place credit.part) }
    ensures summed { result ≡ weights_sum weights.new.numbers }
    ensures grown { result ≤ sum + credit.part }
    ensures some { 1 ≤ result }
    ensures length { length weights.new.numbers ≡ length weights.old.numbers }
{
    match rule {
        Rule::Proportional => {
            weights.add(credit.place, credit.part);
            sum + u128::from(credit.part)
        }
        Rule::Pplns(window) => enter(kept, weights, sum, credit, window),
    }
}

// What a block leaves of the weights; answers their sum.
fn end_round(rule: Rule, weights: &mut Weights, sum: u128) -> u128
    requires summed { sum ≡ weights_sum weights.old.numbers }
    ensures weights { weights.new.numbers ≡ weights_behind (window_of rule) weights.old.numbers }
    ensures summed { result ≡ weights_sum weights.new.numbers }
    ensures within { result ≤ sum }
{
    match rule {
        Rule::Proportional => {
            weights.clear();
            0
        }
        Rule::Pplns(_) => sum,
    }
}

// The sheet of a block at a push of an account, which may be new.
fn sheet_with(
    alloc: Global,
    names: &IndexSet<String>,
    mut places: Vec<usize>,
    account: &str,
) -> Result<Sheet, AllocError>
    requires rising { IsRisingFrom 0 places.items }
    requires short { AllByRecursion (λ account. length account ≤ 255)
        (map string_bytes names.now.keys) }
    requires fits { length account.now ≤ 255 }
    ensures { IfOk result (λ sheet. sheet
        ≡ map (listed_at (map string_bytes names.now.keys) account.now)
        (with_place (account_place (map string_bytes names.now.keys) account.now)
        places.items)) }
{
    places.reserve(1)?;
    insert_place(&mut places, place_of(names, account));
    Sheet::of(alloc, names.as_slice(), account, places.as_slice())
}
