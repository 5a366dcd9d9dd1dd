//! The tally of credits: worked settlements.

ghost use Rattle.std.specs.Prelude.{◌+◌, ◌<◌, ◌≤◌, ◌^◌, IsTrue, length};

use crate::reading::{refuse, tell_lines, text};
use payouts::{Rule, Settlement, Tally, quotient, write_summary};
use std::alloc::Global;
use std::fmt::Display;
use trial_cases::{Found, Subject, word};

/// A tally.
#[derive(Drop)]
pub(crate) struct Tallies {
    tally: Tally,
}

impl Subject for Tallies {
    fn begin(alloc: Global) -> Option<Tallies> {
        match Tally::new(alloc, Rule::Proportional) {
            Ok(tally) => Some(Tallies { tally }),
            Err(_) => None,
        }
    }

    fn act(&mut self, found: &mut Found, words: &str) {
        match word(words, 0) {
            "window" => self.begin_window(found, words),
            "push" => self.push(found, words),
            "settle" => self.settle(found, words),
            "block" => self.block(found, words),
            "account" => self.tell_account(found, words),
            "totals" => {
                tell_named(found, "pool ", &self.tally.pool());
                tell_named(found, " blocks ", &self.tally.blocks());
            }
            "summary" => self.tell_summary(found, words),
            "quotient" => tell_quotient(found, words),
            _ => refuse(found),
        }
    }
}

impl Tallies {
    /// Begins anew, with a window of so many units of work.
    fn begin_window(&mut self, found: &mut Found, words: &str) {
        let window = found.number(word(words, 1));
        if window == 0 {
            return refuse(found);
        }
        match Tally::new(found.alloc(), Rule::Pplns(window)) {
            Ok(tally) => {
                self.tally = tally;
                found.say("begun");
            }
            Err(_) => found.done(false),
        }
    }

    fn push(&mut self, found: &mut Found, words: &str) {
        let (account, work) = (text(words, 1), found.number(word(words, 2)));
        if !may_push(&self.tally, account, work) {
            return refuse(found);
        }
        found.done(self.tally.push(account, work).is_ok());
        found.say("pushed");
    }

    fn settle(&mut self, found: &mut Found, words: &str) {
        let reward = found.number(word(words, 1));
        let fee = found.short_number(word(words, 2));
        if reward >= 1 << 40 || fee > 10_000 || !self.tally.is_unsettled() {
            return refuse(found);
        }
        match self.tally.settle(reward, fee as u16) {
            Ok(settled) => tell_settled(found, &settled),
            Err(_) => found.done(false),
        }
    }

    /// A push that is a block, by a plan.
    fn block(&mut self, found: &mut Found, words: &str) {
        let (account, work) = (text(words, 1), found.number(word(words, 2)));
        let reward = found.number(word(words, 3));
        let fee = found.short_number(word(words, 4));
        if !may_push(&self.tally, account, work) || reward >= 1 << 40 || fee > 10_000 {
            return refuse(found);
        }
        match self.tally.plan(account, work, Some((reward, fee as u16))) {
            Ok(plan) => match self.tally.apply(plan) {
                Some(settled) => tell_settled(found, &settled),
                None => found.say("none"),
            },
            Err(_) => found.done(false),
        }
    }

    fn tell_account(&self, found: &mut Found, words: &str) {
        let place = found.short_number(word(words, 1)) as usize;
        if place >= self.tally.len() {
            return found.say("none");
        }
        let sums = self.tally.account(place);
        found.say(sums.account);
        tell_named(found, " work ", &sums.work);
        tell_named(found, " balance ", &sums.balance);
    }

    /// The summary of so many sessions and events, with its lines in one.
    fn tell_summary(&self, found: &mut Found, words: &str) {
        let sessions = found.short_number(word(words, 1));
        let events = found.number(word(words, 2));
        let mut lines = Vec::new(found.alloc());
        found.done(write_summary(sessions, events, &self.tally, &mut lines).is_ok());
        tell_lines(found, &lines, "[", "]");
    }
}

/// Whether a tally takes a push.
fn may_push(tally: &Tally, account: &str, work: u64) -> bool
    ensures { IsTrue result → (length account.now ≤ 255) × (1 ≤ work) × (work ≤ 2 ^ 60)
        × (tally.now.pushes + 1 < 2 ^ 24) }
{
    account.len() <= 255 && work >= 1 && work <= 1 << 60 && tally.pushes() < 16_777_214
}

fn tell_named(found: &mut Found, name: &str, value: &impl Display) {
    found.say(name);
    found.tell(value);
}

fn tell_settled(found: &mut Found, settled: &Settlement) {
    tell_named(found, "fee ", &settled.fee);
    tell_named(found, " pool ", &settled.pool);
    for paid in settled.payouts.items() {
        tell_named(found, " ", &paid.account.text());
        tell_named(found, " ", &paid.weight);
        tell_named(found, " ", &paid.amount);
    }
}

/// A part of a payout.
fn tell_quotient(found: &mut Found, words: &str) {
    let paid_out = found.number(word(words, 1));
    let weight: u128 = word(words, 2).parse().unwrap_or(0);
    let all: u128 = word(words, 3).parse().unwrap_or(0);
    if paid_out >= 1 << 40 || all == 0 || all >= 1 << 84 || weight > all {
        return refuse(found);
    }
    found.tell(&quotient(paid_out, weight, all));
}
