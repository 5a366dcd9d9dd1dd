//! The leads that are held.

ghost use Rattle.std.specs.Prelude.{◌≤◌};

use crate::reading::{refuse, tell_truth};
use pool_history::Lead;
use prefix_space::Space;
use std::alloc::Global;
use trial_cases::{Found, Subject, word};

/// Held leads.
#[derive(Drop)]
pub(crate) struct Leads {
    space: Space,
}

impl Subject for Leads {
    fn begin(alloc: Global) -> Option<Leads> {
        match Space::new(alloc) {
            Ok(space) => Some(Leads { space }),
            Err(_) => None,
        }
    }

    fn act(&mut self, found: &mut Found, words: &str) {
        match word(words, 0) {
            "take" => {
                let length = length(found, words);
                take(found, &mut self.space, length);
            }
            "fill" => {
                let length = length(found, words);
                let count = found.number(word(words, 2));
                fill(found, &mut self.space, length, count);
            }
            "lowest" => {
                let length = length(found, words);
                tell_lowest(found, &self.space, length);
            }
            "give" => give(found, &mut self.space, words),
            "holds" => tell_holding(found, &self.space, words),
            "reserve" => {
                found.done(self.space.reserve().is_ok());
                found.say("reserved");
            }
            _ => refuse(found),
        }
    }
}

/// How many bytes a lead is to have: 1 to 4.
fn length(found: &mut Found, words: &str) -> u8
    ensures { (1 ≤ result) × (result ≤ 4) }
{
    match found.number(word(words, 1)) {
        1 => 1,
        2 => 2,
        3 => 3,
        _ => 4,
    }
}

/// The lead that a word spells.
fn lead_in(found: &mut Found, words: &str) -> Option<Lead> {
    let bytes = found.bytes_of(word(words, 1));
    match bytes.as_slice() {
        [a] => Some(Lead::of(1, [*a, 0, 0, 0])),
        [a, b] => Some(Lead::of(2, [*a, *b, 0, 0])),
        [a, b, c] => Some(Lead::of(3, [*a, *b, *c, 0])),
        [a, b, c, d] => Some(Lead::of(4, [*a, *b, *c, *d])),
        _ => None,
    }
}

fn take(found: &mut Found, space: &mut Space, length: u8)
    requires { (1 ≤ length) × (length ≤ 4) }
{
    match space.take(length) {
        Ok(lead) => found.hex(lead.bytes()),
        Err(error) => found.tell(&error),
    }
}

/// Takes so many leads, and tells the last one.
fn fill(found: &mut Found, space: &mut Space, length: u8, count: u64)
    requires { (1 ≤ length) × (length ≤ 4) }
{
    found.say("none");
    for _ in 0..count {
        found.clear();
        take(found, space, length);
    }
}

fn tell_lowest(found: &mut Found, space: &Space, length: u8)
    requires { (1 ≤ length) × (length ≤ 4) }
{
    match space.lowest(length) {
        Some(lead) => found.hex(lead.bytes()),
        None => found.say("none"),
    }
}

fn tell_holding(found: &mut Found, space: &Space, words: &str) {
    match lead_in(found, words) {
        Some(lead) => tell_truth(found, space.holds(lead)),
        None => refuse(found),
    }
}

/// Gives a lead back that is held.
fn give(found: &mut Found, space: &mut Space, words: &str) {
    match lead_in(found, words) {
        Some(lead) if space.holds(lead) => {
            space.give(lead);
            found.say("given");
        }
        _ => refuse(found),
    }
}
