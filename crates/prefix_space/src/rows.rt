//! Rows of 256 bits, a bit for each byte, and the count of the words that a search reads of them.

ghost use Rattle.std.specs.Prelude.{◌≡◌, ◌≢◌, ℕ, ◌+◌, ◌<◌, ◌≤◌, MatchOption, IfSome, cond, false, true, nat_eq, not, slice_index};
ghost use Rattle.std.specs.Int.{bit_at};
ghost use Rattle.prefix_space.specs.Rows.{all_bytes, any_byte, has_bit};

use std::marker::Model;
use std::sync::ledger::{Blank, Book, Ledger, Share};

/// How many words were read. It takes no bytes.
#[derive(Drop)]
pub struct Steps<L: Ledger> {
    book: Book<L>,
    share: Share<L>,
}

impl<L: Ledger> Model for Steps<L> {
    ghost use Rattle.std.specs.Prelude.{ℕ, ◌<◌};

    ghost Value = { ℕ };

    ghost view = { λ steps. steps.book.total };

    ghost invariant = { λ steps. 0 < steps.share.parts };
}

impl<L: Ledger> Steps<L> {
    /// Nothing was read yet.
    pub fn open(blank: Blank) -> Steps<L>
        requires name { blank.name ≡ L.name }
        requires parts { blank.parts ≡ L.parts }
        requires some { 0 < blank.parts }
        ensures { result ≡ 0 }
    {
        let (book, share) = blank.open::<L>();
        Steps { book, share }
    }

    fn tick(&mut self)
        ensures { self.new ≡ self.old + 1 }
    {
        self.book.add(&mut self.share, 1);
    }
}

/// A bit for each byte.
#[derive(Clone, Copy)]
pub(crate) struct Row {
    words: [u64; 4],
}

impl Row {
    /// No bit is set.
    pub(crate) fn empty() -> Row
        ensures { (byte : ℕ) → byte < 256 → has_bit result byte ≡ false }
    {
        Row { words: [0; 4] }
    }

    /// The only way to the words for who asks: each read counts.
    fn word<L: Ledger>(&self, at: usize, steps: &mut Steps<L>) -> u64
        requires { at < 4 }
        ensures value { result ≡ slice_index self.now.words at }
        ensures cost { steps.new ≡ steps.old + 1 }
    {
        steps.tick();
        self.words[at]
    }

    /// The lowest byte whose bit isn't set.
    pub(crate) fn first_zero<L: Ledger>(&self, steps: &mut Steps<L>) -> Option<u8>
        ensures value { MatchOption result (all_bytes (has_bit self.now) ≡ true) (λ zero.
            (has_bit self.now zero ≡ false)
            × ((byte : ℕ) → byte < zero → has_bit self.now byte ≡ true)) }
        ensures within { IfSome result (λ zero. zero < 256) }
        ensures cost { steps.new ≤ steps.old + 4 }
    {
        for at in 0..4 {
            let word = self.word(at, steps);
            if let Some(bit) = first_clear(word) {
                return Some(at as u8 * 64 + bit);
            }
        }
        None
    }

    pub(crate) fn is_full<L: Ledger>(&self, steps: &mut Steps<L>) -> bool
        ensures { result ≡ all_bytes (has_bit self.now) }
    {
        match self.first_zero(steps) {
            Some(_zero) => false,
            None => true,
        }
    }

    pub(crate) fn is_empty<L: Ledger>(&self, steps: &mut Steps<L>) -> bool
        ensures { result ≡ not (any_byte (has_bit self.now)) }
    {
        for at in 0..4 {
            if self.word(at, steps) != 0 {
                return false;
            }
        }
        true
    }

    pub(crate) fn set(&mut self, byte: u8)
        ensures { (other : ℕ) → other < 256 → has_bit self.new other
            ≡ cond (nat_eq byte other) true (has_bit self.old other) }
    {
        let at = usize::from(byte / 64);
        self.words[at] = with_bit(self.words[at], u32::from(byte % 64));
    }

    pub(crate) fn clear(&mut self, byte: u8)
        ensures { (other : ℕ) → other < 256 → has_bit self.new other
            ≡ cond (nat_eq byte other) false (has_bit self.old other) }
    {
        let at = usize::from(byte / 64);
        self.words[at] = without_bit(self.words[at], u32::from(byte % 64));
    }

    pub(crate) fn mark(&mut self, byte: u8, is_set: bool)
        ensures { (other : ℕ) → other < 256 → has_bit self.new other
            ≡ cond (nat_eq byte other) is_set (has_bit self.old other) }
    {
        if is_set {
            self.set(byte);
        } else {
            self.clear(byte);
        }
    }
}

fn with_bit(word: u64, bit: u32) -> u64
    requires { bit < 64 }
    ensures set { bit_at result bit ≡ 1 }
    ensures others { (other : ℕ) → other ≢ bit → bit_at result other ≡ bit_at word other }
{
    word | (1 << bit)
}

fn without_bit(word: u64, bit: u32) -> u64
    requires { bit < 64 }
    ensures clear { bit_at result bit ≡ 0 }
    ensures others { (other : ℕ) → other < 64 → other ≢ bit → bit_at result other ≡ bit_at word other }
{
    word & !(1 << bit)
}

/// The lowest bit that isn't set.
fn first_clear(word: u64) -> Option<u8>
    ensures value { MatchOption result ((other : ℕ) → other < 64 → bit_at word other ≡ 1) (λ bit.
        (bit_at word bit ≡ 0) × ((other : ℕ) → other < bit → bit_at word other ≡ 1)) }
    ensures within { IfSome result (λ bit. bit < 64) }
{
    if word == u64::MAX {
        None
    } else {
        Some(word.trailing_ones() as u8)
    }
}
