//! The nodes of the tree of leads.

ghost use Rattle.std.specs.Prelude.{◌≡◌, ℕ, suc, ◌+◌, ◌-◌, ◌<◌, ◌≤◌, ◌||◌, MatchOption, IfSome, cond, false, true, nat_eq, not, get_or};
ghost use Rattle.prefix_space.specs.Rows.{all_bytes, any_byte};
ghost use Rattle.prefix_space.specs.Trees.{bit};
ghost use Rattle.prefix_space.specs.Climbs.{IsEmptyNode, IsMarked, TellsMarks};

use crate::rows::{Row, Steps};
use std::sync::ledger::Ledger;

/// A row for each length that a lead may have: where the leads of so many bytes are all taken that
/// begin with the node's prefix and a byte, the byte's bit is set. The rows of the lengths up to
/// that of the prefix stay empty.
#[derive(Clone, Copy)]
pub(crate) struct Node {
    rows: [Row; 4],
}

impl Node {
    pub(crate) fn empty() -> Node
        ensures { IsEmptyNode result }
    {
        Node {
            rows: [Row::empty(), Row::empty(), Row::empty(), Row::empty()],
        }
    }

    /// The lowest byte behind which a lead of so many bytes is free.
    pub(crate) fn first_zero<L: Ledger>(&self, len: u8, steps: &mut Steps<L>) -> Option<u8>
        requires some { 1 ≤ len }
        requires most { len ≤ 4 }
        ensures value { MatchOption result (all_bytes (bit self.now (len - 1)) ≡ true) (λ zero.
            (bit self.now (len - 1) zero ≡ false)
            × ((byte : ℕ) → byte < zero → bit self.now (len - 1) byte ≡ true)) }
        ensures within { IfSome result (λ zero. zero < 256) }
        ensures cost { steps.new ≤ steps.old + 4 }
    {
        self.rows[usize::from(len - 1)].first_zero(steps)
    }

    /// Whether a longer lead is held behind a prefix of so many bytes. The root stays without one.
    pub(crate) fn stays<L: Ledger>(&self, level: u8, steps: &mut Steps<L>) -> bool
        requires { level < 4 }
        ensures { result ≡ nat_eq level 0 || any_byte (bit self.now level) }
    {
        level == 0 || !self.rows[usize::from(level)].is_empty(steps)
    }

    /// With the byte's bit in each row as marked.
    pub(crate) fn marked(&self, byte: u8, marks: [bool; 4]) -> Node
        ensures { IsMarked self.now byte marks result }
    {
        let [mut one, mut two, mut three, mut four] = self.rows;
        one.mark(byte, marks[0]);
        two.mark(byte, marks[1]);
        three.mark(byte, marks[2]);
        four.mark(byte, marks[3]);
        Node {
            rows: [one, two, three, four],
        }
    }

    /// What the node tells of its prefix of so many bytes.
    pub(crate) fn marks<L: Ledger>(&self, level: u8, steps: &mut Steps<L>) -> [bool; 4]
        ensures { TellsMarks self.now level result }
    {
        [
            level == 1 || self.rows[0].is_full(steps),
            level == 2 || self.rows[1].is_full(steps),
            level == 3 || self.rows[2].is_full(steps),
            level == 4 || self.rows[3].is_full(steps),
        ]
    }
}
