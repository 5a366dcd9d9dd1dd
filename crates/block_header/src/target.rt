//! Targets, and the classes that stand for them.

ghost use Rattle.std.specs.Prelude.{◌≡◌, ℕ, List, ◌≤◌, ◌↔◌, IsTrue};
ghost use Rattle.block_header.specs.Hash.{Meets};
ghost use Rattle.block_header.specs.Target.{IsU256, IsAtMost, IsClassOf, class_of_number, number, target};

use crate::hash::zero_bits;
use sv2_types::U256;

/// Whether a hash, as a number, is at most a target.
pub fn meets_target(hash: &[u8; 32], target: &U256) -> bool
    ensures { IsTrue result ↔ IsAtMost hash.now target.now }
{
    is_at_most(hash, target.bytes())
}

/// The class of a target: the least class whose hashes are all at most the target. It is 256 for a
/// target of 0.
pub fn class_of_target(t: &U256) -> u16
    ensures least { IsClassOf (number t.now) result }
    ensures value { result ≡ class_of_number (number t.now) }
{
    class_of_bytes(t.bytes())
}

/// The greatest target of a class.
pub fn target_of(class: u8) -> U256
    requires { class ≤ 60 }
    ensures { result ≡ target class }
{
    U256::of(target_bytes(u16::from(class)))
}

/// A hash meets a class exactly where it is at most the class's target.
pub fn meets_class_is_meets_target()
    ensures { (hash : List ℕ) (z : ℕ) → IsU256 hash → z ≤ 256 →
        (Meets hash z ↔ IsAtMost hash (target z)) }
{}

/// The class of a class's target is that class.
pub fn class_of_target_of_class()
    ensures { (z : ℕ) → z ≤ 256 → class_of_number (number (target z)) ≡ z }
{}

// Whether the first is displayed no later than the second.
fn is_at_most(hash: &[u8; 32], target: &[u8; 32]) -> bool
    ensures { IsTrue result ↔ IsAtMost hash.now target.now }
{
    hash.iter().rev().cmp(target.iter().rev()).is_le()
}

// The target of a class: from the lowest bit up as many ones as there are bits left.
fn target_bytes(class: u16) -> [u8; 32]
    requires { class ≤ 256 }
    ensures { result ≡ target class }
{
    let mut ones = 256 - class;
    let mut bytes = [0; 32];
    for byte in &mut bytes {
        let here = ones.min(8);
        *byte = ((1u16 << here) - 1) as u8;
        ones -= here;
    }
    bytes
}

// The leading zero bits are the class of the greatest number with so many, and one less than that
// of the others.
fn class_of_bytes(bytes: &[u8; 32]) -> u16
    ensures { IsClassOf (number bytes.now) result }
{
    let zeros = zero_bits(bytes);
    if is_at_most(&target_bytes(zeros), bytes) {
        zeros
    } else {
        zeros + 1
    }
}
