//! The block that pads a message of 64 bytes (FIPS 180-4, 5.1.1), in each lane.

ghost use Rattle.std.specs.Prelude.{◌≡◌, ℕ, ◌+◌, ◌*◌, ◌<◌, ◌≤◌, List};
ghost use Rattle.sha256_lanes.specs.Lanes.{lane};
ghost use Rattle.sha2.specs.Sha256.{compress, padding, rounds, schedule};

use crate::constants::PADDED_64;
use crate::rounds::{add_state, round_with};
use std::simd::prelude::*;

#[inline(always)]
fn pad_step(v: [u32x4; 8], t: usize) -> [u32x4; 8]
    requires { t < 64 }
    ensures { (l : ℕ) → l < 4 → (h : List ℕ) → lane l v ≡ rounds h (schedule (padding 64) 48) t
        → lane l result ≡ rounds h (schedule (padding 64) 48) (t + 1) }
{
    round_with(v, PADDED_64[t])
}

#[inline(always)]
fn four_pad_steps(v: [u32x4; 8], t: usize) -> [u32x4; 8]
    requires { t + 4 ≤ 64 }
    ensures { (l : ℕ) → l < 4 → (h : List ℕ) → lane l v ≡ rounds h (schedule (padding 64) 48) t
        → lane l result ≡ rounds h (schedule (padding 64) 48) (t + 4) }
{
    let v = pad_step(v, t);
    let v = pad_step(v, t + 1);
    let v = pad_step(v, t + 2);
    pad_step(v, t + 3)
}

#[inline(always)]
fn eight_pad_steps(v: [u32x4; 8], turn: usize) -> [u32x4; 8]
    requires { turn < 8 }
    ensures { (l : ℕ) → l < 4 → (h : List ℕ)
        → lane l v ≡ rounds h (schedule (padding 64) 48) (8 * turn)
        → lane l result ≡ rounds h (schedule (padding 64) 48) (8 * (turn + 1)) }
{
    let v = four_pad_steps(v, 8 * turn);
    four_pad_steps(v, 8 * turn + 4)
}

/// The hash values behind the padding of messages of 64 bytes.
pub fn compress_padding(state: [u32x4; 8]) -> [u32x4; 8]
    ensures { (l : ℕ) → l < 4 → lane l result ≡ compress (lane l state) (padding 64) }
{
    let mut v = state;
    'turns: for turn in 0..8 {
        let next = eight_pad_steps(v, turn);
        v = next;
    }
    add_state(state, v)
}
