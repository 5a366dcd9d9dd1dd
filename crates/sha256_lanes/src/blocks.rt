//! Blocks that four messages have in common.

ghost use Rattle.std.specs.Prelude.{◌≡◌, ℕ, ◌+◌, ◌*◌, ◌/◌, ◌<◌, ◌≤◌, length, take, drop};
ghost use Rattle.sha2.specs.Sha256.{compress, hash_after};
ghost use Rattle.sha256_lanes.specs.Lanes.{lane};

use crate::rounds::compress;
use std::simd::prelude::*;

/// The hash values behind so many blocks more as these bytes have whole ones, which are the same in
/// each lane (FIPS 180-4, 6.2.2).
pub fn hash_blocks(state: [u32x4; 8], bytes: &[u8]) -> [u32x4; 8]
    ensures { (l : ℕ) → l < 4
        → lane l result ≡ hash_after (lane l state) bytes.now (length bytes.now / 64) }
{
    let mut state = state;
    'each: for i in 0..bytes.len() / 64 {
        let next = compress_alike(state, &block_at(bytes, i));
        state = next;
    }
    state
}

// One block more, the same in each lane.
fn compress_alike(state: [u32x4; 8], block: &[u8; 64]) -> [u32x4; 8]
    ensures { (l : ℕ) → l < 4 → lane l result ≡ compress (lane l state) block.now }
{
    compress(state, &[*block; 4])
}

fn block_at(bytes: &[u8], i: usize) -> [u8; 64]
    requires { (i + 1) * 64 ≤ length bytes.now }
    ensures { result ≡ take 64 (drop (i * 64) bytes.now) }
{
    let mut block = [0; 64];
    block.copy_from_slice(&bytes[64 * i..64 * i + 64]);
    block
}
