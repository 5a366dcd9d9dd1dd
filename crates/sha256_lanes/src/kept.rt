//! The hash value behind a first block that messages have in common.

ghost use Rattle.std.specs.Prelude.{◌≡◌, ℕ, ◌<◌, List, [], ◌++◌, get_or, map};
ghost use Rattle.sha2.specs.Sha256.{final_hash, initial_hash_256, sha256};
ghost use Rattle.sha256_lanes.specs.Lanes.{IsBehind, lane};

use crate::digests::{digests_of, hash_again, initial_hash, padded_80, word_in};
use crate::rounds::{compress, compress_words, words_of};
use std::marker::Model;
use std::simd::prelude::*;

/// The hash value behind the first 64 bytes of messages (FIPS 180-4, 6.2.2), kept for those that
/// begin with them, such as the headers of one job and version.
#[derive(Clone, Copy)]
pub struct Kept {
    state: [u32; 8],
}

impl Model for Kept {
    ghost use Rattle.std.specs.Prelude.{ℕ, List};

    ghost Value = { List ℕ };

    ghost view = { λ kept. kept.state };

    ghost inverse = { λ state. record { state = state } };
}

impl Kept {
    /// The hash value behind these 64 bytes.
    pub fn behind(block: &[u8; 64]) -> Kept
        ensures { IsBehind block.now result }
    {
        let state = compress(initial_hash(), &[*block; 4]);
        Kept {
            state: first_lane(&state),
        }
    }

    /// SHA-256 of four messages of 80 bytes, by their last 16.
    pub fn sha256_80(&self, tails: &[[u8; 16]; 4]) -> [[u8; 32]; 4]
        ensures { (front : List ℕ) → IsBehind front self.now
            → result ≡ map (λ tail. sha256 (front ++ tail)) tails.now }
    {
        digests_of(hash_behind(&self.state, tails))
    }

    /// SHA-256 of the SHA-256 of four messages of 80 bytes, by their last 16.
    pub fn double_80(&self, tails: &[[u8; 16]; 4]) -> [[u8; 32]; 4]
        ensures { (front : List ℕ) → IsBehind front self.now
            → result ≡ map (λ tail. sha256 (sha256 (front ++ tail))) tails.now }
    {
        digests_of(hash_again(hash_behind(&self.state, tails)))
    }
}

// The hash values of messages of 80 bytes, from the one behind what they have in common.
fn hash_behind(state: &[u32; 8], tails: &[[u8; 16]; 4]) -> [u32x4; 8]
    ensures { (front : List ℕ) → IsBehind front state.now → (l : ℕ) → l < 4
        → lane l result ≡ final_hash initial_hash_256 (front ++ get_or tails.now l []) }
{
    compress_words(in_each_lane(state), padded_80(words_of(tails, 0)))
}

/// A hash value in each lane.
pub fn in_each_lane(state: &[u32; 8]) -> [u32x4; 8]
    ensures { (l : ℕ) → l < 4 → lane l result ≡ state.now }
{
    [
        u32x4::splat(state[0]),
        u32x4::splat(state[1]),
        u32x4::splat(state[2]),
        u32x4::splat(state[3]),
        u32x4::splat(state[4]),
        u32x4::splat(state[5]),
        u32x4::splat(state[6]),
        u32x4::splat(state[7]),
    ]
}

/// The first lane's hash value.
pub fn first_lane(state: &[u32x4; 8]) -> [u32; 8]
    ensures { result ≡ lane 0 state.now }
{
    [
        word_in(state[0], 0),
        word_in(state[1], 0),
        word_in(state[2], 0),
        word_in(state[3], 0),
        word_in(state[4], 0),
        word_in(state[5], 0),
        word_in(state[6], 0),
        word_in(state[7], 0),
    ]
}
