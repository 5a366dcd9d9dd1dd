//! Digests of messages of 32, 64 and 80 bytes (FIPS 180-4, 6.2), and the digests of these.

ghost use Rattle.std.specs.Prelude.{◌≡◌, ℕ, ◌*◌, ◌<◌, List, [], ◌++◌, ◌∷◌, length, map, get_or, slice_index};
ghost use Rattle.sha256_lanes.specs.Lanes.{AreWords, lane};
ghost use Rattle.sha2.specs.Sha256.{compress, digest_bytes, final_hash, initial_hash_256, padding, sha256, word_at};

use crate::padding::compress_padding;
use crate::rounds::{compress_words, words_of};
use std::simd::prelude::*;

/// SHA-256 of messages of 32 bytes.
pub fn sha256_32(messages: &[[u8; 32]; 4]) -> [[u8; 32]; 4]
    ensures { result ≡ map sha256 messages.now }
{
    digests_of(hash_32(messages))
}

/// SHA-256 of messages of 64 bytes.
pub fn sha256_64(messages: &[[u8; 64]; 4]) -> [[u8; 32]; 4]
    ensures { result ≡ map sha256 messages.now }
{
    digests_of(hash_64(messages))
}

/// SHA-256 of messages of 80 bytes.
pub fn sha256_80(messages: &[[u8; 80]; 4]) -> [[u8; 32]; 4]
    ensures { result ≡ map sha256 messages.now }
{
    digests_of(hash_80(messages))
}

/// SHA-256 of the SHA-256 of messages of 32 bytes.
pub fn double_32(messages: &[[u8; 32]; 4]) -> [[u8; 32]; 4]
    ensures { result ≡ map (λ m. sha256 (sha256 m)) messages.now }
{
    digests_of(hash_again(hash_32(messages)))
}

/// SHA-256 of the SHA-256 of messages of 64 bytes, as two hashes side by side are hashed into
/// Bitcoin's merkle trees.
pub fn double_64(messages: &[[u8; 64]; 4]) -> [[u8; 32]; 4]
    ensures { result ≡ map (λ m. sha256 (sha256 m)) messages.now }
{
    digests_of(hash_again(hash_64(messages)))
}

/// SHA-256 of the SHA-256 of messages of 80 bytes, as Bitcoin's headers are hashed.
pub fn double_80(messages: &[[u8; 80]; 4]) -> [[u8; 32]; 4]
    ensures { result ≡ map (λ m. sha256 (sha256 m)) messages.now }
{
    digests_of(hash_again(hash_80(messages)))
}

/// Two digests, one after the other, as they are hashed into Bitcoin's merkle trees.
pub fn pair_of(left: &[u8; 32], right: &[u8; 32]) -> [u8; 64]
    ensures { result ≡ left.now ++ right.now }
{
    let mut pair = [0; 64];
    pair[..32].copy_from_slice(left);
    pair[32..].copy_from_slice(right);
    pair
}

/// The initial hash value (5.3.3).
#[inline(always)]
pub fn initial_hash() -> [u32x4; 8]
    ensures { (l : ℕ) → l < 4 → lane l result ≡ initial_hash_256 }
{
    [
        u32x4::splat(0x6a09_e667),
        u32x4::splat(0xbb67_ae85),
        u32x4::splat(0x3c6e_f372),
        u32x4::splat(0xa54f_f53a),
        u32x4::splat(0x510e_527f),
        u32x4::splat(0x9b05_688c),
        u32x4::splat(0x1f83_d9ab),
        u32x4::splat(0x5be0_cd19),
    ]
}

// The words of messages of 32 bytes, behind which their padding stands (5.1.1).
#[inline(always)]
fn padded_32(words: [u32x4; 8]) -> [u32x4; 16]
    ensures { (l : ℕ) → l < 4 → (m : List ℕ) → length m ≡ 32
        → ((k : ℕ) → k < 8 → slice_index (lane l words) k ≡ word_at m (4 * k))
        → AreWords (m ++ padding 32) (lane l result) }
{
    let [a, b, c, d, e, f, g, h] = words;
    let zero = u32x4::splat(0);
    let bit = u32x4::splat(0x8000_0000);
    let bits = u32x4::splat(256);
    [
        a, b, c, d, e, f, g, h, bit, zero, zero, zero, zero, zero, zero, bits,
    ]
}

// The words of the last 16 bytes of messages of 80, behind which their padding stands (5.1.1).
#[inline(always)]
pub fn padded_80(words: [u32x4; 4]) -> [u32x4; 16]
    ensures { (l : ℕ) → l < 4 → (m : List ℕ) → length m ≡ 16
        → ((k : ℕ) → k < 4 → slice_index (lane l words) k ≡ word_at m (4 * k))
        → AreWords (m ++ padding 80) (lane l result) }
{
    let [a, b, c, d] = words;
    let zero = u32x4::splat(0);
    let bit = u32x4::splat(0x8000_0000);
    let bits = u32x4::splat(640);
    [
        a, b, c, d, bit, zero, zero, zero, zero, zero, zero, zero, zero, zero, zero, bits,
    ]
}

fn hash_32(messages: &[[u8; 32]; 4]) -> [u32x4; 8]
    ensures { (l : ℕ) → l < 4
        → lane l result ≡ final_hash initial_hash_256 (get_or messages.now l []) }
{
    compress_words(initial_hash(), padded_32(words_of(messages, 0)))
}

fn hash_64(messages: &[[u8; 64]; 4]) -> [u32x4; 8]
    ensures { (l : ℕ) → l < 4
        → lane l result ≡ final_hash initial_hash_256 (get_or messages.now l []) }
{
    compress_padding(compress_words(initial_hash(), words_of(messages, 0)))
}

fn hash_80(messages: &[[u8; 80]; 4]) -> [u32x4; 8]
    ensures { (l : ℕ) → l < 4
        → lane l result ≡ final_hash initial_hash_256 (get_or messages.now l []) }
{
    let front = compress_words(initial_hash(), words_of(messages, 0));
    compress_words(front, padded_80(words_of(messages, 64)))
}

/// The hash values of the digests that these hash values are.
pub fn hash_again(state: [u32x4; 8]) -> [u32x4; 8]
    ensures { (l : ℕ) → l < 4 → (m : List ℕ) → lane l state ≡ final_hash initial_hash_256 m
        → lane l result ≡ final_hash initial_hash_256 (sha256 m) }
{
    compress_words(initial_hash(), padded_32(state))
}

/// The bytes of these hash values, high byte first (3.1).
pub fn digests_of(state: [u32x4; 8]) -> [[u8; 32]; 4]
    ensures { result ≡ digest_bytes (lane 0 state) 8 ∷ digest_bytes (lane 1 state) 8
        ∷ digest_bytes (lane 2 state) 8 ∷ digest_bytes (lane 3 state) 8 ∷ [] }
{
    [
        digest_of(&state, 0),
        digest_of(&state, 1),
        digest_of(&state, 2),
        digest_of(&state, 3),
    ]
}

fn digest_of(state: &[u32x4; 8], l: usize) -> [u8; 32]
    requires { l < 4 }
    ensures { result ≡ digest_bytes (lane l state.now) 8 }
{
    let mut bytes = [0; 32];
    'words: for i in 0..8 {
        let word = word_in(state[i], l);
        bytes[4 * i..4 * i + 4].copy_from_slice(&word.to_be_bytes());
    }
    bytes
}

pub fn word_in(words: u32x4, l: usize) -> u32
    requires { l < 4 }
    ensures { result ≡ slice_index words l }
{
    words.to_array()[l]
}
