//! Messages that differ in twelve bytes alone, such as the coinbases of one job.

ghost use Rattle.std.specs.Prelude.{◌≡◌, ℕ, ◌+◌, ◌*◌, ◌/◌, ◌%◌, ◌^◌, ◌<◌, ◌≤◌, ◌++◌, List, [], get_or, length, map, replicate, take, drop, IfNone, IfOk, IfSome, OnOk};
ghost use Rattle.sha2.specs.Sha256.{final_hash, hash_after, initial_hash_256, padding, sha256};
ghost use Rattle.sha256_lanes.specs.CommonTexts.{IsAround, text_with};
ghost use Rattle.sha256_lanes.specs.Lanes.{lane};

use crate::blocks::hash_blocks;
use crate::digests::{digests_of, hash_again, initial_hash};
use crate::kept::{first_lane, in_each_lane};
use crate::rounds::{compress_words, words_of};
use std::alloc::{AllocError, Global};
use std::marker::Model;
use std::simd::prelude::*;

/// What messages have in common that begin alike and end alike, and have twelve bytes of their own
/// between: the hash value behind their first blocks (FIPS 180-4, 6.2.2), and the others with their
/// padding.
#[derive(Drop)]
pub struct CommonText {
    hash: [u32; 8],
    // Zeros stand where the twelve bytes go.
    text: Vec<u8>,
    at: usize,
}

impl Model for CommonText {
    ghost use Rattle.sha256_lanes.specs.CommonTexts.{Common, HasTwoBlocks};

    ghost Value = { Common };

    ghost view = { λ common. record {
      hash = common.hash;
      text = common.text.items;
      at = common.at;
    } };

    ghost invariant = { λ common. HasTwoBlocks common.text.items common.at };
}

impl CommonText {
    /// Of the messages that begin and end so. There is none where one block alone is left behind
    /// those that are the same.
    pub fn of(alloc: Global, before: &[u8], after: &[u8]) -> Result<Option<CommonText>, AllocError>
        ensures some { IfOk result (λ found. IfSome found (IsAround before.now after.now)) }
        ensures none { IfOk result (λ found. IfNone found
            (length before.now % 64 + length after.now + 21 ≤ 64)) }
    {
        let (blocks, head) = before.split_at(before.len() / 64 * 64);
        let total = before.len().wrapping_add(12).wrapping_add(after.len());
        let text = text_of(alloc, head, after, total)?;
        if text.len() < 128 {
            return Ok(None);
        }
        Ok(Some(CommonText {
            hash: first_lane(&hash_blocks(initial_hash(), blocks)),
            text,
            at: head.len(),
        }))
    }

    /// SHA-256 of the SHA-256 of four messages, by the twelve bytes that are their own.
    pub fn double(&self, middles: &[[u8; 12]; 4]) -> [[u8; 32]; 4]
        ensures { (before after : List ℕ) → IsAround before after self.now
            → result ≡ map (λ m. sha256 (sha256 (before ++ m ++ after))) middles.now }
    {
        digests_of(hash_again(self.hash_with(middles)))
    }

    // The hash values of the messages.
    fn hash_with(&self, middles: &[[u8; 12]; 4]) -> [u32x4; 8]
        ensures hash { (l : ℕ) → l < 4 → lane l result ≡ hash_after self.now.hash
            (text_with self.now (get_or middles.now l [])) (length self.now.text / 64) }
        ensures long { (l : ℕ) → l < 4 → length (get_or middles.now l []) ≡ 12 }
    {
        let first_blocks = self.first_blocks_with(middles);
        hash_blocks(
            hash_first_blocks(in_each_lane(&self.hash), &first_blocks),
            &self.text[128..],
        )
    }

    fn first_blocks_with(&self, middles: &[[u8; 12]; 4]) -> [[u8; 128]; 4]
        ensures blocks { result ≡ map (λ m. take 128 (text_with self.now m)) middles.now }
        ensures long { (l : ℕ) → l < 4 → length (get_or middles.now l []) ≡ 12 }
    {
        [
            self.first_two_with(&middles[0]),
            self.first_two_with(&middles[1]),
            self.first_two_with(&middles[2]),
            self.first_two_with(&middles[3]),
        ]
    }

    // The first two blocks of the text with these twelve bytes.
    fn first_two_with(&self, middle: &[u8; 12]) -> [u8; 128]
        ensures blocks { result ≡ take 128 (text_with self.now middle.now) }
        ensures long { length middle.now ≡ 12 }
    {
        let mut first_two = [0; 128];
        first_two.copy_from_slice(&self.text[..128]);
        first_two[self.at..self.at + 12].copy_from_slice(middle);
        first_two
    }
}

// The hash values behind two blocks of each message.
fn hash_first_blocks(state: [u32x4; 8], first_blocks: &[[u8; 128]; 4]) -> [u32x4; 8]
    ensures { (l : ℕ) → l < 4
        → lane l result ≡ hash_after (lane l state) (get_or first_blocks.now l []) 2 }
{
    let first = compress_words(state, words_of(first_blocks, 0));
    compress_words(first, words_of(first_blocks, 64))
}

// Bytes, twelve zeros, more bytes, and the padding of a message that is so long.
fn text_of(alloc: Global, head: &[u8], after: &[u8], total: usize) -> Result<Vec<u8>, AllocError>
    ensures { IfOk result (λ text.
        text.items ≡ head.now ++ replicate 12 0 ++ after.now ++ padding total) }
{
    let mut text = Vec::new(alloc);
    text.extend_from_slice(head)?;
    text.extend_from_slice(&[0; 12])?;
    text.extend_from_slice(after)?;
    pad(&mut text, total)?;
    Ok(text)
}

// Appends the padding of a message that is so long (5.1.1).
fn pad(text: &mut Vec<u8>, total: usize) -> Result<(), AllocError>
    ensures { OnOk result (text.new.items ≡ text.old.items ++ padding total) }
{
    text.push(0x80)?;
    text.extend_from_slice(&[0; 64][..(119 - total % 64) % 64])?;
    text.extend_from_slice(&(total as u64).wrapping_mul(8).to_be_bytes())?;
    Ok(())
}
