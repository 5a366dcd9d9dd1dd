//! Double hashes of bytes of one length and nothing else: what the hashing of shares is compared
//! with.

ghost use Rattle.std.specs.Prelude.{◌≡◌, ◌-◌, ◌<◌, ◌≤◌, ◌++◌, length, drop};
ghost use Rattle.std.specs.Int.{w64, to_le_bytes};
ghost use Rattle.block_header.specs.Hash as spec;

use anyhow::Result;
use block_header::dsha;
use std::alloc::Global;

/// Puts the number in front of the bytes, and hashes them all.
fn hash_of_bytes(number: u64, bytes: &mut [u8]) -> [u8; 32]
    requires { 8 ≤ length bytes.old }
    ensures numbered { bytes.new ≡ to_le_bytes w64 number ++ drop 8 bytes.old }
    ensures hash { result ≡ spec.dsha bytes.new }
{
    bytes[..8].copy_from_slice(&number.to_le_bytes());
    dsha(bytes)
}

/// The last of so many hashes of bytes with the numbers from 0 on in front.
fn last_hash(count: u64, bytes: &mut [u8]) -> [u8; 32]
    requires { 8 ≤ length bytes.old }
    ensures numbered { 0 < count → bytes.new ≡ to_le_bytes w64 (count - 1) ++ drop 8 bytes.old }
    ensures hash { 0 < count → result ≡ spec.dsha bytes.new }
{
    let mut hash = [0; 32];
    for number in 0..count {
        hash = hash_of_bytes(number, bytes);
    }
    hash
}

/// Hashes bytes of this length, of at least 8, so many times, and tells the last hash as it is
/// displayed.
pub fn report(alloc: Global, len: u32, count: u32) -> Result<String> {
    let mut bytes = vec![in alloc; 0; len.max(8) as usize]?;
    let mut hash = last_hash(u64::from(count), &mut bytes);
    hash.reverse();
    Ok(hex::encode(alloc, &hash[..])?)
}
