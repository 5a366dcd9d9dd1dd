//! Hashes of shares, from the coinbase to the header, and nothing else.

ghost use Rattle.std.specs.Prelude.{◌≡◌, ◌-◌, ◌<◌};
ghost use Rattle.bench.specs.Shares as shares;

use anyhow::Result;
use block_header::{Header, dsha, root_of};
use coinbase::{Assembly, Recipe};
use std::alloc::Global;

/// A template whose coinbase has 98 bytes with the extranonce and a script of 22 bytes.
const TEMPLATE: Recipe<'static> = Recipe {
    tx_version: 2,
    prefix: b"\x03\xa0\xbb\x0d",
    sequence: 0xffff_ffff,
    reward: 312_500_000,
    outputs_count: 0,
    outputs: b"",
    lock_time: 0,
};

const SCRIPT: [u8; 22] = [0x51; 22];

const HEADER: Header = Header {
    version: 0x2000_0000,
    prev_hash: [0x11; 32],
    root: [0; 32],
    ntime: 1_700_000_000,
    nbits: 0x1703_4219,
    nonce: 0,
};

/// The extranonce of a number: its eight bytes, low byte first, and four zeros.
fn extranonce_of(number: u64) -> [u8; 12]
    ensures { result ≡ shares.extranonce_of number }
{
    let mut extranonce = [0; 12];
    extranonce[..8].copy_from_slice(&number.to_le_bytes());
    extranonce
}

/// The hash of the header whose coinbase has this number as its extranonce.
fn share_hash(number: u64, assembly: &Assembly, path: &[[u8; 32]], header: &Header) -> [u8; 32]
    ensures { result ≡ shares.share_hash assembly.now path.now header.now number }
{
    let root = root_of(&assembly.txid_with(&extranonce_of(number)), path);
    let header = Header { root, ..*header };
    dsha(&header.bytes())
}

/// The hash of the last of so many shares.
fn last_share(count: u64, assembly: &Assembly, path: &[[u8; 32]], header: &Header) -> [u8; 32]
    ensures { 0 < count → result ≡ shares.share_hash assembly.now path.now header.now (count - 1) }
{
    let mut hash = [0; 32];
    for number in 0..count {
        hash = share_hash(number, assembly, path, header);
    }
    hash
}

/// Hashes so many shares with a merkle path of so many hashes, and tells the last hash as it is
/// displayed.
pub fn report(alloc: Global, siblings: u32, count: u32) -> Result<String> {
    let assembly = Assembly::of(alloc, &TEMPLATE, &SCRIPT)?;
    let path = vec![in alloc; [0x22; 32]; siblings as usize]?;
    let mut hash = last_share(u64::from(count), &assembly, &path, &HEADER);
    hash.reverse();
    Ok(hex::encode(alloc, &hash[..])?)
}
