//! Double hashes of a header's 80 bytes and nothing else: what the judging of shares is compared
//! with.

ghost use Rattle.std.specs.Prelude.{◌≡◌, ◌-◌, ◌<◌};
ghost use Rattle.bench.specs.Headers.{header_hash};

use anyhow::Result;
use block_header::{Header, dsha};
use std::alloc::Global;

const HEADER: Header = Header {
    version: 1,
    prev_hash: [0; 32],
    root: [0; 32],
    ntime: 0,
    nbits: 0,
    nonce: 0,
};

/// The hash of a header with this nonce.
fn hash_with(nonce: u32, header: &Header) -> [u8; 32]
    ensures { result ≡ header_hash header.now nonce }
{
    let header = Header { nonce, ..*header };
    dsha(&header.bytes())
}

/// The hash of the header with the last of so many nonces.
fn last_header(count: u32, header: &Header) -> [u8; 32]
    ensures { 0 < count → result ≡ header_hash header.now (count - 1) }
{
    let mut hash = [0; 32];
    for nonce in 0..count {
        hash = hash_with(nonce, header);
    }
    hash
}

/// Hashes so many headers, and tells the last hash as it is displayed.
pub fn report(alloc: Global, count: u32) -> Result<String> {
    let mut hash = last_header(count, &HEADER);
    hash.reverse();
    Ok(hex::encode(alloc, &hash[..])?)
}
