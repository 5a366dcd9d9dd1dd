//! The double hash, and the tests on it.

ghost use Rattle.std.specs.Prelude.{◌≡◌, ◌≤◌, ◌↔◌, IsTrue};
ghost use Rattle.block_header.specs.Hash as spec;
ghost use Rattle.block_header.specs.Hash.{Meets};

use sha2::{Digest, Sha256};

/// SHA-256 of the SHA-256 (FIPS 180-4), as Bitcoin hashes headers and transactions. The bytes are
/// in the order in which SHA-256 gives them, the reverse of how a hash is displayed.
pub fn dsha(bytes: &[u8]) -> [u8; 32]
    ensures { result ≡ spec.dsha bytes.now }
{
    Sha256::digest(Sha256::digest(bytes))
}

/// Whether a hash is displayed with at least this many leading zero bits.
pub fn meets_class(hash: &[u8; 32], class: u8) -> bool
    ensures meets { IsTrue result ↔ Meets hash.now class }
    ensures value { result ≡ spec.meets hash.now class }
{
    zero_bits(hash) >= u16::from(class)
}

// How many zero bits the displayed hash begins with.
pub(crate) fn zero_bits(hash: &[u8; 32]) -> u16
    ensures value { result ≡ spec.zero_bits hash.now }
    ensures within { result ≤ 256 }
{
    let mut bits = 0;
    for byte in hash.iter().rev() {
        if *byte != 0 {
            return bits + byte.leading_zeros() as u16;
        }
        bits += 8;
    }
    bits
}
