//! The merkle root of a block, from the coinbase's side.

ghost use Rattle.std.specs.Prelude.{◌≡◌, ◌++◌};
ghost use Rattle.block_header.specs.Hash as spec;
ghost use Rattle.block_header.specs.Root.{root};

use sha2::{Digest, Sha256};

/// The merkle root of the transaction with this id, whose siblings on the way up are the path's
/// hashes (Stratum V2, "Merkle Root Construction"). All hashes stand as in a header.
pub fn root_of(txid: &[u8; 32], path: &[[u8; 32]]) -> [u8; 32]
    ensures { result ≡ root txid.now path.now }
{
    let mut hash = *txid;
    for sibling in path {
        hash = parent_of(&hash, sibling);
    }
    hash
}

// The hash of the two, one after the other.
fn parent_of(left: &[u8; 32], right: &[u8; 32]) -> [u8; 32]
    ensures { result ≡ spec.dsha (left.now ++ right.now) }
{
    let mut hasher = Sha256::new();
    hasher.update(left);
    hasher.update(right);
    Sha256::digest(hasher.finalize())
}
