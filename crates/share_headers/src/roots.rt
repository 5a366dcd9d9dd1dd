//! Merkle roots of four transactions side by side.

ghost use Rattle.std.specs.Prelude.{◌≡◌, ◌++◌, map};
ghost use Rattle.block_header.specs.Hash.{dsha};
ghost use Rattle.block_header.specs.Root.{root};

use sha256_lanes::{double_64, pair_of};

/// The merkle roots of the transactions with these ids, each of which has the path's hashes as its
/// siblings on the way up.
pub fn roots_of(ids: &[[u8; 32]; 4], path: &[[u8; 32]]) -> [[u8; 32]; 4]
    ensures { result ≡ map (λ id. root id path.now) ids.now }
{
    let mut hashes = *ids;
    'up: for sibling in path {
        hashes = parents_of(&hashes, sibling);
    }
    hashes
}

// The hash of each with this one behind it.
fn parents_of(hashes: &[[u8; 32]; 4], sibling: &[u8; 32]) -> [[u8; 32]; 4]
    ensures { result ≡ map (λ hash. dsha (hash ++ sibling.now)) hashes.now }
{
    double_64(&pairs_of(hashes, sibling))
}

fn pairs_of(hashes: &[[u8; 32]; 4], sibling: &[u8; 32]) -> [[u8; 64]; 4]
    ensures { result ≡ map (λ hash. hash ++ sibling.now) hashes.now }
{
    [
        pair_of(&hashes[0], sibling),
        pair_of(&hashes[1], sibling),
        pair_of(&hashes[2], sibling),
        pair_of(&hashes[3], sibling),
    ]
}
