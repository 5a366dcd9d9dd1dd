//! The path of a list of ids.

ghost use Rattle.std.specs.Prelude.{◌≡◌, ◌+◌, ◌*◌, ◌<◌, ◌≤◌, ◌/◌, ◌++◌, length, drop, take, IfOk};
ghost use Rattle.job_declaration.specs.Tree.{path, row_above};

use block_header::root_of;
use sha256_lanes::{double_64, pair_of};
use std::alloc::{AllocError, Global};

/// The hashes beside the way from the first transaction of a block up to its merkle root, the
/// lowest first, by the ids of the others in their order (Stratum V2, "Merkle Root Construction").
/// All hashes stand as in a header.
pub fn merkle_path(alloc: Global, ids: &[[u8; 32]]) -> Result<Vec<[u8; 32]>, AllocError>
    ensures { IfOk result (λ v. v.items ≡ path ids.now) }
{
    let mut row = Vec::from_slice(alloc, ids)?;
    let mut path = Vec::new(alloc);
    while let Some(first) = row.first().copied() {
        path.push(first)?;
        let above = pair_up(&mut row);
        row.truncate(above);
    }
    Ok(path)
}

// Puts the row above all but the first in front, and says how many it has.
fn pair_up(row: &mut [[u8; 32]]) -> usize
    requires { 0 < length row.old }
    ensures count { result ≡ length row.old / 2 }
    ensures above { take result row.new ≡ row_above (drop 1 row.old) }
{
    let done = pair_up_fours(row);
    pair_up_from(row, done)
}

// The same of as many pairs as are hashed four at once, and says how many these are.
fn pair_up_fours(row: &mut [[u8; 32]]) -> usize
    requires { 0 < length row.old }
    ensures within { result ≤ length row.old / 2 }
    ensures long { length row.new ≡ length row.old }
    ensures above { row_above (drop 1 row.old)
        ≡ take result row.new ++ row_above (drop (1 + 2 * result) row.new) }
{
    let fours = (row.len() - 1) / 8;
    for k in 0..fours {
        let hashes = hashes_above(&row[8 * k + 1..8 * k + 9]);
        row[4 * k..4 * k + 4].copy_from_slice(&hashes);
    }
    4 * fours
}

// The row above eight hashes.
fn hashes_above(eight: &[[u8; 32]]) -> [[u8; 32]; 4]
    requires { length eight.now ≡ 8 }
    ensures { result ≡ row_above eight.now }
{
    double_64(&[
        pair_of(&eight[0], &eight[1]),
        pair_of(&eight[2], &eight[3]),
        pair_of(&eight[4], &eight[5]),
        pair_of(&eight[6], &eight[7]),
    ])
}

// The pairs behind so many, one by one.
fn pair_up_from(row: &mut [[u8; 32]], done: usize) -> usize
    requires some { 0 < length row.old }
    requires within { done ≤ length row.old / 2 }
    ensures count { result ≡ length row.old / 2 }
    ensures above { take result row.new
        ≡ take done row.old ++ row_above (drop (1 + 2 * done) row.old) }
{
    let above = row.len() / 2;
    let last = row.len() - 1;
    for i in done..above {
        let (left, right) = (row[1 + 2 * i], row[last.min(2 + 2 * i)]);
        row[i] = root_of(&left, &[right]);
    }
    above
}
