//! Merkle paths of many ids, and nothing else.

ghost use Rattle.std.specs.Prelude.{◌≡◌, ◌-◌, ◌<◌, length, IfOk};
ghost use Rattle.bench.specs.Numbered.{ending_in};
ghost use Rattle.job_declaration.specs.Tree.{path};

use crate::numbered::message_of;
use anyhow::{Result, bail};
use job_declaration::merkle_path;
use std::alloc::{AllocError, Global};

/// Puts the number's id in place of the last one, and finds the path of all.
fn path_ending_in(
    alloc: Global,
    number: u64,
    ids: &mut [[u8; 32]],
) -> Result<Vec<[u8; 32]>, AllocError>
    requires { 0 < length ids.old }
    ensures ids { ids.new ≡ ending_in ids.old number }
    ensures path { IfOk result (λ v. v.items ≡ path ids.new) }
{
    let last = ids.len() - 1;
    ids[last] = message_of(number);
    merkle_path(alloc, ids)
}

/// The last path of so many, of the ids with each number's in place of their last.
fn last_path(alloc: Global, count: u64, ids: &mut [[u8; 32]]) -> Result<Vec<[u8; 32]>, AllocError>
    requires { 0 < length ids.old }
    ensures { 0 < count → IfOk result (λ v. v.items ≡ path (ending_in ids.old (count - 1))) }
{
    let mut path = Vec::new(alloc);
    for number in 0..count {
        path = path_ending_in(alloc, number, ids)?;
    }
    Ok(path)
}

/// Finds so many paths of so many ids, and tells how many hashes the last one has, and the last of
/// these as it is displayed.
pub fn report(alloc: Global, ids: u32, count: u32) -> Result<String> {
    let mut listed = Vec::with_capacity(alloc, ids as usize)?;
    for number in 0..ids {
        listed.push(message_of::<32>(u64::from(number)))?;
    }
    if listed.is_empty() {
        bail!("want at least one id");
    }
    let path = last_path(alloc, u64::from(count), &mut listed)?;
    let mut last = path.last().copied().unwrap_or([0; 32]);
    last.reverse();
    let last = hex::encode(alloc, &last[..])?;
    Ok(format!(in alloc; "hashes {}, last {last}", path.len())?)
}
