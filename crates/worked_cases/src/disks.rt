//! The disks that a case describes.

use crate::case::Case;
use crate::expressions::{Names, number};
use anyhow::Result;
use ledger_disk::{Failures, MemDisks, NamedDisk};
use ledger_records::{MAGIC, chain, magic_hash};
use pool_io::Name;
use std::alloc::Global;

/// The disks of a case, of which the first that is asked for fails as it says.
pub fn disks_of(alloc: Global, names: &Names, case: &Case<'_>) -> Result<MemDisks> {
    let mut named = Vec::new(alloc);
    for line in case.lines().iter().rev() {
        if line.key == "disk" {
            let (name, content) = line.rest.split_once(' ').unwrap_or((line.rest, ""));
            named.push(NamedDisk {
                name: Name::of(alloc, name)?,
                content: content_of(alloc, names, content)?,
            })?;
        }
    }
    let failures = Failures {
        listed: case.numbers(alloc, "fail-disk")?,
        from: match case.last("stop-disk") {
            Some(count) => number(count)?,
            None => u64::MAX,
        },
        part: 0,
    };
    let failing = case.numbers(alloc, "fail-open-disk")?;
    Ok(MemDisks::new(alloc, named, failing).with_failures(failures))
}

/// What a disk holds: an expression's bytes, or `laid WORD ..`, a ledger of just these records,
/// and what is changed in it.
pub fn content_of(alloc: Global, names: &Names, line: &str) -> Result<Vec<u8>> {
    match line.strip_prefix("laid") {
        Some(words) => laid(alloc, names, words),
        None => names.bytes_of(line),
    }
}

/// A ledger on a disk, with bits of it changed.
fn laid(alloc: Global, names: &Names, words: &str) -> Result<Vec<u8>> {
    let mut bytes = ledger_of(alloc, names, words)?;
    for change in words.split_whitespace().filter(|word| word.contains('^')) {
        names.add_word(&mut bytes, change)?;
    }
    Ok(bytes)
}

/// A ledger on a disk: each record with the hash over it and all before it is an entry, the first with
/// the magic of format 2 before it.
fn ledger_of(alloc: Global, names: &Names, words: &str) -> Result<Vec<u8>> {
    let mut bytes = b"SV2DISK1".to_vec(alloc)?;
    let mut hash = magic_hash();
    let mut piece = MAGIC.to_vec(alloc)?;
    for word in words.split_whitespace().filter(|word| !word.contains('^')) {
        let record = names.bytes_of(word)?;
        hash = chain(&hash, &record);
        piece.extend_from_slice(&record)?;
        piece.extend_from_slice(&hash)?;
        bytes.push(1)?;
        let length = u32::try_from(piece.len())?;
        bytes.extend_from_slice(&length.to_le_bytes())?;
        bytes.extend_from_slice(&piece)?;
        piece.clear();
    }
    bytes.push(0)?;
    Ok(bytes)
}
