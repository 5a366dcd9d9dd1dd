//! The entries on a disk, read one behind the other. Nothing is written here.

ghost use Rattle.std.specs.Prelude.{◌≡◌, ◌≢◌, ◌≤◌, ◌<◌, ◌+◌, ◌∷◌, IfNone, IfOk, IfSome, IsFalse, IsTrue, List, ℕ, length, take, drop};
ghost use Rattle.std.specs.Int.{to_le_bytes, w32};
ghost use Rattle.pool_io.specs.Outside.{CountsFailure};
ghost use Rattle.ledger_disk.specs.Calls.{WhereTold, is_failed_call};
ghost use Rattle.ledger_disk.specs.Moments.{last_content};
ghost use Rattle.ledger_disk.specs.Entries.{HasNone, magic};
ghost use Rattle.ledger_disk.specs.Steps.{HoldsEntries, ReadsEntry, ReadsLength};

use crate::{Disk, DiskFailed};
use std::alloc::Global;
use sv2_types::Blob;

/// The length of the entry that begins so, if one does, with so many bytes from its gate on.
fn length_in(head: [u8; 5], room: u64) -> Option<u32>
    ensures head { IfSome result (λ count. head ≡ 1 ∷ to_le_bytes w32 count) }
    ensures limit { IfSome result (λ count. count ≤ 300100) }
    ensures inside { IfSome result (λ count. count + 6 ≤ room) }
    ensures none { IfNone result ((bytes : List ℕ) → take 5 bytes ≡ head → length bytes ≡ room
        → HasNone bytes) }
{
    let [gate, a, b, c, d] = head;
    let count = u32::from_le_bytes([a, b, c, d]);
    if gate != 1 || count > 300_100 || u64::from(count) + 6 > room {
        return None;
    }
    Some(count)
}

/// The length of the entry at this place of a disk of so many bytes, if one stands there.
fn read_length<D: Disk>(disk: &mut D, at: u64, size: u64) -> Result<Option<u32>, DiskFailed>
    requires within { at < size }
    requires size { WhereTold (D.seen disk.old).log (λ log. length (last_content log) ≡ size) }
    ensures reads { WhereTold (D.seen disk.old).log
        (λ log. ReadsLength (drop at (last_content log)) result) }
    ensures limit { IfOk result (λ found. IfSome found (λ count. count ≤ 300100)) }
    ensures inside { IfOk result (λ found. IfSome found (λ count. at + count + 6 ≤ size)) }
    ensures stays { (D.seen disk.new).log ≡ (D.seen disk.old).log }
    ensures counts { CountsFailure (is_failed_call result) (D.seen disk.old).faults
        (D.seen disk.new).faults }
{
    let room = size - at;
    if room < 6 {
        return Ok(None);
    }
    let mut head = [0; 5];
    disk.read_at(at, &mut head)?;
    Ok(length_in(head, room))
}

/// So many bytes from this place on.
fn read_bytes<D: Disk>(
    alloc: Global,
    disk: &mut D,
    at: u64,
    count: u32,
) -> Result<Vec<u8>, DiskFailed>
    requires { WhereTold (D.seen disk.old).log
        (λ log. at + count ≤ length (last_content log)) }
    ensures size { IfOk result (λ bytes. length bytes.items ≡ count) }
    ensures reads { IfOk result (λ bytes. WhereTold (D.seen disk.old).log
        (λ log. bytes.items ≡ take count (drop at (last_content log)))) }
    ensures stays { (D.seen disk.new).log ≡ (D.seen disk.old).log }
    ensures counts { CountsFailure (is_failed_call result) (D.seen disk.old).faults
        (D.seen disk.new).faults }
{
    let Ok(mut bytes) = vec![in alloc; 0u8; count as usize] else {
        return Err(DiskFailed::Memory);
    };
    disk.read_at(at, &mut bytes)?;
    Ok(bytes)
}

/// The entry at this place, likewise.
fn read_entry<D: Disk>(
    alloc: Global,
    disk: &mut D,
    at: u64,
    size: u64,
) -> Result<Option<Blob>, DiskFailed>
    requires within { at < size }
    requires size { WhereTold (D.seen disk.old).log (λ log. length (last_content log) ≡ size) }
    ensures reads { WhereTold (D.seen disk.old).log
        (λ log. ReadsEntry (drop at (last_content log)) result) }
    ensures limit { IfOk result (λ found. IfSome found (λ entry. length entry ≤ 300100)) }
    ensures inside { IfOk result (λ found. IfSome found (λ entry. at + length entry + 6 ≤ size)) }
    ensures stays { (D.seen disk.new).log ≡ (D.seen disk.old).log }
    ensures counts { CountsFailure (is_failed_call result) (D.seen disk.old).faults
        (D.seen disk.new).faults }
{
    let Some(count) = read_length(disk, at, size)? else {
        return Ok(None);
    };
    let bytes = read_bytes(alloc, disk, at + 5, count)?;
    Ok(Some(Blob::from_vec(bytes)))
}

/// Whether a disk begins with the magic.
pub(crate) fn has_magic<D: Disk>(disk: &mut D) -> Result<bool, DiskFailed>
    requires { WhereTold (D.seen disk.old).log (λ log. 8 ≤ length (last_content log)) }
    ensures yes { IfOk result (λ is. IsTrue is → WhereTold (D.seen disk.old).log
        (λ log. take 8 (last_content log) ≡ magic)) }
    ensures no { IfOk result (λ is. IsFalse is → WhereTold (D.seen disk.old).log
        (λ log. take 8 (last_content log) ≢ magic)) }
    ensures stays { (D.seen disk.new).log ≡ (D.seen disk.old).log }
    ensures counts { CountsFailure (is_failed_call result) (D.seen disk.old).faults
        (D.seen disk.new).faults }
{
    let mut begun = [0; 8];
    disk.read_at(0, &mut begun)?;
    Ok(begun == *b"SV2DISK1")
}

/// The entries on a disk of so many bytes that begins with the magic, up to the first place where none
/// stands, and that place.
pub(crate) fn read_entries<D: Disk>(
    alloc: Global,
    disk: &mut D,
    size: u64,
) -> Result<(Vec<Blob>, u64), DiskFailed>
    requires long { 8 < size }
    requires size { WhereTold (D.seen disk.old).log (λ log. length (last_content log) ≡ size) }
    requires magic { WhereTold (D.seen disk.old).log (λ log. take 8 (last_content log) ≡ magic) }
    ensures reads { IfOk result (λ found. WhereTold (D.seen disk.old).log
        (λ log. HoldsEntries found.1 found.0.items (last_content log))) }
    ensures inside { IfOk result (λ found. found.1 < size) }
    ensures stays { (D.seen disk.new).log ≡ (D.seen disk.old).log }
    ensures counts { CountsFailure (is_failed_call result) (D.seen disk.old).faults
        (D.seen disk.new).faults }
{
    let mut entries = Vec::new(alloc);
    let mut at = 8;
    while let Some(entry) = read_entry(alloc, disk, at, size)? {
        let count = entry.bytes().len() as u64;
        let Ok(()) = entries.push(entry) else {
            return Err(DiskFailed::Memory);
        };
        at += 5 + count;
    }
    Ok((entries, at))
}
