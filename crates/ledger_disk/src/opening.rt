//! Making a disk a ledger: anew, or of the entries that are found on it.

ghost use Rattle.std.specs.Prelude.{◌≡◌, ◌≢◌, ◌<◌, ◌-◌, ◌^◌, IfNone, IfOk, IfSome, Err, None, Some};
ghost use Rattle.pool_io.specs.Outside.{CountsFailure};
ghost use Rattle.ledger_disk.specs.Calls.{WhereTold, is_failed_call};
ghost use Rattle.ledger_disk.specs.Moments.{last_content};
ghost use Rattle.ledger_disk.specs.declared.opening.DiskOpenError.TheVariants.{Foreign};
ghost use Rattle.ledger_disk.specs.Crashes.{FindsJust, IsSettled, MayBeFound, MayFind, Throughout, is_fault, stored_entries};
ghost use Rattle.ledger_disk.specs.Entries.{IsForeign, entries_on};
ghost use Rattle.ledger_disk.specs.Steps.{BecomesLedger, Closes, HoldsEntries, Makes};

use crate::reading::{has_magic, read_entries};
use crate::steps::try_put;
use crate::{Disk, DiskFailed};
use std::alloc::Global;
use sv2_types::Blob;
use thiserror::Error;

/// Why a disk wasn't opened.
#[derive(Clone, Copy, Debug, Error)]
pub enum DiskOpenError {
    #[error("the disk failed")]
    Fault,
    #[error("the disk holds something else")]
    Foreign,
    #[error("no memory for the ledger")]
    Memory,
}

/// Opens a disk, and answers its entries and the place of its last gate; none of both where it is
/// foreign.
pub(crate) fn open_disk<D: Disk>(
    alloc: Global,
    disk: &mut D,
) -> Result<Option<(Vec<Blob>, u64)>, DiskFailed>
    ensures opens { IfOk result (λ found. IfSome found (λ opened. WhereTold (D.seen disk.old).log
        (λ log. BecomesLedger opened.1 opened.0.items log (D.seen disk.new).log))) }
    ensures foreign { IfOk result (λ found. IfNone found (WhereTold (D.seen disk.old).log
        (λ log. IsForeign (last_content log)))) }
    ensures untouched { WhereTold (D.seen disk.old).log
        (λ log. IsForeign (last_content log) → (D.seen disk.new).log ≡ Some log) }
    ensures crash { WhereTold (D.seen disk.old).log (λ log. IsSettled log
        → FindsJust (entries_on (last_content log)) (MayFind log) (MayBeFound (D.seen disk.new))) }
    ensures during { WhereTold (D.seen disk.old).log (λ log. IsSettled log
        → Throughout (λ now. stored_entries now ≡ entries_on (last_content log)) log
        (D.seen disk.new).log) }
    ensures untold { (D.seen disk.old).log ≡ None → (D.seen disk.new).log ≡ None }
    ensures counts { CountsFailure (is_failed_call result) (D.seen disk.old).faults
        (D.seen disk.new).faults }
{
    let size = disk.length()?;
    if size <= 8 {
        make_ledger(disk)?;
        return Ok(Some((Vec::new(alloc), 8)));
    }
    if !has_magic(disk)? {
        return Ok(None);
    }
    let (entries, gate) = read_entries(alloc, disk, size)?;
    close_behind(disk, gate)?;
    Ok(Some((entries, gate)))
}

/// Makes a ledger of no entry, of whatever is there, in five steps: all is cut off; the magic is
/// written; that is synced; a closed gate is written behind it; that is synced.
fn make_ledger<D: Disk>(disk: &mut D) -> Result<(), DiskFailed>
    ensures makes { WhereTold (D.seen disk.old).log
        (λ log. Makes result log (D.seen disk.new).log) }
    ensures untold { (D.seen disk.old).log ≡ None → (D.seen disk.new).log ≡ None }
    ensures counts { CountsFailure (is_failed_call result) (D.seen disk.old).faults
        (D.seen disk.new).faults }
{
    disk.cut(0)?;
    try_put(disk, 0, b"SV2DISK1")?;
    try_put(disk, 8, &[0])
}

/// Makes a ledger of the entries that stand before this place, in four steps: what is behind one byte
/// there is cut off; that is synced; a closed gate is written there; that is synced.
fn close_behind<D: Disk>(disk: &mut D, gate: u64) -> Result<(), DiskFailed>
    requires few { gate < 2 ^ 64 - 1 }
    requires holds { WhereTold (D.seen disk.old).log
        (λ log. HoldsEntries gate (entries_on (last_content log)) (last_content log)) }
    ensures closes { WhereTold (D.seen disk.old).log (λ log.
        Closes result gate (entries_on (last_content log)) log (D.seen disk.new).log) }
    ensures untold { (D.seen disk.old).log ≡ None → (D.seen disk.new).log ≡ None }
    ensures counts { CountsFailure (is_failed_call result) (D.seen disk.old).faults
        (D.seen disk.new).faults }
{
    disk.cut(gate + 1)?;
    disk.sync()?;
    try_put(disk, gate, &[0])
}

/// What is said where a disk failed.
pub(crate) fn open_failed(error: DiskFailed) -> DiskOpenError
    ensures fault { is_fault result ≡ is_failed_call {A = Unit {0}} (Err error) }
    ensures known { result ≢ Foreign }
{
    match error {
        DiskFailed::Failed => DiskOpenError::Fault,
        DiskFailed::Memory => DiskOpenError::Memory,
    }
}
