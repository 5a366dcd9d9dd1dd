//! The ledger: its entries stand behind each other, and a gate before each says whether it counts.

ghost use Rattle.std.specs.Prelude.{◌≡◌, ◌≤◌, ◌<◌, ◌^◌, ◌++◌, ◌∷◌, [], IfErr, IfOk, None, OnErr, OnOk, Some, false, length, List, ℕ};
ghost use Rattle.std.specs.Option.{option_map};
ghost use Rattle.pool_io.specs.Crashes.{FindsMore, IsSettledWith, StoresNext};
ghost use Rattle.pool_io.specs.Outside.{AddsRecord, CountsFailure, is_failed_append};
ghost use Rattle.ledger_disk.specs.Calls.{WhereTold, fresh_disk};
ghost use Rattle.ledger_disk.specs.Moments.{last_content};
ghost use Rattle.ledger_disk.specs.declared.opening.DiskOpenError.TheVariants.{Foreign};
ghost use Rattle.ledger_disk.specs.Crashes.{FindsJust, IsSettled, LeavesStored, MayBeFound, MayFind, StoresMore, Throughout, counts_told, disk_after, entries_told, is_failed_opening, stored_entries};
ghost use Rattle.ledger_disk.specs.Entries.{IsForeign, Opens, body, entries_on};
ghost use Rattle.ledger_disk.specs.Steps.{Adds, HoldsLedger, Shuts, keeper_failed_by};

use crate::opening::{DiskOpenError, open_disk, open_failed};
use crate::steps::{PutFailed, put};
use crate::{Disk, DiskFailed};
use pool_io::{Keeper, KeeperFailed};
use std::alloc::{AllocError, Global};
use std::marker::Model;
use sv2_types::Blob;

/// A disk that holds a ledger. Contracts see its disk.
#[derive(Drop)]
pub struct DiskLedger<D: Disk> {
    alloc: Global,
    disk: D,
    /// The place of the last gate.
    gate: u64,
    /// Whether that gate may be open.
    is_torn: bool,
}

impl<D: Disk> Model for DiskLedger<D> {
    ghost use Rattle.ledger_disk.specs.Calls.{DiskSeen};
    ghost use Rattle.ledger_disk.specs.Steps.{IsOnDisk};

    ghost Value = { DiskSeen };

    ghost view = { λ l. D.seen l.disk };

    ghost invariant = { λ l. IsOnDisk l.gate l.is_torn (D.seen l.disk).log };
}

/// No entry is added where the last gate stands at this place or behind it.
const MOST: u64 = 1 << 62;

impl<D: Disk> DiskLedger<D> {
    /// Opens the ledger on a disk, and answers its entries; a disk of at most eight bytes is made one of
    /// no entry. What stands behind the entries is cut off, and their last gate closed. After a fault
    /// and after lack of memory this may have been done in part.
    pub fn open(alloc: Global, disk: D) -> Result<(DiskLedger<D>, Vec<Blob>), (D, DiskOpenError)>
        ensures found { IfOk result (λ opened. WhereTold (D.seen disk).log
            (λ log. Opens (last_content log) (Some opened.1.items))) }
        ensures kept { IfOk result (λ opened. entries_told opened.0
            ≡ option_map (λ log. opened.1.items) (D.seen disk).log) }
        ensures stored { IfOk result (λ opened. WhereTold opened.0.log LeavesStored) }
        ensures foreign { IfErr result (λ back. back.1 ≡ Foreign
            → WhereTold (D.seen disk).log (λ log. IsForeign (last_content log))) }
        ensures untouched { WhereTold (D.seen disk).log (λ log. IsForeign (last_content log)
            → (disk_after (λ opened. opened.0) (λ back. D.seen back.0) result).log ≡ Some log) }
        ensures crash { WhereTold (D.seen disk).log (λ log. IsSettled log
            → FindsJust (entries_on (last_content log)) (MayFind log)
            (MayBeFound (disk_after (λ opened. opened.0) (λ back. D.seen back.0) result))) }
        ensures during { WhereTold (D.seen disk).log (λ log. IsSettled log
            → Throughout (λ now. stored_entries now ≡ entries_on (last_content log)) log
            (disk_after (λ opened. opened.0) (λ back. D.seen back.0) result).log) }
        ensures settled { IfOk result (λ opened. (content : List ℕ)
            → (D.seen disk).log ≡ (fresh_disk content).log
            → IsSettledWith (counts_told opened.0) (MayBeFound opened.0) opened.1.items) }
        ensures counts { CountsFailure (is_failed_opening result) (D.seen disk).faults
            (disk_after (λ opened. opened.0) (λ back. D.seen back.0) result).faults }
    {
        let mut disk = disk;
        match open_disk(alloc, &mut disk) {
            Ok(Some((entries, gate))) => {
                let ledger = DiskLedger {
                    alloc,
                    disk,
                    gate,
                    is_torn: false,
                };
                Ok((ledger, entries))
            }
            Ok(None) => Err((disk, DiskOpenError::Foreign)),
            Err(error) => Err((disk, open_failed(error))),
        }
    }

    /// Adds an entry of at most 300,100 bytes, in four steps: it is written behind the last gate, with
    /// a closed gate behind it; that is synced; the gate before it is opened; that is synced.
    pub fn append(&mut self, bytes: &[u8]) -> Result<(), KeeperFailed>
        requires { length bytes.now ≤ 300100 }
        ensures kept { OnOk result (AddsRecord (entries_told self.old) (entries_told self.new)
            bytes.now) }
        ensures refused { OnErr result (entries_told self.new ≡ entries_told self.old) }
        ensures stored { OnOk result (WhereTold self.new.log LeavesStored) }
        ensures crash { (before : List (List ℕ)) → entries_told self.old ≡ Some before
            → FindsMore before bytes.now result (MayBeFound self.old) (MayBeFound self.new) }
        ensures moments { (before : List (List ℕ)) → entries_told self.old ≡ Some before
            → StoresNext result (length before) (counts_told self.old) (counts_told self.new) }
        ensures during { WhereTold self.old.log (λ log. Throughout
            (λ now. StoresMore (stored_entries log) bytes.now result (stored_entries now)) log
            self.new.log) }
        ensures counts { CountsFailure (is_failed_append result) self.old.faults self.new.faults }
    {
        let Ok(entry) = entry_of(self.alloc, bytes) else {
            return Err(KeeperFailed::Memory);
        };
        if self.gate >= MOST {
            return Err(KeeperFailed::Memory);
        }
        write_entry(
            &mut self.disk,
            &mut self.gate,
            &mut self.is_torn,
            bytes,
            entry.as_slice(),
        )
    }

    /// The disk, as it stands.
    pub fn into_disk(self) -> D
        ensures { D.seen result ≡ self }
    {
        let DiskLedger { disk, .. } = self;
        disk
    }
}

impl<D: Disk> Keeper for DiskLedger<D> {
    ghost use Rattle.ledger_disk.specs.Crashes.{MayBeFound, counts_told, entries_told};

    ghost seen = { λ disk. record {
      faults = disk.faults;
      records = entries_told disk;
      stored = counts_told disk;
    } };

    ghost may_find = { λ disk. MayBeFound disk };

    fn append(&mut self, bytes: &[u8]) -> Result<(), KeeperFailed> {
        DiskLedger::append(self, bytes)
    }
}

/// The length and the bytes of an entry, and a closed gate behind it.
fn entry_of(alloc: Global, bytes: &[u8]) -> Result<Vec<u8>, AllocError>
    requires { length bytes.now ≤ 300100 }
    ensures { IfOk result (λ entry. entry.items ≡ body bytes.now ++ 0 ∷ []) }
{
    let mut entry = Vec::with_capacity(alloc, bytes.len() + 5)?;
    entry.extend_from_slice(&(bytes.len() as u32).to_le_bytes())?;
    entry.extend_from_slice(bytes)?;
    entry.push(0)?;
    Ok(entry)
}

/// Closes the last gate, if it may be open, and adds an entry.
fn write_entry<D: Disk>(
    disk: &mut D,
    gate: &mut u64,
    is_torn: &mut bool,
    bytes: &[u8],
    entry: &[u8],
) -> Result<(), KeeperFailed>
    requires fits { length bytes.now ≤ 300100 }
    requires few { gate.old < 2 ^ 62 }
    requires entry { entry.now ≡ body bytes.now ++ 0 ∷ [] }
    requires holds { WhereTold (D.seen disk.old).log
        (λ log. HoldsLedger gate.old is_torn.old (stored_entries log) log) }
    ensures adds { WhereTold (D.seen disk.old).log
        (λ log. Adds bytes.now result gate.old log gate.new (D.seen disk.new).log is_torn.new) }
    ensures untold { (D.seen disk.old).log ≡ None → (D.seen disk.new).log ≡ None }
    ensures counts { CountsFailure (is_failed_append result) (D.seen disk.old).faults
        (D.seen disk.new).faults }
{
    shut(disk, *gate, is_torn)?;
    add(disk, gate, is_torn, bytes, entry)
}

/// Closes the last gate, if it may be open.
fn shut<D: Disk>(disk: &mut D, gate: u64, is_torn: &mut bool) -> Result<(), KeeperFailed>
    requires { WhereTold (D.seen disk.old).log
        (λ log. HoldsLedger gate is_torn.old (stored_entries log) log) }
    ensures shuts { WhereTold (D.seen disk.old).log
        (λ log. Shuts gate log (D.seen disk.new).log is_torn.new) }
    ensures shut { OnOk result (is_torn.new ≡ false) }
    ensures untold { (D.seen disk.old).log ≡ None → (D.seen disk.new).log ≡ None }
    ensures counts { CountsFailure (is_failed_append result) (D.seen disk.old).faults
        (D.seen disk.new).faults }
{
    if !*is_torn {
        return Ok(());
    }
    match put(disk, gate, &[0]) {
        Ok(()) => {
            *is_torn = false;
            Ok(())
        }
        Err(PutFailed::Unwritten) => Err(KeeperFailed::Memory),
        Err(PutFailed::Unsure(error)) => Err(keeper_failed(error)),
    }
}

/// Adds an entry behind a gate that is closed.
fn add<D: Disk>(
    disk: &mut D,
    gate: &mut u64,
    is_torn: &mut bool,
    bytes: &[u8],
    entry: &[u8],
) -> Result<(), KeeperFailed>
    requires fits { length bytes.now ≤ 300100 }
    requires few { gate.old < 2 ^ 62 }
    requires entry { entry.now ≡ body bytes.now ++ 0 ∷ [] }
    requires shut { is_torn.old ≡ false }
    requires holds { WhereTold (D.seen disk.old).log
        (λ log. HoldsLedger gate.old false (stored_entries log) log) }
    ensures adds { WhereTold (D.seen disk.old).log
        (λ log. Adds bytes.now result gate.old log gate.new (D.seen disk.new).log is_torn.new) }
    ensures untold { (D.seen disk.old).log ≡ None → (D.seen disk.new).log ≡ None }
    ensures counts { CountsFailure (is_failed_append result) (D.seen disk.old).faults
        (D.seen disk.new).faults }
{
    match put(disk, *gate + 1, entry) {
        Ok(()) => {}
        Err(PutFailed::Unwritten) => return Err(KeeperFailed::Memory),
        Err(PutFailed::Unsure(error)) => return Err(keeper_failed(error)),
    }
    match put(disk, *gate, &[1]) {
        Ok(()) => {
            *gate += 5 + bytes.len() as u64;
            Ok(())
        }
        Err(PutFailed::Unwritten) => Err(KeeperFailed::Memory),
        Err(PutFailed::Unsure(error)) => {
            *is_torn = true;
            Err(keeper_failed(error))
        }
    }
}

/// What a ledger says where its disk failed.
fn keeper_failed(error: DiskFailed) -> KeeperFailed
    ensures is { result ≡ keeper_failed_by error }
{
    match error {
        DiskFailed::Failed => KeeperFailed::Failed,
        DiskFailed::Memory => KeeperFailed::Memory,
    }
}
