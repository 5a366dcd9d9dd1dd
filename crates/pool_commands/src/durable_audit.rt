//! `durable audit`, over whatever host and disks: the disk is opened, then the output; the records that
//! are found are audited, and both are handed back.

ghost use Rattle.std.specs.Prelude.{◌≡◌, ◌<◌, ◌-◌, ◌++◌, IfOk, OnOk};
ghost use Rattle.ledger_audit.specs.Judging.{in_a_row};
ghost use Rattle.pool_io.specs.Hosts.{IsHandedBack};
ghost use Rattle.ledger_resume.specs.Books.{IsJustOpened};
ghost use Rattle.pool_commands.specs.DurableAuditing.{AuditsBytes, AuditsDisk, AuditsInMemory, AuditsWithDisk, DurableAuditRow, audited_bytes, turns_of};

use crate::durable_status::no_book_status;
use ledger_audit::audit;
use ledger_disk::{Disk, Disks};
use ledger_records::MAGIC;
use ledger_resume::open_ledger;
use pool_io::{Host, Piece, Sink, SureSource, Turn};
use std::alloc::{AllocError, Global};
use stream_commands::{Status, refusal_status};
use sv2_types::Blob;

/// Audits the records on the disk of a name, and puts what it finds to standard output; no record at
/// all is the history without events.
pub fn audit_on_disk<H: Host, V: Disks>(
    alloc: Global,
    host: &mut H,
    disks: &mut V,
    ledger_name: &str,
) -> Status
    ensures row { DurableAuditRow ledger_name.now
        (record { host = H.seen host.old; disks = V.seen disks.old })
        (record { host = H.seen host.new; disks = V.seen disks.new }) result }

    // Everything that was given has come back.
    ensures back { IsHandedBack (H.seen host.old) (H.seen host.new) }
    ensures disks { (V.seen disks.new).disks.lent ≡ (V.seen disks.old).disks.lent }
{
    match disks.open_disk(ledger_name) {
        Ok(disk) => audit_to_output(alloc, host, disks, disk),
        Err(error) => refusal_status(error),
    }
}

/// The same of a disk that was given.
fn audit_to_output<H: Host, V: Disks>(
    alloc: Global,
    host: &mut H,
    disks: &mut V,
    disk: V::Z,
) -> Status
    requires out { 0 < (V.seen disks.old).disks.lent }
    requires opened { IsJustOpened (V.Z.seen disk) }
    ensures row { AuditsWithDisk (V.Z.seen disk)
        (record { host = H.seen host.old; disks = V.seen disks.old })
        (record { host = H.seen host.new; disks = V.seen disks.new }) result }
    ensures back { IsHandedBack (H.seen host.old) (H.seen host.new) }
    ensures disks { (V.seen disks.new).disks.lent ≡ (V.seen disks.old).disks.lent - 1 }
{
    let mut sink = match host.output() {
        Ok(sink) => sink,
        Err(error) => {
            disks.done_disk(disk);
            return refusal_status(error);
        }
    };
    let (disk, status) = audit_disk(alloc, disk, &mut sink);
    host.done_sink(sink);
    disks.done_disk(disk);
    status
}

/// Audits the records on a disk.
fn audit_disk<D: Disk, T: Sink>(alloc: Global, disk: D, sink: &mut T) -> (D, Status)
    requires { IsJustOpened (D.seen disk) }
    ensures { AuditsDisk (D.seen disk) (D.seen result.0) (T.seen sink.old) (T.seen sink.new)
        result.1 }
{
    match open_ledger(alloc, disk) {
        Ok((ledger, records)) => {
            let status = audit_records(alloc, &records, sink);
            (ledger.into_disk(), status)
        }
        Err((disk, cause)) => (disk, no_book_status(cause)),
    }
}

/// Audits records.
fn audit_records<T: Sink>(alloc: Global, records: &[Blob], sink: &mut T) -> Status
    ensures { AuditsInMemory records.now (T.seen sink.old) (T.seen sink.new) result }
{
    match bytes_to_audit(alloc, records) {
        Ok(bytes) => audit_bytes(alloc, bytes, sink),
        Err(_) => Status::Memory,
    }
}

/// Audits bytes that come at once.
fn audit_bytes<T: Sink>(alloc: Global, bytes: Vec<u8>, sink: &mut T) -> Status
    ensures { AuditsBytes bytes.items (T.seen sink.old) (T.seen sink.new) result }
{
    match all_at_once(alloc, bytes) {
        Ok(turns) => {
            let mut source = SureSource::of(turns);
            audit(alloc, &mut source, sink).status()
        }
        Err(_) => Status::Memory,
    }
}

/// A source's turns that bring bytes at once, if there are any.
fn all_at_once(alloc: Global, bytes: Vec<u8>) -> Result<Vec<Turn>, AllocError>
    ensures { IfOk result (λ turns. turns.items ≡ turns_of bytes.items) }
{
    let mut turns = Vec::new(alloc);
    if !bytes.is_empty() {
        turns.push(Turn::Piece(Piece::of(bytes)))?;
    }
    Ok(turns)
}

/// What is audited of records: their bytes in a row, or the magic alone where there is none.
fn bytes_to_audit(alloc: Global, records: &[Blob]) -> Result<Vec<u8>, AllocError>
    ensures { IfOk result (λ bytes. bytes.items ≡ audited_bytes records.now) }
{
    match records.split_first() {
        Some((_first, _later)) => in_row(alloc, records),
        None => MAGIC.as_slice().to_vec(alloc),
    }
}

/// The bytes of records, one behind the other.
fn in_row(alloc: Global, records: &[Blob]) -> Result<Vec<u8>, AllocError>
    ensures { IfOk result (λ row. row.items ≡ in_a_row records.now) }
{
    let mut row = Vec::new(alloc);
    for record in records {
        match add(&mut row, record.bytes()) {
            Ok(()) => {}
            Err(error) => return Err(error),
        }
    }
    Ok(row)
}

/// Adds bytes behind a row.
fn add(row: &mut Vec<u8>, bytes: &[u8]) -> Result<(), AllocError>
    ensures { OnOk result (row.new.items ≡ row.old.items ++ bytes.now) }
{
    row.extend_from_slice(bytes)
}
