//! One record with its hash.

ghost use Rattle.std.specs.Prelude.{◌≡◌, ◌++◌, ◌↔◌, ℕ, IfNone, IfOk, IfSome, IsTrue, List};
ghost use Rattle.pool_history.specs.declared.events.Event.{Event as Happened};
ghost use Rattle.pool_history.specs.Ledger.{magic_2};
ghost use Rattle.ledger_resume.specs.Refusals.{HaveMagic};
ghost use Rattle.ledger_resume.specs.Restoring.{AreNoUnit, IsSomeUnit, IsUnitOf};

use ledger_records::{MAGIC, RecordError, chain, read_record};
use pool_history::Event;
use std::alloc::{AllocError, Global};

/// The event whose record and hash these bytes are, behind the hash before it, which becomes its
/// hash; none where they are no such record, or more than one.
pub(crate) fn read_unit(
    alloc: Global,
    hash: &mut [u8; 32],
    bytes: &[u8],
) -> Result<Option<Event>, AllocError>
    ensures some { IfOk result
        (λ found. IfSome found (λ event. IsUnitOf hash.old bytes.now event hash.new)) }
    ensures none { IfOk result (λ found. IfNone found (AreNoUnit hash.old bytes.now)) }
{
    let (event, len) = match read_record(alloc, bytes) {
        Ok(read) => read,
        Err(RecordError::Memory) => return Err(AllocError),
        Err(RecordError::NotWhole | RecordError::NoRecord) => return Ok(None),
    };
    let (record, behind) = bytes.split_at(len);
    let next = chain(hash, record);
    if is_hash(behind, &next) {
        *hash = next;
        Ok(Some(event))
    } else {
        Ok(None)
    }
}

/// The same event once more. Its hash isn't computed again.
pub(crate) fn read_again(alloc: Global, bytes: &[u8]) -> Result<Event, AllocError>
    requires { IsSomeUnit bytes.now }
    ensures { (before : List ℕ) (event : Happened) (hash : List ℕ)
        → IsUnitOf before bytes.now event hash → IfOk result (λ again. again ≡ event) }
{
    match read_record(alloc, bytes) {
        Ok((event, _)) => Ok(event),
        Err(RecordError::Memory) => Err(AllocError),
        Err(RecordError::NotWhole | RecordError::NoRecord) => unreachable!(),
    }
}

/// Whether bytes are a hash.
fn is_hash(bytes: &[u8], hash: &[u8; 32]) -> bool
    ensures { IsTrue result ↔ (bytes.now ≡ hash.now) }
{
    bytes == hash.as_slice()
}

/// What stands behind the magic, where that is there.
pub(crate) fn behind_magic(bytes: &[u8]) -> Option<&[u8]>
    ensures some { IfSome result (λ rest. bytes.now ≡ magic_2 ++ rest.now) }
    ensures none { IfNone result (HaveMagic bytes.now → ⊥) }
{
    if bytes.len() < MAGIC.len() {
        return None;
    }
    let (front, rest) = bytes.split_at(MAGIC.len());
    if front == MAGIC.as_slice() {
        Some(rest)
    } else {
        None
    }
}
