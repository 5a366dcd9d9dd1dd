//! Why records are those of no history, found slowly.

ghost use Rattle.std.specs.Prelude.{◌≡◌, ◌↔◌, ◌+◌, IsTrue};
ghost use Rattle.ledger_audit.specs.Judging.{in_a_row};
ghost use Rattle.ledger_resume.specs.Cutting.{AreLedger, IsCutAsPiece, lead_len};
ghost use Rattle.ledger_resume.specs.Refusals.{HaveMagic, IsRefusalOf};
ghost use Rattle.ledger_resume.specs.Restoring.{HaveNoHistory};

use crate::error::ResumeError;
use ledger_audit::{HEAD_LEN, Verdict, body_len, verdict_of};
use ledger_records::MAGIC;
use std::alloc::Global;
use sv2_types::Blob;

/// How long a record without a body is with its hash.
const UNIT_LEN: usize = HEAD_LEN + 32;

/// The error that fits records of which no history is kept.
pub(crate) fn refusal_of(alloc: Global, records: &[Blob]) -> ResumeError
    requires { HaveNoHistory records.now }
    ensures { IsRefusalOf records.now result }
{
    if !have_magic(records) {
        return ResumeError::NotALedger(0);
    }
    match verdict_of(alloc, records) {
        Ok(Verdict::Legal) => first_cut_otherwise(records),
        Ok(Verdict::Illegal(number, _)) => ResumeError::Illegal(number),
        Ok(Verdict::BrokenChain(number)) => ResumeError::Broken(number),
        Ok(Verdict::NotALedger(place)) => ResumeError::NotALedger(place),
        Err(_) => ResumeError::Memory,
    }
}

/// Whether the bytes of the records in a row begin with the magic, wherever they are cut.
fn have_magic(records: &[Blob]) -> bool
    ensures { IsTrue result ↔ HaveMagic (in_a_row records.now) }
{
    let mut left = MAGIC.as_slice();
    for record in records {
        let bytes = record.bytes();
        let count = left.len().min(bytes.len());
        if !are_same(&left[..count], &bytes[..count]) {
            return false;
        }
        left = &left[count..];
    }
    left.is_empty()
}

/// The error at the first record that isn't cut as a piece of the ledger that they all are.
fn first_cut_otherwise(records: &[Blob]) -> ResumeError
    requires ledger { AreLedger (in_a_row records.now) }
    requires none { HaveNoHistory records.now }
    ensures { IsRefusalOf records.now result }
{
    let mut place: u64 = 0;
    for (index, record) in records.iter().enumerate() {
        if !is_cut_as_piece(index == 0, record.bytes()) {
            return ResumeError::NotALedger(place);
        }
        match place.checked_add(record.bytes().len() as u64) {
            Some(next) => place = next,
            None => return ResumeError::Memory,
        }
    }
    unreachable!()
}

/// Whether these are the same bytes.
fn are_same(bytes: &[u8], others: &[u8]) -> bool
    ensures { IsTrue result ↔ (bytes.now ≡ others.now) }
{
    bytes == others
}

/// Whether bytes are as long as the record that they say, with its hash, and with the magic before
/// the first.
fn is_cut_as_piece(is_first: bool, bytes: &[u8]) -> bool
    ensures { IsTrue result ↔ IsCutAsPiece is_first bytes.now }
{
    let start = start_of(is_first);
    if bytes.len() < start {
        return false;
    }
    let unit = &bytes[start..];
    match body_len(unit) {
        Some(len) => is_long_as(unit.len(), len),
        None => false,
    }
}

/// How many bytes stand before a record in its piece.
fn start_of(is_first: bool) -> usize
    ensures { result ≡ lead_len is_first }
{
    if is_first { MAGIC.len() } else { 0 }
}

/// Whether this is the length of a record with such a body and of its hash.
fn is_long_as(unit: usize, body: usize) -> bool
    ensures { IsTrue result ↔ (unit ≡ 4 + body + 32) }
{
    unit >= UNIT_LEN && unit - UNIT_LEN == body
}
