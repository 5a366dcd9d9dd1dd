//! The records of a ledger, kept again.

ghost use Rattle.std.specs.Prelude.{◌≡◌, ◌↔◌, ◌+◌, ◌≤◌, ◌++◌, length, IfNone, IfOk, IfSome, IsTrue, OnErr};
ghost use Rattle.pool_io.specs.Outside.{AddsRecord, CountsFailure, is_failed_append};
ghost use Rattle.pool_history.specs.Ledger as ledger;
ghost use Rattle.ledger_audit.specs.Copying.{KeepsAgain, KeepsRecords};
ghost use Rattle.ledger_audit.specs.Cutting.{IsCutOff, IsWholeRecord, SplitsMagic};

use crate::{BODY_LIMIT, Format, HEAD_LEN, body_len};
use ledger_records::{MAGIC, chain, magic_hash};
use pool_io::{Keeper, KeeperFailed};
use std::alloc::{AllocError, Global};

/// Appends the ledger of format 2 of the history that a ledger of either format says, a piece for
/// each record, and answers how many events it has.
pub fn append_ledger<K: Keeper>(
    alloc: Global,
    bytes: &[u8],
    keeper: &mut K,
) -> Result<u64, KeeperFailed>
    ensures kept { KeepsAgain bytes.now (K.seen keeper.old).records (K.seen keeper.new).records result }
    ensures counts { CountsFailure (is_failed_append result) (K.seen keeper.old).faults
        (K.seen keeper.new).faults }
{
    let (format, records) = split_magic(bytes);
    if records.is_empty() {
        keeper.append(MAGIC.as_slice())?;
        return Ok(0);
    }
    append_records(alloc, format, records, keeper)
}

/// The format of a ledger, and what stands behind its magic.
fn split_magic(bytes: &[u8]) -> (Format, &[u8])
    ensures { SplitsMagic result.0 bytes.now result.1.now }
{
    let (magic, records) = bytes.split_at(MAGIC.len().min(bytes.len()));
    if is_magic(magic) {
        (Format::Chained, records)
    } else {
        (Format::Plain, records)
    }
}

/// Whether bytes are the magic of format 2.
fn is_magic(bytes: &[u8]) -> bool
    ensures { IsTrue result ↔ (bytes.now ≡ ledger.magic_2) }
{
    bytes == MAGIC.as_slice()
}

/// Appends the records, the first one behind the magic.
fn append_records<K: Keeper>(
    alloc: Global,
    format: Format,
    records: &[u8],
    keeper: &mut K,
) -> Result<u64, KeeperFailed>
    ensures kept { KeepsRecords format records.now (K.seen keeper.old).records (K.seen keeper.new).records
        result }
    ensures counts { CountsFailure (is_failed_append result) (K.seen keeper.old).faults
        (K.seen keeper.new).faults }
{
    let mut rest = records;
    let mut head = MAGIC.as_slice();
    let mut hash = magic_hash();
    let mut count = 0;
    while let Some((record, behind)) = next_record(format, rest) {
        hash = append_piece(alloc, head, record, &hash, keeper)?;
        head = &[];
        rest = behind;
        count += 1;
    }
    Ok(count)
}

/// The record that bytes begin with, and what stands behind it and its hash; nothing where they
/// aren't all there.
fn next_record(format: Format, bytes: &[u8]) -> Option<(&[u8], &[u8])>
    ensures found { IfSome result
        (λ found. IsWholeRecord format bytes.now found.0.now found.1.now) }
    ensures none { IfNone result (IsCutOff format bytes.now) }
{
    let len = body_len(bytes)?;
    if len > BODY_LIMIT || bytes.len() < HEAD_LEN + len + format.hash_len() {
        return None;
    }
    let (record, behind) = bytes.split_at(HEAD_LEN + len);
    Some((record, &behind[format.hash_len()..]))
}

/// Appends a record behind what stands before it in its piece, and the hash over it and all before
/// it, which it answers.
fn append_piece<K: Keeper>(
    alloc: Global,
    head: &[u8],
    bytes: &[u8],
    before: &[u8; 32],
    keeper: &mut K,
) -> Result<[u8; 32], KeeperFailed>
    requires { length head.now + length bytes.now ≤ 300060 }
    ensures hash { IfOk result (λ hash. hash ≡ ledger.chain before.now bytes.now) }
    ensures kept { IfOk result (λ hash. AddsRecord (K.seen keeper.old).records (K.seen keeper.new).records
        (head.now ++ bytes.now ++ hash)) }
    ensures refused { OnErr result ((K.seen keeper.new).records ≡ (K.seen keeper.old).records) }
    ensures counts { CountsFailure (is_failed_append result) (K.seen keeper.old).faults
        (K.seen keeper.new).faults }
{
    let hash = chain(before, bytes);
    let Ok(piece) = piece_of(alloc, head, bytes, &hash) else {
        return Err(KeeperFailed::Memory);
    };
    match keeper.append(&piece) {
        Ok(()) => Ok(hash),
        Err(error) => Err(error),
    }
}

/// What stands before a record, the record, and its hash.
fn piece_of(
    alloc: Global,
    head: &[u8],
    bytes: &[u8],
    hash: &[u8; 32],
) -> Result<Vec<u8>, AllocError>
    ensures { IfOk result (λ piece. piece.items ≡ head.now ++ bytes.now ++ hash.now) }
{
    let mut piece = head.to_vec(alloc)?;
    piece.extend_from_slice(bytes)?;
    piece.extend_from_slice(hash)?;
    Ok(piece)
}
