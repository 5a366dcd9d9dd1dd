//! Transactions from bytes, from left to right.

ghost use Rattle.std.specs.Prelude.{◌≡◌, ℕ, ◌^◌, length, IfOk, Result};
ghost use Rattle.std.specs.Int.{w8, w16, w32, w64};
ghost use Rattle.coinbase.specs.Cursors.{TakesField, TakesFieldAs};
ghost use Rattle.coinbase.specs.Form as form;
ghost use Rattle.coinbase.specs.Reading as reading;
ghost use Rattle.coinbase.specs.Reading.{ReadsTx};
ghost use Rattle.coinbase.specs.declared.error.TxError.{TxError};

use crate::cursor::Cursor;
use crate::error::TxError;
use crate::tx::{Stack, Tx, TxIn, TxIns, TxOut, TxOuts, Witnesses};
use std::alloc::Global;
use sv2_types::Blob;

// A field of so many bytes.
fn bytes_at(count: u64, cursor: Cursor) -> Result<(&[u8], Cursor), TxError>
    ensures length { IfOk result (λ x. length x.0.now ≡ count) }
    ensures field { TakesFieldAs (λ x. x.now) result (reading.bytes_at count) cursor.entry }
{
    let count = count as usize;
    if cursor.left.len() < count {
        return Err(TxError::Short(cursor.at));
    }
    let (field, left) = cursor.left.split_at(count);
    Ok((
        field,
        Cursor {
            at: cursor.at + count,
            left,
        },
    ))
}

#[tactic(auto, unfolding(crate::specs::Reading::number_at))]
fn u8_at(cursor: Cursor) -> Result<(u8, Cursor), TxError>
    ensures { TakesField result (reading.number_at w8) cursor.entry }
{
    let (field, after) = bytes_at(1, cursor)?;
    Ok((field[0], after))
}

#[tactic(auto, unfolding(crate::specs::Reading::number_at))]
fn u32_at(cursor: Cursor) -> Result<(u32, Cursor), TxError>
    ensures { TakesField result (reading.number_at w32) cursor.entry }
{
    let (field, after) = bytes_at(4, cursor)?;
    let number = u32::from_le_bytes([field[0], field[1], field[2], field[3]]);
    Ok((number, after))
}

#[tactic(auto, unfolding(crate::specs::Reading::number_at))]
fn u64_at(cursor: Cursor) -> Result<(u64, Cursor), TxError>
    ensures { TakesField result (reading.number_at w64) cursor.entry }
{
    let (field, after) = bytes_at(8, cursor)?;
    let number = u64::from_le_bytes([
        field[0], field[1], field[2], field[3], field[4], field[5], field[6], field[7],
    ]);
    Ok((number, after))
}

// A compact size of a mark and two bytes.
#[tactic(auto, unfolding(crate::specs::Reading::marked_at))]
fn marked_u16_at(cursor: Cursor) -> Result<(u64, Cursor), TxError>
    ensures { TakesField result (reading.marked_at w16 253) cursor.entry }
{
    let (field, after) = bytes_at(3, cursor)?;
    let size = u16::from_le_bytes([field[1], field[2]]);
    if size < 253 {
        return Err(TxError::LongSize(cursor.at));
    }
    Ok((u64::from(size), after))
}

// A compact size of a mark and four bytes.
#[tactic(auto, unfolding(crate::specs::Reading::marked_at))]
fn marked_u32_at(cursor: Cursor) -> Result<(u64, Cursor), TxError>
    ensures { TakesField result (reading.marked_at w32 (2 ^ 16)) cursor.entry }
{
    let (field, after) = bytes_at(5, cursor)?;
    let size = u32::from_le_bytes([field[1], field[2], field[3], field[4]]);
    if size < 0x1_0000 {
        return Err(TxError::LongSize(cursor.at));
    }
    Ok((u64::from(size), after))
}

// A compact size of a mark and eight bytes.
#[tactic(auto, unfolding(crate::specs::Reading::marked_at))]
fn marked_u64_at(cursor: Cursor) -> Result<(u64, Cursor), TxError>
    ensures { TakesField result (reading.marked_at w64 (2 ^ 32)) cursor.entry }
{
    let (field, after) = bytes_at(9, cursor)?;
    let size = u64::from_le_bytes([
        field[1], field[2], field[3], field[4], field[5], field[6], field[7], field[8],
    ]);
    if size < 0x1_0000_0000 {
        return Err(TxError::LongSize(cursor.at));
    }
    Ok((size, after))
}

#[tactic(auto, unfolding(crate::specs::Reading::compact_at))]
fn compact_at(cursor: Cursor) -> Result<(u64, Cursor), TxError>
    ensures { TakesField result reading.compact_at cursor.entry }
{
    let (first, after) = u8_at(cursor)?;
    match first {
        253 => marked_u16_at(cursor),
        254 => marked_u32_at(cursor),
        255 => marked_u64_at(cursor),
        _ => Ok((u64::from(first), after)),
    }
}

// Bytes behind their number.
#[tactic(auto, unfolding(crate::specs::Reading::sized_at))]
fn sized_at(cursor: Cursor) -> Result<(&[u8], Cursor), TxError>
    ensures { TakesFieldAs (λ x. x.now) result reading.sized_at cursor.entry }
{
    let (len, after) = compact_at(cursor)?;
    bytes_at(len, after)
}

// The same, copied.
fn blob_at(alloc: Global, cursor: Cursor) -> Result<(Blob, Cursor), TxError>
    ensures { TakesField result reading.sized_at cursor.entry }
{
    let (bytes, after) = sized_at(cursor)?;
    let bytes = Blob::of(alloc, bytes)?;
    Ok((bytes, after))
}

fn hash_at(cursor: Cursor) -> Result<([u8; 32], Cursor), TxError>
    ensures { TakesField result (reading.bytes_at 32) cursor.entry }
{
    let (field, after) = bytes_at(32, cursor)?;
    let mut hash = [0; 32];
    hash.copy_from_slice(field);
    Ok((hash, after))
}

#[tactic(auto, unfolding(crate::specs::Reading::input_at))]
fn input_at(alloc: Global, cursor: Cursor) -> Result<(TxIn, Cursor), TxError>
    ensures { TakesField result reading.input_at cursor.entry }
{
    let (previous, after) = hash_at(cursor)?;
    let (index, after) = u32_at(after)?;
    let (script, after) = blob_at(alloc, after)?;
    let (sequence, after) = u32_at(after)?;
    let input = TxIn {
        previous,
        index,
        script,
        sequence,
    };
    Ok((input, after))
}

#[tactic(auto, unfolding(crate::specs::Reading::output_at))]
pub(crate) fn output_at(alloc: Global, cursor: Cursor) -> Result<(TxOut, Cursor), TxError>
    ensures { TakesField result reading.output_at cursor.entry }
{
    let (value, after) = u64_at(cursor)?;
    let (script, after) = blob_at(alloc, after)?;
    Ok((TxOut { value, script }, after))
}

// What a transaction has many of.
trait Part: Drop {
    // The part that stands at a place, and the place after it.
    ghost part_at: { reading.Place → Result (Self × reading.Place) TxError };

    fn part_at(alloc: Global, cursor: Cursor) -> Result<(Self, Cursor), TxError>
    where
        Self: Sized,
        ensures { TakesField result part_at cursor.entry };
}

impl Part for TxIn {
    ghost part_at = { reading.input_at };

    fn part_at(alloc: Global, cursor: Cursor) -> Result<(TxIn, Cursor), TxError> {
        input_at(alloc, cursor)
    }
}

impl Part for TxOut {
    ghost part_at = { reading.output_at };

    fn part_at(alloc: Global, cursor: Cursor) -> Result<(TxOut, Cursor), TxError> {
        output_at(alloc, cursor)
    }
}

impl Part for Blob {
    ghost part_at = { reading.sized_at };

    fn part_at(alloc: Global, cursor: Cursor) -> Result<(Blob, Cursor), TxError> {
        blob_at(alloc, cursor)
    }
}

impl Part for Stack {
    ghost part_at = { reading.counted_at reading.sized_at };

    fn part_at(alloc: Global, cursor: Cursor) -> Result<(Stack, Cursor), TxError> {
        let (items, after) = counted_at(alloc, cursor)?;
        Ok((Stack::from_vec(items), after))
    }
}

// So many parts.
fn many_at<T: Part>(alloc: Global, count: u64, cursor: Cursor) -> Result<(Vec<T>, Cursor), TxError>
    ensures { TakesFieldAs (λ v. v.items) result (reading.many_at T.part_at count) cursor.entry }
{
    let mut parts = Vec::new(alloc);
    let mut after = cursor;
    for _ in 0..count {
        let (part, next) = T::part_at(alloc, after)?;
        parts.push(part)?;
        after = next;
    }
    Ok((parts, after))
}

// A count, and so many parts.
#[tactic(auto, unfolding(crate::specs::Reading::counted_at))]
fn counted_at<T: Part>(alloc: Global, cursor: Cursor) -> Result<(Vec<T>, Cursor), TxError>
    ensures { TakesFieldAs (λ v. v.items) result (reading.counted_at T.part_at) cursor.entry }
{
    let (count, after) = compact_at(cursor)?;
    many_at(alloc, count, after)
}

// The count of inputs behind marker and flag.
#[tactic(auto, unfolding(crate::specs::Reading::flagged_count_at))]
fn flagged_count_at(cursor: Cursor) -> Result<(u64, Cursor), TxError>
    ensures { TakesField result reading.flagged_count_at cursor.entry }
{
    let (count, after) = compact_at(cursor)?;
    if count == 0 {
        return Err(TxError::BadMarker);
    }
    Ok((count, after))
}

// The flag, and that count.
#[tactic(auto, unfolding(crate::specs::Reading::flagged_at))]
fn flagged_at(cursor: Cursor) -> Result<(u64, Cursor), TxError>
    ensures { TakesField result reading.flagged_at cursor.entry }
{
    let (flag, after) = u8_at(cursor)?;
    if flag != 1 {
        return Err(TxError::BadMarker);
    }
    flagged_count_at(after)
}

// Whether witnesses follow, and the count of inputs.
#[tactic(auto, unfolding(crate::specs::Reading::opening_at))]
fn opening_at(cursor: Cursor) -> Result<((bool, u64), Cursor), TxError>
    ensures { TakesField result reading.opening_at cursor.entry }
{
    let (count, after) = compact_at(cursor)?;
    if count != 0 {
        return Ok(((false, count), after));
    }
    let (count, after) = flagged_at(after)?;
    Ok(((true, count), after))
}

// Whether some witness has an item.
fn has_item(stacks: &[Stack]) -> bool
    ensures { result ≡ form.has_item stacks.now }
{
    stacks.iter().any(|stack| !stack.items().is_empty())
}

// The witnesses of so many inputs.
#[tactic(auto, unfolding(crate::specs::Reading::witnesses_at))]
fn witnesses_at(alloc: Global, inputs: u64, cursor: Cursor) -> Result<(Vec<Stack>, Cursor), TxError>
    ensures { TakesFieldAs (λ v. v.items) result (reading.witnesses_at inputs) cursor.entry }
{
    let (stacks, after) = many_at::<Stack>(alloc, inputs, cursor)?;
    if !has_item(&stacks) {
        return Err(TxError::EmptyWitness);
    }
    Ok((stacks, after))
}

// The same where they follow, and else none.
fn witnesses_if(
    alloc: Global,
    follow: bool,
    inputs: u64,
    cursor: Cursor,
) -> Result<(Vec<Stack>, Cursor), TxError>
    ensures { TakesFieldAs (λ v. v.items) result (reading.witnesses_if follow inputs) cursor.entry }
{
    if follow {
        witnesses_at(alloc, inputs, cursor)
    } else {
        Ok((Vec::new(alloc), cursor))
    }
}

#[tactic(auto, unfolding(crate::specs::Reading::tx_at))]
fn tx_at(alloc: Global, cursor: Cursor) -> Result<(Tx, Cursor), TxError>
    ensures { TakesField result reading.tx_at cursor.entry }
{
    let (version, after) = u32_at(cursor)?;
    let ((marked, count), after) = opening_at(after)?;
    let (inputs, after) = many_at(alloc, count, after)?;
    let (outputs, after) = counted_at(alloc, after)?;
    let (witnesses, after) = witnesses_if(alloc, marked, count, after)?;
    let (lock_time, after) = u32_at(after)?;
    let tx = Tx {
        version,
        inputs: TxIns::from_vec(inputs),
        outputs: TxOuts::from_vec(outputs),
        witnesses: Witnesses::from_vec(witnesses),
        lock_time,
    };
    Ok((tx, after))
}

// A transaction that is all of the bytes.
#[tactic(auto, unfolding(crate::specs::Reading::tx_of))]
pub(crate) fn tx_of(alloc: Global, bytes: &[u8]) -> Result<Tx, TxError>
    ensures { ReadsTx result (reading.tx_of bytes.now) }
{
    let (tx, after) = tx_at(alloc, Cursor::new(bytes))?;
    if !after.is_at_end() {
        return Err(TxError::Trailing(after.left.len()));
    }
    Ok(tx)
}
