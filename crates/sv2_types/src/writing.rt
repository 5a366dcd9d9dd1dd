//! Spellings at the end of a buffer. Lack of memory leaves the buffer's bytes as they were.

ghost use Rattle.std.specs.Prelude.{◌≡◌, ◌<◌, ◌≤◌, ◌^◌, ◌++◌, length, OnOk, OnErr};
ghost use Rattle.sv2_types.specs.Reading.{numbers_of, parts_at};
ghost use Rattle.sv2_types.specs.Spelling.{spelled_u8, spelled_u16, spelled_u24, spelled_u32, spelled_u64, spelled_boolean, spelled_str255, spelled_b255, spelled_b64k, spelled_b16m, spelled_option_u32, spelled_seq_u256, spelled_seq64k_u256, spelled_seq_u16, spelled_seq_bytes};

use crate::hash::U256;
use crate::sequences::{Seq32, SeqBytes, SeqU16, spelled_numbers, spelled_parts};
use std::alloc::AllocError;

/// One byte.
pub fn put_u8(out: &mut Vec<u8>, value: u8) -> Result<(), AllocError>
    ensures ok { OnOk result (out.new.items ≡ out.old.items ++ spelled_u8 value) }
    ensures err { OnErr result (out.new.items ≡ out.old.items) }
{
    out.extend_from_slice(&[value])
}

/// Two bytes, low byte first.
pub fn put_u16(out: &mut Vec<u8>, value: u16) -> Result<(), AllocError>
    ensures ok { OnOk result (out.new.items ≡ out.old.items ++ spelled_u16 value) }
    ensures err { OnErr result (out.new.items ≡ out.old.items) }
{
    out.extend_from_slice(&value.to_le_bytes())
}

/// Three bytes, low byte first.
pub fn put_u24(out: &mut Vec<u8>, value: u32) -> Result<(), AllocError>
    requires { value < 2 ^ 24 }
    ensures ok { OnOk result (out.new.items ≡ out.old.items ++ spelled_u24 value) }
    ensures err { OnErr result (out.new.items ≡ out.old.items) }
{
    let bytes = value.to_le_bytes();
    out.extend_from_slice(&bytes[..3])
}

/// Four bytes, low byte first.
pub fn put_u32(out: &mut Vec<u8>, value: u32) -> Result<(), AllocError>
    ensures ok { OnOk result (out.new.items ≡ out.old.items ++ spelled_u32 value) }
    ensures err { OnErr result (out.new.items ≡ out.old.items) }
{
    out.extend_from_slice(&value.to_le_bytes())
}

/// Eight bytes, low byte first.
pub fn put_u64(out: &mut Vec<u8>, value: u64) -> Result<(), AllocError>
    ensures ok { OnOk result (out.new.items ≡ out.old.items ++ spelled_u64 value) }
    ensures err { OnErr result (out.new.items ≡ out.old.items) }
{
    out.extend_from_slice(&value.to_le_bytes())
}

/// One byte of length, then the text.
pub fn put_str255(out: &mut Vec<u8>, value: &str) -> Result<(), AllocError>
    requires { length value.now ≤ 255 }
    ensures ok { OnOk result (out.new.items ≡ out.old.items ++ spelled_str255 value.now) }
    ensures err { OnErr result (out.new.items ≡ out.old.items) }
{
    let bytes = value.as_bytes();
    append(out, &[bytes.len() as u8], bytes)
}

/// 32 bytes, as they stand.
pub fn put_u256(out: &mut Vec<u8>, value: U256) -> Result<(), AllocError>
    ensures ok { OnOk result (out.new.items ≡ out.old.items ++ value) }
    ensures err { OnErr result (out.new.items ≡ out.old.items) }
{
    out.extend_from_slice(value.bytes())
}

/// One byte, 0 or 1.
pub fn put_boolean(out: &mut Vec<u8>, value: bool) -> Result<(), AllocError>
    ensures ok { OnOk result (out.new.items ≡ out.old.items ++ spelled_boolean value) }
    ensures err { OnErr result (out.new.items ≡ out.old.items) }
{
    out.extend_from_slice(&[value as u8])
}

/// Four bytes, as they stand.
pub fn put_f32_bytes(out: &mut Vec<u8>, value: [u8; 4]) -> Result<(), AllocError>
    ensures ok { OnOk result (out.new.items ≡ out.old.items ++ value) }
    ensures err { OnErr result (out.new.items ≡ out.old.items) }
{
    out.extend_from_slice(&value)
}

/// One byte of length, then the bytes.
pub fn put_b255(out: &mut Vec<u8>, value: &[u8]) -> Result<(), AllocError>
    requires { length value.now ≤ 255 }
    ensures ok { OnOk result (out.new.items ≡ out.old.items ++ spelled_b255 value.now) }
    ensures err { OnErr result (out.new.items ≡ out.old.items) }
{
    append(out, &[value.len() as u8], value)
}

/// One byte of length, at most 32, then the bytes.
pub fn put_b32(out: &mut Vec<u8>, value: &[u8]) -> Result<(), AllocError>
    requires { length value.now ≤ 32 }
    ensures ok { OnOk result (out.new.items ≡ out.old.items ++ spelled_b255 value.now) }
    ensures err { OnErr result (out.new.items ≡ out.old.items) }
{
    append(out, &[value.len() as u8], value)
}

/// Two bytes of length, low byte first, then the bytes.
pub fn put_b64k(out: &mut Vec<u8>, value: &[u8]) -> Result<(), AllocError>
    requires { length value.now < 2 ^ 16 }
    ensures ok { OnOk result (out.new.items ≡ out.old.items ++ spelled_b64k value.now) }
    ensures err { OnErr result (out.new.items ≡ out.old.items) }
{
    append(out, &(value.len() as u16).to_le_bytes(), value)
}

/// Three bytes of length, low byte first, then the bytes.
pub fn put_b16m(out: &mut Vec<u8>, value: &[u8]) -> Result<(), AllocError>
    requires { length value.now < 2 ^ 24 }
    ensures ok { OnOk result (out.new.items ≡ out.old.items ++ spelled_b16m value.now) }
    ensures err { OnErr result (out.new.items ≡ out.old.items) }
{
    let len = (value.len() as u32).to_le_bytes();
    append(out, &len[..3], value)
}

/// A count of 0 or 1, then the number where there is one.
pub fn put_option_u32(out: &mut Vec<u8>, value: Option<u32>) -> Result<(), AllocError>
    ensures ok { OnOk result (out.new.items ≡ out.old.items ++ spelled_option_u32 value) }
    ensures err { OnErr result (out.new.items ≡ out.old.items) }
{
    match value {
        None => out.extend_from_slice(&[0]),
        Some(number) => append(out, &[1], &number.to_le_bytes()),
    }
}

/// One byte of count, then the items.
pub fn put_seq_u256(out: &mut Vec<u8>, value: Seq32<'_>) -> Result<(), AllocError>
    requires { length value.items.now < 2 ^ 8 }
    ensures ok { OnOk result (out.new.items ≡ out.old.items
        ++ spelled_seq_u256 value.entry.items.now) }
    ensures err { OnErr result (out.new.items ≡ out.old.items) }
{
    let items = value.items;
    append(out, &[items.len() as u8], items.as_flattened())
}

/// Two bytes of count, low byte first, then the items.
pub fn put_seq64k_u256(out: &mut Vec<u8>, value: Seq32<'_>) -> Result<(), AllocError>
    ensures ok { OnOk result (out.new.items ≡ out.old.items
        ++ spelled_seq64k_u256 value.entry.items.now) }
    ensures err { OnErr result (out.new.items ≡ out.old.items) }
{
    let items = value.items;
    append(
        out,
        &(items.len() as u16).to_le_bytes(),
        items.as_flattened(),
    )
}

/// Two bytes of count, low byte first, then the numbers.
pub fn put_seq_u16(out: &mut Vec<u8>, value: SeqU16<'_>) -> Result<(), AllocError>
    ensures ok { OnOk result (out.new.items ≡ out.old.items
        ++ spelled_seq_u16 (numbers_of value.entry.spelled.now)) }
    ensures err { OnErr result (out.new.items ≡ out.old.items) }
{
    let count = value.len() as u16;
    append(out, &count.to_le_bytes(), spelled_numbers(value.spelled))
}

/// Two bytes of count, low byte first, then the byte strings.
pub fn put_seq_bytes(out: &mut Vec<u8>, value: SeqBytes<'_>) -> Result<(), AllocError>
    ensures ok { OnOk result (out.new.items ≡ out.old.items
        ++ spelled_seq_bytes (parts_at value.entry.count value.entry.spelled.now)) }
    ensures err { OnErr result (out.new.items ≡ out.old.items) }
{
    let count = value.len() as u16;
    append(
        out,
        &count.to_le_bytes(),
        spelled_parts(value.spelled, count),
    )
}

/// Appends both parts, or neither where memory runs out.
fn append(out: &mut Vec<u8>, head: &[u8], body: &[u8]) -> Result<(), AllocError>
    ensures ok { OnOk result (out.new.items ≡ out.old.items ++ (head.now ++ body.now)) }
    ensures err { OnErr result (out.new.items ≡ out.old.items) }
{
    out.reserve(head.len() + body.len())?;
    out.extend_from_slice(head)?;
    out.extend_from_slice(body)
}
