//! A field of a message, as it is written.

ghost use Rattle.std.specs.Prelude.{◌≡◌, ◌↔◌, ◌+◌, ◌≤◌, ◌<◌, ◌^◌, ◌++◌, length, IsTrue, OnOk, OnErr};
ghost use Rattle.std.specs.List.{AllByRecursion};
ghost use Rattle.sv2_types.specs.Fields.{Admits, spelling};
ghost use Rattle.sv2_types.specs.Reading.{parts_at, parts_size};
ghost use Rattle.sv2_types.specs.Spelling.{spelled_seq_bytes};
ghost use Rattle.sv2_messages.specs.Writing.{field_type, field_value};

use std::alloc::AllocError;
use sv2_types::{
    Seq32, SeqBytes, SeqU16, U256, put_b32, put_b64k, put_b255, put_boolean, put_f32_bytes,
    put_option_u32, put_seq_bytes, put_seq_u16, put_seq_u256, put_seq64k_u256, put_str255, put_u8,
    put_u16, put_u32, put_u64, put_u256,
};

/// A field's type and its value (Stratum V2, "Data Types Mapping").
#[derive(Clone, Copy)]
pub enum Field<'a> {
    U8(u8),
    U16(u16),
    U32(u32),
    U64(u64),
    U256(U256),
    Boolean(bool),
    F32([u8; 4]),
    Str255(&'a str),
    B255(&'a [u8]),
    B32(&'a [u8]),
    B64k(&'a [u8]),
    OptionU32(Option<u32>),
    SeqU256(Seq32<'a>),
    Seq64kU256(Seq32<'a>),
    SeqU16(SeqU16<'a>),
    SeqBytes(SeqBytes<'a>),
}

impl Field<'_> {
    /// Whether the value is one of its type.
    pub(crate) fn fits(&self) -> bool
        ensures { IsTrue result ↔ Admits (field_type self.now) (field_value self.now) }
    {
        match *self {
            Field::U8(_number) => true,
            Field::U16(_number) => true,
            Field::U32(_number) => true,
            Field::U64(_number) => true,
            Field::OptionU32(Some(_number)) => true,
            Field::OptionU32(None) | Field::Boolean(_) => true,
            Field::U256(hash) => {
                prove!(hash.bytes().len() == 32);
                true
            }
            // The proof doesn't know how long an array inside of an enum is.
            Field::F32(bytes) => bytes.as_slice().len() == 4,
            Field::Str255(text) => text.len() < 1 << 8,
            Field::B255(bytes) => bytes.len() < 1 << 8,
            Field::B32(bytes) => bytes.len() <= 32,
            Field::B64k(bytes) => bytes.len() < 1 << 16,
            Field::SeqU256(hashes) => hashes.items().len() < 1 << 8,
            Field::Seq64kU256(hashes) => hashes.items().len() < 1 << 16,
            Field::SeqU16(numbers) => SeqU16::of(numbers.spelled).len() < 1 << 16,
            Field::SeqBytes(parts) => part_count(parts.spelled, parts.count) < 1 << 16,
        }
    }

    /// How many bytes its spelling has.
    pub(crate) fn len(&self) -> usize
        ensures { result ≡ length (spelling (field_type self.now) (field_value self.now)) }
    {
        match *self {
            Field::U8(_) | Field::Boolean(_) => 1,
            Field::U16(_) => 2,
            Field::U32(_) => 4,
            Field::U64(_) => 8,
            Field::U256(hash) => hash.bytes().len(),
            Field::F32(bytes) => bytes.as_slice().len(),
            Field::Str255(text) => len_behind(1, text.as_bytes()),
            Field::B255(bytes) | Field::B32(bytes) => len_behind(1, bytes),
            Field::B64k(bytes) => len_behind(2, bytes),
            Field::OptionU32(None) => 1,
            Field::OptionU32(Some(_)) => 5,
            Field::SeqU256(hashes) => 1 + 32 * hashes.items().len(),
            Field::Seq64kU256(hashes) => 2 + 32 * hashes.items().len(),
            Field::SeqU16(numbers) => len_behind(2, SeqU16::of(numbers.spelled).spelled),
            Field::SeqBytes(parts) => parts_len(parts.spelled, parts.count),
        }
    }

    /// Appends its spelling.
    pub(crate) fn put(&self, out: &mut Vec<u8>) -> Result<(), AllocError>
        requires { Admits (field_type self.now) (field_value self.now) }
        ensures ok { OnOk result (out.new.items ≡ out.old.items
            ++ spelling (field_type self.now) (field_value self.now)) }
        ensures err { OnErr result (out.new.items ≡ out.old.items) }
    {
        match *self {
            Field::U8(value) => put_u8(out, value),
            Field::U16(value) => put_u16(out, value),
            Field::U32(value) => put_u32(out, value),
            Field::U64(value) => put_u64(out, value),
            Field::U256(value) => put_u256(out, value),
            Field::Boolean(value) => put_boolean(out, value),
            Field::F32(value) => put_f32_bytes(out, value),
            Field::Str255(value) => put_str255(out, value),
            Field::B255(value) => put_b255(out, value),
            Field::B32(value) => put_b32(out, value),
            Field::B64k(value) => put_b64k(out, value),
            Field::OptionU32(value) => put_option_u32(out, value),
            Field::SeqU256(value) => put_seq_u256(out, value),
            Field::Seq64kU256(value) => put_seq64k_u256(out, value),
            Field::SeqU16(value) => put_seq_u16(out, value),
            Field::SeqBytes(value) => put_seq_bytes(out, value),
        }
    }
}

/// How many bytes there are with the length in front.
fn len_behind(head: usize, content: &[u8]) -> usize
    requires { head ≤ 2 }
    ensures { result ≡ head + length content.now }
{
    head + content.len()
}

/// How many byte strings lie in the bytes.
fn part_count(spelled: &[u8], count: u16) -> usize
    requires { parts_size count spelled.now ≡ length spelled.now }
    ensures count { result ≡ length (parts_at count spelled.now) }
    ensures fit { AllByRecursion (λ part. length part < 2 ^ 24) (parts_at count spelled.now) }
{
    let _ = spelled;
    count as usize
}

/// How many bytes they have behind their count.
fn parts_len(spelled: &[u8], count: u16) -> usize
    requires { parts_size count spelled.now ≡ length spelled.now }
    ensures { result ≡ length (spelled_seq_bytes (parts_at count spelled.now)) }
{
    2 + spelled.len()
}
