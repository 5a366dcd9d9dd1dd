//! A reader over borrowed bytes. It takes no memory, and a refusal leaves it where it was.

ghost use Rattle.std.specs.Prelude.{◌≡◌, ◌+◌, ◌<◌, ◌≤◌, ◌^◌, ◌↔◌, length, take, drop, IfOk, IfErr, OnErr, IsOk, IsErr, IsErrOf};
ghost use Rattle.std.specs.Result.{result_err};
ghost use Rattle.std.specs.Str.{IsUtf8};
ghost use Rattle.sv2_types.specs.Cursor.{MovesOver, unread_bytes};
ghost use Rattle.sv2_types.specs.Fields.{U8, U16, U24, U32, U64, UINT256, BOOL, F32, STR0_255, B0_255, B0_32, B0_64K, B0_16M, OPTION_U32, SEQ0_255_U256, SEQ0_64K_U256, SEQ0_64K_U16, SEQ0_64K_B0_16M, Number, Truth, Bytes, Perhaps, Numbers, Parts, Admits, SpellsTruth};
ghost use Rattle.sv2_types.specs.Reading.{short_defect, defect, said, parts_size, FindsValue, MovesOverTruth, numbers_of, parts_at};
ghost use Rattle.sv2_types.specs.Spelling.{spelled_u8, spelled_u16, spelled_u24, spelled_u32, spelled_u64, spelled_str255, spelled_b255, spelled_b64k, spelled_b16m, spelled_option_u32, spelled_seq_u256, spelled_seq64k_u256, spelled_seq_u16, spelled_seq_bytes};

use crate::error::ReadError;
use crate::hash::U256;
use crate::little_endian::{said_u8, said_u16, said_u24, u16_of, u24_of, u32_of, u64_of};
use crate::sequences::{Seq32, SeqBytes, SeqU16, hashes_of, size_of_parts};
use std::marker::Model;
use std::str;

/// Reads the fields of a message from its bytes, in order. What it gives borrows those bytes.
#[derive(Debug, Drop)]
pub struct Reader<'a> {
    bytes: &'a [u8],
    at: usize,
}

impl<'a> Model for Reader<'a> {
    ghost use Rattle.std.specs.Prelude.{◌≤◌, length};
    ghost use Rattle.sv2_types.specs.Cursor.{Cursor};

    ghost Value = { Cursor };

    ghost view = { λ reader. record { bytes = reader.bytes.now; at = reader.at } };

    ghost invariant = { λ reader. reader.at ≤ length reader.bytes.now };
}

impl<'a> Reader<'a> {
    /// A reader at the first byte.
    pub fn new(bytes: &'a [u8]) -> Reader<'a>
        ensures { result ≡ record { bytes = bytes.now; at = 0 } }
    {
        Reader { bytes, at: 0 }
    }

    /// How many bytes have been read.
    pub fn at(&self) -> usize
        ensures { result ≡ self.now.at }
    {
        self.at
    }

    /// How many bytes are still to be read.
    pub fn left(&self) -> usize
        ensures { result + self.now.at ≡ length self.now.bytes }
    {
        self.bytes.len() - self.at
    }

    /// The bytes that are still to be read.
    fn rest(&self) -> &'a [u8]
        ensures { result.now ≡ unread_bytes self.now }
    {
        &self.bytes[self.at..]
    }

    /// The next `count` bytes.
    fn take(&mut self, count: usize) -> Result<&'a [u8], ReadError>
        ensures taken { IfOk result (λ part. MovesOver part.now self.old self.new) }
        ensures count { IfOk result (λ part. length part.now ≡ count) }
        ensures short { IsErrOf result ReadError.Short
            ↔ (length self.old.bytes < self.old.at + count) }
        ensures only_short { IfErr result (λ e. e ≡ ReadError.Short) }
        ensures refused { result_err result ≡ short_defect count (unread_bytes self.old) }
        ensures err { OnErr result (self.new ≡ self.old) }
    {
        let rest = &self.bytes[self.at..];
        if rest.len() < count {
            return Err(ReadError::Short);
        }
        let (part, _) = rest.split_at(count);
        self.at += count;
        Ok(part)
    }

    /// A U8.
    pub fn u8(&mut self) -> Result<u8, ReadError>
        ensures spelled { IfOk result (λ v. MovesOver (spelled_u8 v) self.old self.new) }
        ensures only { FindsValue U8 (λ v. Number v) (unread_bytes self.old) result }
        ensures refused { result_err result ≡ defect U8 (unread_bytes self.old) }
        ensures short { IsErrOf result ReadError.Short ↔ (length self.old.bytes < self.old.at + 1) }
        ensures only_short { IfErr result (λ e. e ≡ ReadError.Short) }
        ensures err { OnErr result (self.new ≡ self.old) }
        ensures long { self.old.at + 1 ≤ length self.old.bytes → IsOk result }
    {
        let part = self.take(1)?;
        Ok(part[0])
    }

    /// A U16: two bytes, low byte first.
    pub fn u16(&mut self) -> Result<u16, ReadError>
        ensures spelled { IfOk result (λ v. MovesOver (spelled_u16 v) self.old self.new) }
        ensures only { FindsValue U16 (λ v. Number v) (unread_bytes self.old) result }
        ensures refused { result_err result ≡ defect U16 (unread_bytes self.old) }
        ensures short { IsErrOf result ReadError.Short ↔ (length self.old.bytes < self.old.at + 2) }
        ensures only_short { IfErr result (λ e. e ≡ ReadError.Short) }
        ensures err { OnErr result (self.new ≡ self.old) }
        ensures long { self.old.at + 2 ≤ length self.old.bytes → IsOk result }
    {
        let part = self.take(2)?;
        Ok(u16_of(part))
    }

    /// A U24: three bytes, low byte first.
    pub fn u24(&mut self) -> Result<u32, ReadError>
        ensures spelled { IfOk result (λ v. MovesOver (spelled_u24 v) self.old self.new) }
        ensures below { IfOk result (λ v. v < 2 ^ 24) }
        ensures only { FindsValue U24 (λ v. Number v) (unread_bytes self.old) result }
        ensures refused { result_err result ≡ defect U24 (unread_bytes self.old) }
        ensures short { IsErrOf result ReadError.Short ↔ (length self.old.bytes < self.old.at + 3) }
        ensures only_short { IfErr result (λ e. e ≡ ReadError.Short) }
        ensures err { OnErr result (self.new ≡ self.old) }
        ensures long { self.old.at + 3 ≤ length self.old.bytes → IsOk result }
    {
        let part = self.take(3)?;
        Ok(u24_of(part))
    }

    /// A U32: four bytes, low byte first.
    pub fn u32(&mut self) -> Result<u32, ReadError>
        ensures spelled { IfOk result (λ v. MovesOver (spelled_u32 v) self.old self.new) }
        ensures only { FindsValue U32 (λ v. Number v) (unread_bytes self.old) result }
        ensures refused { result_err result ≡ defect U32 (unread_bytes self.old) }
        ensures short { IsErrOf result ReadError.Short ↔ (length self.old.bytes < self.old.at + 4) }
        ensures only_short { IfErr result (λ e. e ≡ ReadError.Short) }
        ensures err { OnErr result (self.new ≡ self.old) }
        ensures long { self.old.at + 4 ≤ length self.old.bytes → IsOk result }
    {
        let part = self.take(4)?;
        Ok(u32_of(part))
    }

    /// A U64: eight bytes, low byte first.
    pub fn u64(&mut self) -> Result<u64, ReadError>
        ensures spelled { IfOk result (λ v. MovesOver (spelled_u64 v) self.old self.new) }
        ensures only { FindsValue U64 (λ v. Number v) (unread_bytes self.old) result }
        ensures refused { result_err result ≡ defect U64 (unread_bytes self.old) }
        ensures short { IsErrOf result ReadError.Short ↔ (length self.old.bytes < self.old.at + 8) }
        ensures only_short { IfErr result (λ e. e ≡ ReadError.Short) }
        ensures err { OnErr result (self.new ≡ self.old) }
        ensures long { self.old.at + 8 ≤ length self.old.bytes → IsOk result }
    {
        let part = self.take(8)?;
        Ok(u64_of(part))
    }

    /// A U256: 32 bytes, as they stand.
    pub fn u256(&mut self) -> Result<U256, ReadError>
        ensures spelled { IfOk result (λ v. MovesOver (v) self.old self.new) }
        ensures fits { IfOk result (λ v. Admits UINT256 (Bytes v)) }
        ensures only { FindsValue UINT256 (λ v. Bytes v) (unread_bytes self.old) result }
        ensures refused { result_err result ≡ defect UINT256 (unread_bytes self.old) }
        ensures err { OnErr result (self.new ≡ self.old) }
    {
        let part = self.take(32)?;
        Ok(U256::of(array_of(part)))
    }

    /// A BOOL: the lowest bit of one byte; the other seven are ignored.
    pub fn boolean(&mut self) -> Result<bool, ReadError>
        ensures spelled { IfOk result (λ v. MovesOverTruth v self.old self.new) }
        ensures only { FindsValue BOOL (λ v. Truth v) (unread_bytes self.old) result }
        ensures refused { result_err result ≡ defect BOOL (unread_bytes self.old) }
        ensures err { OnErr result (self.new ≡ self.old) }
    {
        let part = self.take(1)?;
        Ok(part[0] % 2 == 1)
    }

    /// An F32: four bytes that are carried and never read as a number.
    pub fn f32_bytes(&mut self) -> Result<[u8; 4], ReadError>
        ensures spelled { IfOk result (λ v. MovesOver (v) self.old self.new) }
        ensures fits { IfOk result (λ v. Admits F32 (Bytes v)) }
        ensures only { FindsValue F32 (λ v. Bytes v) (unread_bytes self.old) result }
        ensures refused { result_err result ≡ defect F32 (unread_bytes self.old) }
        ensures err { OnErr result (self.new ≡ self.old) }
    {
        let part = self.take(4)?;
        Ok(array_of(part))
    }

    /// A STR0_255: one byte of length, then UTF-8. The whole content is there before it is looked
    /// at.
    pub fn str255(&mut self) -> Result<&'a str, ReadError>
        ensures spelled { IfOk result (λ v. MovesOver (spelled_str255 v.now) self.old self.new) }
        ensures fits { IfOk result (λ v. Admits STR0_255 (Bytes v.now)) }
        ensures only { FindsValue STR0_255 (λ v. Bytes v.now) (unread_bytes self.old) result }
        ensures refused { result_err result ≡ defect STR0_255 (unread_bytes self.old) }
        ensures not_utf8 { let rest = unread_bytes self.old in IsErrOf result ReadError.NotUtf8
            ↔ ((1 + said 1 rest ≤ length rest) × ¬ (IsUtf8 (take (said 1 rest) (drop 1 rest)))) }
        ensures err { OnErr result (self.new ≡ self.old) }
    {
        let start = self.at;
        let len = said_u8(self.rest());
        let part = self.take(1 + len)?;
        match str::from_utf8(&part[1..]) {
            Ok(text) => Ok(text),
            Err(_) => {
                self.at = start;
                Err(ReadError::NotUtf8)
            }
        }
    }

    /// A B0_255: one byte of length, then the bytes.
    pub fn b255(&mut self) -> Result<&'a [u8], ReadError>
        ensures spelled { IfOk result (λ v. MovesOver (spelled_b255 v.now) self.old self.new) }
        ensures fits { IfOk result (λ v. Admits B0_255 (Bytes v.now)) }
        ensures only { FindsValue B0_255 (λ v. Bytes v.now) (unread_bytes self.old) result }
        ensures refused { result_err result ≡ defect B0_255 (unread_bytes self.old) }
        ensures err { OnErr result (self.new ≡ self.old) }
    {
        let len = said_u8(self.rest());
        let part = self.take(1 + len)?;
        Ok(&part[1..])
    }

    /// A B0_32: one byte of length, at most 32, then the bytes.
    pub fn b32(&mut self) -> Result<&'a [u8], ReadError>
        ensures spelled { IfOk result (λ v. MovesOver (spelled_b255 v.now) self.old self.new) }
        ensures fits { IfOk result (λ v. Admits B0_32 (Bytes v.now)) }
        ensures only { FindsValue B0_32 (λ v. Bytes v.now) (unread_bytes self.old) result }
        ensures refused { result_err result ≡ defect B0_32 (unread_bytes self.old) }
        ensures too_great { IsErrOf result ReadError.LengthTooGreat
            ↔ (32 < said 1 (unread_bytes self.old)) }
        ensures err { OnErr result (self.new ≡ self.old) }
    {
        let len = said_u8(self.rest());
        if len > 32 {
            return Err(ReadError::LengthTooGreat);
        }
        let part = self.take(1 + len)?;
        Ok(&part[1..])
    }

    /// A B0_64K: two bytes of length, then the bytes.
    pub fn b64k(&mut self) -> Result<&'a [u8], ReadError>
        ensures spelled { IfOk result (λ v. MovesOver (spelled_b64k v.now) self.old self.new) }
        ensures fits { IfOk result (λ v. Admits B0_64K (Bytes v.now)) }
        ensures only { FindsValue B0_64K (λ v. Bytes v.now) (unread_bytes self.old) result }
        ensures refused { result_err result ≡ defect B0_64K (unread_bytes self.old) }
        ensures err { OnErr result (self.new ≡ self.old) }
    {
        let len = said_u16(self.rest());
        let part = self.take(2 + len)?;
        Ok(&part[2..])
    }

    /// A B0_16M: three bytes of length, then the bytes.
    pub fn b16m(&mut self) -> Result<&'a [u8], ReadError>
        ensures spelled { IfOk result (λ v. MovesOver (spelled_b16m v.now) self.old self.new) }
        ensures fits { IfOk result (λ v. Admits B0_16M (Bytes v.now)) }
        ensures only { FindsValue B0_16M (λ v. Bytes v.now) (unread_bytes self.old) result }
        ensures refused { result_err result ≡ defect B0_16M (unread_bytes self.old) }
        ensures err { OnErr result (self.new ≡ self.old) }
    {
        let len = said_u24(self.rest());
        let part = self.take(3 + len)?;
        Ok(&part[3..])
    }

    /// An OPTION[U32]: a count of 0 or 1, then the number where there is one.
    pub fn option_u32(&mut self) -> Result<Option<u32>, ReadError>
        ensures spelled { IfOk result (λ v. MovesOver (spelled_option_u32 v) self.old self.new) }
        ensures fits { IfOk result (λ v. Admits OPTION_U32 (Perhaps v)) }
        ensures only { FindsValue OPTION_U32 (λ v. Perhaps v) (unread_bytes self.old) result }
        ensures refused { result_err result ≡ defect OPTION_U32 (unread_bytes self.old) }
        ensures too_great { IsErrOf result ReadError.CountTooGreat
            ↔ (1 < said 1 (unread_bytes self.old)) }
        ensures err { OnErr result (self.new ≡ self.old) }
    {
        match said_u8(self.rest()) {
            0 => {
                self.take(1)?;
                Ok(None)
            }
            1 => {
                let part = self.take(5)?;
                Ok(Some(u32_of(&part[1..])))
            }
            _ => Err(ReadError::CountTooGreat),
        }
    }

    /// A SEQ0_255[U256]: one byte of count, then the items.
    pub fn seq_u256(&mut self) -> Result<Seq32<'a>, ReadError>
        ensures spelled { IfOk result
            (λ v. MovesOver (spelled_seq_u256 v.items.now) self.old self.new) }
        ensures fits { IfOk result (λ v. Admits SEQ0_255_U256 (Parts v.items.now)) }
        ensures only { FindsValue SEQ0_255_U256 (λ v. Parts v.items.now)
            (unread_bytes self.old) result }
        ensures refused { result_err result ≡ defect SEQ0_255_U256 (unread_bytes self.old) }
        ensures err { OnErr result (self.new ≡ self.old) }
    {
        let count = said_u8(self.rest());
        let part = self.take(1 + 32 * count)?;
        Ok(Seq32::of(hashes_of(&part[1..])))
    }

    /// A SEQ0_64K[U256]: two bytes of count, then the items.
    pub fn seq64k_u256(&mut self) -> Result<Seq32<'a>, ReadError>
        ensures spelled { IfOk result
            (λ v. MovesOver (spelled_seq64k_u256 v.items.now) self.old self.new) }
        ensures fits { IfOk result (λ v. Admits SEQ0_64K_U256 (Parts v.items.now)) }
        ensures only { FindsValue SEQ0_64K_U256 (λ v. Parts v.items.now)
            (unread_bytes self.old) result }
        ensures refused { result_err result ≡ defect SEQ0_64K_U256 (unread_bytes self.old) }
        ensures err { OnErr result (self.new ≡ self.old) }
    {
        let count = said_u16(self.rest());
        let part = self.take(2 + 32 * count)?;
        Ok(Seq32::of(hashes_of(&part[2..])))
    }

    /// A SEQ0_64K[U16]: two bytes of count, then the numbers.
    pub fn seq_u16(&mut self) -> Result<SeqU16<'a>, ReadError>
        ensures spelled { IfOk result
            (λ v. MovesOver (spelled_seq_u16 (numbers_of v.spelled.now)) self.old self.new) }
        ensures fits { IfOk result (λ v. Admits SEQ0_64K_U16 (Numbers (numbers_of v.spelled.now))) }
        ensures only { FindsValue SEQ0_64K_U16 (λ v. Numbers (numbers_of v.spelled.now))
            (unread_bytes self.old) result }
        ensures refused { result_err result ≡ defect SEQ0_64K_U16 (unread_bytes self.old) }
        ensures err { OnErr result (self.new ≡ self.old) }
    {
        let count = said_u16(self.rest());
        let part = self.take(2 + 2 * count)?;
        Ok(SeqU16::of(&part[2..]))
    }

    /// A SEQ0_64K[B0_16M]: two bytes of count, then the byte strings. Each length is gone through.
    pub fn seq_bytes(&mut self) -> Result<SeqBytes<'a>, ReadError>
        ensures spelled { IfOk result (λ v. MovesOver
            (spelled_seq_bytes (parts_at v.count v.spelled.now)) self.old self.new) }
        ensures fits { IfOk result
            (λ v. Admits SEQ0_64K_B0_16M (Parts (parts_at v.count v.spelled.now))) }
        ensures only { FindsValue SEQ0_64K_B0_16M (λ v. Parts (parts_at v.count v.spelled.now))
            (unread_bytes self.old) result }
        ensures refused { result_err result ≡ defect SEQ0_64K_B0_16M (unread_bytes self.old) }
        ensures err { OnErr result (self.new ≡ self.old) }
    {
        let rest = self.rest();
        if rest.len() < 2 {
            return Err(ReadError::Short);
        }
        let count = said_u16(rest);
        let size = size_of_parts(&rest[2..], count)?;
        let part = self.take(2 + size)?;
        Ok(SeqBytes::of(&part[2..], count as u16))
    }
}

fn array_of<const N: usize>(bytes: &[u8]) -> [u8; N]
    requires { length bytes.now ≡ N }
    ensures { result ≡ bytes.now }
{
    *bytes.as_array::<N>().unwrap()
}
