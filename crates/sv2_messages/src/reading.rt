//! Reads the fields of a message in their order. It takes no memory.

ghost use Rattle.std.specs.Prelude.{◌≡◌, ◌+◌, ◌<◌, ◌≤◌, length, drop, OnErr};
ghost use Rattle.sv2_types.specs.Fields.{U8, U16, U32, U64, UINT256, BOOL, F32, STR0_255, B0_255, B0_32, B0_64K, OPTION_U32, SEQ0_255_U256, SEQ0_64K_U256, SEQ0_64K_U16, SEQ0_64K_B0_16M, Number, Truth, Bytes, Perhaps, Numbers, Parts};
ghost use Rattle.sv2_types.specs.Reading.{numbers_of, parts_at};
ghost use Rattle.sv2_messages.specs.Reading.{ReadsField, MeetsEnd};

use crate::error::MsgError;
use std::marker::Model;
use sv2_types::{Reader, Seq32, SeqBytes, SeqU16, U256};

/// Reads the fields of a payload, and counts them, so that a defect is told with its place.
#[derive(Drop)]
pub struct FieldReader<'a> {
    rest: &'a [u8],
    place: usize,
}

impl<'a> Model for FieldReader<'a> {
    ghost use Rattle.std.specs.Prelude.{◌+◌, ◌<◌, ◌^◌, length};
    ghost use Rattle.sv2_messages.specs.Reading.{Left};

    ghost Value = { Left };

    ghost view = { λ fields. record { place = fields.place; rest = fields.rest.now } };

    ghost invariant = { λ fields. fields.place + length fields.rest.now < 2 ^ 63 };
}

impl<'a> FieldReader<'a> {
    /// A reader at the first field.
    pub fn new(payload: &'a [u8]) -> FieldReader<'a>
        ensures { result ≡ record { place = 0; rest = payload.now } }
    {
        FieldReader {
            rest: payload,
            place: 0,
        }
    }

    /// Passes a field of so many bytes.
    fn pass(&mut self, count: usize)
        requires some { 0 < count }
        requires within { count ≤ length self.old.rest }
        ensures { self.new
            ≡ record { place = self.old.place + 1; rest = drop count self.old.rest } }
    {
        self.rest = &self.rest[count..];
        self.place += 1;
    }

    /// A U8.
    pub fn u8(&mut self) -> Result<u8, MsgError>
        ensures value { ReadsField U8 (λ v. Number v) self.old result self.new }
        ensures err { OnErr result (self.new ≡ self.old) }
    {
        let mut reader = Reader::new(self.rest);
        match reader.u8() {
            Ok(value) => {
                self.pass(reader.at());
                Ok(value)
            }
            Err(reason) => Err(MsgError::BadField(self.place, reason)),
        }
    }

    /// A U16.
    pub fn u16(&mut self) -> Result<u16, MsgError>
        ensures value { ReadsField U16 (λ v. Number v) self.old result self.new }
        ensures err { OnErr result (self.new ≡ self.old) }
    {
        let mut reader = Reader::new(self.rest);
        match reader.u16() {
            Ok(value) => {
                self.pass(reader.at());
                Ok(value)
            }
            Err(reason) => Err(MsgError::BadField(self.place, reason)),
        }
    }

    /// A U32.
    pub fn u32(&mut self) -> Result<u32, MsgError>
        ensures value { ReadsField U32 (λ v. Number v) self.old result self.new }
        ensures err { OnErr result (self.new ≡ self.old) }
    {
        let mut reader = Reader::new(self.rest);
        match reader.u32() {
            Ok(value) => {
                self.pass(reader.at());
                Ok(value)
            }
            Err(reason) => Err(MsgError::BadField(self.place, reason)),
        }
    }

    /// A U64.
    pub fn u64(&mut self) -> Result<u64, MsgError>
        ensures value { ReadsField U64 (λ v. Number v) self.old result self.new }
        ensures err { OnErr result (self.new ≡ self.old) }
    {
        let mut reader = Reader::new(self.rest);
        match reader.u64() {
            Ok(value) => {
                self.pass(reader.at());
                Ok(value)
            }
            Err(reason) => Err(MsgError::BadField(self.place, reason)),
        }
    }

    /// A U256.
    pub fn u256(&mut self) -> Result<U256, MsgError>
        ensures value { ReadsField UINT256 (λ v. Bytes v) self.old result self.new }
        ensures err { OnErr result (self.new ≡ self.old) }
    {
        let mut reader = Reader::new(self.rest);
        match reader.u256() {
            Ok(value) => {
                self.pass(reader.at());
                Ok(value)
            }
            Err(reason) => Err(MsgError::BadField(self.place, reason)),
        }
    }

    /// A BOOL.
    pub fn boolean(&mut self) -> Result<bool, MsgError>
        ensures value { ReadsField BOOL (λ v. Truth v) self.old result self.new }
        ensures err { OnErr result (self.new ≡ self.old) }
    {
        let mut reader = Reader::new(self.rest);
        match reader.boolean() {
            Ok(value) => {
                self.pass(reader.at());
                Ok(value)
            }
            Err(reason) => Err(MsgError::BadField(self.place, reason)),
        }
    }

    /// An F32, carried as bytes.
    pub fn f32_bytes(&mut self) -> Result<[u8; 4], MsgError>
        ensures value { ReadsField F32 (λ v. Bytes v) self.old result self.new }
        ensures err { OnErr result (self.new ≡ self.old) }
    {
        let mut reader = Reader::new(self.rest);
        match reader.f32_bytes() {
            Ok(value) => {
                self.pass(reader.at());
                Ok(value)
            }
            Err(reason) => Err(MsgError::BadField(self.place, reason)),
        }
    }

    /// A STR0_255.
    pub fn str255(&mut self) -> Result<&'a str, MsgError>
        ensures value { ReadsField STR0_255 (λ v. Bytes v.now) self.old result self.new }
        ensures err { OnErr result (self.new ≡ self.old) }
    {
        let mut reader = Reader::new(self.rest);
        match reader.str255() {
            Ok(value) => {
                self.pass(reader.at());
                Ok(value)
            }
            Err(reason) => Err(MsgError::BadField(self.place, reason)),
        }
    }

    /// A B0_255.
    pub fn b255(&mut self) -> Result<&'a [u8], MsgError>
        ensures value { ReadsField B0_255 (λ v. Bytes v.now) self.old result self.new }
        ensures err { OnErr result (self.new ≡ self.old) }
    {
        let mut reader = Reader::new(self.rest);
        match reader.b255() {
            Ok(value) => {
                self.pass(reader.at());
                Ok(value)
            }
            Err(reason) => Err(MsgError::BadField(self.place, reason)),
        }
    }

    /// A B0_32.
    pub fn b32(&mut self) -> Result<&'a [u8], MsgError>
        ensures value { ReadsField B0_32 (λ v. Bytes v.now) self.old result self.new }
        ensures err { OnErr result (self.new ≡ self.old) }
    {
        let mut reader = Reader::new(self.rest);
        match reader.b32() {
            Ok(value) => {
                self.pass(reader.at());
                Ok(value)
            }
            Err(reason) => Err(MsgError::BadField(self.place, reason)),
        }
    }

    /// A B0_64K.
    pub fn b64k(&mut self) -> Result<&'a [u8], MsgError>
        ensures value { ReadsField B0_64K (λ v. Bytes v.now) self.old result self.new }
        ensures err { OnErr result (self.new ≡ self.old) }
    {
        let mut reader = Reader::new(self.rest);
        match reader.b64k() {
            Ok(value) => {
                self.pass(reader.at());
                Ok(value)
            }
            Err(reason) => Err(MsgError::BadField(self.place, reason)),
        }
    }

    /// An OPTION[U32].
    pub fn option_u32(&mut self) -> Result<Option<u32>, MsgError>
        ensures value { ReadsField OPTION_U32 (λ v. Perhaps v) self.old result self.new }
        ensures err { OnErr result (self.new ≡ self.old) }
    {
        let mut reader = Reader::new(self.rest);
        match reader.option_u32() {
            Ok(value) => {
                self.pass(reader.at());
                Ok(value)
            }
            Err(reason) => Err(MsgError::BadField(self.place, reason)),
        }
    }

    /// A SEQ0_255[U256].
    pub fn seq_u256(&mut self) -> Result<Seq32<'a>, MsgError>
        ensures value { ReadsField SEQ0_255_U256 (λ v. Parts v.items.now) self.old result self.new }
        ensures err { OnErr result (self.new ≡ self.old) }
    {
        let mut reader = Reader::new(self.rest);
        match reader.seq_u256() {
            Ok(value) => {
                self.pass(reader.at());
                Ok(value)
            }
            Err(reason) => Err(MsgError::BadField(self.place, reason)),
        }
    }

    /// A SEQ0_64K[U256].
    pub fn seq64k_u256(&mut self) -> Result<Seq32<'a>, MsgError>
        ensures value { ReadsField SEQ0_64K_U256 (λ v. Parts v.items.now) self.old result self.new }
        ensures err { OnErr result (self.new ≡ self.old) }
    {
        let mut reader = Reader::new(self.rest);
        match reader.seq64k_u256() {
            Ok(value) => {
                self.pass(reader.at());
                Ok(value)
            }
            Err(reason) => Err(MsgError::BadField(self.place, reason)),
        }
    }

    /// A SEQ0_64K[U16].
    pub fn seq_u16(&mut self) -> Result<SeqU16<'a>, MsgError>
        ensures value { ReadsField SEQ0_64K_U16
            (λ v. Numbers (numbers_of v.spelled.now)) self.old result self.new }
        ensures err { OnErr result (self.new ≡ self.old) }
    {
        let mut reader = Reader::new(self.rest);
        match reader.seq_u16() {
            Ok(value) => {
                self.pass(reader.at());
                Ok(value)
            }
            Err(reason) => Err(MsgError::BadField(self.place, reason)),
        }
    }

    /// A SEQ0_64K[B0_16M].
    pub fn seq_bytes(&mut self) -> Result<SeqBytes<'a>, MsgError>
        ensures value { ReadsField SEQ0_64K_B0_16M
            (λ v. Parts (parts_at v.count v.spelled.now)) self.old result self.new }
        ensures err { OnErr result (self.new ≡ self.old) }
    {
        let mut reader = Reader::new(self.rest);
        match reader.seq_bytes() {
            Ok(value) => {
                self.pass(reader.at());
                Ok(value)
            }
            Err(reason) => Err(MsgError::BadField(self.place, reason)),
        }
    }

    /// No bytes follow.
    pub fn end(&self) -> Result<(), MsgError>
        ensures { MeetsEnd self.now result }
    {
        match self.rest {
            [] => Ok(()),
            rest => Err(MsgError::Trailing(rest.len())),
        }
    }
}
