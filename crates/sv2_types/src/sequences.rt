//! Sequences that borrow the bytes which spell them.

ghost use Rattle.std.specs.Prelude.{◌≡◌, ◌+◌, ◌-◌, ◌*◌, ◌/◌, ◌%◌, ◌≤◌, ◌<◌, ◌^◌, ◌↔◌, [], length, take, drop, IsTrue, IfOk, IfErr, slice_get};
ghost use Rattle.std.specs.Option.{option_copied};
ghost use Rattle.std.specs.List.{flat_map, AllByRecursion};
ghost use Rattle.std.specs.Simd.{first_chunks};
ghost use Rattle.sv2_types.specs.Reading.{said, numbers_of, parts_at, parts_size, SpellsParts};
ghost use Rattle.sv2_types.specs.Spelling.{spelled_u16, spelled_b16m};

use crate::error::ReadError;
use crate::little_endian::{said_u16, said_u24};

/// At most 65,535 items of 32 bytes (Stratum V2, SEQ0_255[U256] and SEQ0_64K[U256]).
#[derive(Clone, Copy, Debug)]
pub struct Seq32<'a> {
    /// The items, as they lie in the input.
    pub items: &'a [[u8; 32]],
    pub ghost count_fits: { length items.now < 2 ^ 16 },
}

impl<'a> Seq32<'a> {
    /// The sequence of these items.
    pub fn of(items: &'a [[u8; 32]]) -> Seq32<'a>
        requires { length items.now < 2 ^ 16 }
        ensures { result.items.now ≡ items.now }
    {
        Seq32 { items }
    }

    /// The items, as they lie in the input.
    pub fn items(&self) -> &'a [[u8; 32]]
        ensures value { result.now ≡ self.now.items.now }
        ensures count { length result.now < 2 ^ 16 }
        ensures fits { AllByRecursion (λ item. length item ≡ 32) result.now }
    {
        whole_hashes(self.items)
    }
}

/// At most 65,535 numbers, each spelled in two bytes, low byte first (Stratum V2, SEQ0_64K[U16]).
#[derive(Clone, Copy, Debug)]
pub struct SeqU16<'a> {
    /// Two bytes for each number.
    pub spelled: &'a [u8],
    pub ghost even: { length spelled.now % 2 ≡ 0 },
    pub ghost count_fits: { length spelled.now ≤ 131070 },
}

impl<'a> SeqU16<'a> {
    /// The numbers that these bytes spell.
    pub fn of(spelled: &'a [u8]) -> SeqU16<'a>
        requires even { length spelled.now % 2 ≡ 0 }
        requires count_fits { length spelled.now ≤ 131070 }
        ensures spelled { result.spelled.now ≡ spelled.now }
        ensures numbers { flat_map spelled_u16 (numbers_of spelled.now) ≡ spelled.now }
        ensures fits { AllByRecursion (λ n. n < 2 ^ 16) (numbers_of spelled.now) }
    {
        SeqU16 {
            spelled: spelled_numbers(spelled),
        }
    }

    /// How many numbers there are.
    pub fn len(&self) -> usize
        ensures count { result ≡ length (numbers_of self.now.spelled.now) }
        ensures half { 2 * result ≡ length self.now.spelled.now }
    {
        self.spelled.len() / 2
    }

    /// There are no numbers.
    pub fn is_empty(&self) -> bool
        ensures { IsTrue result ↔ (numbers_of self.now.spelled.now ≡ []) }
    {
        self.spelled.is_empty()
    }

    /// The number at a place, `None` past the end.
    pub fn get(&self, at: usize) -> Option<u16>
        ensures { result ≡ slice_get (numbers_of self.now.spelled.now) at }
    {
        if at < self.len() {
            Some(said_u16(&self.spelled[2 * at..]) as u16)
        } else {
            None
        }
    }
}

/// At most 65,535 byte strings, each spelled behind three bytes of length (Stratum V2,
/// SEQ0_64K[B0_16M]).
#[derive(Clone, Copy, Debug)]
pub struct SeqBytes<'a> {
    /// The byte strings, each behind its length.
    pub spelled: &'a [u8],
    /// How many byte strings there are.
    pub count: u16,
    pub ghost whole: { parts_size count spelled.now ≡ length spelled.now },
}

impl<'a> SeqBytes<'a> {
    /// The byte strings that these bytes spell.
    pub fn of(spelled: &'a [u8], count: u16) -> SeqBytes<'a>
        requires { SpellsParts count spelled.now }
        ensures spelled { result.spelled.now ≡ spelled.now }
        ensures count { result.count ≡ count }
        ensures parts { flat_map spelled_b16m (parts_at count spelled.now) ≡ spelled.now }
        ensures fits { AllByRecursion (λ part. length part < 2 ^ 24) (parts_at count spelled.now) }
    {
        SeqBytes {
            spelled: spelled_parts(spelled, count),
            count,
        }
    }

    /// How many byte strings there are.
    pub fn len(&self) -> usize
        ensures parts { result ≡ length (parts_at self.now.count self.now.spelled.now) }
        ensures count { result ≡ self.now.count }
    {
        self.count as usize
    }

    /// There are no byte strings.
    pub fn is_empty(&self) -> bool
        ensures { IsTrue result ↔ (parts_at self.now.count self.now.spelled.now ≡ []) }
    {
        self.count == 0
    }

    /// The byte string at a place, `None` past the end. The lengths before it are gone through.
    pub fn get(&self, at: usize) -> Option<&'a [u8]>
        ensures { option_copied result
            ≡ slice_get (parts_at self.now.count self.now.spelled.now) at }
    {
        let count = self.count as usize;
        if at >= count {
            return None;
        }
        let rest = behind_parts(self.spelled, count, at);
        let content = &rest[3..];
        Some(&content[..said_u24(rest)])
    }
}

/// What lies behind the first byte strings.
fn behind_parts<'a>(spelled: &'a [u8], count: usize, passed: usize) -> &'a [u8]
    requires whole { parts_size count spelled.now ≡ length spelled.now }
    requires there { passed ≤ count }
    ensures parts { parts_at (count - passed) result.now
        ≡ drop passed (parts_at count spelled.now) }
    ensures whole { parts_size (count - passed) result.now ≡ length result.now }
{
    let mut rest = spelled;
    for _ in 0..passed {
        rest = &rest[3 + said_u24(rest)..];
    }
    rest
}

/// How many bytes so many byte strings take, each behind its length.
pub(crate) fn size_of_parts(bytes: &[u8], count: usize) -> Result<usize, ReadError>
    ensures ok { IfOk result (λ size. (size ≡ parts_size count bytes.now)
        × (size ≤ length bytes.now)) }
    ensures spelled { IfOk result (λ size. SpellsParts count (take size bytes.now)) }
    ensures err { IfErr result (λ e. (e ≡ ReadError.Short)
        × (length bytes.now < parts_size count bytes.now)) }
{
    let mut size = 0;
    for _ in 0..count {
        let rest = &bytes[size..];
        let part = 3 + said_u24(rest);
        if rest.len() < part {
            return Err(ReadError::Short);
        }
        size += part;
    }
    Ok(size)
}

/// 32 bytes each.
pub(crate) fn hashes_of(bytes: &[u8]) -> &[[u8; 32]]
    requires { length bytes.now % 32 ≡ 0 }
    ensures value { result.now ≡ first_chunks 32 (length bytes.now / 32) bytes.now }
    ensures items { flat_map (λ item. item) result.now ≡ bytes.now }
    ensures fits { AllByRecursion (λ item. length item ≡ 32) result.now }
    ensures count { 32 * length result.now ≡ length bytes.now }
{
    let (items, _) = bytes.as_chunks::<32>();
    items
}

/// The bytes themselves, which are known to spell the numbers in them.
pub(crate) fn spelled_numbers(spelled: &[u8]) -> &[u8]
    requires { length spelled.now % 2 ≡ 0 }
    ensures value { result.now ≡ spelled.now }
    ensures numbers { flat_map spelled_u16 (numbers_of spelled.now) ≡ spelled.now }
    ensures fits { AllByRecursion (λ n. n < 2 ^ 16) (numbers_of spelled.now) }
{
    spelled
}

/// The bytes themselves, which are known to spell the byte strings in them.
pub(crate) fn spelled_parts(spelled: &[u8], count: u16) -> &[u8]
    requires { parts_size count spelled.now ≡ length spelled.now }
    ensures value { result.now ≡ spelled.now }
    ensures parts { flat_map spelled_b16m (parts_at count spelled.now) ≡ spelled.now }
    ensures fits { AllByRecursion (λ part. length part < 2 ^ 24) (parts_at count spelled.now) }
{
    spelled
}

/// The items themselves, each of which is known to have 32 bytes.
pub(crate) fn whole_hashes(items: &[[u8; 32]]) -> &[[u8; 32]]
    ensures value { result.now ≡ items.now }
    ensures fits { AllByRecursion (λ item. length item ≡ 32) items.now }
{
    items
}
