//! Numbers from their bytes, low byte first.

ghost use Rattle.std.specs.Prelude.{◌≡◌, ◌<◌, ◌≤◌, ◌^◌, length, take};
ghost use Rattle.sv2_types.specs.Spelling.{spelled_u8, spelled_u16, spelled_u24, spelled_u32, spelled_u64};
ghost use Rattle.sv2_types.specs.Reading.{said};

pub(crate) fn u16_of(bytes: &[u8]) -> u16
    requires { length bytes.now ≡ 2 }
    ensures { spelled_u16 result ≡ bytes.now }
{
    u16::from_le_bytes([bytes[0], bytes[1]])
}

pub(crate) fn u24_of(bytes: &[u8]) -> u32
    requires { length bytes.now ≡ 3 }
    ensures spelled { spelled_u24 result ≡ bytes.now }
    ensures below { result < 2 ^ 24 }
{
    u32::from_le_bytes([bytes[0], bytes[1], bytes[2], 0])
}

pub(crate) fn u32_of(bytes: &[u8]) -> u32
    requires { length bytes.now ≡ 4 }
    ensures { spelled_u32 result ≡ bytes.now }
{
    u32::from_le_bytes([bytes[0], bytes[1], bytes[2], bytes[3]])
}

pub(crate) fn u64_of(bytes: &[u8]) -> u64
    requires { length bytes.now ≡ 8 }
    ensures { spelled_u64 result ≡ bytes.now }
{
    u64::from_le_bytes([
        bytes[0], bytes[1], bytes[2], bytes[3], bytes[4], bytes[5], bytes[6], bytes[7],
    ])
}

/// What the first byte says, 0 where it is missing.
pub(crate) fn said_u8(bytes: &[u8]) -> usize
    ensures value { result ≡ said 1 bytes.now }
    ensures spelled { 1 ≤ length bytes.now → spelled_u8 result ≡ take 1 bytes.now }
    ensures below { result < 2 ^ 8 }
{
    match bytes {
        [] => 0,
        [low, ..] => *low as usize,
    }
}

/// What the first two bytes say, a missing one saying 0.
pub(crate) fn said_u16(bytes: &[u8]) -> usize
    ensures value { result ≡ said 2 bytes.now }
    ensures spelled { 2 ≤ length bytes.now → spelled_u16 result ≡ take 2 bytes.now }
    ensures below { result < 2 ^ 16 }
{
    match bytes {
        [] => 0,
        [low] => *low as usize,
        [low, high, ..] => *low as usize + 0x100 * *high as usize,
    }
}

/// What the first three bytes say, a missing one saying 0.
pub(crate) fn said_u24(bytes: &[u8]) -> usize
    ensures value { result ≡ said 3 bytes.now }
    ensures spelled { 3 ≤ length bytes.now → spelled_u24 result ≡ take 3 bytes.now }
    ensures below { result < 2 ^ 24 }
{
    match bytes {
        [] | [_] | [_, _] => said_u16(bytes),
        [_, _, high, ..] => said_u16(bytes) + 0x1_0000 * *high as usize,
    }
}
