//! The frames that bring shares (Stratum V2, "SubmitSharesStandard").

ghost use Rattle.std.specs.Prelude.{◌≡◌, ◌↔◌, ◌<◌, ◌≤◌, ◌^◌, length, IsTrue, IsSomeAnd, MatchBool};
ghost use Rattle.sv2_frames.specs.Framing.{header_of};
ghost use Rattle.stream_programs.specs.Rolling.{rolled_of};
ghost use Rattle.stream_programs.specs.Submitting.{IsShareHeader, IsOtherHeader, BeginsShare, share_payload};

use mining_msgs::{Mining, SubmitSharesStandard, read};
use sv2_frames::{FrameHeader, Splitter};
use sv2_messages::kinds::SUBMIT_SHARES_STANDARD;

/// The channel bit of an extension type, which isn't looked at.
const CHANNEL_BIT: u16 = 0x8000;

/// The bytes of its payload.
pub const PAYLOAD_LEN: u32 = 24;

/// The bytes of its frame.
pub const FRAME_LEN: usize = 30;

/// What a header has of the share.
#[derive(Clone, Copy)]
pub struct Rolled {
    pub version: u32,
    pub ntime: u32,
    pub nonce: u32,
}

/// What the share rolls of the header.
pub fn rolled_of(share: &SubmitSharesStandard) -> Rolled
    ensures { result ≡ rolled_of share.now }
{
    Rolled {
        version: share.version,
        ntime: share.ntime,
        nonce: share.nonce,
    }
}

/// What the share rolls whose frame is at this place, or nothing where it isn't whole.
pub fn rolled_at(bytes: &[u8], at: usize) -> Rolled
    requires { at ≤ 90 }
{
    Rolled {
        version: number_at(bytes, at + 26),
        ntime: number_at(bytes, at + 22),
        nonce: number_at(bytes, at + 18),
    }
}

// The number of four bytes at this place, the lowest first, or 0 where they aren't there.
fn number_at(bytes: &[u8], at: usize) -> u32
    requires { at ≤ 116 }
{
    if at + 4 > bytes.len() {
        return 0;
    }
    u32::from_le_bytes([bytes[at], bytes[at + 1], bytes[at + 2], bytes[at + 3]])
}

/// Whether a frame with this header brings a share.
fn brings_share(header: FrameHeader) -> bool
    requires { header.len < 2 ^ 24 }
    ensures { IsTrue result ↔ IsShareHeader (header_of header.ext header.kind header.len) }
{
    header.ext % CHANNEL_BIT == 0
        && header.kind == SUBMIT_SHARES_STANDARD
        && header.len == PAYLOAD_LEN
}

/// Whether the bytes that are held begin another frame than a share's.
pub fn holds_other(splitter: &Splitter) -> bool
    ensures { MatchBool result (IsOtherHeader splitter.now.held) (BeginsShare splitter.now.held) }
{
    match splitter.header() {
        Some(header) => !brings_share(header),
        None => false,
    }
}

/// The share that a payload of 24 bytes brings: each such payload brings one.
pub fn read_share(payload: &[u8]) -> Option<SubmitSharesStandard>
    requires { length payload.now ≡ 24 }
    ensures { IsSomeAnd result (λ share. payload.now ≡ share_payload share) }
{
    match read(SUBMIT_SHARES_STANDARD, payload) {
        Ok(Mining::SubmitSharesStandard(share)) => Some(share),
        _ => None,
    }
}
