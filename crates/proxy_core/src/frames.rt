//! The messages of the upstream's frames.

ghost use Rattle.std.specs.Prelude.{◌≡◌, ◌≤◌, length, option_map};
ghost use Rattle.sv2_frames.specs.Framing.{payload_length};
ghost use Rattle.proxy_core.specs.Reading.{frame_of, told_by_read};
ghost use Rattle.proxy_rules.specs.Frames as frames;

use mining_msgs::{Mining, read};
use sv2_frames::Frame;

/// How many bytes a header has.
const HEADER_LEN: usize = 6;

/// The extension types below this one have no channel bit.
const CHANNEL_BIT: u16 = 0x8000;

/// The message of a frame that has no extension, where its payload is one.
#[tactic(auto, unfolding(proxy_rules::specs::Frames::told_up))]
pub(crate) fn message_in(bytes: &[u8]) -> Option<Mining<'_>>
    ensures { told_by_read result ≡ frames.told_up bytes.now }
{
    let frame = frame_in(bytes)?;
    if frame.ext % CHANNEL_BIT != 0 {
        return None;
    }
    message_of(frame.kind, frame.payload)
}

/// The message of a payload of this kind.
fn message_of(kind: u8, payload: &[u8]) -> Option<Mining<'_>>
    ensures { told_by_read result ≡ frames.told_by_payload kind payload.now }
{
    match read(kind, payload) {
        Ok(message) => Some(message),
        Err(_) => None,
    }
}

/// The frame that the bytes are.
fn frame_in(bytes: &[u8]) -> Option<Frame<'_>>
    ensures { option_map frame_of result ≡ frames.frame_in bytes.now }
{
    if bytes.len() < HEADER_LEN {
        return None;
    }
    let payload = &bytes[HEADER_LEN..];
    if length_said(bytes) != payload.len() {
        return None;
    }
    Some(Frame {
        ext: u16::from(bytes[0]) + 256 * u16::from(bytes[1]),
        kind: bytes[2],
        payload,
    })
}

/// The length that a header says.
fn length_said(bytes: &[u8]) -> usize
    requires { 6 ≤ length bytes.now }
    ensures { result ≡ payload_length bytes.now }
{
    usize::from(bytes[3]) + 256 * usize::from(bytes[4]) + 65536 * usize::from(bytes[5])
}
