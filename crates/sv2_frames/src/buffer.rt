//! The bytes of a splitter, over slices.

ghost use Rattle.std.specs.Prelude.{◌≡◌, ◌⊎◌, ◌↔◌, ℕ, ◌+◌, ◌-◌, ◌<◌, ◌≤◌, ◌^◌, [], ◌++◌, length, take, drop, min, IsSome, IsNone, IfSome, IfNone, IfOk, IfErr, IsOkAnd, IsErrAnd};
ghost use Rattle.sv2_frames.specs.Framing.{header_of, payload_length};
ghost use Rattle.sv2_frames.specs.Holding.{frame_end, HoldsFrame, HoldsOver, IsHeldFrame, IsCutWithin, IsFull, IsBuffer};

use crate::framing::Frame;
use sv2_types::Reader;
use thiserror::Error;

/// A header says a payload of this many bytes, which is over the limit.
#[derive(Clone, Copy, Debug, Error)]
#[error("a header says a payload of {0} bytes, over the limit")]
pub struct TooLong(pub u32);

/// How many bytes a header has.
pub(crate) const HEADER_LEN: usize = 6;

/// A frame's header. Bit 15 of the extension type is the channel bit, which is not tested here.
#[derive(Clone, Copy, Debug)]
pub struct FrameHeader {
    /// The extension type.
    pub ext: u16,
    /// The message type.
    pub kind: u8,
    /// How many bytes the payload has.
    pub len: u32,
}

/// The header at the front, where all of it is there.
pub(crate) fn header_at(bytes: &[u8]) -> Option<FrameHeader>
    ensures none { IfNone result (length bytes.now < 6) }
    ensures header { IfSome result (λ h. bytes.now ≡ header_of h.ext h.kind h.len
        ++ drop 6 bytes.now) }
    ensures says { IfSome result (λ h. h.len ≡ payload_length bytes.now) }
    ensures fits { IfSome result (λ h. h.len < 2 ^ 24) }
{
    let mut reader = Reader::new(bytes);
    let ext = reader.u16().ok()?;
    let kind = reader.u8().ok()?;
    let len = reader.u24().ok()?;
    Some(FrameHeader { ext, kind, len })
}

/// Where the first frame of these bytes ends, or its header where that says more than the limit or
/// is not all there.
pub(crate) fn frame_end(bytes: &[u8], limit: u32) -> usize
    ensures { result ≡ frame_end limit bytes.now }
{
    match header_at(bytes) {
        Some(header) if header.len <= limit => HEADER_LEN + header.len as usize,
        _ => HEADER_LEN,
    }
}

/// Takes from the piece what fits before `end`, and says how much.
fn fill(buffer: &mut [u8], held: usize, end: usize, piece: &[u8]) -> usize
    requires from { held ≤ length buffer.old }
    requires to { end ≤ length buffer.old }
    ensures count { result ≡ min (end - held) (length piece.now) }
    ensures bytes { take (held + result) buffer.new
        ≡ take held buffer.old ++ take result piece.now }
{
    let count = end.saturating_sub(held).min(piece.len());
    let part = &piece[..count];
    buffer[held..held + count].copy_from_slice(part);
    count
}

/// Takes from the piece up to the end of the present frame, or of a header over the limit, and says
/// how much.
pub(crate) fn take_in(buffer: &mut [u8], held: usize, limit: u32, piece: &[u8]) -> usize
    requires { IsBuffer buffer.old held limit }
    ensures within { result ≤ length piece.now }
    ensures bytes { take (held + result) buffer.new
        ≡ take held buffer.old ++ take result piece.now }
    ensures end { let all = take held buffer.old ++ piece.now in
        take (held + result) buffer.new ≡ take (frame_end limit all) all }
    ensures none { (result ≡ 0) ↔ ((piece.now ≡ [])
        ⊎ IsFull (record { held = take held buffer.old; limit = limit })) }
    ensures all { IsCutWithin (record { held = take (held + result) buffer.new; limit = limit })
        → result ≡ length piece.now }
    ensures kept { IsBuffer buffer.new (held + result) limit }
{
    let first = fill(buffer, held, HEADER_LEN, piece);
    let now = held + first;
    let end = frame_end(&buffer[..now], limit);
    let second = fill(buffer, now, end, &piece[first..]);
    first + second
}

/// What the held bytes are: a whole frame, a header over the limit, or neither yet.
pub(crate) fn frame_in(held: &[u8], limit: u32) -> Result<Option<Frame<'_>>, TooLong>
    requires { length held.now ≤ frame_end limit held.now }
    ensures frame { IfOk result (λ found. IfSome found
        (λ f. IsHeldFrame f.ext f.kind f.payload.now (record { held = held.now; limit = limit }))) }
    ensures held { IfOk result
        (λ found. IfSome found (λ _. HoldsFrame (record { held = held.now; limit = limit }))) }
    ensures whole { HoldsFrame (record { held = held.now; limit = limit })
        → IsOkAnd result (λ found. IsSome found) }
    ensures none { IsOkAnd result (λ found. IsNone found)
        ↔ IsCutWithin (record { held = held.now; limit = limit }) }
    ensures too_long { IfErr result (λ e. HoldsOver e.0
        (record { held = held.now; limit = limit })) }
    ensures over { (len : ℕ) → HoldsOver len (record { held = held.now; limit = limit })
        → IsErrAnd result (λ e. e.0 ≡ len) }
{
    let Some(header) = header_at(held) else {
        return Ok(None);
    };
    if header.len > limit {
        return Err(TooLong(header.len));
    }
    let payload = &held[HEADER_LEN..];
    if payload.len() < header.len as usize {
        return Ok(None);
    }
    Ok(Some(Frame {
        ext: header.ext,
        kind: header.kind,
        payload,
    }))
}
