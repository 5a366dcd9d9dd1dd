//! A frame, and how it is written.

ghost use Rattle.std.specs.Prelude.{◌≡◌, ◌<◌, ◌^◌, ◌++◌, length, OnOk, OnErr};
ghost use Rattle.sv2_frames.specs.Framing.{frame_of, header_of, NoFrameBeginsAnother};
ghost use Rattle.sv2_frames.specs.Stream.{FramesExist, FramesAreUnique};

use std::alloc::AllocError;

/// One frame of a stream. Bit 15 of the extension type is the channel bit, which is not tested
/// here.
#[derive(Clone, Copy, Debug)]
pub struct Frame<'a> {
    /// The extension type.
    pub ext: u16,
    /// The message type.
    pub kind: u8,
    pub payload: &'a [u8],
}

/// Appends the frame's six header bytes and its payload, or nothing where memory runs out.
pub fn write_frame(out: &mut Vec<u8>, ext: u16, kind: u8, payload: &[u8]) -> Result<(), AllocError>
    requires { length payload.now < 2 ^ 24 }
    ensures ok { OnOk result (out.new.items ≡ out.old.items ++ frame_of ext kind payload.now) }
    ensures err { OnErr result (out.new.items ≡ out.old.items) }
{
    let header = header_of(ext, kind, payload.len() as u32);
    out.reserve(header.len() + payload.len())?;
    out.extend_from_slice(&header)?;
    out.extend_from_slice(payload)
}

fn header_of(ext: u16, kind: u8, len: u32) -> [u8; 6]
    requires { len < 2 ^ 24 }
    ensures { result ≡ header_of ext kind len }
{
    let [ext_low, ext_high] = ext.to_le_bytes();
    let [low, middle, high, _] = len.to_le_bytes();
    [ext_low, ext_high, kind, low, middle, high]
}

/// A law of the format: a stream can begin with one frame only.
pub fn no_frame_begins_another()
    ensures { NoFrameBeginsAnother }
{}

/// A law of the format: a stream has frames and a rest that is a proper prefix of one.
pub fn frames_exist()
    ensures { FramesExist }
{}

/// A law of the format: a stream has no other frames and no other rest.
pub fn frames_are_unique()
    ensures { FramesAreUnique }
{}
