//! The lines that are printed.

ghost use Rattle.std.specs.Prelude.{◌≡◌, ◌++◌, [], ◌∷◌, decimal, OnOk};
ghost use Rattle.std.specs.Int.{w16, to_be_bytes};
ghost use Rattle.hex.specs.Hex.{encode_lower};
ghost use Rattle.stream_programs.specs.Lines.{name_for, frame_line, bad_line, defect_words, cause};

use crate::flaw::Flaw;
use itoa::Buffer;
use std::alloc::AllocError;
use sv2_frames::Frame;
use sv2_messages::MsgError;
use sv2_types::ReadError;

/// Appends the line of a frame.
pub fn put_frame_line(
    text: &mut Vec<u8>,
    number: u64,
    frame: Frame<'_>,
    name: &str,
) -> Result<(), AllocError>
    requires { name.now ≡ name_for frame.ext frame.kind }
    ensures { OnOk result (text.new.items ≡ text.old.items
        ++ frame_line number (record {
          ext = frame.entry.ext;
          kind = frame.entry.kind;
          payload =
              frame.entry.payload.now;
        })) }
{
    text.extend_from_slice(b"frame ")?;
    put_decimal(text, number)?;
    text.extend_from_slice(b" ext ")?;
    put_hex_u16(text, frame.ext)?;
    text.extend_from_slice(b" kind ")?;
    put_hex_u8(text, frame.kind)?;
    text.extend_from_slice(b" length ")?;
    put_decimal(text, frame.payload.len() as u64)?;
    text.extend_from_slice(b" ")?;
    text.extend_from_slice(name.as_bytes())?;
    text.extend_from_slice(b"\n")
}

/// Appends the last line.
pub fn put_bad_line(text: &mut Vec<u8>, number: u64, flaw: Flaw) -> Result<(), AllocError>
    ensures { OnOk result (text.new.items ≡ text.old.items ++ bad_line number flaw) }
{
    text.extend_from_slice(b"bad ")?;
    put_decimal(text, number)?;
    match flaw {
        Flaw::Payload(error) => put_defect(text, error)?,
        Flaw::Length(len) => {
            text.extend_from_slice(b" length ")?;
            put_decimal(text, u64::from(len))?;
        }
        Flaw::Cut(count) => {
            text.extend_from_slice(b" cut ")?;
            put_decimal(text, count as u64)?;
        }
    }
    text.extend_from_slice(b"\n")
}

fn put_defect(text: &mut Vec<u8>, error: MsgError) -> Result<(), AllocError>
    ensures { OnOk result (text.new.items ≡ text.old.items ++ defect_words error) }
{
    match error {
        // No flaw: the payload of such a frame isn't read.
        MsgError::UnknownKind(_) => Ok(()),
        MsgError::BadField(place, reason) => {
            text.extend_from_slice(b" field ")?;
            put_decimal(text, place as u64)?;
            text.extend_from_slice(b" ")?;
            text.extend_from_slice(cause(reason).as_bytes())
        }
        MsgError::Trailing(count) => {
            text.extend_from_slice(b" trailing ")?;
            put_decimal(text, count as u64)
        }
    }
}

/// Why a field can't be read.
fn cause(reason: ReadError) -> &'static str
    ensures { result.now ≡ cause reason }
{
    match reason {
        ReadError::Short => "short",
        ReadError::LengthTooGreat => "length",
        ReadError::NotUtf8 => "utf8",
        ReadError::CountTooGreat => "count",
    }
}

fn put_decimal(text: &mut Vec<u8>, number: u64) -> Result<(), AllocError>
    ensures { OnOk result (text.new.items ≡ text.old.items ++ decimal number) }
{
    let mut buffer = Buffer::new();
    text.extend_from_slice(buffer.format(number).as_bytes())
}

fn put_hex_u16(text: &mut Vec<u8>, number: u16) -> Result<(), AllocError>
    ensures { OnOk result (text.new.items ≡ text.old.items
        ++ encode_lower (to_be_bytes w16 number)) }
{
    let mut digits = [0; 4];
    let _ = hex::encode_to_slice(number.to_be_bytes(), &mut digits);
    text.extend_from_slice(&digits)
}

fn put_hex_u8(text: &mut Vec<u8>, number: u8) -> Result<(), AllocError>
    ensures { OnOk result (text.new.items ≡ text.old.items ++ encode_lower (number ∷ [])) }
{
    let mut digits = [0; 2];
    let _ = hex::encode_to_slice([number], &mut digits);
    text.extend_from_slice(&digits)
}
