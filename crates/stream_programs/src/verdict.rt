//! Whether a frame is good.

ghost use Rattle.std.specs.Prelude.{◌≡◌, ◌↔◌, IsErrOf, IfOk, OnOk, IfErr};
ghost use Rattle.sv2_messages.specs.declared.error.MsgError.{MsgError};
ghost use Rattle.sv2_messages.specs.Reading.{IsFirstDefect};
ghost use Rattle.stream_programs.specs.Lines.{name_for};
ghost use Rattle.sv2_messages.specs.Tables.{all_messages};
ghost use Rattle.stream_programs.specs.Listing.{IsBad, IsGood};

use sv2_frames::Frame;
use sv2_messages::{MsgError, name_of};

/// The channel bit of an extension type, which isn't looked at.
const CHANNEL_BIT: u16 = 0x8000;

/// What is printed in place of a name.
const NO_NAME: &str = "-";

/// The name that a frame is listed with, or why its payload is no message of its kind. Where an
/// extension bit beside the channel bit is set, or no message has the kind, the payload isn't read.
pub fn verdict(frame: Frame<'_>) -> Result<&'static str, MsgError>
    ensures name { IfOk result (λ name. name.now ≡ name_for frame.entry.ext frame.entry.kind) }
    ensures good { OnOk result (IsGood (record {
      ext = frame.entry.ext;
      kind = frame.entry.kind;
      payload = frame.entry.payload.now;
    })) }
    ensures bad { IfErr result (λ e. IsBad (record {
      ext = frame.entry.ext;
      kind =
          frame.entry.kind;
      payload = frame.entry.payload.now;
    }) e) }
{
    if frame.ext % CHANNEL_BIT != 0 {
        return Ok(NO_NAME);
    }
    match check(frame.kind, frame.payload) {
        Ok(()) => Ok(name_or_dash(frame.kind)),
        Err(MsgError::UnknownKind(_)) => Ok(name_or_dash(frame.kind)),
        Err(MsgError::BadField(place, reason)) => Err(MsgError::BadField(place, reason)),
        Err(MsgError::Trailing(count)) => Err(MsgError::Trailing(count)),
    }
}

fn name_or_dash(kind: u8) -> &'static str
    ensures { result.now ≡ name_for 0 kind }
{
    match name_of(kind) {
        Some(name) => name,
        None => NO_NAME,
    }
}

/// Whether the payload is a message of its kind; else the first defect.
fn check(kind: u8, payload: &[u8]) -> Result<(), MsgError>
    ensures { (e : MsgError) → IsErrOf result e ↔ IsFirstDefect all_messages kind payload.now e }
{
    match mining_msgs::read(kind, payload) {
        Ok(_) => return Ok(()),
        Err(MsgError::UnknownKind(_)) => {}
        Err(MsgError::BadField(place, reason)) => return Err(MsgError::BadField(place, reason)),
        Err(MsgError::Trailing(count)) => return Err(MsgError::Trailing(count)),
    }
    match template_msgs::read(kind, payload) {
        Ok(_) => return Ok(()),
        Err(MsgError::UnknownKind(_)) => {}
        Err(MsgError::BadField(place, reason)) => return Err(MsgError::BadField(place, reason)),
        Err(MsgError::Trailing(count)) => return Err(MsgError::Trailing(count)),
    }
    match declare_msgs::read(kind, payload) {
        Ok(_) => Ok(()),
        Err(error) => Err(error),
    }
}
