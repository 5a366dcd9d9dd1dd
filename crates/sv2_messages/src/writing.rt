//! Writes the fields of a message in their order, as a frame.

ghost use Rattle.std.specs.Prelude.{◌≡◌, ◌↔◌, ◌+◌, ◌≤◌, ◌<◌, ◌^◌, ◌++◌, length, List, IsTrue, OnOk, OnErr, IfSome, IfNone};
ghost use Rattle.pool_base.specs.Lists.{Begins};
ghost use Rattle.sv2_messages.specs.Messages.{Message, Row, FitsFrame, message_frame, ext_of, frame_with};
ghost use Rattle.sv2_messages.specs.Writing.{AreFields, FitPayload, types_in, values_in, spellings_of};

use crate::field::Field;
use crate::kinds::{NEW_MINING_JOB, SET_TARGET};
use std::alloc::AllocError;
use sv2_types::{put_u8, put_u16, put_u24};

/// The bytes of a frame's header.
const HEADER_LEN: usize = 6;

/// A payload has fewer bytes than this.
const PAYLOAD_LIMIT: usize = 1 << 24;

/// Whether the fields of a message have spellings that a payload has room for.
pub fn fits(fields: &[Field<'_>]) -> bool
    ensures fits { IsTrue result → (table : List Row) (message : Message)
        → AreFields table message fields.now → FitsFrame table message }
    ensures only { (table : List Row) (message : Message) → AreFields table message fields.now
        → FitsFrame table message → IsTrue result }
{
    payload_len(fields).is_some()
}

/// Appends the frame of a message of this kind with these fields, or nothing where memory runs out.
pub fn put_frame(out: &mut Vec<u8>, kind: u8, fields: &[Field<'_>]) -> Result<(), AllocError>
    requires { (table : List Row) × (message : Message) × AreFields table message fields.now
        × FitsFrame table message × (message.kind ≡ kind) }
    ensures ok { (table : List Row) (message : Message) → message.kind ≡ kind
        → AreFields table message fields.now
        → OnOk result (out.new.items ≡ out.old.items ++ message_frame table message) }
    ensures err { OnErr result (out.new.items ≡ out.old.items) }
{
    let start = out.len();
    let put = put_parts(kind, fields, out);
    if put.is_err() {
        out.truncate(start);
    }
    put
}

/// How many bytes the fields' spellings have, where they have any that a payload has room for.
fn payload_len(fields: &[Field<'_>]) -> Option<usize>
    ensures some { IfSome result (λ len. FitPayload fields.now
        × (len ≡ length (spellings_of fields.now))) }
    ensures none { IfNone result (¬ (FitPayload fields.now)) }
{
    let mut len = 0;
    for field in fields {
        if !field.fits() || field.len() >= PAYLOAD_LIMIT - len {
            return None;
        }
        len += field.len();
    }
    Some(len)
}

/// The extension type of a message's frame. The kinds from 15 to 21, in hex digits, have the
/// channel bit.
fn extension_type(kind: u8) -> u16
    ensures { result ≡ ext_of kind }
{
    match kind {
        NEW_MINING_JOB..=SET_TARGET => 0x8000,
        _ => 0,
    }
}

/// Appends the header and the spellings. Lack of memory can leave some of them behind the old
/// bytes.
fn put_parts(kind: u8, fields: &[Field<'_>], out: &mut Vec<u8>) -> Result<(), AllocError>
    requires { FitPayload fields.now }
    ensures ok { OnOk result (out.new.items ≡ out.old.items
        ++ frame_with kind (types_in fields.now) (values_in fields.now)) }
    ensures err { OnErr result (Begins out.old.items out.new.items) }
{
    let len = payload_len(fields).unwrap();
    out.reserve(HEADER_LEN + len)?;
    put_u16(out, extension_type(kind))?;
    put_u8(out, kind)?;
    put_u24(out, len as u32)?;
    put_fields(fields, out)
}

/// Appends the spellings.
fn put_fields(fields: &[Field<'_>], out: &mut Vec<u8>) -> Result<(), AllocError>
    requires { FitPayload fields.now }
    ensures ok { OnOk result (out.new.items ≡ out.old.items ++ spellings_of fields.now) }
    ensures err { OnErr result (Begins out.old.items out.new.items) }
{
    for field in fields {
        field.put(out)?;
    }
    Ok(())
}
