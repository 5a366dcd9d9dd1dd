//! Writes an event as its record.

ghost use Rattle.std.specs.Prelude.{◌≡◌, [], ◌≤◌, ◌<◌, ◌^◌, ◌++◌, length, OnOk, OnErr, IfOk};
ghost use Rattle.pool_base.specs.Lists.{Begins};
ghost use Rattle.pool_history.specs.Ledger.{HasRecord, EventFits, record_body, record_of};
ghost use Rattle.sv2_types.specs.Spelling.{spelled_u8, spelled_u32, spelled_b16m};

use crate::reading::HEAD_LEN;
use crate::record_fields::{
    kind_number, put_custom, put_path, put_rules, put_template, put_tip, role_number,
};
use crate::record_kind;
use pool_history::Event;
use std::alloc::{AllocError, Global};
use sv2_types::{put_b16m, put_b32, put_boolean, put_str255, put_u8, put_u32};

/// How many bytes a body has room for at first: those of a credit and of most others.
const BODY_ROOM: usize = 64;

/// Appends the event's record: its kind, three bytes of length, low byte first, and its body.
/// Lack of memory leaves `out` as it was.
pub fn write_record(event: &Event, out: &mut Vec<u8>) -> Result<(), AllocError>
    requires { HasRecord event.now }
    ensures ok { OnOk result (out.new.items ≡ out.old.items ++ record_of event.now) }
    ensures err { OnErr result (out.new.items ≡ out.old.items) }
{
    let body = body_of(*out.allocator(), event)?;
    let start = out.len();
    let put = put_record(record_kind(event), body.as_slice(), out);
    if put.is_err() {
        out.truncate(start);
    }
    put
}

/// Appends a kind and a body. Lack of memory can leave some of them behind the old bytes.
fn put_record(kind: u8, body: &[u8], out: &mut Vec<u8>) -> Result<(), AllocError>
    requires { length body.now < 2 ^ 24 }
    ensures ok { OnOk result (out.new.items
        ≡ out.old.items ++ (spelled_u8 kind ++ spelled_b16m body.now)) }
    ensures err { OnErr result (Begins out.old.items out.new.items) }
{
    out.reserve(HEAD_LEN + body.len())?;
    put_u8(out, kind)?;
    put_b16m(out, body)
}

fn body_of(alloc: Global, event: &Event) -> Result<Vec<u8>, AllocError>
    requires { EventFits event.now }
    ensures { IfOk result (λ body. body.items ≡ record_body event.now) }
{
    let mut body = Vec::with_capacity(alloc, BODY_ROOM)?;
    put_body(event, &mut body)?;
    Ok(body)
}

/// The fields of a body, one after the other, where none stands yet.
fn put_body(event: &Event, body: &mut Vec<u8>) -> Result<(), AllocError>
    requires fits { EventFits event.now }
    requires empty { body.old.items ≡ [] }
    ensures { OnOk result (body.new.items ≡ record_body event.now) }
{
    match event {
        Event::Start(rules) => put_rules(body, rules.get()),
        Event::Enter {
            worker,
            role,
            flags,
        } => {
            put_u32(body, *worker)?;
            put_u8(body, role_number(*role))?;
            put_u32(body, *flags)
        }
        Event::Template { session, template } => {
            put_u32(body, *session)?;
            put_template(body, template.get())
        }
        Event::Tip { session, tip } => {
            put_u32(body, *session)?;
            put_tip(body, tip.get())
        }
        Event::Open {
            session,
            kind,
            account,
            class,
            lead,
        } => {
            put_u32(body, *session)?;
            put_u8(body, kind_number(*kind))?;
            put_str255(body, account.text())?;
            put_u8(body, *class)?;
            put_b32(body, lead.bytes())
        }
        Event::Name {
            session,
            channel,
            account,
        } => {
            put_channel(body, *session, *channel)?;
            put_str255(body, account.text())
        }
        Event::Class {
            session,
            channel,
            class,
        } => {
            put_channel(body, *session, *channel)?;
            put_u8(body, *class)
        }
        Event::Close { session, channel } => put_channel(body, *session, *channel),
        Event::Leave { session } => put_u32(body, *session),
        Event::Credit {
            session,
            channel,
            job,
            nonce,
            ntime,
            version,
            extranonce,
        } => {
            put_channel(body, *session, *channel)?;
            put_u32(body, *job)?;
            put_u32(body, *nonce)?;
            put_u32(body, *ntime)?;
            put_u32(body, *version)?;
            put_b32(body, extranonce.bytes())
        }
        Event::Grant {
            session,
            account,
            fixed,
            path,
        } => {
            put_u32(body, *session)?;
            put_str255(body, account.text())?;
            put_boolean(body, *fixed)?;
            put_path(body, path)
        }
        Event::Custom { session, custom } => {
            put_u32(body, *session)?;
            put_custom(body, custom.get())
        }
    }
}

/// A session and its channel.
fn put_channel(body: &mut Vec<u8>, session: u32, channel: u32) -> Result<(), AllocError>
    ensures { OnOk result (body.new.items
        ≡ body.old.items ++ (spelled_u32 session ++ spelled_u32 channel)) }
{
    put_u32(body, session)?;
    put_u32(body, channel)
}
