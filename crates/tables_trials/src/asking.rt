//! What a book is asked for by the record of an event, and what it answers.

use crate::reading::refuse;
use block_header::target_of;
use ledger_records::read_record;
use pool_history::{BookError, Event, Kind, OpenAsk, Opened, Reply, Request, Submission};
use pool_io::Keeper;
use share_headers::{check, rolled_length};
use share_ledger::Book;
use std::fmt::{Debug, Display};
use std::str;
use sv2_types::Str255;
use trial_cases::Found;

/// Tells what a book answers a worker that asks for the event of a record.
pub(crate) fn ask<K: Keeper>(found: &mut Found, book: &mut Book<K>, worker: u32, record: &[u8]) {
    match read_record(found.alloc(), record) {
        Ok((event, _)) => ask_for(found, book, worker, event),
        Err(_) => refuse(found),
    }
}

fn ask_for<K: Keeper>(found: &mut Found, book: &mut Book<K>, worker: u32, event: Event) {
    match submission(&event) {
        Some(share) => tell_reply(found, submit(book, worker, share)),
        None => match request(event) {
            Some(request) => tell_reply(found, book.act(worker, request)),
            None => refuse(found),
        },
    }
}

/// The submission that a Credit books.
fn submission(event: &Event) -> Option<Submission> {
    let Event::Credit {
        channel,
        job,
        nonce,
        ntime,
        version,
        extranonce,
        ..
    } = event
    else {
        return None;
    };
    let sent = extranonce.bytes();
    let mut padded = [0; 32];
    if sent.len() > padded.len() {
        return None;
    }
    padded[..sent.len()].copy_from_slice(sent);
    Some(Submission {
        kind: if sent.is_empty() {
            Kind::Standard
        } else {
            Kind::Extended
        },
        channel: *channel,
        sequence: 0,
        job: *job,
        nonce: *nonce,
        ntime: *ntime,
        version: *version,
        extranonce: padded,
        extranonce_len: sent.len() as u8,
    })
}

/// Asks for a share's brief and, where there is one, hashes it and has it booked.
fn submit<K: Keeper>(
    book: &mut Book<K>,
    worker: u32,
    share: Submission,
) -> Result<Reply, BookError> {
    match book.act(worker, Request::Brief(share)) {
        Ok(Reply::Brief(brief)) => {
            if rolled_length(brief.kind, &brief.lead) != share.extranonce_len {
                return Ok(Reply::Brief(brief));
            }
            book.act(worker, Request::Commit(check(brief, share)))
        }
        other => other,
    }
}

/// What leads to another event; none for a Start.
fn request(event: Event) -> Option<Request> {
    match event {
        Event::Enter { role, flags, .. } => Some(Request::Enter(role, flags)),
        Event::Template { template, .. } => Some(Request::Template(template.into_inner())),
        Event::Tip { tip, .. } => Some(Request::Tip(tip.into_inner())),
        Event::Open { kind, account, .. } => Some(opening(kind, account)),
        Event::Name {
            channel,
            account,
            ..
        } => Some(Request::Name(channel, account)),
        Event::Class { channel, class, .. } => class_asked(channel, class),
        Event::Close { channel, .. } => Some(Request::Close(channel)),
        Event::Leave { .. } => Some(Request::Leave),
        Event::Grant { account, .. } => Some(Request::Grant(account, None)),
        Event::Custom { custom, .. } => Some(Request::Custom(custom.into_inner())),
        Event::Start(_) | Event::Credit { .. } => None,
    }
}

/// An opening of class 0, which rolls eight bytes where it may.
fn opening(kind: Kind, identity: Str255) -> Request {
    let min_size = match kind {
        Kind::Standard => 0,
        Kind::Extended | Kind::V1 => 8,
    };
    Request::Open(OpenAsk {
        kind,
        identity,
        max_target: target_of(0),
        min_size,
    })
}

/// The greatest target of a class, for a channel.
fn class_asked(channel: u32, class: u8) -> Option<Request> {
    if class <= 60 {
        Some(Request::Update(channel, target_of(class)))
    } else {
        None
    }
}

/// A reply by its name, or the book's error.
fn tell_reply(found: &mut Found, reply: Result<Reply, BookError>) {
    match reply {
        Ok(reply) => tell_named(found, &reply),
        Err(error) => found.tell(&error),
    }
}

/// A reply by its name; those that no case wants are refused.
fn tell_named(found: &mut Found, reply: &Reply) {
    match reply {
        Reply::NoSession => found.say("NoSession"),
        Reply::Left => found.say("Left"),
        Reply::Named => found.say("Named"),
        Reply::Closed => found.say("Closed"),
        Reply::NotOpen => found.say("NotOpen"),
        Reply::Opened(opened) => tell_opening(found, opened),
        Reply::Target(channel, class) => {
            found.say("Target(");
            found.tell(channel);
            found.say(", ");
            found.tell(&class.value());
            found.say(")");
        }
        Reply::Entered(session) => tell_with(found, "Entered", &session.value()),
        Reply::Job(number) => tell_with(found, "Job", number),
        Reply::CustomJob(number) => tell_with(found, "CustomJob", number),
        Reply::Credited(work) => tell_with(found, "Credited", work),
        refused => tell_refused(found, refused),
    }
}

fn tell_refused(found: &mut Found, reply: &Reply) {
    match reply {
        Reply::TemplateRefused(error) => tell_why(found, "TemplateRefused", error),
        Reply::NameRefused(error) => tell_why(found, "NameRefused", error),
        Reply::Refused(condition) => tell_why(found, "Refused", condition),
        Reply::CustomRefused(error) => tell_why(found, "CustomRefused", error),
        _ => refuse(found),
    }
}

fn tell_with(found: &mut Found, name: &str, value: &impl Display) {
    found.say(name);
    found.say("(");
    found.tell(value);
    found.say(")");
}

fn tell_why(found: &mut Found, name: &str, error: &impl Debug) {
    found.say(name);
    found.say("(");
    found.debug(error);
    found.say(")");
}

/// What an opening gave: its channel, the class and the lead.
fn tell_opening(found: &mut Found, opened: &Opened) {
    found.say("Opened(");
    found.tell(&opened.channel);
    found.say(", ");
    found.tell(&opened.class.value());
    found.say(", ");
    found.hex(opened.lead.bytes());
    found.say(")");
}

/// A book's summary in one line.
pub(crate) fn tell_summary<K: Keeper>(found: &mut Found, book: &Book<K>) {
    let mut lines = Vec::new(found.alloc());
    found.done(book.summary(&mut lines).is_ok());
    match str::from_utf8(lines.as_slice()) {
        Ok(text) => {
            for (at, line) in text.lines().enumerate() {
                found.say(if at == 0 { "" } else { "; " });
                found.say(line);
            }
        }
        Err(_) => found.say("no text"),
    }
}
