//! What lines ask a book for, and what it answers, in words.

ghost use Rattle.std.specs.Prelude.{◌≤◌};

use ledger_records::read_record;
use pool_history::{
    BookError, Brief, Event, Kind, OpenAsk, Reply, Request, Submission, TemplateData, TipData,
};
use pool_io::Keeper;
use share_headers::{check, rolled_length};
use share_ledger::Book;
use std::fmt::Display;
use std::str;
use sv2_types::{Blob, Hashes, Str255, U256};
use trial_cases::{Found, kind, role, word};

/// Tells what a book answers the worker of a line.
pub(crate) fn answer<K: Keeper>(found: &mut Found, book: &mut Book<K>, words: &str) {
    let worker = found.short_number(word(words, 0));
    if word(words, 1) == "share" {
        let share = submission(found, words);
        submit(found, book, worker, share);
    } else {
        let reply = book.act(worker, request(found, words));
        tell(found, &reply);
    }
}

/// Asks for a share's brief and, where there is one, hashes it and has it booked.
pub(crate) fn submit<K: Keeper>(
    found: &mut Found,
    book: &mut Book<K>,
    worker: u32,
    share: Submission,
) {
    match book.act(worker, Request::Brief(share)) {
        Ok(Reply::Brief(brief)) => commit(found, book, worker, brief, share),
        other => tell(found, &other),
    }
}

/// Has a share booked that was hashed by a brief, of its own or of another share of its length.
pub(crate) fn commit<K: Keeper>(
    found: &mut Found,
    book: &mut Book<K>,
    worker: u32,
    brief: Brief,
    share: Submission,
) {
    if rolled_length(brief.kind, &brief.lead) == share.extranonce_len {
        let reply = book.act(worker, Request::Commit(check(brief, share)));
        tell(found, &reply);
    } else {
        found.say("a share of another length");
    }
}

/// The request of a line for anything but a share.
pub(crate) fn request(found: &mut Found, words: &str) -> Request {
    let (first, second) = (word(words, 2), word(words, 3));
    match word(words, 1) {
        "enter" => Request::Enter(role(first), found.short_number(second)),
        "template" => template(found.number(first), second == "future", found),
        "tip" => tip(found, words),
        "own-job" => own_job(found, first),
        "open" => opening(found, first, second),
        "close" => Request::Close(found.short_number(first)),
        "update" => Request::Update(found.short_number(first), target(found.number(second))),
        "grant" => Request::Grant(account(found), None),
        "poll" => Request::Poll(found.number(first)),
        "leave" => Request::Leave,
        _ => {
            found.say("no request ");
            Request::Leave
        }
    }
}

/// A template whose coinbase has no outputs of its own, and no other transaction beside it.
fn template(template_id: u64, future_template: bool, found: &mut Found) -> Request {
    Request::Template(TemplateData {
        template_id,
        future_template,
        version: 0x2000_0000,
        coinbase_tx_version: 2,
        coinbase_prefix: Blob::from_vec(found.bytes_of("5151")),
        coinbase_tx_input_sequence: u32::MAX,
        coinbase_tx_value_remaining: 1000,
        coinbase_tx_outputs_count: 0,
        coinbase_tx_outputs: Blob::from_vec(Vec::new(found.alloc())),
        coinbase_tx_locktime: 0,
        merkle_path: Hashes::from_vec(Vec::new(found.alloc())),
    })
}

/// A tip on a block whose hash has one byte alone, and whose target has another.
fn tip(found: &mut Found, words: &str) -> Request {
    let byte = (found.hex_number(word(words, 3)) & 0xff) as u8;
    let of_target = (found.hex_number(word(words, 4)) & 0xff) as u8;
    Request::Tip(TipData {
        template_id: found.number(word(words, 2)),
        prev_hash: U256::of([byte; 32]),
        header_timestamp: 1_000_000,
        nbits: 0x207f_ffff,
        target: U256::of([of_target; 32]),
    })
}

/// What is asked for by a record of a miner's own job.
fn own_job(found: &mut Found, record: &str) -> Request {
    let record = found.bytes_of(record);
    match read_record(found.alloc(), &record) {
        Ok((Event::Custom { custom, .. }, _)) => Request::Custom(custom.into_inner()),
        _ => {
            found.say("no job ");
            Request::Leave
        }
    }
}

/// An opening of a channel for the user a.
fn opening(found: &mut Found, of_kind: &str, size: &str) -> Request {
    let kind = kind(of_kind);
    let min_size = match kind {
        Kind::Standard => 0,
        Kind::Extended | Kind::V1 => (found.number(size) & 0xffff) as u16,
    };
    Request::Open(OpenAsk {
        kind,
        identity: account(found),
        max_target: U256::of([0xff; 32]),
        min_size,
    })
}

/// The user a.
fn account(found: &mut Found) -> Str255 {
    let mut user = String::new(found.alloc());
    found.done(user.push_str("a").is_ok());
    Str255::from_text(user)
}

/// The greatest target that has so many zero bytes in front, as it is displayed.
fn target(zeros: u64) -> U256 {
    let mut bytes = [0xff; 32];
    for (byte, _) in bytes.iter_mut().rev().zip(0..zeros) {
        *byte = 0;
    }
    U256::of(bytes)
}

/// The submission of a line: the worked session's share but for what the line changes, a field by its
/// name.
pub(crate) fn submission(found: &mut Found, words: &str) -> Submission {
    let mut share = share(1, 0);
    let field = word(words, 2);
    let value = match field {
        "" => 0,
        _ => found.short_number(word(words, 3)),
    };
    match field {
        "channel" => share.channel = value,
        "job" => share.job = value,
        "nonce" => share.nonce = value,
        "ntime" => share.ntime = value,
        "version" => share.version = value,
        "length" => share.extranonce_len = value.min(32) as u8,
        "" => {}
        _ => found.say("no field "),
    }
    share
}

/// The worked session's share, for another channel and with another nonce. Its extranonce is zeros.
pub(crate) fn share(channel: u32, nonce: u32) -> Submission {
    Submission {
        kind: Kind::Extended,
        channel,
        sequence: 9,
        job: 1,
        nonce,
        ntime: 1_000_000,
        version: 0x2000_0000,
        extranonce: [0; 32],
        extranonce_len: 8,
    }
}

/// Tells what is answered.
pub(crate) fn tell(found: &mut Found, answer: &Result<Reply, BookError>) {
    match answer {
        Ok(reply) => tell_reply(found, reply),
        Err(error) => found.tell(error),
    }
}

/// Tells a reply.
pub(crate) fn tell_reply(found: &mut Found, reply: &Reply) {
    match reply {
        Reply::Entered(number) => tell_of(found, "session ", &number.value()),
        Reply::Job(number) => tell_of(found, "job ", number),
        Reply::TemplateRefused(error) => found.tell(error),
        Reply::Opened(opened) => tell_of(found, "channel ", &opened.channel),
        Reply::OpenRefused(error) => found.say(error.code()),
        Reply::Target(channel, class) => {
            tell_of(found, "channel ", channel);
            tell_of(found, " class ", &class.value());
        }
        Reply::UpdateRefused(error) => found.say(error.code()),
        Reply::Credited(work) => tell_of(found, "credited ", work),
        Reply::Refused(failed) => found.say(failed.code()),
        Reply::News(to, notes) => {
            found.tell(&notes.items().len());
            tell_of(found, " notes to ", to);
        }
        Reply::Granted(number, _) => tell_of(found, "token ", number),
        Reply::CustomJob(number) => tell_of(found, "own job ", number),
        Reply::CustomRefused(error) => found.say(error.code()),
        Reply::Closed => found.say("closed"),
        Reply::Left => found.say("left"),
        Reply::NotOpen => found.say("not open"),
        Reply::NoSession => found.say("no session"),
        _ => found.say("unexpected"),
    }
}

/// Tells a number, and in front of it of what.
pub(crate) fn tell_of(found: &mut Found, of: &str, number: &impl Display) {
    found.say(of);
    found.tell(number);
}

/// Tells the lines of a book's summary, each between two texts.
pub(crate) fn tell_summary<K: Keeper>(found: &mut Found, book: &Book<K>, texts: (&str, &str)) {
    let mut lines = Vec::new(found.alloc());
    found.done(book.summary(&mut lines).is_ok());
    for line in str::from_utf8(&lines).unwrap_or("no text").lines() {
        found.say(texts.0);
        found.say(line);
        found.say(texts.1);
    }
}
