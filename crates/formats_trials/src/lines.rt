//! Lines of Stratum V1: streams of them, and what they say, read and written.

ghost use Rattle.std.specs.Prelude.{◌≡◌, false, IfOk};
ghost use Rattle.serde_json.specs.View.{view};
ghost use Rattle.serde_json.specs.Written.{has_float};

use serde_json::Value;
use std::alloc::AllocError;
use std::str;
use trial_cases::{Case, Found};
use v1_lines::{
    LineReader, NotifiedJob, V1Error, answer_id, answer_value, call_in, error_reply, hex_number,
    hex_word, is_blank_line, line_value, notify_value, number_text, put_line, refusal_reply,
    set_difficulty_value, word_text,
};

/// What a stream brings whole, and in which pieces it brings something else.
pub(crate) fn find_stream(found: &mut Found, case: Case<'_>) {
    let stream = found.bytes_of(case.part(1));
    read_stream(found, &stream, 1_000_000);
    for size in [1, 2, 7, 4_095, 4_096, 4_097] {
        let mut cut = Found::new(found.alloc());
        read_stream(&mut cut, &stream, size);
        if cut.text() != found.text() {
            found.say(", otherwise in pieces of ");
            found.tell(&size);
        }
    }
}

/// The lines of a stream that comes in pieces of this size, how it ends, and what is held then.
fn read_stream(found: &mut Found, stream: &[u8], size: usize) {
    match LineReader::new(found.alloc()) {
        Ok(mut reader) => {
            let mut goes_on = true;
            for piece in stream.chunks(size.max(1)) {
                goes_on = goes_on && read_piece(found, &mut reader, piece);
            }
            found.tell(&reader.held());
            found.say(" held");
        }
        Err(_) => found.done(false),
    }
}

/// Reads a piece, and says whether the stream goes on behind it.
fn read_piece(found: &mut Found, reader: &mut LineReader, piece: &[u8]) -> bool {
    let mut rest = piece;
    for _ in 0..=piece.len() {
        let taken = reader.feed(rest);
        rest = &rest[taken..];
        match reader.next() {
            Ok(None) => return true,
            Ok(Some(line)) => tell_line(found, line),
            Err(error) => {
                found.tell(&error);
                found.say(", ");
                return false;
            }
        }
        reader.drop_line();
    }
    true
}

/// Short lines by their bytes, others by their length.
fn tell_line(found: &mut Found, line: &[u8]) {
    if line.len() > 40 {
        found.tell(&line.len());
        found.say(" bytes");
    } else {
        found.hex(line);
    }
    found.say(", ");
}

pub(crate) fn find(found: &mut Found, case: Case<'_>) {
    let (form, text) = (case.part(0), case.part(1));
    let alloc = found.alloc();
    match form {
        "asks bytes" | "refuses bytes" => {
            let line = found.bytes_of(text);
            find_heard(found, form, &line);
        }
        "nested" => {
            let line = nested(found, text);
            find_heard(found, form, &line);
        }
        "code" => tell_reply(found, refusal_reply(alloc, Value::from(7u64), text)),
        "difficulty" => {
            let difficulty = found.number(text);
            tell_reply(found, set_difficulty_value(alloc, difficulty));
        }
        "notify" => find_notice(found, case),
        "number" => tell_number(found, hex_number(text)),
        "word" => tell_number(found, hex_word(text)),
        _ => find_heard(found, form, text.as_bytes()),
    }
}

/// What a line asks, the reply where the answer is true, or the one where no method is known.
fn find_heard(found: &mut Found, form: &str, line: &[u8]) {
    let alloc = found.alloc();
    let is_asked = form.starts_with("asks");
    match line_value(alloc, line) {
        _ if is_asked && is_blank_line(line) => found.say("blank"),
        Ok(Some(value)) if is_asked => tell_call(found, &value),
        Ok(Some(value)) => tell_answer(found, form, &value),
        Ok(None) if is_asked => found.say("no JSON"),
        Ok(None) => {
            let error = V1Error::MalformedRequest;
            tell_reply(found, error_reply(alloc, Value::Null, error));
        }
        Err(_) => found.done(false),
    }
}

fn tell_call(found: &mut Found, value: &Value) {
    match call_in(value) {
        Some(call) => {
            found.say(call.method);
            found.say(", ");
            found.tell(&call.params.len());
            found.say(", ");
            found.say(call.text_at(0).unwrap_or("no text"));
        }
        None => found.say("no call"),
    }
}

fn tell_answer(found: &mut Found, form: &str, value: &Value) {
    let alloc = found.alloc();
    match answer_id(value) {
        Ok(id) if form == "answers" => {
            tell_reply(found, answer_value(alloc, id, Value::Bool(true)));
        }
        Ok(id) => tell_reply(found, error_reply(alloc, id, error_of(value))),
        Err(_) => found.done(false),
    }
}

/// A method that is none of the protocol is unknown; one that is named by an error's words is refused
/// by it.
fn error_of(value: &Value) -> V1Error {
    match call_in(value) {
        None => V1Error::MalformedRequest,
        Some(call) => match call.method {
            "again" => V1Error::AlreadySubscribed,
            "job" => V1Error::JobNotFound,
            "duplicate" => V1Error::DuplicateShare,
            "difficulty" => V1Error::LowDifficultyShare,
            "worker" => V1Error::UnauthorizedWorker,
            "early" => V1Error::NotSubscribed,
            _ => V1Error::UnknownMethod,
        },
    }
}

/// A call whose params are so many arrays, one in the other.
fn nested(found: &mut Found, depth: &str) -> Vec<u8> {
    let mut text = Vec::new(found.alloc());
    let depth = found.number(depth);
    found.done(
        text.extend_from_slice(b"{\"id\":1,\"method\":\"x\",\"params\":")
            .is_ok(),
    );
    for bracket in [b'[', b']'] {
        for _ in 0..depth {
            found.done(text.push(bracket).is_ok());
        }
    }
    found.done(text.push(b'}').is_ok());
    text
}

fn find_notice(found: &mut Found, case: Case<'_>) {
    let prev_hash = found.hash_of(case.part(2));
    let prefix = found.bytes_of(case.part(3));
    let suffix = found.bytes_of(case.part(4));
    let path = hashes_of(found, case.part(5));
    let job = NotifiedJob {
        job_id: found.short_number(case.part(1)),
        prev_hash: &prev_hash,
        prefix: &prefix,
        suffix: &suffix,
        path: &path,
        version: found.short_number(case.part(6)),
        nbits: found.short_number(case.part(7)),
        min_ntime: found.short_number(case.part(8)),
        clean_jobs: case.part(9) == "clean",
    };
    let alloc = found.alloc();
    tell_reply(found, notify_value(alloc, &job));
}

fn hashes_of(found: &mut Found, words: &str) -> Vec<[u8; 32]> {
    let mut hashes = Vec::new(found.alloc());
    for word in words.split_whitespace() {
        let hash = found.hash_of(word);
        found.done(hashes.push(hash).is_ok());
    }
    hashes
}

/// A number, and how it is written again.
fn tell_number(found: &mut Found, number: Option<u32>) {
    match number {
        Some(number) => {
            found.tell(&number);
            let alloc = found.alloc();
            tell_text(found, number_text(alloc, number));
            tell_text(found, word_text(alloc, number));
        }
        None => found.say("none"),
    }
}

fn tell_text(found: &mut Found, text: Result<String, AllocError>) {
    if let Ok(text) = text {
        found.say(", ");
        found.say(text.as_str());
    }
}

/// The line of a reply or a notice.
fn tell_reply(found: &mut Found, reply: Result<Value, AllocError>)
    requires { IfOk reply (λ value. has_float (view value) ≡ false) }
{
    let mut line = Vec::new(found.alloc());
    if let Ok(value) = reply {
        found.done(put_line(found.alloc(), &value, &mut line).is_ok());
    }
    found.say(str::from_utf8(&line).unwrap_or("no text"));
}
