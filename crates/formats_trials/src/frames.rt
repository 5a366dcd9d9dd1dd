//! Streams of frames, and a splitter's calls one by one.

ghost use Rattle.std.specs.Prelude.{⊤};

use sv2_frames::{Frame, RunEnd, Splitter, TakeFrames, write_frame};
use trial_cases::{Case, Found};

/// Tells the frames that it is given, and writes them again.
#[derive(Drop)]
struct Taker<'a> {
    told: &'a mut Found,
    written: &'a mut Vec<u8>,
    wants: u64,
}

impl<'a> TakeFrames for Taker<'a> {
    ghost takes = { λ _ _ _ _. ⊤ };

    fn take_frame(&mut self, frame: Frame<'_>) -> bool {
        tell_header(self.told, frame.ext, frame.kind, frame.payload.len());
        self.told.say(", ");
        if frame.payload.len() < 0x100_0000 {
            let put = write_frame(self.written, frame.ext, frame.kind, frame.payload);
            self.told.done(put.is_ok());
        }
        self.wants = self.wants.saturating_sub(1);
        0 < self.wants
    }
}

fn tell_header(found: &mut Found, ext: u16, kind: u8, length: usize) {
    found.hex(&ext.to_be_bytes());
    found.say(" ");
    found.hex(&[kind]);
    found.say(" ");
    found.tell(&length);
}

pub(crate) fn find(found: &mut Found, case: Case<'_>) {
    if case.part(0) == "calls" {
        find_calls(found, case);
    } else {
        find_stream(found, case);
    }
}

/// What a stream brings whole, and whether it brings the same byte by byte.
fn find_stream(found: &mut Found, case: Case<'_>) {
    let stream = found.bytes_of(case.part(3));
    find_run(found, case, &stream, false);
    let mut single = Found::new(found.alloc());
    find_run(&mut single, case, &stream, true);
    if single.text() != found.text() {
        found.say(" and otherwise byte by byte");
    }
}

/// The frames that a stream brings, how it ends, and how many bytes stay held. The frames written
/// again are the stream's own bytes.
fn find_run(found: &mut Found, case: Case<'_>, stream: &[u8], is_by_ones: bool) {
    let wants = found.number(case.part(2));
    let mut written = Vec::new(found.alloc());
    match Splitter::new(found.alloc(), found.short_number(case.part(1))) {
        Ok(mut splitter) => {
            let mut taker = Taker {
                told: found,
                written: &mut written,
                wants,
            };
            let end = if is_by_ones {
                end_by_ones(&mut splitter, &mut taker, stream)
            } else {
                splitter.run(&[stream], &mut taker)
            };
            found.debug(&end);
            found.say(", ");
            found.tell(&splitter.held());
        }
        Err(_) => found.done(false),
    }
    found.say(if stream.starts_with(&written) {
        " held"
    } else {
        " held, written otherwise"
    });
}

/// How a stream ends by the calls that a run is made of, for each byte.
fn end_by_ones(splitter: &mut Splitter, taker: &mut Taker<'_>, stream: &[u8]) -> RunEnd {
    for byte in stream {
        let _taken = splitter.feed(&[*byte]);
        let end = turn(splitter, taker);
        if end != RunEnd::Done {
            return end;
        }
    }
    RunEnd::Done
}

fn turn(splitter: &mut Splitter, taker: &mut Taker<'_>) -> RunEnd {
    match splitter.next() {
        Err(error) => RunEnd::TooLong(error.0),
        Ok(None) => RunEnd::Done,
        Ok(Some(frame)) => {
            let wants_more = taker.take_frame(frame);
            splitter.drop_frame();
            if wants_more {
                RunEnd::Done
            } else {
                RunEnd::Stopped
            }
        }
    }
}

/// What each call of a splitter answers: `feed BYTES`, `header`, `next` (which drops a whole frame),
/// `held`.
fn find_calls(found: &mut Found, case: Case<'_>) {
    match Splitter::new(found.alloc(), found.short_number(case.part(1))) {
        Ok(mut splitter) => {
            for call in case.part(2).split(',') {
                find_answer(found, &mut splitter, call.trim());
                found.say("; ");
            }
        }
        Err(_) => found.done(false),
    }
}

fn find_answer(found: &mut Found, splitter: &mut Splitter, call: &str) {
    match call.split_once(' ') {
        Some((_, piece)) => {
            let piece = found.bytes_of(piece);
            found.tell(&splitter.feed(&piece));
        }
        None if call == "held" => found.tell(&splitter.held()),
        None if call == "header" => match splitter.header() {
            Some(header) => tell_header(found, header.ext, header.kind, header.len as usize),
            None => found.say("no header"),
        },
        None => {
            let mut written = Vec::new(found.alloc());
            let mut taker = Taker {
                told: found,
                written: &mut written,
                wants: 2,
            };
            let end = turn(splitter, &mut taker);
            found.debug(&end);
        }
    }
}
