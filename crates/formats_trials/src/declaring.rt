//! What a session hears of tokens and declarations, and what comes of it.

use job_declaration::{Declared, Declarer};
use pool_history::{GrantError, Reply, Request, Script};
use sv2_frames::Frame;
use sv2_types::Blob;
use trial_cases::{Case, Found};

/// What comes of the steps of a case, behind what it shows.
pub(crate) fn find(found: &mut Found, case: Case<'_>) {
    let mut declarer = Declarer::new(found.alloc());
    for step in case.given.split('|').skip(1) {
        hear(found, &mut declarer, step.trim());
    }
}

fn hear(found: &mut Found, declarer: &mut Declarer, step: &str) {
    let (word, rest) = step.split_once(' ').unwrap_or((step, ""));
    match word {
        "token" if rest.len() <= 255 => {
            found.done(declarer.ask_token(found.alloc(), rest).is_ok());
        }
        "granted" => match Blob::of(found.alloc(), b"\x51") {
            Ok(script) => {
                let number = found.number(rest);
                reply(found, declarer, &Reply::Granted(number, Script::of(script)));
            }
            Err(_) => found.done(false),
        },
        "refused" => {
            let error = GrantError::TooManyGrants(1 << 18);
            reply(found, declarer, &Reply::GrantRefused(error));
        }
        "frame" => {
            let frame = found.bytes_of(rest);
            meet(found, declarer, &frame);
        }
        "many" => {
            let frame = many(found, rest);
            meet(found, declarer, &frame);
        }
        _ => found.say(word),
    }
}

fn reply(found: &mut Found, declarer: &mut Declarer, reply: &Reply) {
    let mut out = Vec::new(found.alloc());
    found.done(declarer.on_reply(reply, &mut out).is_ok());
    tell(found, &out);
}

fn meet(found: &mut Found, declarer: &mut Declarer, frame: &[u8]) {
    let frame = Frame {
        ext: 0,
        kind: frame.get(2).copied().unwrap_or(0xff),
        payload: frame.get(6..).unwrap_or(b""),
    };
    match declarer.on_frame(found.alloc(), &frame) {
        Ok(Declared::Say(said)) => tell(found, said.bytes()),
        Ok(Declared::Ask(request)) => tell_asked(found, &request),
        Ok(Declared::BadMessage(kind)) => {
            found.say("bad ");
            tell(found, &[kind]);
        }
        Err(_) => found.done(false),
    }
}

/// Tells bytes that were said: short ones by themselves, others by their length.
fn tell(found: &mut Found, said: &[u8]) {
    if said.len() > 200 {
        found.tell(&said.len());
        found.say(" bytes ");
    } else if !said.is_empty() {
        found.hex(said);
        found.say(" ");
    }
}

fn tell_asked(found: &mut Found, request: &Request) {
    match request {
        Request::Grant(identity, Some(path)) => {
            found.say("ask ");
            found.say(identity.text());
            found.say(" ");
            for hash in path.items() {
                tell(found, hash);
            }
        }
        _ => found.say("no Grant with a path is asked for"),
    }
}

/// The worked declaration, but of so many witness ids, the numbers from 0 on.
fn many(found: &mut Found, count: &str) -> Vec<u8> {
    let count = (found.short_number(count) & 0xffff) as u16;
    let mut frame = found.bytes_of(
        "000057000000 05000000 08 0100000000000000 00000020 \
         2c00 02000000 01 00*32 ffffffff 0e 5151 1300 ffffffff 01 e803000000000000 01 51 00000000",
    );
    found.done(frame.extend_from_slice(&count.to_le_bytes()).is_ok());
    for number in 0..count {
        found.done(frame.extend_from_slice(&number.to_le_bytes()).is_ok());
        found.done(frame.extend_from_slice(&[0; 30]).is_ok());
    }
    found.done(frame.extend_from_slice(&[0; 2]).is_ok());
    frame
}
