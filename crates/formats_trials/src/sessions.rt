//! Sessions of Stratum V1: what they hear, and what comes of it.

use crate::payloads::{payload_of, range_in};
use pool_history::{Rules, Users};
use std::str;
use sv2_types::{Blob, Str255};
use trial_cases::{Case, Found, word};
use v1_translate::{V1Session, V1Step, V1Terms};

/// What a mining session heard: its subscribe, and the opening of channel 1 with the lead 00000000, by
/// which it is open; the account a, by which it is named; a job 1 of version 20000000, and a tip for
/// it.
const HEARD: [&str; 6] = [
    "line {\"id\":0,\"method\":\"mining.subscribe\"}",
    "message 14 00000000 01000000 ff*32 0800 0400000000",
    "line {\"id\":0,\"method\":\"mining.authorize\",\"params\":[\"a\"]}",
    "named",
    "message 1f 01000000 01000000 00 00000020 01 00 0100aa 0100bb",
    "message 20 01000000 01000000 11*32 40420f00 ffff7f20",
];

/// A session with its terms.
#[derive(Drop)]
struct Talk {
    terms: V1Terms,
    session: V1Session,
}

/// What comes of the steps of a case behind its setup.
pub(crate) fn find(found: &mut Found, case: Case<'_>) {
    let mut talk = Talk {
        terms: terms_of(found, case.part(0)),
        session: V1Session::new(found.alloc()),
    };
    talk.set_up(found, word(case.part(0), 0));
    for step in case.given.split('|').skip(1) {
        talk.hear(found, step.trim());
    }
}

/// The terms of a setting: the base class, whether versions are rolled, and the known accounts.
fn terms_of(found: &mut Found, setting: &str) -> V1Terms {
    let base = found.number(word(setting, 1)).min(60) as u8;
    let mut accounts = Vec::new(found.alloc());
    for account in setting.split_whitespace().skip(3) {
        if account.len() <= 255
            && let Ok(account) = Str255::of(found.alloc(), account)
        {
            found.done(accounts.push(account).is_ok());
        }
    }
    let rules = Rules {
        pool_script: Blob::from_vec(Vec::new(found.alloc())),
        least_class: 0,
        fee: 100,
        window: None,
        ntime_window: 600,
        credit_limit: 3,
        version_rolling: word(setting, 2) == "rolls",
        users: Users::of(accounts),
    };
    V1Terms::new(rules, base)
}

impl Talk {
    /// Hears what a session heard that is set up so, of which nothing is told.
    fn set_up(&mut self, found: &Found, form: &str) {
        let count = match form {
            "open" => 2,
            "named" => 4,
            "mining" => 6,
            _ => 0,
        };
        let mut before = Found::new(found.alloc());
        for step in HEARD.iter().take(count) {
            self.hear(&mut before, step);
        }
    }

    /// Hears a step.
    fn hear(&mut self, found: &mut Found, step: &str) {
        let (form, rest) = step.split_once(' ').unwrap_or((step, ""));
        match form {
            "line" => self.hear_line(found, rest.as_bytes()),
            "bytes" => {
                let line = found.bytes_of(rest);
                self.hear_line(found, &line);
            }
            "message" => self.hear_message(found, rest, 0),
            "each" => {
                let (first, last, message) = range_in(found, rest);
                for number in first..=last {
                    self.hear_message(found, message, number);
                }
            }
            _ => {
                let mut out = Vec::new(found.alloc());
                let is_heard = self
                    .session
                    .on_named(found.alloc(), form == "named", &mut out);
                found.done(is_heard.is_ok());
                tell_lines(found, &out);
            }
        }
    }

    fn hear_line(&mut self, found: &mut Found, line: &[u8]) {
        let alloc = found.alloc();
        let mut up = Vec::new(alloc);
        let mut out = Vec::new(alloc);
        let step = self
            .session
            .on_line(alloc, &self.terms, line, &mut up, &mut out);
        tell_lines(found, &out);
        match step {
            Ok(V1Step::Said) => {}
            Ok(V1Step::Sent) => {
                found.say("up ");
                found.hex(&up);
                found.say(" ");
            }
            Ok(V1Step::Name(account)) => {
                found.say("name ");
                found.say(account.text());
                found.say(" ");
            }
            Err(_) => found.done(false),
        }
    }

    /// A message by its kind and its payload, whose word `#` is a number.
    fn hear_message(&mut self, found: &mut Found, words: &str, number: u32) {
        let (kind, fields) = words.split_once(' ').unwrap_or((words, ""));
        let kind = (found.hex_number(kind) & 0xff) as u8;
        let payload = payload_of(found, fields, number);
        let mut out = Vec::new(found.alloc());
        match mining_msgs::read(kind, &payload) {
            Ok(message) => {
                let heard = self
                    .session
                    .on_message(found.alloc(), &self.terms, &message, &mut out);
                found.done(heard.is_ok());
            }
            Err(error) => found.tell(&error),
        }
        tell_lines(found, &out);
    }
}

/// Tells lines as they stand.
pub(crate) fn tell_lines(found: &mut Found, out: &[u8]) {
    for line in str::from_utf8(out).unwrap_or("no text").lines() {
        found.say(line);
        found.say(" ");
    }
}
