//! What a proxy is brought, and what comes of it.

use crate::payloads::{payload_of, range_in};
use crate::sessions::tell_lines;
use proxy_core::Proxy;
use proxy_rules::{ProxyReply, ProxyRequest};
use sv2_types::{Blob, Str255};
use trial_cases::{Case, Found, word};

/// A proxy, and how much each of its callers was told.
#[derive(Drop)]
struct Talk {
    proxy: Proxy,
    told: [u64; 8],
}

/// What comes of the steps of a case behind its start.
pub(crate) fn find(found: &mut Found, case: Case<'_>) {
    let user = word(case.part(0), 0);
    let base = found.number(word(case.part(0), 1)).min(60) as u8;
    if user.len() <= 255
        && let Ok(user) = Str255::of(found.alloc(), user)
        && let Ok(proxy) = Proxy::new(found.alloc(), user, base)
    {
        let mut talk = Talk {
            proxy,
            told: [0; 8],
        };
        for step in case.given.split('|').skip(1) {
            talk.bring(found, step.trim());
        }
    }
}

impl Talk {
    /// Brings a step.
    fn bring(&mut self, found: &mut Found, step: &str) {
        let (form, rest) = step.split_once(' ').unwrap_or((step, ""));
        match form {
            "up" => self.bring_up(found, rest, 0),
            "each" => {
                let (first, last, message) = range_in(found, rest);
                for number in first..=last {
                    self.bring_up(found, message, number);
                }
            }
            "frame" => {
                let frame = Blob::from_vec(found.bytes_of(rest));
                self.ask(found, 0, ProxyRequest::Up(frame));
            }
            "end" => self.ask(found, 0, ProxyRequest::UpEnd),
            _ => self.bring_caller(found, form, rest),
        }
    }

    /// Brings a step of a caller.
    fn bring_caller(&mut self, found: &mut Found, form: &str, rest: &str) {
        let (caller, rest) = rest.split_once(' ').unwrap_or((rest, ""));
        let caller = found.short_number(caller);
        match form {
            "join" => self.ask(found, caller, ProxyRequest::Join),
            "leave" => self.ask(found, caller, ProxyRequest::Leave),
            "poll" => {
                let from = self.told[caller as usize % 8];
                self.ask(found, caller, ProxyRequest::Poll(from));
            }
            "from" => {
                let from = found.number(rest);
                self.ask(found, caller, ProxyRequest::Poll(from));
            }
            _ => match Blob::of(found.alloc(), rest.as_bytes()) {
                Ok(line) => self.ask(found, caller, ProxyRequest::Line(line)),
                Err(_) => found.done(false),
            },
        }
    }

    /// A message by its kind and its payload, whose word `#` is a number.
    fn bring_up(&mut self, found: &mut Found, words: &str, number: u32) {
        let (kind, fields) = words.split_once(' ').unwrap_or((words, ""));
        let kind = (found.hex_number(kind) & 0xff) as u8;
        let payload = payload_of(found, fields, number);
        let [low, middle, high, ..] = payload.len().to_le_bytes();
        let mut frame = Vec::new(found.alloc());
        found.done(
            frame
                .extend_from_slice(&[0, 0, kind, low, middle, high])
                .is_ok(),
        );
        found.done(frame.extend_from_slice(&payload).is_ok());
        self.ask(found, 0, ProxyRequest::Up(Blob::from_vec(frame)));
    }

    fn ask(&mut self, found: &mut Found, caller: u32, request: ProxyRequest) {
        match self.proxy.act(caller, request) {
            Ok(ProxyReply::Taken) => {}
            Ok(ProxyReply::NotJoined) => found.say("not joined "),
            Ok(ProxyReply::Again) => found.say("again "),
            Ok(ProxyReply::Bytes(told)) => self.tell(found, caller, told.bytes()),
            Err(_) => found.done(false),
        }
    }

    /// Lines stand as they are, frames by their digits.
    fn tell(&mut self, found: &mut Found, caller: u32, told: &[u8]) {
        let before = self.told[caller as usize % 8];
        self.told[caller as usize % 8] = before.saturating_add(told.len() as u64);
        if caller == 0 {
            found.hex(told);
            found.say(" ");
        } else {
            tell_lines(found, told);
        }
    }
}
