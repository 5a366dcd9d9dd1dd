//! The sessions that were entered, and those that are present.

use crate::reading::{refuse, tell_some};
use pool_tables::Sessions;
use std::alloc::Global;
use trial_cases::{Found, Subject, role, word};

/// Sessions.
#[derive(Drop)]
pub(crate) struct Entered {
    sessions: Sessions,
}

impl Subject for Entered {
    fn begin(alloc: Global) -> Option<Entered> {
        let sessions = Sessions::new(alloc);
        Some(Entered { sessions })
    }

    fn act(&mut self, found: &mut Found, words: &str) {
        let operation = word(words, 0);
        if operation == "count" {
            return found.tell(&self.sessions.count());
        }
        let number = found.short_number(word(words, 1));
        match operation {
            "enter" => enter(found, &mut self.sessions, number, word(words, 2)),
            "leave" => {
                self.sessions.leave(number);
                found.say("left");
            }
            "present" => tell_some(found, self.sessions.present(number)),
            "worker-of" => match self.sessions.entrance(number) {
                Some(entered) => found.tell(&entered.worker),
                None => found.say("none"),
            },
            _ => refuse(found),
        }
    }
}

fn enter(found: &mut Found, sessions: &mut Sessions, worker: u32, of: &str) {
    match sessions.reserve() {
        Ok(()) if sessions.count() < 1000 => {
            found.say("session ");
            found.tell(&sessions.enter(worker, role(of), 1));
        }
        Ok(()) => refuse(found),
        Err(_) => found.done(false),
    }
}
