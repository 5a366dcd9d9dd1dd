//! Cases of operations. A line `case NAME` begins one, on a new subject; each other line is an
//! operation with its words, and behind `->` the answer that it wants. `times N` in front of an
//! operation carries it out so often, and the last answer counts.

use crate::found::Found;
use crate::parts::operation_in;
use std::alloc::Global;
use std::rt::Files;
use std::{fs, io};

/// What the lines of a file are carried out on.
pub trait Subject: Drop {
    /// A new one; none where there is no memory.
    fn begin(alloc: Global) -> Option<Self>;

    /// Tells what an operation with its words answers.
    fn act(&mut self, found: &mut Found, words: &str);
}

/// A case that is being tried: its name, how many of its lines were carried out, and how many went
/// wrong; and what there is to be told so far.
#[derive(Drop)]
pub struct Tried {
    name: Found,
    lines: u32,
    wrong: u32,
    told: Found,
}

impl Tried {
    /// No case of a file yet.
    pub fn new(alloc: Global) -> Tried {
        Tried {
            name: Found::new(alloc),
            lines: 0,
            wrong: 0,
            told: Found::new(alloc),
        }
    }

    /// Begins a case of a file.
    pub fn begin(&mut self, file: &str, case: &str) {
        self.end();
        self.name.say(file);
        self.name.say(": ");
        self.name.say(case);
    }

    /// Counts a line, and tells it where its answer isn't the one that it wants.
    pub fn compare(&mut self, operation: &str, want: &str, found: &Found) {
        self.lines = self.lines.saturating_add(1);
        if found.text() != want {
            self.wrong = self.wrong.saturating_add(1);
            self.told.say(operation);
            self.told.say(" -> ");
            self.told.say(want);
            self.told.say(", and found: ");
            self.told.say(found.text());
            self.told.say("\n");
        }
    }

    /// Tells how the case ended, if there is one.
    fn end(&mut self) {
        if self.lines != 0 {
            self.told
                .say(if self.wrong == 0 { "ok " } else { "FAILED " });
            self.told.say(self.name.text());
            self.told.say(" (");
            self.told.tell(&self.lines);
            self.told.say(" lines)\n");
        }
        self.name.clear();
        self.lines = 0;
        self.wrong = 0;
    }

    /// What there is to be told, once the last case has ended.
    pub fn told(&mut self) -> &str {
        self.end();
        self.told.text()
    }
}

/// Tries all cases of a file. Prints for each whether its lines were answered as they want, and each
/// line that wasn't with what was answered.
pub fn try_operations<S: Subject, R: Files + Print + AllocGlobal>(
    rt: &R,
    file: &str,
) -> io::Result<()> {
    let text = fs::read_to_string(rt, file)?;
    let mut tried = Tried::new(rt.alloc());
    try_lines::<S>(rt.alloc(), &mut tried, file, text.as_str());
    println!(rt; "{}", tried.told())
}

fn try_lines<S: Subject>(alloc: Global, tried: &mut Tried, file: &str, text: &str) {
    let mut subject = S::begin(alloc);
    for line in text.lines() {
        if let Some(case) = line.strip_prefix("case ") {
            tried.begin(file, case);
            subject = S::begin(alloc);
        } else if let Some((operation, want)) = operation_in(line) {
            let mut found = Found::new(alloc);
            carry_out(&mut subject, &mut found, operation);
            tried.compare(operation, want, &found);
        }
    }
}

fn carry_out<S: Subject>(subject: &mut Option<S>, found: &mut Found, operation: &str) {
    let (times, words) = match operation.strip_prefix("times ") {
        Some(rest) => rest.split_once(' ').unwrap_or(("", "")),
        None => ("1", operation),
    };
    for _ in 0..found.number(times) {
        found.clear();
        match subject {
            Some(subject) => subject.act(found, words),
            None => found.done(false),
        }
    }
}
