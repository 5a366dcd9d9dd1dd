//! A session over a disk that fails, what a crash leaves of it, and a session after it.

ghost use Rattle.std.specs.Prelude.{◌≡◌, IfSome};
ghost use Rattle.ledger_disk.specs.Calls.{fresh_disk};
ghost use Rattle.ledger_resume.specs.Books.{IsJustOpened};

use crate::reading::{refuse, tell_lines};
use ledger_audit::{verdict_of, write_verdict};
use ledger_disk::{DiskLedger, Failures, MemDisk};
use ledger_resume::NoBook;
use pool_commands::{DiskEnd, ServedDisk, serve_disk};
use pool_io::{Limits, Piece, SureSink, SureSource, Turn};
use std::alloc::Global;
use sv2_types::Blob;
use trial_cases::{Found, Subject, example_rules, word};
use v2_sessions::SessionEnd;

/// Input comes at once, so that nothing is waited for.
const LIMITS: Limits = Limits {
    idle_turns: 1,
    door_turns: 1,
};

/// What one case has: what a disk holds at first, the records that are to be found in the end, and
/// what a session brings.
#[derive(Drop)]
pub(crate) struct Crashed {
    disk: Vec<u8>,
    records: Vec<Blob>,
    input: Vec<u8>,
}

impl Subject for Crashed {
    fn begin(alloc: Global) -> Option<Crashed> {
        Some(Crashed {
            disk: Vec::new(alloc),
            records: Vec::new(alloc),
            input: Vec::new(alloc),
        })
    }

    fn act(&mut self, found: &mut Found, words: &str) {
        match word(words, 0) {
            "disk" => {
                self.disk = found.bytes_of(word(words, 1));
                found.say("held");
            }
            "record" => {
                let record = Blob::from_vec(found.bytes_of(word(words, 1)));
                found.done(self.records.push(record).is_ok());
                found.say("kept");
            }
            "input" => {
                let more = found.bytes_of(word(words, 1));
                found.done(self.input.extend_from_slice(&more).is_ok());
                found.say("comes");
            }
            "stopped" => self.crash(found, words, false),
            "failing" => self.crash(found, words, true),
            _ => refuse(found),
        }
    }
}

impl Crashed {
    /// A session over a disk of which this call fails, alone or with all behind it, and a crash.
    fn crash(&self, found: &mut Found, words: &str, alone: bool) {
        let call = found.number(word(words, 1));
        let part = found.number(word(words, 2));
        let pick = found.number(word(words, 3));
        let mut listed = Vec::new(found.alloc());
        if alone {
            found.done(listed.push(call).is_ok());
        }
        let failures = Failures {
            listed,
            from: if alone { u64::MAX } else { call },
            part,
        };
        if let Some((end, disk)) = session(found.alloc(), &self.disk, Some(failures), &self.input) {
            let left = disk.crash(pick);
            self.tell_outcome(found, end_word(end), left.content());
        } else {
            found.done(false);
        }
    }

    /// How the session ended; which records are found on what is left; how a session without input then
    /// ends, and which records there are behind it; and the verdict on these.
    fn tell_outcome(&self, found: &mut Found, end: &str, left: &[u8]) {
        found.say(end);
        self.tell_found(found, left);
        match session(found.alloc(), left, None, &[]) {
            Some((later, disk)) => {
                found.say("; ");
                found.say(end_word(later));
                self.tell_found(found, disk.content());
                tell_verdict(found, disk.content());
            }
            None => found.done(false),
        }
    }

    /// How many of the entries that are found on a disk are the first of the records, and how many there
    /// are.
    fn tell_found(&self, found: &mut Found, content: &[u8]) {
        match entries_on(found.alloc(), content) {
            Some(entries) => {
                found.say(" ");
                found.tell(&same_in_front(&entries, &self.records));
                found.say(" of ");
                found.tell(&entries.len());
            }
            None => found.say(" no ledger"),
        }
    }
}

/// What an audit says of the entries on a disk, one behind the other.
fn tell_verdict(found: &mut Found, content: &[u8]) {
    match entries_on(found.alloc(), content) {
        Some(entries) => match verdict_of(found.alloc(), &entries) {
            Ok(verdict) => {
                let mut line = Vec::new(found.alloc());
                found.done(write_verdict(verdict, &mut line).is_ok());
                tell_lines(found, &line, " ", "");
            }
            Err(_) => found.done(false),
        },
        None => found.say(" no ledger"),
    }
}

/// How a session of these bytes ends over a disk, and the disk.
fn session(
    alloc: Global,
    content: &[u8],
    failures: Option<Failures>,
    input: &[u8],
) -> Option<(DiskEnd, MemDisk)> {
    let rules = example_rules(alloc, true, 3).ok()?;
    let disk = disk_of(alloc, content, failures)?;
    let mut turns = Vec::new(alloc);
    if !input.is_empty() {
        let piece = Piece::of(input.to_vec(alloc).ok()?);
        turns.push(Turn::Piece(piece)).ok()?;
    }
    let source = SureSource::of(turns);
    let sink = SureSink::of(Vec::new(alloc));
    let ServedDisk {
        source: _,
        sink: _,
        disk,
        end,
    } = serve_disk(alloc, rules, disk, source, sink, LIMITS);
    Some((end, disk))
}

/// A disk with this content, which fails so, if at all.
fn disk_of(alloc: Global, content: &[u8], failures: Option<Failures>) -> Option<MemDisk>
    ensures { IfSome result (λ disk. disk ≡ fresh_disk content.now) }
{
    let disk = MemDisk::new(alloc, content.to_vec(alloc).ok()?);
    match failures {
        Some(failures) => Some(disk.with_failures(failures)),
        None => Some(disk),
    }
}

/// The entries that are found on a disk; none where it holds no ledger.
fn entries_on(alloc: Global, content: &[u8]) -> Option<Vec<Blob>> {
    match DiskLedger::open(alloc, disk_of(alloc, content, None)?) {
        Ok((_ledger, entries)) => Some(entries),
        Err((_disk, _error)) => None,
    }
}

/// How many of the first entries are these records.
fn same_in_front(entries: &[Blob], records: &[Blob]) -> usize {
    let mut same = 0usize;
    for (entry, record) in entries.iter().zip(records) {
        if entry.bytes() != record.bytes() {
            break;
        }
        same = same.saturating_add(1);
    }
    same
}

/// A word for how a session ended.
fn end_word(end: DiskEnd) -> &'static str {
    match end {
        DiskEnd::NoBook(NoBook::Fault) => "unbegun",
        DiskEnd::NoBook(NoBook::WrongLedger) => "wrong",
        DiskEnd::NoBook(NoBook::Memory) => "no memory",
        DiskEnd::Over(SessionEnd::Done) => "done",
        DiskEnd::Over(SessionEnd::LedgerFault) => "unkept",
        DiskEnd::Over(_) => "another end",
    }
}
