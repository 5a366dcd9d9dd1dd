//! A book of records that were kept before, and what it answers.

use crate::asking::{ask, tell_summary};
use crate::reading::refuse;
use ledger_resume::{ResumeError, resume};
use pool_io::{Keeper, KeeperFailed};
use share_ledger::Book;
use std::alloc::Global;
use sv2_types::Blob;
use trial_cases::{Found, Subject, word};

/// A keeper that tells nothing of what it keeps, as a file doesn't.
#[derive(Drop)]
pub(crate) struct MuteKeeper;

impl Keeper for MuteKeeper {
    ghost use Rattle.std.specs.Prelude.{None};

    ghost seen = { λ _. record { faults = 0; records = None; stored = None } };

    fn append(&mut self, _bytes: &[u8]) -> Result<(), KeeperFailed> {
        Ok(())
    }
}

/// The records of one case, and the book that was resumed from them last.
#[derive(Drop)]
pub(crate) struct Resumed {
    records: Vec<Blob>,
    book: Option<Book<MuteKeeper>>,
}

impl Subject for Resumed {
    fn begin(alloc: Global) -> Option<Resumed> {
        Some(Resumed {
            records: Vec::new(alloc),
            book: None,
        })
    }

    fn act(&mut self, found: &mut Found, words: &str) {
        match word(words, 0) {
            "record" => {
                let record = Blob::from_vec(found.bytes_of(word(words, 1)));
                found.done(self.records.push(record).is_ok());
                found.say("kept");
            }
            "resume" => self.resume_all(found),
            "ask" => {
                let worker = found.short_number(word(words, 1));
                let record = found.bytes_of(word(words, 2));
                match &mut self.book {
                    Some(book) => ask(found, book, worker, &record),
                    None => refuse(found),
                }
            }
            "summary" => match &self.book {
                Some(book) => tell_summary(found, book),
                None => refuse(found),
            },
            _ => refuse(found),
        }
    }
}

impl Resumed {
    /// Resumes a book from the records so far, and tells how many events it has, or why there is none.
    fn resume_all(&mut self, found: &mut Found) {
        match resume(found.alloc(), MuteKeeper, self.records.as_slice()) {
            Ok(book) => {
                found.tell(&book.len());
                found.say(" events");
                self.book = Some(book);
            }
            Err((_, error)) => tell_error(found, error),
        }
    }
}

/// The words of a refusal.
fn tell_error(found: &mut Found, error: ResumeError) {
    match error {
        ResumeError::NotALedger(place) => tell_at(found, "not a ledger at ", place),
        ResumeError::Broken(number) => tell_at(found, "broken chain ", number),
        ResumeError::Illegal(number) => tell_at(found, "illegal ", number),
        ResumeError::Memory => found.done(false),
    }
}

fn tell_at(found: &mut Found, what: &str, number: u64) {
    found.say(what);
    found.tell(&number);
}
