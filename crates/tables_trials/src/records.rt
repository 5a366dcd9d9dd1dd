//! Events as the records of a ledger, in bytes that were written apart from the program.

ghost use Rattle.std.specs.Prelude.{IfSome};
ghost use Rattle.pool_history.specs.Ledger.{HasRecord};

use crate::reading::{refuse, tell_truth};
use ledger_records::{
    RecordError, chain, magic_hash, read_record, record_kind, write_first_piece, write_piece,
    write_record,
};
use pool_history::Event;
use std::alloc::Global;
use trial_cases::{Found, Subject, word};

/// A ledger that is written piece by piece, and the hash at its end.
#[derive(Drop)]
pub(crate) struct Pieces {
    ledger: Vec<u8>,
    hash: Option<[u8; 32]>,
}

impl Subject for Pieces {
    fn begin(alloc: Global) -> Option<Pieces> {
        Some(Pieces {
            ledger: Vec::new(alloc),
            hash: None,
        })
    }

    fn act(&mut self, found: &mut Found, words: &str) {
        let record = found.bytes_of(word(words, 1));
        match word(words, 0) {
            "record" => try_record(found, &record),
            "read" => read(found, &record),
            "credit" => tell_credit(found, &record),
            "piece" => match whole_event(found.alloc(), &record) {
                Some(event) => self.put(found, &event, &record),
                None => refuse(found),
            },
            "begins" => tell_truth(found, self.ledger.starts_with(record.as_slice())),
            _ => refuse(found),
        }
    }
}

impl Pieces {
    /// Appends the piece of an event; tells how long the ledger is then, and the hash that it ends with.
    fn put(&mut self, found: &mut Found, event: &Event, record: &[u8])
        requires { HasRecord event.now }
    {
        let written = match self.hash {
            None => write_first_piece(event, &mut self.ledger),
            Some(before) => write_piece(&before, event, &mut self.ledger),
        };
        match written {
            Ok(hash) => self.ends_with(found, &hash, record),
            Err(_) => found.done(false),
        }
    }

    /// Tells how the ledger ends, once this record stands behind the others.
    fn ends_with(&mut self, found: &mut Found, hash: &[u8; 32], record: &[u8]) {
        let before = self.hash.unwrap_or(magic_hash());
        self.hash = Some(*hash);
        if *hash != chain(&before, record) || !self.ledger.ends_with(hash.as_slice()) {
            return found.say("another hash");
        }
        found.tell(&self.ledger.len());
        found.say(" ");
        found.hex(hash.as_slice());
    }
}

/// The event of the record that these bytes are.
fn whole_event(alloc: Global, record: &[u8]) -> Option<Event>
    ensures { IfSome result (λ event. HasRecord event) }
{
    match read_record(alloc, record) {
        Ok((event, len)) if len == record.len() => Some(event),
        _ => None,
    }
}

/// What is read of bytes: how many are a record and of which kind, or why they aren't.
fn read(found: &mut Found, bytes: &[u8]) {
    match read_record(found.alloc(), bytes) {
        Ok((event, len)) => {
            tell_kind(found, &event);
            found.say(" of ");
            found.tell(&len);
        }
        Err(error) => found.tell(&error),
    }
}

fn tell_kind(found: &mut Found, event: &Event) {
    found.say("kind ");
    found.tell(&record_kind(event));
}

/// Whether the bytes are a record that is written back as it was read, and that has its own length.
fn try_record(found: &mut Found, record: &[u8]) {
    match whole_event(found.alloc(), record) {
        Some(event) => try_event(found, &event, record),
        None => refuse(found),
    }
}

fn try_event(found: &mut Found, event: &Event, record: &[u8])
    requires { HasRecord event.now }
{
    if !is_written_back(found, event, record) {
        found.say("written otherwise");
    } else if !is_cut_anywhere(found.alloc(), record) {
        found.say("cut, and not refused as such");
    } else if !has_its_own_length(found, record) {
        found.say("of another length, and not refused");
    } else {
        tell_kind(found, event);
    }
}

fn is_written_back(found: &mut Found, event: &Event, record: &[u8]) -> bool
    requires { HasRecord event.now }
{
    let mut written = Vec::new(found.alloc());
    found.done(write_record(event, &mut written).is_ok());
    written.as_slice() == record
}

/// Whether no front of a record is a whole one.
fn is_cut_anywhere(alloc: Global, record: &[u8]) -> bool {
    for cut in 0..record.len() {
        if !is_refused(alloc, &record[..cut], RecordError::NotWhole) {
            return false;
        }
    }
    true
}

/// Whether a record is read alone where a byte follows it, and is none with a body of a byte more or
/// fewer.
fn has_its_own_length(found: &mut Found, record: &[u8]) -> bool {
    let mut more = Vec::new(found.alloc());
    found.done(more.extend_from_slice(record).is_ok());
    found.done(more.push(0).is_ok());
    let said = record.get(1).copied().unwrap_or(0);
    length_read(found.alloc(), &more) == record.len()
        && is_refused_with(found.alloc(), &mut more, said.wrapping_add(1))
        && is_refused_with(found.alloc(), &mut more, said.wrapping_sub(1))
}

/// How many bytes are read as a record; none where they are no record.
fn length_read(alloc: Global, bytes: &[u8]) -> usize {
    match read_record(alloc, bytes) {
        Ok((_, len)) => len,
        Err(_) => 0,
    }
}

/// Whether bytes are no record where the length of their body is another.
fn is_refused_with(alloc: Global, bytes: &mut Vec<u8>, length: u8) -> bool {
    if let Some(said) = bytes.get_mut(1) {
        *said = length;
    }
    is_refused(alloc, bytes.as_slice(), RecordError::NoRecord)
}

/// Whether bytes are refused as a record for this reason.
fn is_refused(alloc: Global, bytes: &[u8], reason: RecordError) -> bool {
    match read_record(alloc, bytes) {
        Ok(_) => false,
        Err(error) => error == reason,
    }
}

/// The fields of a credit, by their names.
fn tell_credit(found: &mut Found, record: &[u8]) {
    match whole_event(found.alloc(), record) {
        Some(
            Event::Credit {
                session,
                channel,
                job,
                nonce,
                ntime,
                version,
                extranonce,
            },
        ) => {
            for number in [session, channel, job, nonce, ntime, version] {
                found.tell(&number);
                found.say(" ");
            }
            found.bytes(extranonce.bytes());
        }
        _ => refuse(found),
    }
}
