//! Reads a record.

ghost use Rattle.std.specs.Prelude.{◌≡◌, ◌≤◌, ◌↔◌, ◌++◌, ℕ, List, length, IfOk, IsErrOf, IsTrue};
ghost use Rattle.pool_history.specs.declared.events.Event.{Event};
ghost use Rattle.pool_history.specs.Ledger.{record_of};
ghost use Rattle.ledger_records.specs.WellFormed.{CanBeKept};
ghost use Rattle.ledger_records.specs.Bodies.{DecidesBody, ReadsBody};
ghost use Rattle.ledger_records.specs.Records.{BeginsWithNoRecord, is_cut, IsReadAs, IsRecordOf, IsRefused};

use crate::error::RecordError;
use crate::events::{
    read_class, read_close, read_credit, read_custom, read_enter, read_grant, read_leave,
    read_name, read_open, read_template, read_tip,
};
use crate::starting::read_start;
use crate::{fields_fit, texts_are_utf8};
use pool_history::Event;
use std::alloc::Global;

/// How many bytes stand before a body.
pub(crate) const HEAD_LEN: usize = 4;

/// The most bytes of a body.
const BODY_LIMIT: usize = 300_000;

/// The event of a body of another kind than Start.
fn read_later(alloc: Global, kind: u8, body: &[u8]) -> Result<Event, RecordError>
    requires { kind ≡ 0 → ⊥ }
    ensures { ReadsBody kind body.now result }
{
    match kind {
        1 => read_enter(body),
        2 => read_template(alloc, body),
        3 => read_tip(alloc, body),
        4 => read_open(alloc, body),
        5 => read_name(alloc, body),
        6 => read_class(body),
        7 => read_close(body),
        8 => read_leave(body),
        9 => read_credit(alloc, body),
        10 => read_grant(alloc, body),
        11 => read_custom(alloc, body),
        _ => Err(RecordError::NoRecord),
    }
}

/// The event of a body of another kind than Start, seen by its bytes.
fn event_of(alloc: Global, kind: u8, body: &[u8]) -> Result<Event, RecordError>
    requires later { kind ≡ 0 → ⊥ }
    requires short { length body.now ≤ 300000 }
    ensures { DecidesBody kind body.now result }
{
    match read_later(alloc, kind, body) {
        Ok(event) => {
            fields_fit(&event);
            texts_are_utf8(&event);
            Ok(event)
        }
        Err(error) => Err(error),
    }
}

/// The event of a body of any kind.
fn read_body(alloc: Global, kind: u8, body: &[u8]) -> Result<Event, RecordError>
    requires { length body.now ≤ 300000 }
    ensures { DecidesBody kind body.now result }
{
    if kind == 0 {
        read_start(alloc, body)
    } else {
        event_of(alloc, kind, body)
    }
}

/// Reads the record that the bytes begin with, whatever follows, and how many bytes it has.
pub fn read_record(alloc: Global, bytes: &[u8]) -> Result<(Event, usize), RecordError>
    // What is read is a record at the front of the bytes.
    ensures found { IfOk result (λ read. IsRecordOf bytes.now read.1 read.0) }
    // A record at their front is read, unless memory runs out.
    ensures only { (one : Event) (more : List ℕ) → CanBeKept one
        → bytes.now ≡ record_of one ++ more → IsReadAs one result }
    // They are refused exactly where they end inside of a record, or begin with none.
    ensures not_whole { IsErrOf result RecordError.NotWhole ↔ IsTrue (is_cut bytes.now) }
    ensures no_record { IsErrOf result RecordError.NoRecord → BeginsWithNoRecord bytes.now }
    ensures refused { BeginsWithNoRecord bytes.now → IsRefused result }
{
    let [kind, low, middle, high, ..] = bytes else {
        return Err(RecordError::NotWhole);
    };
    let len = *low as usize + 256 * (*middle as usize + 256 * *high as usize);
    if len > BODY_LIMIT {
        return Err(RecordError::NoRecord);
    }
    let (_, rest) = bytes.split_at(HEAD_LEN);
    if rest.len() < len {
        return Err(RecordError::NotWhole);
    }
    match read_body(alloc, *kind, &rest[..len]) {
        Ok(event) => Ok((event, HEAD_LEN + len)),
        Err(error) => Err(error),
    }
}
