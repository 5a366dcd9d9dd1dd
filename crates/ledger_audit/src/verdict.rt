//! The verdicts, and the lines that they are printed as.

ghost use Rattle.std.specs.Prelude.{◌≡◌, ◌++◌, OnErr, OnOk};
ghost use Rattle.pool_base.specs.Lists.{Begins};
ghost use Rattle.pool_history.specs.Summary.{line};
ghost use Rattle.ledger_audit.specs.Lines.{illegal_line, verdict_line};

use crate::causes::cause_words;
use itoa::Buffer;
use pool_history::Cause;
use std::alloc::AllocError;

/// What an audit says of a ledger's bytes. Where a ledger has several defects, the first in the
/// order of its bytes is told, and of a record's own first its form, then its hash, then its cause.
#[derive(Clone, Copy)]
pub enum Verdict {
    Legal,
    /// The record with a number, from 0 on, isn't legal after those before it.
    Illegal(u64, Cause),
    /// What follows the record with a number isn't the hash over it.
    BrokenChain(u64),
    /// At a place of the bytes there is no magic, or no whole record.
    NotALedger(u64),
}

/// Appends the line of a verdict, or nothing.
pub fn write_verdict(verdict: Verdict, out: &mut Vec<u8>) -> Result<(), AllocError>
    ensures ok { OnOk result (out.new.items ≡ out.old.items ++ verdict_line verdict) }
    ensures err { OnErr result (out.new.items ≡ out.old.items) }
{
    let start = out.len();
    match put_verdict(verdict, out) {
        Ok(()) => Ok(()),
        Err(error) => {
            out.truncate(start);
            Err(error)
        }
    }
}

/// Appends the line of a verdict, or a front of it.
fn put_verdict(verdict: Verdict, out: &mut Vec<u8>) -> Result<(), AllocError>
    ensures ok { OnOk result (out.new.items ≡ out.old.items ++ verdict_line verdict) }
    ensures err { OnErr result (Begins out.old.items out.new.items) }
{
    match verdict {
        Verdict::Legal => out.extend_from_slice(b"legal\n"),
        Verdict::Illegal(number, cause) => put_illegal(out, number, cause_words(cause)),
        Verdict::BrokenChain(number) => put_numbered(out, b"broken chain", number),
        Verdict::NotALedger(place) => put_numbered(out, b"not a ledger at", place),
    }
}

/// Appends a word and its number.
fn put_numbered(out: &mut Vec<u8>, word: &[u8], number: u64) -> Result<(), AllocError>
    ensures ok { OnOk result (out.new.items ≡ out.old.items ++ line word.now number) }
    ensures err { OnErr result (Begins out.old.items out.new.items) }
{
    let mut buffer = Buffer::new();
    out.extend_from_slice(word)?;
    out.extend_from_slice(b" ")?;
    out.extend_from_slice(buffer.format(number).as_bytes())?;
    out.extend_from_slice(b"\n")
}

/// Appends an illegal record's number and cause.
fn put_illegal(out: &mut Vec<u8>, number: u64, cause: &str) -> Result<(), AllocError>
    ensures ok { OnOk result (out.new.items ≡ out.old.items ++ illegal_line number cause.now) }
    ensures err { OnErr result (Begins out.old.items out.new.items) }
{
    let mut buffer = Buffer::new();
    out.extend_from_slice(b"illegal ")?;
    out.extend_from_slice(buffer.format(number).as_bytes())?;
    out.extend_from_slice(b" ")?;
    out.extend_from_slice(cause.as_bytes())?;
    out.extend_from_slice(b"\n")
}
