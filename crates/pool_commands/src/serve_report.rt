//! What is printed when all sessions are over.

ghost use Rattle.std.specs.Prelude.{◌≡◌, ◌++◌, IfOk};
ghost use Rattle.stream_commands.specs.declared.status.Status.TheVariants as status;
ghost use Rattle.stream_commands.specs.Printing.{PrintsText};
ghost use Rattle.pool_commands.specs.ServeWords.{report_text, word_of_end};

use pool_io::{Host, Keeper};
use share_ledger::Book;
use std::alloc::{AllocError, Global};
use stream_commands::{Status, print_text};
use v2_sessions::SessionEnd;

/// The word for how a session ended.
fn end_word(end: SessionEnd) -> &'static str
    ensures { result.now ≡ word_of_end end }
{
    match end {
        SessionEnd::Done => "done",
        SessionEnd::CutFrame(_) => "cut",
        SessionEnd::TooLong(_) => "too-long",
        SessionEnd::BadSetup => "bad-setup",
        SessionEnd::BadMessage(_) => "bad-message",
        SessionEnd::LineTooLong => "line-too-long",
        SessionEnd::IdleOut => "idle-out",
        SessionEnd::BytesOut => "bytes-out",
        SessionEnd::PoolFull => "pool-full",
        SessionEnd::ReadFault => "read-fault",
        SessionEnd::WriteFault => "write-fault",
        SessionEnd::LedgerFault => "ledger-fault",
        SessionEnd::Memory => "memory",
    }
}

/// That it has served, how the feed's session ended, and the summary of the history.
fn report_of<K: Keeper>(
    alloc: Global,
    book: &Book<K>,
    feed_end: SessionEnd,
) -> Result<Vec<u8>, AllocError>
    ensures { IfOk result (λ text. text.items ≡ report_text feed_end book.now.events) }
{
    let mut text = Vec::new(alloc);
    text.extend_from_slice(b"served\nfeed ")?;
    text.extend_from_slice(end_word(feed_end).as_bytes())?;
    text.extend_from_slice(b"\n")?;
    book.summary(&mut text)?;
    Ok(text)
}

/// Puts the report to standard output.
pub fn print_report<H: Host, K: Keeper>(
    alloc: Global,
    host: &mut H,
    book: &Book<K>,
    feed_end: SessionEnd,
) -> Status
    ensures { PrintsText (report_text feed_end book.now.events) status.Done (H.seen host.old)
        (H.seen host.new) result }
{
    match report_of(alloc, book, feed_end) {
        Ok(text) => print_text(host, &text, Status::Done),
        Err(_) => Status::Memory,
    }
}
