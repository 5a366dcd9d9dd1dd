//! All of a text, or a front of it.

ghost use Rattle.stream_commands.specs.Texts.{PutsText};

use crate::{Status, put_all};
use pool_io::{Sink, SinkFailed};

/// Puts a text, and answers this status if all of it was put.
pub fn put_text<T: Sink>(sink: &mut T, text: &[u8], status: Status) -> Status
    ensures { PutsText (T.seen sink.old) (T.seen sink.new) text.now status result }
{
    match put_all(sink, text) {
        Ok(()) => status,
        Err(SinkFailed::Failed) => Status::WriteFault,
        Err(SinkFailed::Memory) => Status::Memory,
    }
}
