//! How a session ended.

ghost use Rattle.std.specs.Prelude.{◌≡◌};
ghost use Rattle.session_steps.specs.States.{failed_end, fault_end};

use pool_history::BookError;
use pool_io::SinkFailed;

/// Why a session is over: the first reason in the order of its turns.
#[derive(Clone, Copy, Debug, PartialEq, Eq)]
pub enum SessionEnd {
    /// No byte will come any more, and each frame was whole.
    Done,
    /// No byte will come any more, and this many bytes of a frame had come.
    CutFrame(usize),
    /// A header says a payload of this many bytes, over the limit.
    TooLong(u32),
    /// The first message isn't a setup that is acceptable.
    BadSetup,
    /// The payload of a frame of this kind isn't its message.
    BadMessage(u8),
    /// A line has more bytes than a line may have.
    LineTooLong,
    /// No byte came for too many turns in a row.
    IdleOut,
    /// As many bytes came as are taken.
    BytesOut,
    /// The pool takes no more sessions.
    PoolFull,
    /// A read failed.
    ReadFault,
    /// A write failed.
    WriteFault,
    /// The ledger's keeper failed.
    LedgerFault,
    /// There was no memory.
    Memory,
}

/// A request that isn't answered ends the session.
impl From<BookError> for SessionEnd {
    ghost from_gives = { λ cause end. end ≡ fault_end cause };

    fn from(cause: BookError) -> SessionEnd {
        match cause {
            BookError::KeeperFault => SessionEnd::LedgerFault,
            BookError::Memory => SessionEnd::Memory,
        }
    }
}

/// So does a put that failed.
impl From<SinkFailed> for SessionEnd {
    ghost from_gives = { λ cause end. end ≡ failed_end cause };

    fn from(cause: SinkFailed) -> SessionEnd {
        match cause {
            SinkFailed::Failed => SessionEnd::WriteFault,
            SinkFailed::Memory => SessionEnd::Memory,
        }
    }
}
