//! All input of a source.

ghost use Rattle.std.specs.Prelude.{◌≡◌, ◌<◌, ◌^◌, ℕ, List, Some};
ghost use Rattle.pool_io.specs.declared.turn.Turn.{Turn as Coming};
ghost use Rattle.pool_io.specs.Outside.{CountsFailure};
ghost use Rattle.pool_io.specs.Steps.{steps_of};
ghost use Rattle.stream_commands.specs.Reading.{DecideReading, ReadsWhole, is_read_fault};

use crate::gatherer::Gatherer;
use crate::{End, drive};
use pool_io::{Source, SureSink};
use std::alloc::Global;
use std::marker::Model;
use thiserror::Error;

/// Bytes that were read to their end. Contracts see them as a list.
#[derive(Drop)]
pub struct Contents {
    bytes: Vec<u8>,
}

impl Model for Contents {
    ghost use Rattle.std.specs.Prelude.{ℕ, List};

    ghost Value = { List ℕ };

    ghost view = { λ c. c.bytes.items };
}

impl Contents {
    pub fn bytes(&self) -> &[u8]
        ensures { result.now ≡ self.now }
    {
        &self.bytes
    }
}

/// Why not all of an input was read.
#[derive(Clone, Copy, Debug, Error)]
pub enum Unread {
    /// More bytes came than the limit.
    #[error("there are too many bytes")]
    TooLong,
    /// No byte came for too long.
    #[error("no byte came for too long")]
    IdleOut,
    /// A read failed.
    #[error("a read failed")]
    ReadFault,
    /// There was no memory.
    #[error("out of memory")]
    Memory,
}

/// Reads a source to its end, where it has at most so many bytes.
pub fn read_whole<S: Source>(alloc: Global, most: u64, source: &mut S) -> Result<Contents, Unread>
    requires { most < 2 ^ 40 }
    ensures read { ReadsWhole most (S.seen source.old).left (S.seen source.new).left result }

    // The other way round: told input decides the answer, but for a fault or lack of memory.
    ensures decided { (told : List Coming) → (S.seen source.old).left ≡ Some told
        → DecideReading most (steps_of told) result }

    // A failure is answered exactly where it was counted, and is counted once.
    ensures reads { CountsFailure (is_read_fault result) (S.seen source.old).faults
        (S.seen source.new).faults }
{
    let mut sink = SureSink::of(Vec::new(alloc));
    match drive::<Gatherer, S, SureSink>(alloc, &most, source, &mut sink) {
        End::Done => Ok(Contents {
            bytes: sink.into_bytes(),
        }),
        End::Refused | End::BytesOut => Err(Unread::TooLong),
        End::IdleOut => Err(Unread::IdleOut),
        End::ReadFault => Err(Unread::ReadFault),
        End::WriteFault | End::Memory => Err(Unread::Memory),
    }
}
