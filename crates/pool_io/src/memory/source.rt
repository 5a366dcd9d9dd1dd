//! Sources over turns in memory.

ghost use Rattle.std.specs.Prelude.{◌≡◌};

use super::failing::FailingCalls;
use crate::{Source, Took, Turn};
use std::marker::Model;

/// Brings its turns, and then End. It never fails.
#[derive(Drop)]
pub struct SureSource {
    turns: Vec<Turn>,
    next: usize,
    taken: usize,
}

impl Model for SureSource {
    ghost use Rattle.std.specs.Prelude.{List, drop, vec_len, ◌≤◌};
    ghost use Rattle.pool_io.specs.declared.turn.Turn.{Turn};
    ghost use Rattle.pool_io.specs.Taking.{turns_from, HasMore};

    ghost Value = { List Turn };

    ghost view = { λ s. turns_from s.taken (drop s.next s.turns.items) };

    ghost invariant = { λ s. HasMore s.taken (drop s.next s.turns.items)
        × (s.next ≤ vec_len s.turns) };
}

impl SureSource {
    pub fn of(turns: Vec<Turn>) -> SureSource
        ensures { result ≡ turns.items }
    {
        SureSource {
            turns,
            next: 0,
            taken: 0,
        }
    }
}

impl Source for SureSource {
    ghost use Rattle.std.specs.Prelude.{Some};

    ghost seen = { λ s. record { faults = 0; left = Some s } };

    fn take(&mut self, buffer: &mut [u8]) -> Took {
        let Some(turn) = self.turns.get(self.next) else {
            return Took::End;
        };
        let rest = match turn {
            Turn::End => return Took::End,
            Turn::Idle => {
                self.next += 1;
                return Took::Idle;
            }
            Turn::Piece(piece) => &piece.bytes()[self.taken..],
        };
        let count = rest.len().min(buffer.len());
        buffer[..count].copy_from_slice(&rest[..count]);
        if count == rest.len() {
            self.next += 1;
            self.taken = 0;
        } else {
            self.taken += count;
        }
        Took::Bytes(count)
    }
}

/// Brings its turns, and fails at the calls whose numbers are listed, the first call being number
/// 0.
#[derive(Drop)]
pub struct MemSource {
    source: SureSource,
    failing: FailingCalls,
}

impl MemSource {
    ghost use Rattle.std.specs.Prelude.{Some};
    ghost use Rattle.pool_io.specs.Memory.{source_seen};

    pub fn new(turns: Vec<Turn>, failing: Vec<u64>) -> MemSource
        ensures { source_seen result ≡ record { faults = 0; left = Some turns.items } }
    {
        MemSource {
            source: SureSource::of(turns),
            failing: FailingCalls::of(failing),
        }
    }
}

impl Source for MemSource {
    ghost use Rattle.pool_io.specs.Memory.{source_seen};

    ghost seen = { source_seen };

    fn take(&mut self, buffer: &mut [u8]) -> Took {
        if self.failing.next_fails() {
            return Took::Failed;
        }
        self.source.take(buffer)
    }
}
