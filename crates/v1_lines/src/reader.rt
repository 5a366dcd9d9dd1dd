//! A stream that comes in pieces, cut into its lines. It holds one line at most.

ghost use Rattle.std.specs.Prelude.{◌≡◌, ◌⊎◌, ◌↔◌, ◌≤◌, [], length, IsSome, IsNone, IsErr, IfSome, IfOk, IsOkAnd};

use crate::buffer::{LineTooLong, MOST_HELD, line_in, take_in};
use std::alloc::{AllocError, Global};
use std::marker::Model;

/// Holds what has come of the present line. All its memory is taken by `new`: a buffer of 4,097
/// bytes, whose length never changes.
#[derive(Drop)]
pub struct LineReader {
    buffer: Vec<u8>,
    held: usize,
}

impl Model for LineReader {
    ghost use Rattle.std.specs.Prelude.{ℕ, List, take};
    ghost use Rattle.v1_lines.specs.Holding.{IsLineBuffer};

    ghost Value = { List ℕ };

    ghost view = { λ reader. take reader.held reader.buffer.items };

    ghost invariant = { λ reader. IsLineBuffer reader.buffer.items reader.held };
}

impl LineReader {
    ghost use Rattle.v1_lines.specs.Holding.{HoldsLine, HoldsLongLine, IsHeldLine, TakesNoMore};
    ghost use Rattle.v1_lines.specs.Lines.{IsLineText};
    ghost use Rattle.v1_lines.specs.Reading.{TakesPiece};

    /// A reader that holds nothing.
    pub fn new(alloc: Global) -> Result<LineReader, AllocError>
        ensures { IfOk result (λ reader. reader ≡ []) }
    {
        let buffer = vec![in alloc; 0; MOST_HELD]?;
        Ok(LineReader { buffer, held: 0 })
    }

    /// Takes from the piece up to the first line feed and with it, and says how many bytes. Of a
    /// line that is too long 4,097 bytes are taken, and no more.
    pub fn feed(&mut self, piece: &[u8]) -> usize
        ensures taken { TakesPiece self.old piece.now result self.new }
        ensures none { (result ≡ 0) ↔ ((piece.now ≡ []) ⊎ TakesNoMore self.old) }
        ensures all { IsLineText self.new → result ≡ length piece.now }
        ensures room { length self.new ≤ 4097 }
    {
        let taken = take_in(self.buffer.as_mut_slice(), self.held, piece);
        self.held += taken;
        taken
    }

    /// The line that is held, without its end, once it is whole. One that is too long is refused,
    /// again and again.
    pub fn next(&self) -> Result<Option<&[u8]>, LineTooLong>
        ensures line { IfOk result
            (λ found. IfSome found (λ line. IsHeldLine line.now self.now)) }
        ensures whole { IsOkAnd result (λ found. IsSome found) ↔ HoldsLine self.now }
        ensures none { IsOkAnd result (λ found. IsNone found) ↔ IsLineText self.now }
        ensures too_long { IsErr result ↔ HoldsLongLine self.now }
    {
        line_in(&self.buffer[..self.held])
    }

    /// Lets go of the line that is held.
    pub fn drop_line(&mut self)
        requires { HoldsLine self.old }
        ensures { self.new ≡ [] }
    {
        self.held = 0;
    }

    /// How many bytes are held.
    pub fn held(&self) -> usize
        ensures count { result ≡ length self.now }
        ensures room { result ≤ 4097 }
    {
        self.held
    }
}
