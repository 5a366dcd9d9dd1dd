//! A stream that comes in pieces, cut into its frames. It holds one frame at most.

ghost use Rattle.std.specs.Prelude.{◌≡◌, ◌⊎◌, ◌↔◌, ℕ, ◌+◌, ◌<◌, ◌≤◌, ◌^◌, [], ◌++◌, length, take, drop, IsSome, IsNone, IfSome, IfNone, IfOk, IfErr, IsOkAnd, IsErrAnd};

use crate::buffer::{FrameHeader, TooLong, frame_in, header_at, take_in};
use crate::framing::Frame;
use std::alloc::{AllocError, Global};
use std::marker::Model;

/// Holds what has come of the present frame. All its memory is taken by `new`: a buffer of the
/// limit and six bytes more, whose length never changes.
#[derive(Debug, Drop)]
pub struct Splitter {
    buffer: Vec<u8>,
    held: usize,
    limit: u32,
}

impl Model for Splitter {
    ghost use Rattle.std.specs.Prelude.{take};
    ghost use Rattle.sv2_frames.specs.Holding.{Holding, IsBuffer};

    ghost Value = { Holding };

    ghost view = { λ s. record { held = take s.held s.buffer.items; limit = s.limit } };

    ghost invariant = { λ s. IsBuffer s.buffer.items s.held s.limit };
}

impl Splitter {
    ghost use Rattle.sv2_frames.specs.Framing.{header_of};
    ghost use Rattle.sv2_frames.specs.Holding.{frame_end, HoldsFrame, HoldsOver, IsFull, IsHeldFrame, IsCutWithin};

    /// A splitter that holds nothing. `limit` is the greatest payload that is taken, in bytes.
    pub fn new(alloc: Global, limit: u32) -> Result<Splitter, AllocError>
        ensures empty { IfOk result (λ splitter. splitter ≡ record { held = []; limit = limit }) }
        ensures cut { IfOk result (λ splitter. IsCutWithin splitter) }
    {
        let buffer = vec![in alloc; 0; limit as usize + 6]?;
        Ok(Splitter {
            buffer,
            held: 0,
            limit,
        })
    }

    /// Takes from the piece up to the end of the present frame, or of a header over the limit, and
    /// says how many bytes.
    pub fn feed(&mut self, piece: &[u8]) -> usize
        ensures within { result ≤ length piece.now }
        ensures bytes { self.new.held ≡ self.old.held ++ take result piece.now }
        ensures end { let all = self.old.held ++ piece.now in
            self.new.held ≡ take (frame_end self.old.limit all) all }
        ensures none { (result ≡ 0) ↔ ((piece.now ≡ []) ⊎ IsFull self.old) }
        ensures all { IsCutWithin self.new → result ≡ length piece.now }
        ensures room { length self.new.held ≤ self.new.limit + 6 }
        ensures limit { self.new.limit ≡ self.old.limit }
    {
        let taken = take_in(self.buffer.as_mut_slice(), self.held, self.limit, piece);
        self.held += taken;
        taken
    }

    /// The frame that is held, once it is whole. A header over the limit is refused, again and
    /// again.
    pub fn next(&self) -> Result<Option<Frame<'_>>, TooLong>
        ensures frame { IfOk result
            (λ found. IfSome found (λ f. IsHeldFrame f.ext f.kind f.payload.now self.now)) }
        ensures held { IfOk result (λ found. IfSome found (λ _. HoldsFrame self.now)) }
        ensures whole { HoldsFrame self.now → IsOkAnd result (λ found. IsSome found) }
        ensures none { IsOkAnd result (λ found. IsNone found) ↔ IsCutWithin self.now }
        ensures too_long { IfErr result (λ e. HoldsOver e.0 self.now) }
        ensures over { (len : ℕ) → HoldsOver len self.now → IsErrAnd result (λ e. e.0 ≡ len) }
    {
        frame_in(&self.buffer[..self.held], self.limit)
    }

    /// Lets go of the frame that is held.
    pub fn drop_frame(&mut self)
        requires { HoldsFrame self.old }
        ensures empty { self.new ≡ record self.old { held = [] } }
        ensures cut { IsCutWithin self.new }
    {
        self.held = 0;
    }

    /// The header of the present frame, once all six bytes of it are held. It is not tested against
    /// the limit.
    pub fn header(&self) -> Option<FrameHeader>
        ensures none { IfNone result (length self.now.held < 6) }
        ensures header { IfSome result (λ h. self.now.held
            ≡ header_of h.ext h.kind h.len ++ drop 6 self.now.held) }
        ensures fits { IfSome result (λ h. h.len < 2 ^ 24) }
    {
        header_at(&self.buffer[..self.held])
    }

    /// How many bytes are held.
    pub fn held(&self) -> usize
        ensures count { result ≡ length self.now.held }
        ensures room { result ≤ self.now.limit + 6 }
    {
        self.held
    }
}
