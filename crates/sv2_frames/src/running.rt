//! A stream in whatever pieces it comes, handed on frame by frame.

ghost use Rattle.std.specs.Prelude.{Bool};
ghost use Rattle.std.specs.List.{flat_map};
ghost use Rattle.sv2_frames.specs.Framing.{FrameValue};
ghost use Rattle.sv2_frames.specs.Holding.{IsCutWithin};
ghost use Rattle.sv2_frames.specs.Running.{RunsOver};

use crate::buffer::TooLong;
use crate::framing::Frame;
use crate::splitting::Splitter;

/// Who takes the frames of a stream, one after the other.
pub trait TakeFrames {
    /// What one call does: the taker before it, the frame, whether more are wanted, the taker after
    /// it.
    ghost takes: { Self → FrameValue → Bool → Self → Type 0 };

    /// Takes the next frame. `false` wants no more.
    fn take_frame(&mut self, frame: Frame<'_>) -> bool
        ensures { takes self.old (record {
          ext = frame.entry.ext;
          kind = frame.entry.kind;
          payload = frame.entry.payload.now;
        }) result self.new };
}

/// How a run over a piece of a stream ended.
#[derive(Clone, Copy, Debug, PartialEq, Eq)]
pub enum RunEnd {
    /// All of it was taken in.
    Done,
    /// The taker wanted no more.
    Stopped,
    /// A header says a payload of this many bytes, over the limit.
    TooLong(u32),
}

impl Splitter {
    /// Takes in the next pieces of the stream, and hands each frame on that is whole. However the
    /// stream is cut into pieces, the frames are the stream's own, in order: all of them, or those
    /// up to the first header over the limit, or up to the one after which the taker wanted no
    /// more.
    pub fn run<T: TakeFrames>(&mut self, pieces: &[&[u8]], taker: &mut T) -> RunEnd
        requires { IsCutWithin self.old }
        ensures { RunsOver T.takes self.old
            (flat_map (λ piece. piece.now) pieces.now) taker.old result self.new taker.new }
    {
        for piece in pieces {
            match self.run_piece(piece, taker) {
                RunEnd::Done => {}
                end => return end,
            }
        }
        RunEnd::Done
    }

    /// Takes in a piece of the stream, and hands each frame on that is whole.
    fn run_piece<T: TakeFrames>(&mut self, piece: &[u8], taker: &mut T) -> RunEnd
        requires { IsCutWithin self.old }
        ensures { RunsOver T.takes self.old piece.now taker.old result self.new taker.new }
    {
        let mut at = 0;
        loop {
            at += self.feed(&piece[at..]);
            match self.next() {
                Err(TooLong(len)) => return RunEnd::TooLong(len),
                Ok(None) => return RunEnd::Done,
                Ok(Some(frame)) => {
                    let more = taker.take_frame(frame);
                    self.drop_frame();
                    if !more {
                        return RunEnd::Stopped;
                    }
                }
            }
        }
    }
}
