//! The frames of a stream, one after the other, and their lines.

ghost use Rattle.std.specs.Prelude.{◌++◌, ◌≤◌, ◌^◌, ℕ, List, length, OnOk, IsErrOf};

use crate::flaw::Flaw;
use crate::lines::{put_bad_line, put_frame_line};
use crate::verdict::verdict;
use std::alloc::{AllocError, Global};
use stream_commands::{Stop, StreamCommand};
use sv2_frames::{Splitter, TooLong};

/// The greatest payload that is taken.
const LIMIT: u32 = 262_144;

/// Holds less than a frame, and the number of the next one.
#[derive(Drop)]
pub struct Lister {
    pub splitter: Splitter,
    pub count: u64,
}

impl Lister {
    ghost use Rattle.sv2_frames.specs.Holding.{IsCutWithin};
    ghost use Rattle.stream_programs.specs.Duty.{ListsFlaw};
    ghost use Rattle.stream_programs.specs.Listing.{IsFlawed};
    ghost use Rattle.stream_programs.specs.Tracking.{HasListedFrames, MayHoldFrame};

    /// Lists the frame that is held, where it is whole, and lets go of it.
    fn frame(&mut self, text: &mut Vec<u8>) -> Result<(), Stop>
        ensures ok { OnOk result ((bytes given : List ℕ) → length bytes ≤ 2 ^ 40
            → MayHoldFrame bytes (given ++ text.old.items) self.old
            → HasListedFrames bytes (given ++ text.new.items) self.new) }
        ensures bad { IsErrOf result Stop.Refused → (bytes given : List ℕ)
            → MayHoldFrame bytes (given ++ text.old.items) self.old
            → ListsFlaw IsFlawed bytes (given ++ text.new.items) }
        ensures cut { OnOk result (IsCutWithin self.new.splitter) }
    {
        let frame = match self.splitter.next() {
            Ok(Some(frame)) => frame,
            Ok(None) => return Ok(()),
            Err(TooLong(len)) => {
                put_bad_line(text, self.count, Flaw::Length(len))?;
                return Err(Stop::Refused);
            }
        };
        match verdict(frame) {
            Ok(name) => put_frame_line(text, self.count, frame, name)?,
            Err(error) => {
                put_bad_line(text, self.count, Flaw::Payload(error))?;
                return Err(Stop::Refused);
            }
        }
        self.count = self.count.saturating_add(1);
        self.splitter.drop_frame();
        Ok(())
    }
}

impl StreamCommand for Lister {
    ghost use Rattle.sv2_frames.specs.Holding.{IsCutWithin};
    ghost use Rattle.stream_programs.specs.Duty.{listing_duty};
    ghost use Rattle.stream_programs.specs.Sound.{listing_duty_is_sound};
    ghost use Rattle.stream_programs.specs.Tracking.{HasListedFrames};

    type Task = ();

    ghost can_run = { λ _. Unit {0} };

    ghost duty = { λ _. listing_duty };

    ghost asked = { λ _. tt };

    ghost is_ready = { λ lister. IsCutWithin lister.splitter };

    ghost has_read = { λ lister bytes text. HasListedFrames bytes text lister };

    fn start(alloc: Global, _task: &()) -> Result<Lister, AllocError> {
        Ok(Lister {
            splitter: Splitter::new(alloc, LIMIT)?,
            count: 0,
        })
    }

    fn read(&mut self, piece: &[u8], text: &mut Vec<u8>) -> Result<(), Stop> {
        let mut rest = piece;
        while !rest.is_empty() {
            let count = self.splitter.feed(rest);
            rest = &rest[count..];
            self.frame(text)?;
        }
        Ok(())
    }

    fn end(&mut self, text: &mut Vec<u8>) -> Result<(), Stop> {
        let count = self.splitter.held();
        if count == 0 {
            return Ok(());
        }
        put_bad_line(text, self.count, Flaw::Cut(count))?;
        Err(Stop::Refused)
    }

    ghost owes_so_far = { λ lister bytes text read. record {
      frames = read.frames;
      rest = lister.splitter.held;
      lists = read.tracks.lists;
      is_kind = read.partial;
      listed = read.tracks.listed;
    } };

    ghost is_sound = { λ _. listing_duty_is_sound };
}
