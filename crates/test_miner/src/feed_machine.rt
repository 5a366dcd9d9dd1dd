//! The script feed as a partner.

ghost use Rattle.std.specs.Prelude.{◌≡◌, ◌++◌, IfOk, OnOk};
ghost use Rattle.test_miner.specs.Feeds.{
  FeedHearsPiece,
  IsNewFeed,
  IsReadyFeed,
  greeting_said,
  read_so_far,
  success_frame,
};

use crate::feed::{FeedCourse, FeedEnd};
use crate::hearing::MOST_PAYLOAD;
use crate::script::Script;
use link_turns::Partner;
use mining_msgs::{Mining, SetupConnectionSuccess};
use std::alloc::{AllocError, Global};
use sv2_frames::{Frame, RunEnd, Splitter, TakeFrames};

/// Hears frame after frame, up to the feed's end or to want of memory.
#[derive(Drop)]
pub struct FeedEar {
    pub course: FeedCourse,
    /// Whether memory ran out, so that the course is none that is told.
    pub lacks_memory: bool,
}

impl TakeFrames for FeedEar {
    ghost use Rattle.test_miner.specs.Feeds.{HearsInFeed};

    ghost takes = { HearsInFeed };

    fn take_frame(&mut self, frame: Frame<'_>) -> bool {
        match self.course.hear(frame) {
            Ok(()) => self.course.end().is_none(),
            Err(AllocError) => {
                self.lacks_memory = true;
                false
            }
        }
    }
}

/// A feed of one script.
#[derive(Drop)]
pub struct Feed {
    pub splitter: Splitter,
    pub ear: FeedEar,
}

impl Feed {
    /// A feed that has said nothing yet.
    pub fn new(alloc: Global, script: Script) -> Result<Feed, AllocError>
        ensures script { IfOk result (λ feed. feed.ear.course.script ≡ script) }
        ensures new { IfOk result IsNewFeed }
    {
        let splitter = Splitter::new(alloc, MOST_PAYLOAD)?;
        let course = FeedCourse::new(alloc, script);
        Ok(Feed {
            splitter,
            ear: FeedEar {
                course,
                lacks_memory: false,
            },
        })
    }

    /// Hears the frames of a piece, and says how far it was read.
    fn hear_piece(&mut self, piece: &[u8]) -> Result<RunEnd, AllocError>
        requires { IsReadyFeed self.old }
        ensures { IfOk result (λ end. FeedHearsPiece self.old piece.now end self.new) }
    {
        let end = self.splitter.run(&[piece], &mut self.ear);
        if self.ear.lacks_memory {
            return Err(AllocError);
        }
        Ok(end)
    }

    /// Says the answer to the setup and the script, where the caller has set up just now.
    fn greet(&self, was_set_up: bool, out: &mut Vec<u8>) -> Result<(), AllocError>
        ensures { OnOk result (out.new.items ≡ out.old.items
            ++ greeting_said self.now.ear.course.script was_set_up
            self.now.ear.course.is_set_up) }
    {
        if self.ear.course.is_set_up() && !was_set_up {
            put_success(out)?;
            out.extend_from_slice(self.ear.course.script().bytes())
        } else {
            Ok(())
        }
    }

    /// Closes a turn whose bytes were read so far.
    fn close(&mut self, end: RunEnd)
        ensures splitter { self.new.splitter ≡ self.old.splitter }
        ensures lacks { self.new.ear.lacks_memory ≡ self.old.ear.lacks_memory }
        ensures course { self.new.ear.course ≡ read_so_far end self.old.ear.course }
    {
        match end {
            RunEnd::TooLong(_) => self.ear.course.cut_off(),
            RunEnd::Done | RunEnd::Stopped => {}
        }
    }
}

/// Appends the answer to a setup.
fn put_success(out: &mut Vec<u8>) -> Result<(), AllocError>
    ensures { OnOk result (out.new.items ≡ out.old.items ++ success_frame) }
{
    // In a tuple, since no proof covers a local of an enum whose structs borrow.
    let success = (
        Mining::SetupConnectionSuccess(SetupConnectionSuccess {
            used_version: 2,
            flags: 0,
        }),
    );
    success.0.frame(out)
}

impl Partner for Feed {
    ghost use Rattle.test_miner.specs.Feeds.{HasFed, IsFeeding, IsNewFeed, IsReadyFeed};

    type Task = Script;

    type End = FeedEnd;

    ghost asked = { λ feed. feed.ear.course.script };

    ghost is_new = { IsNewFeed };

    ghost is_ready = { IsReadyFeed };

    ghost has_taken = { IsFeeding };

    ghost has_ended = { HasFed };

    fn start(&mut self, _out: &mut Vec<u8>) -> Result<(), AllocError> {
        Ok(())
    }

    fn piece(&mut self, piece: &[u8], out: &mut Vec<u8>) -> Result<Option<FeedEnd>, AllocError> {
        let was_set_up = self.ear.course.is_set_up();
        let end = self.hear_piece(piece)?;
        self.greet(was_set_up, out)?;
        self.close(end);
        Ok(self.ear.course.end())
    }

    fn idle(&mut self, _out: &mut Vec<u8>) -> Result<Option<FeedEnd>, AllocError> {
        Ok(None)
    }

    fn input_end(&mut self) -> FeedEnd {
        let held = self.splitter.held();
        self.ear.course.close(held)
    }
}
