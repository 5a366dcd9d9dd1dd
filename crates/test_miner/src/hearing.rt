//! The frames of a stream, as a miner hears them.

use crate::course::Course;
use crate::notice::notice_in;
use std::alloc::AllocError;
use sv2_frames::{Frame, TakeFrames};

/// The most bytes of a payload.
pub(crate) const MOST_PAYLOAD: u32 = 262_144;

/// Hears frame after frame, up to the miner's end or to want of memory.
#[derive(Drop)]
pub struct Ear {
    pub course: Course,
    /// Whether memory ran out, so that the course is none that is told.
    pub lacks_memory: bool,
}

impl TakeFrames for Ear {
    ghost use Rattle.test_miner.specs.Hearings.{HearsFrame};

    ghost takes = { HearsFrame };

    fn take_frame(&mut self, frame: Frame<'_>) -> bool {
        match self.course.hear(notice_in(frame)) {
            Ok(()) => self.course.end().is_none(),
            Err(AllocError) => {
                self.lacks_memory = true;
                false
            }
        }
    }
}
