//! The frames of a stream, one after the other, and the answers to the shares that they bring.

ghost use Rattle.std.specs.Prelude.{◌≡◌, ◌++◌, ℕ, List, OnOk, IsErrOf};

use crate::Foreseen;
use crate::answer::put_answer;
use crate::judge::{Job, Judge};
use crate::submission::{FRAME_LEN, PAYLOAD_LEN, holds_other, read_share, rolled_at};
use std::alloc::{AllocError, Global};
use stream_commands::{Stop, StreamCommand};
use sv2_frames::{Splitter, TooLong};

/// A job, and the class that its shares have to meet: 0 to 60.
#[derive(Clone, Copy)]
pub struct FixedTask {
    pub class: u8,
    pub job: Job,
}

/// Judges the shares of one job. It holds less than a frame.
#[derive(Drop)]
pub struct FixedJob {
    pub judge: Judge,
    pub splitter: Splitter,
    /// The headers of shares that come next.
    pub foreseen: Foreseen,
}

impl FixedJob {
    ghost use Rattle.sv2_frames.specs.Holding.{IsCutWithin};
    ghost use Rattle.stream_programs.specs.FixedDuty.{AnswersShares};
    ghost use Rattle.stream_programs.specs.Judging.{HasAnsweredShares, HoldsRest};
    ghost use Rattle.stream_programs.specs.Submitting.{IsOtherHeader};

    /// Hashes the headers of the shares that these bytes begin with, where there are at least two
    /// and none is foreseen any more. It says how many are foreseen behind the first. Bytes that are
    /// no shares are hashed for nothing.
    fn look_ahead(&mut self, rest: &[u8], left: usize) -> usize
        ensures judge { self.new.judge ≡ self.old.judge }
        ensures splitter { self.new.splitter ≡ self.old.splitter }
    {
        if left > 0 {
            return left - 1;
        }
        let count = (rest.len() / FRAME_LEN).min(4);
        if count < 2 || self.splitter.held() > 0 {
            return 0;
        }
        // The last one fills the lanes that are left.
        let last = FRAME_LEN * (count - 1);
        let job = &self.judge.job;
        let headers = [
            job.header(&rolled_at(rest, 0)),
            job.header(&rolled_at(rest, FRAME_LEN)),
            job.header(&rolled_at(rest, last.min(2 * FRAME_LEN))),
            job.header(&rolled_at(rest, last.min(3 * FRAME_LEN))),
        ];
        self.foreseen.foresee(&headers);
        count - 1
    }

    /// Judges the frame that is held, where it is whole, and appends its answer.
    fn frame(&mut self, text: &mut Vec<u8>) -> Result<(), Stop>
        ensures ok { OnOk result ((bytes given : List ℕ)
            → HoldsRest bytes (given ++ text.old.items) self.old
            → HasAnsweredShares bytes (given ++ text.new.items) self.new) }
        ensures other { IsErrOf result Stop.Refused → (bytes given : List ℕ)
            → HoldsRest bytes (given ++ text.old.items) self.old
            → AnswersShares self.old.judge.class self.old.judge.job IsOtherHeader bytes
            (given ++ text.new.items) }
        ensures cut { OnOk result (IsCutWithin self.new.splitter) }
        ensures class { self.new.judge.class ≡ self.old.judge.class }
        ensures job { self.new.judge.job ≡ self.old.judge.job }
    {
        if holds_other(&self.splitter) {
            return Err(Stop::Refused);
        }
        let share = match self.splitter.next() {
            Ok(Some(frame)) => read_share(frame.payload).unwrap(),
            Ok(None) => return Ok(()),
            // A header over the limit is another one. It was refused above, but the splitter tells
            // it too.
            Err(TooLong(_)) => return Err(Stop::Refused),
        };
        let refusal = self.judge.judge(&share, &self.foreseen)?;
        put_answer(text, self.judge.class, share, refusal)?;
        self.splitter.drop_frame();
        Ok(())
    }
}

impl StreamCommand for FixedJob {
    ghost use Rattle.std.specs.Prelude.{◌≤◌};
    ghost use Rattle.sv2_frames.specs.Holding.{IsCutWithin};
    ghost use Rattle.stream_programs.specs.FixedDuty.{share_duty};
    ghost use Rattle.stream_programs.specs.Judging.{HasAnsweredShares};
    ghost use Rattle.stream_programs.specs.FixedSound.{share_duty_is_sound};

    type Task = FixedTask;

    ghost can_run = { λ task. task.class ≤ 60 };

    ghost duty = { λ task. share_duty task.class task.job };

    ghost asked = { λ c. record { class = c.judge.class; job = c.judge.job } };

    ghost is_ready = { λ c. IsCutWithin c.splitter };

    ghost has_read = { λ c bytes text. HasAnsweredShares bytes text c };

    fn start(alloc: Global, task: &FixedTask) -> Result<FixedJob, AllocError> {
        let splitter = Splitter::new(alloc, PAYLOAD_LEN)?;
        Ok(FixedJob {
            judge: Judge::new(alloc, task.class, &task.job),
            splitter,
            foreseen: Foreseen::of(&[[0; 80]; 4]),
        })
    }

    fn read(&mut self, piece: &[u8], text: &mut Vec<u8>) -> Result<(), Stop> {
        let mut rest = piece;
        let mut left = 0;
        while !rest.is_empty() {
            left = self.look_ahead(rest, left);
            let count = self.splitter.feed(rest);
            rest = &rest[count..];
            self.frame(text)?;
        }
        Ok(())
    }

    fn end(&mut self, _text: &mut Vec<u8>) -> Result<(), Stop> {
        if self.splitter.held() == 0 {
            Ok(())
        } else {
            Err(Stop::Refused)
        }
    }

    ghost owes_so_far = { λ c bytes text read. record {
      shares = read.holds.shares;
      rest = c.splitter.held;
      spelled = read.holds.spelled;
      is_kind = read.partial;
      answered = read.holds.answered;
    } };

    ghost is_sound = { λ task. share_duty_is_sound task.class task.job };
}
