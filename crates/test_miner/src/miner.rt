//! The test miner.

ghost use Rattle.std.specs.Prelude.{◌≡◌, ◌≤◌, ◌<◌, ◌++◌, IfOk, OnOk};
ghost use Rattle.test_miner.specs.Bounds.{tries_a_turn};
ghost use Rattle.test_miner.specs.Courses.{tries_made, share_found};
ghost use Rattle.test_miner.specs.Miners.{
  HearsPiece,
  IsNewMiner,
  IsReadyMiner,
  closed,
  opening_said,
  share_said,
};
ghost use Rattle.test_miner.specs.Saying.{share_bytes};

use crate::course::{Course, MinerEnd};
use crate::hearing::{Ear, MOST_PAYLOAD};
use crate::saying::{put_opening, put_setup, put_share};
use link_turns::Partner;
use std::alloc::{AllocError, Global};
use sv2_frames::{RunEnd, Splitter};
use sv2_types::Str255;

/// How many tries a turn makes at most.
const TRIES: u32 = 65_536;

/// What is asked of a miner.
#[derive(Drop)]
pub struct MinerTask {
    /// Whose channel it opens.
    pub user: Str255,
    /// The class that its shares meet: 0 to 60.
    pub class: u8,
    /// How many credits it wants: 1 or more.
    pub count: u32,
}

/// A miner on one standard channel.
#[derive(Drop)]
pub struct Miner {
    pub task: MinerTask,
    pub splitter: Splitter,
    pub ear: Ear,
}

impl Miner {
    /// A miner that has said nothing yet.
    pub fn new(alloc: Global, task: MinerTask) -> Result<Miner, AllocError>
        requires class { task.class ≤ 60 }
        requires count { 0 < task.count }
        ensures task { IfOk result (λ miner. miner.task ≡ task) }
        ensures new { IfOk result (λ miner. IsNewMiner miner) }
    {
        let splitter = Splitter::new(alloc, MOST_PAYLOAD)?;
        let course = Course::new(alloc, task.count);
        Ok(Miner {
            task,
            splitter,
            ear: Ear {
                course,
                lacks_memory: false,
            },
        })
    }

    /// Hears the frames of a piece, and says how far it was read.
    fn hear_piece(&mut self, piece: &[u8]) -> Result<RunEnd, AllocError>
        requires { IsReadyMiner self.old }
        ensures task { self.new.task ≡ self.old.task }
        ensures heard { IfOk result (λ end. HearsPiece self.old piece.now end self.new) }
    {
        let end = self.splitter.run(&[piece], &mut self.ear);
        if self.ear.lacks_memory {
            return Err(AllocError);
        }
        Ok(end)
    }

    /// Asks for a channel, where the connection has been accepted just now.
    fn open(&self, was_set_up: bool, out: &mut Vec<u8>) -> Result<(), AllocError>
        requires { self.now.task.class ≤ 60 }
        ensures { OnOk result (out.new.items ≡ out.old.items
            ++ opening_said self.now.task was_set_up self.now.ear.course.is_set_up) }
    {
        if self.ear.course.is_set_up() && !was_set_up {
            put_opening(out, &self.task.user, self.task.class)
        } else {
            Ok(())
        }
    }

    /// Makes the tries of a turn, and submits what they find.
    fn submit(&mut self, out: &mut Vec<u8>) -> Result<(), AllocError>
        ensures task { self.new.task ≡ self.old.task }
        ensures splitter { self.new.splitter ≡ self.old.splitter }
        ensures lacks { self.new.ear.lacks_memory ≡ self.old.ear.lacks_memory }
        ensures course { self.new.ear.course
            ≡ tries_made self.old.task.class tries_a_turn self.old.ear.course }
        ensures share { OnOk result (out.new.items ≡ out.old.items
            ++ share_bytes (share_found self.old.task.class tries_a_turn self.old.ear.course)) }
    {
        match self.ear.course.make_tries(self.task.class, TRIES) {
            Some(share) => put_share(out, share),
            None => Ok(()),
        }
    }

    /// Closes a turn whose bytes were read so far.
    fn close(&mut self, end: RunEnd, out: &mut Vec<u8>) -> Result<(), AllocError>
        ensures task { self.new.task ≡ self.old.task }
        ensures splitter { self.new.splitter ≡ self.old.splitter }
        ensures lacks { self.new.ear.lacks_memory ≡ self.old.ear.lacks_memory }
        ensures course { self.new.ear.course ≡ closed self.old.task end self.old.ear.course }
        ensures share { OnOk result (out.new.items ≡ out.old.items
            ++ share_said self.old.task end self.old.ear.course) }
    {
        match end {
            RunEnd::Done => self.submit(out),
            RunEnd::TooLong(_) => {
                self.ear.course.cut_off();
                Ok(())
            }
            RunEnd::Stopped => Ok(()),
        }
    }
}

impl Partner for Miner {
    ghost use Rattle.test_miner.specs.Miners.{HasMined, IsMining, IsNewMiner, IsReadyMiner};

    type Task = MinerTask;

    type End = MinerEnd;

    ghost asked = { λ miner. miner.task };

    ghost is_new = { IsNewMiner };

    ghost is_ready = { IsReadyMiner };

    ghost has_taken = { IsMining };

    ghost has_ended = { HasMined };

    fn start(&mut self, out: &mut Vec<u8>) -> Result<(), AllocError> {
        put_setup(out)
    }

    fn piece(&mut self, piece: &[u8], out: &mut Vec<u8>) -> Result<Option<MinerEnd>, AllocError> {
        let was_set_up = self.ear.course.is_set_up();
        let end = self.hear_piece(piece)?;
        self.open(was_set_up, out)?;
        self.close(end, out)?;
        Ok(self.ear.course.end())
    }

    fn idle(&mut self, out: &mut Vec<u8>) -> Result<Option<MinerEnd>, AllocError> {
        self.submit(out)?;
        Ok(self.ear.course.end())
    }

    fn input_end(&mut self) -> MinerEnd {
        self.ear.course.cut_off();
        self.ear.course.end().unwrap()
    }
}
