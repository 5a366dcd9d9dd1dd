//! The frames that a session meets.

ghost use Rattle.std.specs.Prelude.{◌≡◌, ◌<◌, ◌++◌, ℕ, List, length, OnOk};
ghost use Rattle.sv2_frames.specs.Holding.{IsCutWithin};
ghost use Rattle.session_steps.specs.States.{Reading, most_payload};
ghost use Rattle.session_steps.specs.Steps.{met_stage};

use crate::acting::Acting;
use crate::conversation::Conversation;
use crate::putting::{put_bytes, put_refused};
use crate::{SessionEnd, Step};
use pool_network::Link;
use sv2_frames::{Splitter, TooLong};

/// What is found among the bytes that a splitter holds.
#[derive(Drop)]
pub(crate) enum Found {
    /// No frame yet.
    Nothing,
    /// A header over the limit.
    Overlong(u32),
    /// There was no memory for what the frame asks.
    Memory,
    /// A frame, and what the session made of it.
    Frame(Step),
}

impl Conversation {
    ghost use Rattle.v2_sessions.specs.Meeting.{Finds, FindsNext, StepAsksAsTold};
    ghost use Rattle.v2_sessions.specs.Running.{Runs};
    ghost use Rattle.v2_sessions.specs.Standing.{HoldsNoMore, Intake, state_at, stage_or};

    fn find(&mut self, splitter: &Splitter) -> Found
        ensures { Finds splitter.now self.old result self.new }
    {
        match splitter.next() {
            Err(TooLong(len)) => Found::Overlong(len),
            Ok(None) => Found::Nothing,
            Ok(Some(frame)) => match self.session.on_frame(self.alloc, &frame) {
                Ok(step) => Found::Frame(step),
                Err(_) => Found::Memory,
            },
        }
    }

    /// A frame that was met is held no longer.
    fn find_next(&mut self, splitter: &mut Splitter) -> Found
        ensures { FindsNext splitter.old splitter.new self.old result self.new }
    {
        match self.find(splitter) {
            Found::Nothing => Found::Nothing,
            Found::Overlong(len) => Found::Overlong(len),
            Found::Memory => Found::Memory,
            Found::Frame(step) => {
                splitter.drop_frame();
                Found::Frame(step)
            }
        }
    }

    /// Does what a frame leads to.
    fn take_step<L: Link, A: Acting>(
        &mut self,
        step: Step,
        link: &mut L,
        acting: &mut A,
    ) -> Result<(), SessionEnd>
        requires ready { A.ready acting.old }
        requires told { StepAsksAsTold step self.old.session.about }
        ensures ready { A.ready acting.new }
        ensures runs { (intake : Intake) → 0 < intake.idles → Runs A.worker A.does
            (state_at (met_stage self.old.entered step) intake self.old)
            (state_at (stage_or Reading self.new.entered result) intake self.new)
            (L.seen link.old) (L.seen link.new) acting.old acting.new }
    {
        match step {
            Step::Ignore => Ok(()),
            Step::Ask(asked) => self.answer(asked, link, acting),
            Step::Say(bytes) => {
                put_bytes(link, bytes.bytes())?;
                Ok(())
            }
            Step::RefuseSetup(code, flags) => {
                put_refused(self.alloc, code, flags, link)?;
                Err(SessionEnd::BadSetup)
            }
            Step::BadSetup => Err(SessionEnd::BadSetup),
            Step::BadMessage(kind) => Err(SessionEnd::BadMessage(kind)),
        }
    }

    /// Meets the frame that the splitter holds, if it is whole.
    fn meet<L: Link, A: Acting>(
        &mut self,
        splitter: &mut Splitter,
        link: &mut L,
        acting: &mut A,
    ) -> Result<(), SessionEnd>
        requires ready { A.ready acting.old }
        requires limit { splitter.old.limit ≡ most_payload self.old.session.declares }
        requires no_more { HoldsNoMore splitter.old }
        ensures ready { A.ready acting.new }
        ensures limit { splitter.new.limit ≡ most_payload self.new.session.declares }
        ensures cut { OnOk result (IsCutWithin splitter.new) }
        ensures no_more { OnOk result (HoldsNoMore splitter.new) }
        ensures runs { (intake : Intake) (rest : List ℕ) → 0 < intake.idles → Runs A.worker A.does
            (state_at Reading (record intake { unmet = splitter.old.held ++ rest }) self.old)
            (state_at (stage_or Reading self.new.entered result)
            (record intake { unmet = splitter.new.held ++ rest }) self.new)
            (L.seen link.old) (L.seen link.new) acting.old acting.new }
    {
        match self.find_next(splitter) {
            Found::Nothing => Ok(()),
            Found::Overlong(len) => Err(SessionEnd::TooLong(len)),
            Found::Memory => Err(SessionEnd::Memory),
            Found::Frame(step) => self.take_step(step, link, acting),
        }
    }

    /// The bytes that are still to be met may begin with a frame. Without memory none is looked at.
    fn look_ahead(&mut self, splitter: &Splitter, rest: &[u8])
        ensures { self.new ≡ self.old }
    {
        if splitter.held() == 0 {
            let _looked = self.session.look_ahead(self.alloc, rest);
        }
    }

    /// Meets the frames of the bytes that came.
    pub(crate) fn meet_all<L: Link, A: Acting>(
        &mut self,
        splitter: &mut Splitter,
        piece: &[u8],
        link: &mut L,
        acting: &mut A,
    ) -> Result<(), SessionEnd>
        requires ready { A.ready acting.old }
        requires limit { splitter.old.limit ≡ most_payload self.old.session.declares }
        requires cut { IsCutWithin splitter.old }
        requires no_more { HoldsNoMore splitter.old }
        ensures ready { A.ready acting.new }
        ensures limit { splitter.new.limit ≡ most_payload self.new.session.declares }
        ensures cut { OnOk result (IsCutWithin splitter.new) }
        ensures no_more { OnOk result (HoldsNoMore splitter.new) }
        ensures runs { (intake : Intake) → 0 < intake.idles → (rest : List ℕ)
            × OnOk result (rest ≡ splitter.new.held) × Runs A.worker A.does
            (state_at Reading (record intake { unmet = splitter.old.held ++ piece.now }) self.old)
            (state_at (stage_or Reading self.new.entered result) (record intake { unmet = rest })
            self.new) (L.seen link.old) (L.seen link.new) acting.old acting.new }
    {
        let mut rest = piece;
        while !rest.is_empty() {
            self.look_ahead(splitter, rest);
            let count = splitter.feed(rest);
            rest = &rest[count..];
            self.meet(splitter, link, acting)?;
        }
        Ok(())
    }
}
