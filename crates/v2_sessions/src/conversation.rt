//! What a session asks and answers, from one turn to the next.

ghost use Rattle.std.specs.Prelude.{◌≡◌, ◌+◌, ◌<◌, ◌^◌, ℕ, false};
ghost use Rattle.pool_history.specs.Headers.{Briefing};
ghost use Rattle.v2_sessions.specs.Following.{RollsAsAsked};
ghost use Rattle.session_steps.specs.Answers.{answer_frames};
ghost use Rattle.session_steps.specs.States.{Asking, Committing, Polling, Stage, cursor_after, cursor_behind, entered_after, news_stage, next_stage};
ghost use Rattle.session_steps.specs.Steps.{Books, bytes_of_frames};
ghost use Rattle.session_steps.specs.Talks.{heard, new_talk};
ghost use Rattle.v2_sessions.specs.Meeting.{IsAfterAnswer};

use crate::acting::{Acted, Acting};
use crate::putting::put_frames;
use crate::{Session, SessionEnd};
use pool_history::{Reply, Request};
use pool_network::Link;
use session_steps::Manner;
use std::alloc::Global;

/// What one session knows of its pool: beside what it said, whether it entered, and the place up to
/// which it was told news.
#[derive(Drop)]
pub(crate) struct Conversation {
    pub(crate) alloc: Global,
    pub(crate) session: Session,
    pub(crate) entered: bool,
    pub(crate) cursor: u64,
}

/// What comes after a reply is answered.
#[derive(Drop)]
pub enum AfterReply {
    /// The share that was briefed is booked.
    Book(Request),
    /// The news come.
    Poll,
    End(SessionEnd),
}

impl Conversation {
    ghost use Rattle.v2_sessions.specs.Links.{PutsOut};
    ghost use Rattle.v2_sessions.specs.Meeting.{AsksAsTold, Hears, LeadsTo};
    ghost use Rattle.v2_sessions.specs.Running.{Runs};
    ghost use Rattle.v2_sessions.specs.Standing.{Intake, stage_or, state_at};

    pub(crate) fn new(alloc: Global, manner: Manner) -> Conversation
        ensures talk { result.session
            ≡ new_talk manner.role manner.rolling manner.declares }
        ensures entered { result.entered ≡ false }
        ensures cursor { result.cursor ≡ 0 }
    {
        Conversation {
            alloc,
            session: Session::new(alloc, manner),
            entered: false,
            cursor: 0,
        }
    }

    /// Asks for the news since the last ones, and puts them.
    fn poll<L: Link, A: Acting>(&mut self, link: &mut L, acting: &mut A) -> Result<(), SessionEnd>
        requires { A.ready acting.old }
        ensures ready { A.ready acting.new }
        ensures runs { (intake : Intake) → Runs A.worker A.does
            (state_at Polling intake self.old)
            (state_at (stage_or (next_stage self.new.entered intake.idles) self.new.entered result)
            intake self.new) (L.seen link.old) (L.seen link.new) acting.old acting.new }
    {
        let Acted { front: _, outcome } = acting.act(Request::Poll(self.cursor));
        let reply = outcome?;
        self.cursor = told_to(self.cursor, &reply);
        put_frames(self.alloc, &self.session, &reply, link)?;
        Ok(())
    }

    /// Asks for the news, where it entered.
    pub(crate) fn news<L: Link, A: Acting>(
        &mut self,
        link: &mut L,
        acting: &mut A,
    ) -> Result<(), SessionEnd>
        requires { A.ready acting.old }
        ensures ready { A.ready acting.new }
        ensures runs { (intake : Intake) → Runs A.worker A.does
            (state_at (news_stage self.old.entered intake.idles) intake self.old)
            (state_at (stage_or (next_stage self.new.entered intake.idles) self.new.entered result)
            intake self.new) (L.seen link.old) (L.seen link.new) acting.old acting.new }
    {
        if self.entered {
            self.poll(link, acting)
        } else {
            Ok(())
        }
    }

    /// Books a share, and puts the answer.
    fn book<L: Link, A: Acting>(
        &self,
        booking: Request,
        link: &mut L,
        acting: &mut A,
    ) -> Result<(), SessionEnd>
        requires { A.ready acting.old }
        ensures ready { A.ready acting.new }
        ensures runs { (intake : Intake) (brief : Briefing)
            → Books self.now.session.about brief booking → Runs A.worker A.does
            (state_at (Committing brief) intake self.now)
            (state_at (stage_or (news_stage self.now.entered intake.idles) self.now.entered result)
            intake self.now) (L.seen link.old) (L.seen link.new) acting.old acting.new }
    {
        let Acted { front: _, outcome } = acting.act(booking);
        let reply = outcome?;
        put_frames(self.alloc, &self.session, &reply, link)?;
        Ok(())
    }

    /// Hears a reply that came after so many events, and puts the answer.
    fn hear<L: Link>(&mut self, front: u64, reply: Reply, link: &mut L) -> AfterReply
        requires rolls { RollsAsAsked self.old.session.about reply }
        requires few { front < 2 ^ 62 }
        ensures { Hears self.old front reply (L.seen link.old) (L.seen link.new) result self.new }
    {
        self.enter(front, &reply);
        match self.session.follow(reply) {
            Ok(booking) => AfterReply::Book(booking),
            Err(reply) => match put_frames(self.alloc, &self.session, &reply, link) {
                Err(cause) => AfterReply::End(SessionEnd::from(cause)),
                Ok(()) => after_answer(&reply),
            },
        }
    }

    /// A session that enters is told the news from behind its Enter on.
    fn enter(&mut self, front: u64, reply: &Reply)
        requires { front < 2 ^ 62 }
        ensures { self.new ≡ record self.old {
          entered = entered_after self.old.entered reply.now;
          cursor = cursor_behind self.old.cursor front reply.now;
        } }
    {
        if let Reply::Entered(_) = reply {
            self.entered = true;
            self.cursor = front + 1;
        }
    }

    /// Makes a frame's request, hears the reply and puts the answer.
    fn ask<L: Link, A: Acting>(
        &mut self,
        asked: Request,
        link: &mut L,
        acting: &mut A,
    ) -> AfterReply
        requires ready { A.ready acting.old }
        requires told { AsksAsTold asked self.old.session.about }
        ensures ready { A.ready acting.new }
        ensures runs { (intake : Intake) → (stage : Stage)
            × LeadsTo result self.new.session.about self.new.entered intake.idles stage
            × Runs A.worker A.does
            (state_at (Asking asked) intake self.old)
            (state_at stage intake self.new) (L.seen link.old) (L.seen link.new) acting.old acting.new }
    {
        let Acted { front, outcome } = acting.act(asked);
        match outcome {
            Err(cause) => AfterReply::End(SessionEnd::from(cause)),
            Ok(reply) => self.hear(front, reply, link),
        }
    }

    /// Books a share, and then asks for the news.
    fn book_first<L: Link, A: Acting>(
        &mut self,
        booking: Request,
        link: &mut L,
        acting: &mut A,
    ) -> Result<(), SessionEnd>
        requires { A.ready acting.old }
        ensures ready { A.ready acting.new }
        ensures runs { (intake : Intake) (brief : Briefing)
            → Books self.old.session.about brief booking → Runs A.worker A.does
            (state_at (Committing brief) intake self.old)
            (state_at (stage_or (next_stage self.new.entered intake.idles) self.new.entered result)
            intake self.new) (L.seen link.old) (L.seen link.new) acting.old acting.new }
    {
        self.book(booking, link, acting)?;
        self.news(link, acting)
    }

    /// Does all that a frame's request leads to: it is answered, a share that was briefed is booked,
    /// and the news come.
    pub(crate) fn answer<L: Link, A: Acting>(
        &mut self,
        asked: Request,
        link: &mut L,
        acting: &mut A,
    ) -> Result<(), SessionEnd>
        requires ready { A.ready acting.old }
        requires told { AsksAsTold asked self.old.session.about }
        ensures ready { A.ready acting.new }
        ensures runs { (intake : Intake) → Runs A.worker A.does
            (state_at (Asking asked) intake self.old)
            (state_at (stage_or (next_stage self.new.entered intake.idles) self.new.entered result)
            intake self.new) (L.seen link.old) (L.seen link.new) acting.old acting.new }
    {
        match self.ask(asked, link, acting) {
            AfterReply::End(end) => Err(end),
            AfterReply::Poll => self.news(link, acting),
            AfterReply::Book(booking) => self.book_first(booking, link, acting),
        }
    }
}

/// The place up to which the news go.
pub fn told_to(cursor: u64, reply: &Reply) -> u64
    ensures { result ≡ cursor_after cursor reply.now }
{
    match reply {
        Reply::News(at, _) => *at,
        _ => cursor,
    }
}

/// A pool that takes no more sessions ends this one.
pub fn after_answer(reply: &Reply) -> AfterReply
    ensures { IsAfterAnswer reply.now result }
{
    match reply {
        Reply::PoolFull(_) => AfterReply::End(SessionEnd::PoolFull),
        _ => AfterReply::Poll,
    }
}
