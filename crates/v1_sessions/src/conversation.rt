//! What a session of lines asks and answers, from one line to the next.

ghost use Rattle.std.specs.Prelude.{◌≡◌, ◌<◌, ◌^◌, ◌++◌, ◌∷◌, ℕ, List, false, Some};
ghost use Rattle.pool_history.specs.declared.shares.Submission.{Submission};
ghost use Rattle.pool_history.specs.Headers.{Briefing};
ghost use Rattle.v2_sessions.specs.Following.{RollsAsAsked};
ghost use Rattle.v1_lines.specs.Lines.{IsLineText};
ghost use Rattle.v2_sessions.specs.Standing.{Intake};
ghost use Rattle.session_steps.specs.declared.about.About.TheVariants as topic;
ghost use Rattle.session_steps.specs.States as stages;
ghost use Rattle.session_steps.specs.Steps.{Books};
ghost use Rattle.session_steps.specs.Talks.{new_talk};
ghost use Rattle.v1_translate.specs.State.{start};
ghost use Rattle.v1_sessions.specs.Standing.{LeadsOn, asks_about, line_state};

use crate::asking::{Wish, wish_for};
use crate::telling::{Telling, tell};
use pool_history::{Reply, Request};
use pool_io::SinkFailed;
use pool_network::Link;
use session_steps::Manner;
use std::alloc::{AllocError, Global};
use v1_translate::{V1Session, V1Terms};
use v2_sessions::{
    Acted, Acting, AfterReply, Session, SessionEnd, after_answer, put_bytes, told_to,
};

/// What one session knows of its miner and of its pool: beside what was said, whether it entered,
/// and the place up to which it was told news.
#[derive(Drop)]
pub(crate) struct LineConversation {
    pub(crate) alloc: Global,
    pub(crate) session: Session,
    pub(crate) v1: V1Session,
    pub(crate) entered: bool,
    pub(crate) cursor: u64,
}

impl LineConversation {
    ghost use Rattle.v1_sessions.specs.Asking.{IsAnsweredSo, IsWish, wish_request};
    ghost use Rattle.v1_sessions.specs.Hearing.{Asks, EntersFor, HearsOneLine, HearsReply, SaysTo, TellsAll};
    ghost use Rattle.v1_sessions.specs.States.{sends};
    ghost use Rattle.v1_sessions.specs.declared.telling.Telling.TheVariants as tellings;

    pub(crate) fn new(alloc: Global, manner: Manner) -> LineConversation
        ensures talk { result.session
            ≡ new_talk manner.role manner.rolling manner.declares }
        ensures v1 { result.v1 ≡ start }
        ensures entered { result.entered ≡ false }
        ensures cursor { result.cursor ≡ 0 }
    {
        LineConversation {
            alloc,
            session: Session::new(alloc, manner),
            v1: V1Session::new(alloc),
            entered: false,
            cursor: 0,
        }
    }

    /// Tells the miner what a reply tells, in lines.
    fn tell<L: Link>(
        &mut self,
        terms: &V1Terms,
        telling: Telling,
        reply: &Reply,
        link: &mut L,
    ) -> Result<(), SinkFailed>
        ensures { TellsAll terms.now telling self.old reply.now (L.seen link.old) result self.new
            (L.seen link.new) }
    {
        let about = self.session.about();
        tell(self.alloc, &mut self.v1, terms, telling, about, reply, link)
    }

    /// Asks for the news since the last ones, and tells them.
    fn poll<L: Link, A: Acting>(
        &mut self,
        terms: &V1Terms,
        link: &mut L,
        acting: &mut A,
    ) -> Result<(), SessionEnd>
        requires { A.ready acting.old }
        ensures ready { A.ready acting.new }
        ensures runs { (intake : Intake) → LeadsOn A.worker A.does terms.now
            (line_state stages.Polling intake self.old)
            (stages.next_stage self.new.entered intake.idles) intake self.new result
            (L.seen link.old) (L.seen link.new) acting.old acting.new }
    {
        let Acted { front: _, outcome } = acting.act(Request::Poll(self.cursor));
        let reply = outcome?;
        self.cursor = told_to(self.cursor, &reply);
        self.tell(terms, Telling::Messages, &reply, link)?;
        Ok(())
    }

    /// Asks for the news, where it entered.
    pub(crate) fn news<L: Link, A: Acting>(
        &mut self,
        terms: &V1Terms,
        link: &mut L,
        acting: &mut A,
    ) -> Result<(), SessionEnd>
        requires { A.ready acting.old }
        ensures ready { A.ready acting.new }
        ensures runs { (intake : Intake) → LeadsOn A.worker A.does terms.now
            (line_state (stages.news_stage self.old.entered intake.idles) intake self.old)
            (stages.next_stage self.new.entered intake.idles) intake self.new result
            (L.seen link.old) (L.seen link.new) acting.old acting.new }
    {
        if self.entered {
            self.poll(terms, link, acting)
        } else {
            Ok(())
        }
    }

    /// Books a share, tells the answer, and then asks for the news.
    fn book<L: Link, A: Acting>(
        &mut self,
        booking: Request,
        terms: &V1Terms,
        link: &mut L,
        acting: &mut A,
    ) -> Result<(), SessionEnd>
        requires { A.ready acting.old }
        ensures ready { A.ready acting.new }
        ensures runs { (intake : Intake) (brief : Briefing)
            → Books self.old.session.about brief booking → LeadsOn A.worker A.does terms.now
            (line_state (stages.Committing brief) intake self.old)
            (stages.next_stage self.new.entered intake.idles) intake self.new result
            (L.seen link.old) (L.seen link.new) acting.old acting.new }
    {
        let Acted { front: _, outcome } = acting.act(booking);
        let reply = outcome?;
        self.tell(terms, Telling::Messages, &reply, link)?;
        self.news(terms, link, acting)
    }

    /// Hears a reply that came after so many events, and tells the answer.
    fn hear<L: Link>(
        &mut self,
        front: u64,
        reply: Reply,
        telling: Telling,
        terms: &V1Terms,
        link: &mut L,
    ) -> AfterReply
        requires rolls { RollsAsAsked self.old.session.about reply }
        requires few { front < 2 ^ 62 }
        requires shares { (sub : Submission) → self.old.session.about ≡ topic.Share sub
            → telling ≡ tellings.Messages }
        ensures { HearsReply terms.now telling self.old front reply (L.seen link.old)
            (L.seen link.new) result self.new }
    {
        self.enter(front, &reply);
        match self.session.follow(reply) {
            Ok(booking) => AfterReply::Book(booking),
            Err(reply) => match self.tell(terms, telling, &reply, link) {
                Err(cause) => AfterReply::End(SessionEnd::from(cause)),
                Ok(()) => after_answer(&reply),
            },
        }
    }

    /// A session that enters is told the news from behind its Enter on.
    fn enter(&mut self, front: u64, reply: &Reply)
        requires { front < 2 ^ 62 }
        ensures { self.new ≡ record self.old {
          entered = stages.entered_after self.old.entered reply.now;
          cursor = stages.cursor_behind self.old.cursor front reply.now;
        } }
    {
        if let Reply::Entered(_) = reply {
            self.entered = true;
            self.cursor = front + 1;
        }
    }

    /// Makes a request, hears the reply and tells the answer.
    fn ask<L: Link, A: Acting>(
        &mut self,
        asked: Request,
        telling: Telling,
        terms: &V1Terms,
        link: &mut L,
        acting: &mut A,
    ) -> AfterReply
        requires ready { A.ready acting.old }
        requires answered { IsAnsweredSo telling asked self.old.session.about }
        ensures ready { A.ready acting.new }
        ensures runs { (intake : Intake) → Asks A.worker A.does terms.now
            (line_state (stages.Asking asked) intake self.old) intake self.new result
            (L.seen link.old) (L.seen link.new) acting.old acting.new }
    {
        let Acted { front, outcome } = acting.act(asked);
        match outcome {
            Err(cause) => AfterReply::End(SessionEnd::from(cause)),
            Ok(reply) => self.hear(front, reply, telling, terms, link),
        }
    }

    /// Does all that a request leads to: it is answered, a share that was briefed is booked, and the
    /// news come.
    fn answer<L: Link, A: Acting>(
        &mut self,
        asked: Request,
        telling: Telling,
        terms: &V1Terms,
        link: &mut L,
        acting: &mut A,
    ) -> Result<(), SessionEnd>
        requires ready { A.ready acting.old }
        requires answered { IsAnsweredSo telling asked self.old.session.about }
        ensures ready { A.ready acting.new }
        ensures runs { (intake : Intake) → LeadsOn A.worker A.does terms.now
            (line_state (stages.Asking asked) intake self.old)
            (stages.next_stage self.new.entered intake.idles) intake self.new result
            (L.seen link.old) (L.seen link.new) acting.old acting.new }
    {
        match self.ask(asked, telling, terms, link, acting) {
            AfterReply::End(end) => Err(end),
            AfterReply::Poll => self.news(terms, link, acting),
            AfterReply::Book(booking) => self.book(booking, terms, link, acting),
        }
    }

    /// Enters, as a miner whose setup has no flags.
    fn enter_first<A: Acting>(&mut self, acting: &mut A) -> Result<(), SessionEnd>
        requires { A.ready acting.old }
        ensures ready { A.ready acting.new }
        ensures enters { EntersFor A.worker A.does self.old self.new result acting.old acting.new }
    {
        let entering = self.session.set_up_plain();
        let Acted { front, outcome } = acting.act(entering);
        let reply = outcome?;
        self.enter(front, &reply);
        match self.session.follow(reply) {
            Err(Reply::PoolFull(_)) => Err(SessionEnd::PoolFull),
            _ => Ok(()),
        }
    }

    /// Asks what a line asked.
    fn ask_wish<L: Link, A: Acting>(
        &mut self,
        wish: Wish,
        terms: &V1Terms,
        link: &mut L,
        acting: &mut A,
    ) -> Result<(), SessionEnd>
        requires ready { A.ready acting.old }
        requires wish { IsWish wish }
        ensures ready { A.ready acting.new }
        ensures runs { (intake : Intake) → LeadsOn A.worker A.does terms.now
            (line_state (stages.Asking wish.request) intake (asks_about wish.about self.old))
            (stages.next_stage self.new.entered intake.idles) intake self.new result
            (L.seen link.old) (L.seen link.new) acting.old acting.new }
    {
        self.session.ask_about(wish.about);
        self.answer(wish.request, wish.telling, terms, link, acting)
    }

    /// Asks what a line asked, once it has entered.
    fn send<L: Link, A: Acting>(
        &mut self,
        wish: Wish,
        terms: &V1Terms,
        link: &mut L,
        acting: &mut A,
    ) -> Result<(), SessionEnd>
        requires ready { A.ready acting.old }
        requires wish { IsWish wish }
        ensures ready { A.ready acting.new }
        ensures runs { (intake : Intake) → LeadsOn A.worker A.does terms.now
            (sends (Some (wish_request wish)) (line_state stages.Reading intake self.old))
            (stages.next_stage self.new.entered intake.idles) intake self.new result
            (L.seen link.old) (L.seen link.new) acting.old acting.new }
    {
        if self.session.is_set_up() {
            return self.ask_wish(wish, terms, link, acting);
        }
        match self.enter_first(acting) {
            Ok(()) => self.ask_wish(wish, terms, link, acting),
            Err(end) => Err(end),
        }
    }

    /// What a line asks. Its own answer is appended.
    fn say_to(
        &mut self,
        terms: &V1Terms,
        line: &[u8],
        lines: &mut Vec<u8>,
    ) -> Result<Option<Wish>, AllocError>
        ensures { SaysTo terms.now line.now self.old self.new lines.old.items lines.new.items result }
    {
        let ask = self.v1.hear_line(self.alloc, terms, line, lines)?;
        wish_for(self.alloc, self.v1.channel(), ask)
    }

    /// Answers a line, and does what it asks.
    pub(crate) fn hear_line<L: Link, A: Acting>(
        &mut self,
        terms: &V1Terms,
        line: &[u8],
        link: &mut L,
        acting: &mut A,
    ) -> Result<(), SessionEnd>
        requires ready { A.ready acting.old }
        ensures ready { A.ready acting.new }
        ensures runs { (before : Intake) (rest : List ℕ) → IsLineText line.now
            → before.unmet ≡ line.now ++ 10 ∷ rest → 0 < before.idles
            → HearsOneLine A.worker A.does terms.now
            (line_state stages.Reading before self.old) stages.Reading
            (record before { unmet = rest }) self.new result (L.seen link.old) (L.seen link.new)
            acting.old acting.new }
    {
        let mut lines = Vec::new(self.alloc);
        let Ok(wish) = self.say_to(terms, line, &mut lines) else {
            return Err(SessionEnd::Memory);
        };
        put_bytes(link, &lines)?;
        match wish {
            Some(wish) => self.send(wish, terms, link, acting),
            None => Ok(()),
        }
    }
}
