//! The turns that a session takes.

ghost use Rattle.std.specs.Prelude.{◌≡◌, ◌<◌, ◌≤◌, ◌^◌, ℕ, [], length, IfOk, OnOk};
ghost use Rattle.link_turns.specs.Waits.{turns_left};
ghost use Rattle.session_steps.specs.States as states;

use crate::SessionEnd;
use crate::acting::Acting;
use crate::conversation::Conversation;
use crate::ends::{input_end, keep_limits};
use link_turns::Waiting;
use pool_io::{PIECE_LEN, Took};
use pool_network::Link;
use std::alloc::{AllocError, Global};
use sv2_frames::Splitter;

/// The most bytes of a payload.
const MOST_PAYLOAD: u32 = 262_144;

/// The same where declarations are taken.
const MOST_DECLARED: u32 = 8_388_608;

/// The most bytes of a payload that a session takes.
fn most_payload(declares: bool) -> u32
    ensures { result ≡ states.most_payload declares }
{
    if declares {
        MOST_DECLARED
    } else {
        MOST_PAYLOAD
    }
}

/// What came of a frame that isn't whole, and what is still waited for.
#[derive(Drop)]
pub(crate) struct Listener {
    pub(crate) splitter: Splitter,
    pub(crate) waiting: Waiting,
}

impl Listener {
    ghost use Rattle.v2_sessions.specs.Standing.{HasMetAll, IsListening, intake_of, intake_with, stage_or, state_at};
    ghost use Rattle.v2_sessions.specs.Running.{Runs};
    ghost use Rattle.v2_sessions.specs.Sessions.{ReadsOn};

    /// Nothing came that isn't met.
    pub(crate) fn new(
        alloc: Global,
        declares: bool,
        waiting: Waiting,
    ) -> Result<Listener, AllocError>
        ensures waiting { IfOk result (λ listener. listener.waiting ≡ waiting) }
        ensures met { IfOk result (λ listener. HasMetAll declares listener.splitter) }
        ensures none { IfOk result (λ listener. listener.splitter.held ≡ []) }
    {
        Ok(Listener {
            splitter: Splitter::new(alloc, most_payload(declares))?,
            waiting,
        })
    }

    /// Meets the bytes that came and were counted.
    pub(crate) fn piece<L: Link, A: Acting>(
        &mut self,
        conversation: &mut Conversation,
        piece: &[u8],
        link: &mut L,
        acting: &mut A,
    ) -> Result<(), SessionEnd>
        requires ready { A.ready acting.old }
        requires met { HasMetAll conversation.old.session.declares self.old.splitter }
        requires waits { 0 < self.old.waiting.idles }
        requires most { self.old.waiting.idles ≤ self.old.waiting.idle_turns }
        ensures ready { A.ready acting.new }
        ensures listening { OnOk result
            (IsListening conversation.new.session.declares self.new) }
        ensures waiting { self.new.waiting ≡ self.old.waiting }
        ensures reads { ReadsOn A.worker A.does (intake_with piece.now self.old) (intake_of self.new)
            conversation.old conversation.new (L.seen link.old) (L.seen link.new) acting.old
            acting.new result }
    {
        conversation.meet_all(&mut self.splitter, piece, link, acting)?;
        keep_limits(&self.waiting)
    }

    /// No byte came for now, which was counted: news may be owed.
    fn idle<L: Link, A: Acting>(
        &self,
        conversation: &mut Conversation,
        link: &mut L,
        acting: &mut A,
    ) -> Result<(), SessionEnd>
        requires ready { A.ready acting.old }
        requires met { HasMetAll conversation.old.session.declares self.now.splitter }
        requires some { 0 < self.now.waiting.bytes }
        requires most { self.now.waiting.idles ≤ self.now.waiting.idle_turns }
        ensures ready { A.ready acting.new }
        ensures listening { OnOk result
            (IsListening conversation.new.session.declares self.now) }
        ensures runs { Runs A.worker A.does
            (state_at (states.news_stage conversation.old.entered self.now.waiting.idles)
            (intake_of self.now) conversation.old)
            (state_at (stage_or states.Reading conversation.new.entered result)
            (intake_of self.now) conversation.new)
            (L.seen link.old) (L.seen link.new) acting.old acting.new }
    {
        conversation.news(link, acting)?;
        keep_limits(&self.waiting)
    }

    /// No byte comes any more.
    fn end(&self) -> SessionEnd
        ensures { result ≡ states.input_end self.now.splitter.held }
    {
        input_end(self.splitter.held())
    }

    /// Takes one turn of the link.
    pub(crate) fn turn<L: Link, A: Acting>(
        &mut self,
        conversation: &mut Conversation,
        buffer: &mut [u8],
        link: &mut L,
        acting: &mut A,
    ) -> Result<(), SessionEnd>
        requires ready { A.ready acting.old }
        requires listening { IsListening conversation.old.session.declares self.old }
        requires room { length buffer.old ≡ PIECE_LEN }
        ensures ready { A.ready acting.new }
        ensures listening { OnOk result
            (IsListening conversation.new.session.declares self.new) }
        ensures nearer { OnOk result (turns_left self.new.waiting < turns_left self.old.waiting) }
        ensures reads { ReadsOn A.worker A.does (intake_of self.old) (intake_of self.new)
            conversation.old conversation.new (L.seen link.old) (L.seen link.new) acting.old
            acting.new result }
    {
        match self.waiting.take(link, buffer) {
            Took::Bytes(count) => self.piece(conversation, &buffer[..count], link, acting),
            Took::Idle => self.idle(conversation, link, acting),
            Took::End => Err(self.end()),
            Took::Failed => Err(SessionEnd::ReadFault),
        }
    }
}
