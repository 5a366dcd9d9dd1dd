//! The talk of a partner over a link.

ghost use Rattle.std.specs.Prelude.{◌≡◌, ◌<◌, ◌^◌, ℕ, None, Some, length, IfNone, IfOk, false};
ghost use Rattle.pool_io.specs.declared.turn.Turn.TheVariants as turn;
ghost use Rattle.pool_io.specs.Outside.{CountsFailure};
ghost use Rattle.pool_io.specs.Steps.{Bounds};
ghost use Rattle.pool_network.specs.Seen.{LinkSeen};
ghost use Rattle.link_turns.specs.Talks.{AnswersTurn, BeginsTalk, EndedFor, EndsTalk, Finishes, IsTalking, TakenFor, TalksOnOrEnds, bounds_of, is_read_fault, is_write_fault, reason_of};
ghost use Rattle.link_turns.specs.Waits.{IsBelowLimits, IsLimitOf, turns_left};

use crate::partner::Partner;
use crate::waiting::{Limit, Waiting};
use pool_io::{PIECE_LEN, SinkFailed, Took};
use pool_network::{Link, put_whole};
use std::alloc::Global;

/// How a talk ended.
#[derive(Drop)]
pub enum TalkEnd<E> {
    /// By the partner itself, also where the input has ended.
    Ended(E),
    /// So many Idle turns came in a row.
    IdleOut,
    /// 2^40 bytes came.
    BytesOut,
    /// The link failed at a take.
    ReadFault,
    /// The link failed at a put.
    WriteFault,
    Memory,
}

/// A talk between two turns.
#[derive(Drop)]
struct Talking {
    waiting: Waiting,
    /// What the partner says to one turn.
    words: Vec<u8>,
}

impl Talking {
    /// Puts what the partner said, and tells how the talk ended, if it did: the partner comes before
    /// a limit.
    fn finish<L: Link, E: Drop>(&self, ended: Option<E>, link: &mut L) -> Option<TalkEnd<E>>
        ensures goes { Finishes self.now.words.items ended self.now.waiting
            (L.seen link.old).sink.held (L.seen link.new).sink.held result }
        ensures below { IfNone result (IsLimitOf self.now.waiting None) }
        ensures source { (L.seen link.new).source ≡ (L.seen link.old).source }
        ensures no_read { is_read_fault result ≡ false }
        ensures writes { CountsFailure (is_write_fault result) (L.seen link.old).sink.faults
            (L.seen link.new).sink.faults }
    {
        match put_whole(link, &self.words) {
            Ok(()) => {}
            Err(SinkFailed::Failed) => return Some(TalkEnd::WriteFault),
            Err(SinkFailed::Memory) => return Some(TalkEnd::Memory),
        }
        if let Some(reason) = ended {
            return Some(TalkEnd::Ended(reason));
        }
        match self.waiting.limit() {
            None => None,
            Some(Limit::IdleOut) => Some(TalkEnd::IdleOut),
            Some(Limit::BytesOut) => Some(TalkEnd::BytesOut),
        }
    }

    /// Tells the partner the bytes that came, and puts what it says to them.
    fn piece<L: Link, P: Partner>(
        &mut self,
        partner: &mut P,
        piece: &[u8],
        link: &mut L,
    ) -> Option<TalkEnd<P::End>>
        requires { P.is_ready partner.old }
        ensures waiting { self.new.waiting ≡ self.old.waiting }
        ensures ready { IfNone result (P.is_ready partner.new) }
        ensures answers { (task : P.Task) → AnswersTurn (TakenFor P.asked task P.has_taken)
            (EndedFor P.asked task P.has_ended) self.new.waiting (turn.Piece piece.now) partner.old
            partner.new (L.seen link.old).sink.held (L.seen link.new).sink.held result }
        ensures below { IfNone result (IsLimitOf self.new.waiting None) }
        ensures source { (L.seen link.new).source ≡ (L.seen link.old).source }
        ensures no_read { is_read_fault result ≡ false }
        ensures writes { CountsFailure (is_write_fault result) (L.seen link.old).sink.faults
            (L.seen link.new).sink.faults }
    {
        self.words.clear();
        match partner.piece(piece, &mut self.words) {
            Err(_) => Some(TalkEnd::Memory),
            Ok(ended) => self.finish(ended, link),
        }
    }

    /// Tells the partner that no byte came for now, and puts what it says to that.
    fn idle<L: Link, P: Partner>(
        &mut self,
        partner: &mut P,
        link: &mut L,
    ) -> Option<TalkEnd<P::End>>
        requires { P.is_ready partner.old }
        ensures waiting { self.new.waiting ≡ self.old.waiting }
        ensures ready { IfNone result (P.is_ready partner.new) }
        ensures answers { (task : P.Task) → AnswersTurn (TakenFor P.asked task P.has_taken)
            (EndedFor P.asked task P.has_ended) self.new.waiting turn.Idle partner.old
            partner.new (L.seen link.old).sink.held (L.seen link.new).sink.held result }
        ensures below { IfNone result (IsLimitOf self.new.waiting None) }
        ensures source { (L.seen link.new).source ≡ (L.seen link.old).source }
        ensures no_read { is_read_fault result ≡ false }
        ensures writes { CountsFailure (is_write_fault result) (L.seen link.old).sink.faults
            (L.seen link.new).sink.faults }
    {
        self.words.clear();
        match partner.idle(&mut self.words) {
            Err(_) => Some(TalkEnd::Memory),
            Ok(ended) => self.finish(ended, link),
        }
    }

    /// Takes one turn of the link.
    fn turn<L: Link, P: Partner>(
        &mut self,
        partner: &mut P,
        buffer: &mut [u8],
        link: &mut L,
    ) -> Option<TalkEnd<P::End>>
        requires ready { P.is_ready partner.old }
        requires below { IsBelowLimits self.old.waiting }
        requires room { length buffer.old ≡ PIECE_LEN }
        ensures ready { IfNone result (P.is_ready partner.new) }
        ensures below { IfNone result (IsBelowLimits self.new.waiting) }
        ensures nearer { IfNone result (turns_left self.new.waiting < turns_left self.old.waiting) }
        ensures goes { (task : P.Task) (bounds : Bounds) (first : LinkSeen)
            → IsTalking (TakenFor P.asked task P.has_taken) bounds self.old.waiting first
            (L.seen link.old) partner.old
            → TalksOnOrEnds (TakenFor P.asked task P.has_taken) (EndedFor P.asked task P.has_ended)
            bounds self.new.waiting first (L.seen link.new) partner.new result }
        ensures reads { CountsFailure (is_read_fault result) (L.seen link.old).source.faults
            (L.seen link.new).source.faults }
        ensures writes { CountsFailure (is_write_fault result) (L.seen link.old).sink.faults
            (L.seen link.new).sink.faults }
    {
        match self.waiting.take(link, buffer) {
            Took::Bytes(count) => self.piece(partner, &buffer[..count], link),
            Took::Idle => self.idle(partner, link),
            Took::End => Some(TalkEnd::Ended(partner.input_end())),
            Took::Failed => Some(TalkEnd::ReadFault),
        }
    }

    /// Takes turn after turn, up to the end.
    fn run<L: Link, P: Partner>(mut self, partner: &mut P, link: &mut L) -> TalkEnd<P::End>
        requires ready { P.is_ready partner.old }
        requires below { IsBelowLimits self.waiting }
        ensures talked { (task : P.Task) (bounds : Bounds) (first : LinkSeen)
            → IsTalking (TakenFor P.asked task P.has_taken) bounds self.waiting first
            (L.seen link.old) partner.old
            → EndsTalk (TakenFor P.asked task P.has_taken) (EndedFor P.asked task P.has_ended)
            bounds first (L.seen link.new) partner.new result }
        ensures reads { CountsFailure (is_read_fault (Some result)) (L.seen link.old).source.faults
            (L.seen link.new).source.faults }
        ensures writes { CountsFailure (is_write_fault (Some result)) (L.seen link.old).sink.faults
            (L.seen link.new).sink.faults }
    {
        let mut buffer = [0; PIECE_LEN];
        loop {
            if let Some(end) = self.turn(partner, &mut buffer, link) {
                return end;
            }
        }
    }
}

/// Puts a partner's first words.
fn begin<L: Link, P: Partner>(
    alloc: Global,
    link: &mut L,
    partner: &mut P,
    idle_turns: u64,
) -> Result<Talking, TalkEnd<P::End>>
    requires new { P.is_new partner.old }
    requires waits { 0 < idle_turns }
    ensures ready { IfOk result (λ talking. P.is_ready partner.new × IsBelowLimits talking.waiting) }
    ensures begins { BeginsTalk (TakenFor P.asked (P.asked partner.old) P.has_taken)
        (EndedFor P.asked (P.asked partner.old) P.has_ended) (bounds_of idle_turns)
        (L.seen link.old) (L.seen link.new) partner.new result }
    ensures reads { (L.seen link.new).source.faults ≡ (L.seen link.old).source.faults }
    ensures writes { CountsFailure (is_write_fault (reason_of result)) (L.seen link.old).sink.faults
        (L.seen link.new).sink.faults }
    ensures no_read { is_read_fault (reason_of result) ≡ false }
{
    let mut talking = Talking {
        waiting: Waiting::new(idle_turns),
        words: Vec::new(alloc),
    };
    let Ok(()) = partner.start(&mut talking.words) else {
        return Err(TalkEnd::Memory);
    };
    match put_whole(link, &talking.words) {
        Ok(()) => Ok(talking),
        Err(SinkFailed::Failed) => Err(TalkEnd::WriteFault),
        Err(SinkFailed::Memory) => Err(TalkEnd::Memory),
    }
}

/// Tells a partner the turns of a link, and puts what it says: its first words, and then what it
/// says to each turn, before the next one is taken and before a limit ends the talk. The limits are
/// so many Idle turns in a row, and `MOST_BYTES` bytes. Behind the end the link is hung up.
pub fn talk<L: Link, P: Partner>(
    alloc: Global,
    link: &mut L,
    partner: &mut P,
    idle_turns: u64,
) -> TalkEnd<P::End>
    requires new { P.is_new partner.old }
    requires waits { 0 < idle_turns }
    ensures talked { EndsTalk (TakenFor P.asked (P.asked partner.old) P.has_taken)
        (EndedFor P.asked (P.asked partner.old) P.has_ended) (bounds_of idle_turns)
        (L.seen link.old) (L.seen link.new) partner.new result }

    // A failure is the end exactly where it was counted, and is counted once.
    ensures reads { CountsFailure (is_read_fault (Some result)) (L.seen link.old).source.faults
        (L.seen link.new).source.faults }
    ensures writes { CountsFailure (is_write_fault (Some result)) (L.seen link.old).sink.faults
        (L.seen link.new).sink.faults }
{
    let end = match begin(alloc, link, partner, idle_turns) {
        Ok(talking) => talking.run(partner, link),
        Err(end) => end,
    };
    link.hang_up();
    end
}
