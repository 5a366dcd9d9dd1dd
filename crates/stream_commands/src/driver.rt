//! The one loop over a stream: it takes turn after turn, tells the command the bytes, and puts what
//! it says.

ghost use Rattle.std.specs.Prelude.{◌≡◌, ◌≤◌, ◌<◌, ◌+◌, ◌^◌, ℕ, List, [], ◌∷◌, ◌++◌, Option, Some, None, length, map, IfNone, IfOk, Bool, false};
ghost use Rattle.pool_io.specs.declared.turn.Turn.{Turn};
ghost use Rattle.pool_io.specs.Outside.{CountsFailure};
ghost use Rattle.pool_io.specs.Steps.{ReadStep, steps_of};
ghost use Rattle.stream_commands.specs.Between.{IsBelowLimits, HasAnswered, EndsAt, GoesOnOrEnds, IsInRun, TurnsOnOrEnds, turns_left};
ghost use Rattle.stream_commands.specs.Ending.{EndsCommand, DecideEnd, is_read_fault, is_write_fault};

use crate::tally::Tally;
use crate::{End, IDLE_TURNS, Stop, StreamCommand, put_all};
use pool_io::{MOST_BYTES, PIECE_LEN, Sink, SinkFailed, Source, Took};
use std::alloc::{AllocError, Global};

/// A command between two turns of its source.
#[derive(Drop)]
struct Reading<C: StreamCommand> {
    command: C,
    tally: Tally,
    /// What the command says to one piece.
    text: Vec<u8>,
}

impl<C: StreamCommand> Reading<C> {
    fn start(alloc: Global, task: &C::Task) -> Result<Reading<C>, AllocError>
        requires { C.can_run task.now }
        ensures asked { IfOk result (λ reading. C.asked reading.command ≡ task.now) }
        ensures ready { IfOk result (λ reading. C.is_ready reading.command) }
        ensures below { IfOk result (λ reading. IsBelowLimits reading.tally) }
        ensures answered { IfOk result (λ reading. (before : Option (List ℕ))
            → HasAnswered (C.has_read reading.command) reading.tally before before []) }
    {
        Ok(Reading {
            command: C::start(alloc, task)?,
            tally: Tally { taken: 0, idles: 0 },
            text: Vec::new(alloc),
        })
    }

    /// Reads the bytes that came, and puts what the command says to them.
    fn piece<T: Sink>(&mut self, piece: &[u8], sink: &mut T) -> Option<End>
        requires ready { C.is_ready self.old.command }
        requires below { IsBelowLimits self.old.tally }
        requires some { 0 < length piece.now }
        requires room { self.old.tally.taken + length piece.now ≤ 2 ^ 40 }
        requires short { length piece.now ≤ PIECE_LEN }
        ensures asked { C.asked self.new.command ≡ C.asked self.old.command }
        ensures ready { IfNone result (C.is_ready self.new.command) }
        ensures below { IfNone result (IsBelowLimits self.new.tally) }
        ensures nearer { IfNone result (turns_left self.new.tally < turns_left self.old.tally) }
        ensures goes { (before : Option (List ℕ)) (steps : List ReadStep)
            → HasAnswered (C.has_read self.old.command) self.old.tally before (T.seen sink.old).held
            steps
            → GoesOnOrEnds (C.duty (C.asked self.old.command)) (C.has_read self.new.command)
            self.new.tally before (T.seen sink.new).held (steps ++ map Some piece.now) result }
        ensures reads { is_read_fault result ≡ false }
        ensures writes { CountsFailure (is_write_fault result) (T.seen sink.old).faults
            (T.seen sink.new).faults }
    {
        self.text.clear();
        let refused = match self.command.read(piece, &mut self.text) {
            Ok(()) => false,
            Err(Stop::Refused) => true,
            Err(Stop::Memory) => return Some(End::Memory),
        };
        match put_all(sink, &self.text) {
            Ok(()) => {}
            Err(SinkFailed::Failed) => return Some(End::WriteFault),
            Err(SinkFailed::Memory) => return Some(End::Memory),
        }
        if refused {
            return Some(End::Refused);
        }
        self.tally.taken += piece.len() as u64;
        self.tally.idles = 0;
        if self.tally.taken == MOST_BYTES {
            Some(End::BytesOut)
        } else {
            None
        }
    }

    /// Counts one Idle answer more.
    fn idle(&mut self) -> Option<End>
        requires { IsBelowLimits self.old.tally }
        ensures same { self.new.command ≡ self.old.command }
        ensures below { IfNone result (IsBelowLimits self.new.tally) }
        ensures nearer { IfNone result (turns_left self.new.tally < turns_left self.old.tally) }
        ensures goes { (before now : Option (List ℕ)) (steps : List ReadStep)
            → HasAnswered (C.has_read self.old.command) self.old.tally before now steps
            → GoesOnOrEnds (C.duty (C.asked self.old.command)) (C.has_read self.old.command)
            self.new.tally before now (steps ++ None ∷ []) result }
        ensures no_fault { (is_read_fault result ≡ false) × (is_write_fault result ≡ false) }
    {
        self.tally.idles += 1;
        if self.tally.idles == IDLE_TURNS {
            Some(End::IdleOut)
        } else {
            None
        }
    }

    /// Puts what the command says at the end of the input.
    fn finish<T: Sink>(&mut self, sink: &mut T) -> End
        requires { C.is_ready self.old.command }
        ensures asked { C.asked self.new.command ≡ C.asked self.old.command }
        ensures ends { (before : Option (List ℕ)) (steps : List ReadStep)
            → HasAnswered (C.has_read self.old.command) self.old.tally before (T.seen sink.old).held
            steps
            → EndsAt (C.duty (C.asked self.old.command)) before (T.seen sink.new).held steps result }
        ensures reads { is_read_fault (Some result) ≡ false }
        ensures writes { CountsFailure (is_write_fault (Some result)) (T.seen sink.old).faults
            (T.seen sink.new).faults }
    {
        self.text.clear();
        let end = match self.command.end(&mut self.text) {
            Ok(()) => End::Done,
            Err(Stop::Refused) => End::Refused,
            Err(Stop::Memory) => return End::Memory,
        };
        match put_all(sink, &self.text) {
            Ok(()) => end,
            Err(SinkFailed::Failed) => End::WriteFault,
            Err(SinkFailed::Memory) => End::Memory,
        }
    }

    /// Takes one turn of the source.
    fn turn<S: Source, T: Sink>(
        &mut self,
        source: &mut S,
        sink: &mut T,
        buffer: &mut [u8],
    ) -> Option<End>
        requires ready { C.is_ready self.old.command }
        requires below { IsBelowLimits self.old.tally }
        requires room { (0 < length buffer.old) × (length buffer.old ≤ PIECE_LEN) }
        ensures asked { C.asked self.new.command ≡ C.asked self.old.command }
        ensures ready { IfNone result (C.is_ready self.new.command) }
        ensures below { IfNone result (IsBelowLimits self.new.tally) }
        ensures nearer { IfNone result (turns_left self.new.tally < turns_left self.old.tally) }
        ensures goes { (turns : Option (List Turn)) (before : Option (List ℕ))
            → IsInRun (C.has_read self.old.command) self.old.tally turns (S.seen source.old).left before
            (T.seen sink.old).held
            → TurnsOnOrEnds (C.duty (C.asked self.old.command)) (C.has_read self.new.command)
            self.new.tally turns (S.seen source.new).left before (T.seen sink.new).held result }
        ensures reads { CountsFailure (is_read_fault result) (S.seen source.old).faults
            (S.seen source.new).faults }
        ensures writes { CountsFailure (is_write_fault result) (T.seen sink.old).faults
            (T.seen sink.new).faults }
    {
        let room = buffer.len().min((MOST_BYTES - self.tally.taken) as usize);
        match source.take(&mut buffer[..room]) {
            Took::Bytes(count) => self.piece(&buffer[..count], sink),
            Took::Idle => self.idle(),
            Took::End => Some(self.finish(sink)),
            Took::Failed => Some(End::ReadFault),
        }
    }
}

/// Drives a command from a source to a sink, to the end of the input, a limit, a refusal or a
/// fault. At most `PIECE_LEN` bytes are taken at once, and what the command says to them is put
/// before more is taken.
pub fn drive<C: StreamCommand, S: Source, T: Sink>(
    alloc: Global,
    task: &C::Task,
    source: &mut S,
    sink: &mut T,
) -> End
    requires { C.can_run task.now }

    // What each end says of the input and of what was put.
    ensures ran { EndsCommand (C.duty task.now) (S.seen source.old).left (S.seen source.new).left
        (T.seen sink.old).held (T.seen sink.new).held result }

    // The steps that the source tells decide the end, but for a fault or lack of memory.
    ensures decided { (told : List Turn) → (S.seen source.old).left ≡ Some told
        → DecideEnd (C.duty task.now) (steps_of told) result }

    // A failure is the end exactly where it was counted, and is counted once.
    ensures reads { CountsFailure (is_read_fault (Some result)) (S.seen source.old).faults
        (S.seen source.new).faults }
    ensures writes { CountsFailure (is_write_fault (Some result)) (T.seen sink.old).faults
        (T.seen sink.new).faults }
{
    let Ok(mut reading) = Reading::<C>::start(alloc, task) else {
        return End::Memory;
    };
    let mut buffer = [0; PIECE_LEN];
    loop {
        if let Some(end) = reading.turn(source, sink, &mut buffer) {
            return end;
        }
    }
}
