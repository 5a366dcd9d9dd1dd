//! The turns of a link, cut into lines.

ghost use Rattle.std.specs.Prelude.{◌≡◌, ◌<◌, ◌≤◌, ◌++◌, length, OnOk};
ghost use Rattle.link_turns.specs.Waits.{turns_left};
ghost use Rattle.session_steps.specs.States as states;
ghost use Rattle.v1_lines.specs.Lines.{IsLineText};
ghost use Rattle.line_turns.specs.Hearing.{HearsToEnd, intake_at};

use crate::talker::LineTalker;
use link_turns::Waiting;
use pool_io::{PIECE_LEN, Took};
use pool_network::Link;
use session_steps::SessionEnd;
use std::alloc::Global;
use v1_lines::{LineReader, LineTooLong};
use v2_sessions::{input_end, keep_limits};

/// What came of a line that isn't whole, and what is still waited for.
#[derive(Drop)]
struct Lines {
    reader: LineReader,
    waiting: Waiting,
}

impl Lines {
    ghost use Rattle.line_turns.specs.Hearing.{HearsOn};
    ghost use Rattle.line_turns.specs.Listening.{HearsHeld, HearsIdleOf, IsListening, intake_of};

    /// Tells the line that is held, if it is whole.
    fn line<L: Link, T: LineTalker>(
        &mut self,
        talker: &mut T,
        link: &mut L,
    ) -> Result<(), SessionEnd>
        requires { T.ready talker.old }
        ensures ready { T.ready talker.new }
        ensures waiting { self.new.waiting ≡ self.old.waiting }
        ensures text { OnOk result (IsLineText self.new.reader) }
        ensures hears { HearsHeld T.goes_on T.ends self.old.reader self.new.reader talker.old
            (L.seen link.old) result talker.new (L.seen link.new) }
    {
        match self.reader.next() {
            Err(LineTooLong) => Err(SessionEnd::LineTooLong),
            Ok(None) => Ok(()),
            Ok(Some(line)) => {
                talker.line(line, link)?;
                self.reader.drop_line();
                Ok(())
            }
        }
    }

    /// Tells the lines of the bytes that came and were counted, one after the other.
    fn bytes<L: Link, T: LineTalker>(
        &mut self,
        talker: &mut T,
        piece: &[u8],
        link: &mut L,
    ) -> Result<(), SessionEnd>
        requires ready { T.ready talker.old }
        requires text { IsLineText self.old.reader }
        requires waits { 0 < self.old.waiting.idles }
        requires most { self.old.waiting.idles ≤ self.old.waiting.idle_turns }
        ensures ready { T.ready talker.new }
        ensures waiting { self.new.waiting ≡ self.old.waiting }
        ensures listening { OnOk result (IsListening self.new) }
        ensures hears { HearsOn T.goes_on T.ends
            (intake_at self.old.waiting (self.old.reader ++ piece.now)) (intake_of self.new)
            talker.old (L.seen link.old) result talker.new (L.seen link.new) }
    {
        let mut rest = piece;
        while !rest.is_empty() {
            let count = self.reader.feed(rest);
            rest = &rest[count..];
            self.line(talker, link)?;
        }
        keep_limits(&self.waiting)
    }

    /// Tells an Idle turn that was counted.
    fn idle<L: Link, T: LineTalker>(&self, talker: &mut T, link: &mut L) -> Result<(), SessionEnd>
        requires ready { T.ready talker.old }
        requires text { IsLineText self.now.reader }
        requires some { 0 < self.now.waiting.bytes }
        requires most { self.now.waiting.idles < self.now.waiting.idle_turns }
        ensures ready { T.ready talker.new }
        ensures listening { OnOk result (IsListening self.now) }
        ensures hears { HearsIdleOf T.goes_on T.ends self.now talker.old (L.seen link.old) result
            talker.new (L.seen link.new) }
    {
        talker.idle(link)?;
        keep_limits(&self.waiting)
    }

    /// No byte comes any more.
    fn end(&self) -> SessionEnd
        ensures { result ≡ states.input_end self.now.reader }
    {
        input_end(self.reader.held())
    }

    /// Takes one turn of the link.
    fn turn<L: Link, T: LineTalker>(
        &mut self,
        talker: &mut T,
        buffer: &mut [u8],
        link: &mut L,
    ) -> Result<(), SessionEnd>
        requires ready { T.ready talker.old }
        requires listening { IsListening self.old }
        requires room { length buffer.old ≡ PIECE_LEN }
        ensures ready { T.ready talker.new }
        ensures listening { OnOk result (IsListening self.new) }
        ensures nearer { OnOk result (turns_left self.new.waiting < turns_left self.old.waiting) }
        ensures hears { HearsOn T.goes_on T.ends (intake_of self.old) (intake_of self.new)
            talker.old (L.seen link.old) result talker.new (L.seen link.new) }
    {
        match self.waiting.take(link, buffer) {
            Took::Bytes(count) => self.bytes(talker, &buffer[..count], link),
            Took::Idle => self.idle(talker, link),
            Took::End => Err(self.end()),
            Took::Failed => Err(SessionEnd::ReadFault),
        }
    }

    /// Takes turn after turn, up to an end.
    fn listen<L: Link, T: LineTalker>(mut self, talker: &mut T, link: &mut L) -> SessionEnd
        requires ready { T.ready talker.old }
        requires listening { IsListening self }
        ensures ready { T.ready talker.new }
        ensures hears { HearsToEnd T.ends (intake_of self) talker.old (L.seen link.old) result
            talker.new (L.seen link.new) }
    {
        let mut buffer = [0; PIECE_LEN];
        loop {
            if let Err(end) = self.turn(talker, &mut buffer, link) {
                return end;
            }
        }
    }
}

/// Tells the lines of a link, one after the other: first those of bytes that came already, with so
/// much still waited for, and then those of each turn before the next one is taken.
pub fn hear_lines<L: Link, T: LineTalker>(
    alloc: Global,
    link: &mut L,
    talker: &mut T,
    waiting: Waiting,
    piece: &[u8],
) -> SessionEnd
    requires ready { T.ready talker.old }
    requires waits { 0 < waiting.idles }
    requires most { waiting.idles ≤ waiting.idle_turns }
    ensures ready { T.ready talker.new }
    ensures hears { HearsToEnd T.ends (intake_at waiting piece.now) talker.old (L.seen link.old)
        result talker.new (L.seen link.new) }
{
    let Ok(reader) = LineReader::new(alloc) else {
        return SessionEnd::Memory;
    };
    let mut lines = Lines { reader, waiting };
    match lines.bytes(talker, piece, link) {
        Ok(()) => lines.listen(talker, link),
        Err(end) => end,
    }
}
