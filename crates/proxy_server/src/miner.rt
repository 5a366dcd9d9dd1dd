//! A miner's lines.

ghost use Rattle.std.specs.Prelude.{◌≡◌, ◌∷◌, ◌++◌, ℕ, List, false};
ghost use Rattle.v1_lines.specs.Lines.{IsLineText};
ghost use Rattle.link_hearing.specs.Hearing.{end_of};
ghost use Rattle.proxy_server.specs.Links.{LeadsOn, Lines, link_at};

use crate::asking::ProxyAsking;
use crate::news::tell_news;
use link_hearing::TurnHearer;
use pool_network::Link;
use proxy_rules::ProxyRequest;
use session_steps::SessionEnd;
use std::alloc::Global;
use sv2_types::Blob;
use v1_lines::{LineReader, LineTooLong};
use v2_sessions::input_end;

/// Asks for a line, and puts what is new then.
fn tell_line<L: Link, A: ProxyAsking>(
    alloc: Global,
    asking: &mut A,
    line: &[u8],
    cursor: &mut u64,
    link: &mut L,
) -> Result<(), SessionEnd>
    requires ready { A.ready asking.old }
    requires text { IsLineText line.now }
    ensures ready { A.ready asking.new }
    ensures source { (L.seen link.new).source ≡ (L.seen link.old).source }
    ensures leads { (rest : List ℕ) → LeadsOn Lines A.does
        (link_at (line.now ++ 10 ∷ rest) cursor.old false) asking.old (L.seen link.old).sink
        (end_of result) (link_at rest cursor.new false) asking.new (L.seen link.new).sink }
{
    let Ok(line) = Blob::of(alloc, line) else {
        return Err(SessionEnd::Memory);
    };
    let asked = asking.ask(ProxyRequest::Line(line));
    let Ok(_reply) = asked else {
        return Err(SessionEnd::Memory);
    };
    tell_news(asking, cursor, link)
}

/// Who hears a miner's link: whom it asks, what came of a line, and up to which place the miner's
/// output was put.
pub(crate) struct MinerLink<'a, A: ProxyAsking> {
    pub(crate) alloc: Global,
    pub(crate) asking: &'a mut A,
    pub(crate) reader: LineReader,
    pub(crate) cursor: u64,
}

impl<A: ProxyAsking> MinerLink<'_, A> {
    ghost use Rattle.std.specs.Prelude.{OnOk, length};
    ghost use Rattle.proxy_server.specs.Links.{LeadsOn, Lines, link_at};

    /// Tells the line that is held, if it is whole.
    fn line<L: Link>(&mut self, link: &mut L) -> Result<(), SessionEnd>
        requires ready { A.ready self.old.asking.now }
        ensures ready { A.ready self.new.asking.now }
        ensures same { self.new.asking.ghost_name ≡ self.old.asking.ghost_name }
        ensures source { (L.seen link.new).source ≡ (L.seen link.old).source }
        ensures text { OnOk result (IsLineText self.new.reader) }
        ensures leads { (rest : List ℕ) → LeadsOn Lines A.does
            (link_at (self.old.reader ++ rest) self.old.cursor false) self.old.asking.now
            (L.seen link.old).sink (end_of result)
            (link_at (self.new.reader ++ rest) self.new.cursor false) self.new.asking.now
            (L.seen link.new).sink }
    {
        match self.reader.next() {
            Err(LineTooLong) => Err(SessionEnd::LineTooLong),
            Ok(None) => Ok(()),
            Ok(Some(line)) => {
                tell_line(self.alloc, self.asking, line, &mut self.cursor, link)?;
                self.reader.drop_line();
                Ok(())
            }
        }
    }

    /// Tells the lines of bytes that came, one after the other.
    fn lines<L: Link>(&mut self, piece: &[u8], link: &mut L) -> Result<(), SessionEnd>
        requires ready { A.ready self.old.asking.now }
        requires text { IsLineText self.old.reader }
        ensures ready { A.ready self.new.asking.now }
        ensures same { self.new.asking.ghost_name ≡ self.old.asking.ghost_name }
        ensures source { (L.seen link.new).source ≡ (L.seen link.old).source }
        ensures text { OnOk result (IsLineText self.new.reader) }
        ensures leads { LeadsOn Lines A.does
            (link_at (self.old.reader ++ piece.now) self.old.cursor false) self.old.asking.now
            (L.seen link.old).sink (end_of result)
            (link_at self.new.reader self.new.cursor false) self.new.asking.now
            (L.seen link.new).sink }
    {
        let mut rest = piece;
        while !rest.is_empty() {
            let count = self.reader.feed(rest);
            rest = &rest[count..];
            self.line(link)?;
        }
        Ok(())
    }
}

impl<A: ProxyAsking> TurnHearer for MinerLink<'_, A> {
    ghost use Rattle.std.specs.Prelude.{◌≡◌};
    ghost use Rattle.v1_lines.specs.Lines.{IsLineText};
    ghost use Rattle.proxy_server.specs.Serving.{HearsMiner, stand_at};

    ghost sound = { λ miner. A.ready miner.asking.now };

    ghost ready = { λ miner. IsLineText miner.reader };

    ghost hears = { λ old sink told over new sink_after. (new.asking.ghost_name ≡ old.asking.ghost_name)
        × HearsMiner A.does (stand_at old.reader old.cursor old.asking.now) sink told over
        (stand_at new.reader new.cursor new.asking.now) sink_after };

    fn piece<L: Link>(&mut self, piece: &[u8], link: &mut L) -> Result<(), SessionEnd> {
        self.lines(piece, link)
    }

    fn idle<L: Link>(&mut self, link: &mut L) -> Result<(), SessionEnd> {
        tell_news(self.asking, &mut self.cursor, link)
    }

    fn input_end(&mut self) -> SessionEnd {
        input_end(self.reader.held())
    }
}
