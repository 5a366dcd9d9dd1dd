//! One session of lines.

ghost use Rattle.std.specs.Prelude.{◌≡◌, ◌<◌, ◌≤◌};
ghost use Rattle.pool_io.specs.Outside.{CountsFailure};
ghost use Rattle.v2_sessions.specs.Causes.{is_read_end, is_write_end};
ghost use Rattle.v1_sessions.specs.Running.{IsRestOfLines};
ghost use Rattle.v1_sessions.specs.States.{begun_lines};

use crate::conversation::LineConversation;
use line_turns::{LineTalker, hear_lines};
use link_turns::Waiting;
use pool_network::Link;
use session_steps::Manner;
use std::alloc::Global;
use v1_translate::V1Terms;
use v2_sessions::{Acting, SessionEnd, leave};

/// Who hears the lines of a session: what it knows, and who answers its requests.
struct LineSession<'t, 'c, 'a, A: Acting> {
    terms: &'t V1Terms,
    conversation: &'c mut LineConversation,
    acting: &'a mut A,
}

impl<A: Acting> LineTalker for LineSession<'_, '_, '_, A> {
    ghost use Rattle.v1_sessions.specs.Moments.{EndsSo, GoesOnSo, moment_at};
    ghost use Rattle.v1_sessions.specs.SessionLaws.{lines_are_heard};

    ghost ready = { λ session. A.ready session.acting.now };

    ghost goes_on = { λ old new.
        (new.talker.acting.ghost_name ≡ old.talker.acting.ghost_name) × GoesOnSo A.worker A.does
        (moment_at old.intake old.talker.terms.now old.talker.conversation.now old.talker.acting.now old.link)
        (moment_at new.intake new.talker.terms.now new.talker.conversation.now new.talker.acting.now new.link) };

    ghost ends = { λ old reason new.
        (new.talker.acting.ghost_name ≡ old.talker.acting.ghost_name) × EndsSo A.worker A.does
        (moment_at old.intake old.talker.terms.now old.talker.conversation.now old.talker.acting.now old.link)
        reason
        (moment_at new.intake new.talker.terms.now new.talker.conversation.now new.talker.acting.now new.link) };

    fn line<L: Link>(&mut self, line: &[u8], link: &mut L) -> Result<(), SessionEnd> {
        self.conversation
            .hear_line(self.terms, line, link, self.acting)
    }

    fn idle<L: Link>(&mut self, link: &mut L) -> Result<(), SessionEnd> {
        self.conversation.news(self.terms, link, self.acting)
    }

    ghost hears_lines = { lines_are_heard A.worker A.does (λ session. session.terms.now)
        (λ session. session.conversation.now) (λ session. session.acting.now)
        (λ session. session.acting.ghost_name) };
}

impl<A: Acting> LineSession<'_, '_, '_, A> {
    ghost use Rattle.line_turns.specs.Hearing.{intake_at};
    ghost use Rattle.v1_sessions.specs.Moments.{IsServed, moment_at};

    /// Hears the lines of a link, up to an end, and leaves.
    fn serve<L: Link>(
        &mut self,
        alloc: Global,
        link: &mut L,
        waiting: Waiting,
        piece: &[u8],
    ) -> SessionEnd
        requires ready { A.ready self.old.acting.now }
        requires waits { 0 < waiting.idles }
        requires most { waiting.idles ≤ waiting.idle_turns }
        ensures ready { A.ready self.new.acting.now }
        ensures same { self.new.acting.ghost_name ≡ self.old.acting.ghost_name }
        ensures served { IsServed A.worker A.does
            (moment_at (intake_at waiting piece.now) self.old.terms.now self.old.conversation.now
            self.old.acting.now (L.seen link.old))
            result self.new.acting.now (L.seen link.new) }
    {
        let end = hear_lines(alloc, link, self, waiting, piece);
        leave(self.conversation.entered, end, self.acting)
    }
}

/// Serves a session of lines to which these bytes came first, up to its end, and leaves. So much is
/// still waited for behind them.
pub fn serve_lines<L: Link, A: Acting>(
    alloc: Global,
    link: &mut L,
    acting: &mut A,
    terms: &V1Terms,
    manner: Manner,
    waiting: Waiting,
    piece: &[u8],
) -> SessionEnd
    requires ready { A.ready acting.old }
    requires waits { 0 < waiting.idles }
    requires most { waiting.idles ≤ waiting.idle_turns }
    ensures ready { A.ready acting.new }
    ensures rest { IsRestOfLines A.worker A.does terms.now (begun_lines manner waiting piece.now)
        (L.seen link.old) (L.seen link.new) acting.old acting.new result }

    // A failure is the end exactly where it was counted, and is counted once.
    ensures reads { CountsFailure (is_read_end result) (L.seen link.old).source.faults
        (L.seen link.new).source.faults }
    ensures writes { CountsFailure (is_write_end result) (L.seen link.old).sink.faults
        (L.seen link.new).sink.faults }
{
    let mut conversation = LineConversation::new(alloc, manner);
    let mut session = LineSession {
        terms,
        conversation: &mut conversation,
        acting,
    };
    let end = session.serve(alloc, link, waiting, piece);
    let LineSession {
        terms: _,
        conversation: _,
        acting: _,
    } = session;
    end
}
