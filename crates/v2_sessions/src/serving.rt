//! One session.

ghost use Rattle.std.specs.Prelude.{◌≡◌, ◌<◌, ◌≤◌, ℕ, List, Some};
ghost use Rattle.pool_io.specs.declared.turn.Turn.{Turn};
ghost use Rattle.pool_io.specs.Outside.{CountsFailure};
ghost use Rattle.session_steps.specs.States.{Reading};
ghost use Rattle.v2_sessions.specs.Beginning.{IsRestOfSession, begun_state};
ghost use Rattle.v2_sessions.specs.Causes.{is_read_end, is_write_end};
ghost use Rattle.v2_sessions.specs.Good.{IsGoodEnd, IsGoodInput};
ghost use Rattle.v2_sessions.specs.Sessions.{IsSession};

use crate::SessionEnd;
use crate::acting::Acting;
use crate::beginning::begin;
use crate::conversation::Conversation;
use crate::ends::leave;
use crate::listening::Listener;
use link_turns::Waiting;
use pool_io::PIECE_LEN;
use pool_network::Link;
use session_steps::Manner;
use std::alloc::Global;

impl Conversation {
    ghost use Rattle.v2_sessions.specs.Sessions.{ReadsOn, Serves};
    ghost use Rattle.v2_sessions.specs.Standing.{HasMetAll, IsListening, intake_of, intake_with};

    /// Takes turn after turn, up to what ends the session.
    fn listen<L: Link, A: Acting>(
        &mut self,
        mut listener: Listener,
        link: &mut L,
        acting: &mut A,
    ) -> SessionEnd
        requires ready { A.ready acting.old }
        requires listening { IsListening self.old.session.declares listener }
        ensures ready { A.ready acting.new }
        ensures serves { Serves A.worker A.does Reading (intake_of listener) self.old self.new
            (L.seen link.old) (L.seen link.new) acting.old acting.new result }
    {
        let mut buffer = [0; PIECE_LEN];
        loop {
            if let Err(end) = listener.turn(self, &mut buffer, link, acting) {
                return end;
            }
        }
    }

    /// Meets the first bytes, and then takes turns.
    fn serve<L: Link, A: Acting>(
        &mut self,
        mut listener: Listener,
        piece: &[u8],
        link: &mut L,
        acting: &mut A,
    ) -> SessionEnd
        requires ready { A.ready acting.old }
        requires met { HasMetAll self.old.session.declares listener.splitter }
        requires waits { 0 < listener.waiting.idles }
        requires most { listener.waiting.idles ≤ listener.waiting.idle_turns }
        ensures ready { A.ready acting.new }
        ensures serves { Serves A.worker A.does Reading (intake_with piece.now listener) self.old
            self.new (L.seen link.old) (L.seen link.new) acting.old acting.new result }
    {
        match listener.piece(self, piece, link, acting) {
            Ok(()) => self.listen(listener, link, acting),
            Err(end) => end,
        }
    }
}

/// Serves a session to which these bytes came first, up to its end, and leaves. So much is still
/// waited for behind them.
pub fn go_on<L: Link, A: Acting>(
    alloc: Global,
    link: &mut L,
    acting: &mut A,
    manner: Manner,
    waiting: Waiting,
    piece: &[u8],
) -> SessionEnd
    requires ready { A.ready acting.old }
    requires waits { 0 < waiting.idles }
    requires most { waiting.idles ≤ waiting.idle_turns }
    ensures ready { A.ready acting.new }
    ensures rest { IsRestOfSession A.worker A.does (begun_state manner waiting piece.now)
        (L.seen link.old) (L.seen link.new) acting.old acting.new result }
{
    let Ok(listener) = Listener::new(alloc, manner.declares, waiting) else {
        return SessionEnd::Memory;
    };
    let mut conversation = Conversation::new(alloc, manner);
    let end = conversation.serve(listener, piece, link, acting);
    leave(conversation.entered, end, acting)
}

/// Serves one session over a link, up to its end, and leaves.
pub fn converse<L: Link, A: Acting>(
    alloc: Global,
    link: &mut L,
    acting: &mut A,
    manner: Manner,
) -> SessionEnd
    requires ready { A.ready acting.old }
    requires waits { 0 < manner.idle_turns }
    ensures ready { A.ready acting.new }
    ensures session { IsSession A.worker A.does manner (L.seen link.old) (L.seen link.new)
        acting.old acting.new result }

    // A failure is the end exactly where it was counted, and is counted once.
    ensures reads { CountsFailure (is_read_end result) (L.seen link.old).source.faults
        (L.seen link.new).source.faults }
    ensures writes { CountsFailure (is_write_end result) (L.seen link.old).sink.faults
        (L.seen link.new).sink.faults }

    // Input that is to blame for nothing isn't blamed.
    ensures good { (told : List Turn) → (L.seen link.old).source.left ≡ Some told
        → IsGoodInput manner told → IsGoodEnd result }
{
    let mut buffer = [0; PIECE_LEN];
    match begin(alloc, link, manner, &mut buffer) {
        Ok(first) => go_on(
            alloc,
            link,
            acting,
            manner,
            first.waiting,
            &buffer[..first.count],
        ),
        Err(end) => end,
    }
}
