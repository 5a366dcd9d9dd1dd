//! The session, from its greeting to its leaving.

ghost use Rattle.std.specs.Prelude.{◌≡◌, ◌<◌, ℕ, List, Some};
ghost use Rattle.pool_io.specs.declared.turn.Turn.{Turn};
ghost use Rattle.pool_io.specs.Outside.{CountsFailure};
ghost use Rattle.v2_sessions.specs.Causes.{is_read_end, is_write_end};
ghost use Rattle.v2_sessions.specs.Good.{IsGoodEnd};
ghost use Rattle.pool_sessions.specs.Courses.{IsGoodSpeech, IsServed};
ghost use Rattle.pool_sessions.specs.Courses as courses;

use pool_history::Role;
use pool_io::PIECE_LEN;
use pool_network::Link;
use session_steps::Manner;
use std::alloc::Global;
use v1_sessions::serve_lines;
use v1_translate::V1Terms;
use v2_sessions::{Acting, SessionEnd, begin, go_on};

/// Whether a session of this role, to which these bytes came first, is one of lines.
fn speaks_lines(role: Role, piece: &[u8]) -> bool
    ensures { result ≡ courses.speaks_lines role piece.now }
{
    match role {
        Role::Miner => piece.first() == Some(&b'{'),
        Role::Feed | Role::Solo => false,
    }
}

/// Serves one session over a link, up to its end, and leaves: one of lines where a miner's first byte
/// is `{`, and else one of frames.
pub fn serve_session<L: Link, A: Acting>(
    alloc: Global,
    link: &mut L,
    acting: &mut A,
    manner: Manner,
    terms: &V1Terms,
) -> SessionEnd
    requires ready { A.ready acting.old }
    requires waits { 0 < manner.idle_turns }
    ensures ready { A.ready acting.new }
    ensures session { IsServed A.worker A.does terms.now manner (L.seen link.old) (L.seen link.new)
        acting.old acting.new result }

    // A failure is the end exactly where it was counted, and is counted once.
    ensures reads { CountsFailure (is_read_end result) (L.seen link.old).source.faults
        (L.seen link.new).source.faults }
    ensures writes { CountsFailure (is_write_end result) (L.seen link.old).sink.faults
        (L.seen link.new).sink.faults }

    // Input that is to blame for nothing isn't blamed.
    ensures good { (told : List Turn) → (L.seen link.old).source.left ≡ Some told
        → IsGoodSpeech manner told → IsGoodEnd result }
{
    let mut buffer = [0; PIECE_LEN];
    let first = match begin(alloc, link, manner, &mut buffer) {
        Ok(first) => first,
        Err(end) => return end,
    };
    let piece = &buffer[..first.count];
    if speaks_lines(manner.role, piece) {
        serve_lines(alloc, link, acting, terms, manner, first.waiting, piece)
    } else {
        go_on(alloc, link, acting, manner, first.waiting, piece)
    }
}
