//! The session, from its greeting to its leaving.

ghost use Rattle.std.specs.Prelude.{◌≡◌, ◌<◌, List, Some};
ghost use Rattle.pool_io.specs.declared.turn.Turn.{Turn};
ghost use Rattle.v2_sessions.specs.Good.{IsGoodEnd};
ghost use Rattle.pool_sessions.specs.Courses.{IsGoodSpeech};
ghost use Rattle.pool_server.specs.Visits.{ServesLink};

use crate::{DeskWorker, desk_calls_go_on};
use pool_io::Keeper;
use pool_network::Link;
use pool_sessions::serve_session;
use session_steps::Manner;
use std::alloc::Global;
use std::sync::Wait;
use v1_translate::V1Terms;
use v2_sessions::SessionEnd;

/// Serves one session over a link, in the language that its first byte tells, by calls of one pass at
/// its desk, up to its end, leaves, and hangs up.
pub fn serve_link<R: Wait, K: Keeper, L: Link>(
    alloc: Global,
    asker: &mut DeskWorker<'_, R, K>,
    link: &mut L,
    manner: Manner,
    terms: &V1Terms,
) -> SessionEnd
    requires desk { asker.old.pass.now.table ≡ asker.old.desk.now.table }
    requires waits { 0 < manner.idle_turns }
    ensures desk { asker.new.pass.now.table ≡ asker.new.desk.now.table }
    ensures pass { asker.new.pass.ghost_name ≡ asker.old.pass.ghost_name }
    ensures served { ServesLink terms.now manner (L.seen link.old) (L.seen link.new)
        (record { pass = asker.old.pass.now; faults = asker.old.faults })
        (record { pass = asker.new.pass.now; faults = asker.new.faults }) result }

    // Input that is to blame for nothing isn't blamed.
    ensures good { (told : List Turn) → (L.seen link.old).source.left ≡ Some told
        → IsGoodSpeech manner told → IsGoodEnd result }
{
    desk_calls_go_on();
    let end = serve_session(alloc, link, asker, manner, terms);
    link.hang_up();
    end
}
