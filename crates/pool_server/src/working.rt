//! The worker at a door, who serves each caller by calls of one pass.

ghost use Rattle.std.specs.Prelude.{◌≡◌, ◌<◌};
ghost use Rattle.pool_server.specs.Shifts.{IsWorked};

use crate::{DeskWorker, serve_link};
use door_threads::{DoorEnd, LinkServer};
use pool_io::Keeper;
use pool_network::{Door, Link};
use session_steps::Manner;
use std::alloc::Global;
use std::sync::Wait;
use v1_translate::V1Terms;

/// Who serves callers, each by one session: a pass at its desk, and how the sessions are held.
struct SessionServer<'w, 'a, 't, R: Wait, K: Keeper> {
    alloc: Global,
    asker: &'w mut DeskWorker<'a, R, K>,
    manner: Manner,
    terms: &'t V1Terms,
}

impl<R: Wait, K: Keeper> LinkServer for SessionServer<'_, '_, '_, R, K> {
    ghost use Rattle.pool_server.specs.Shifts.{ServesCaller, serving_of};

    ghost ready = { λ server. (server.asker.now.pass.now.table ≡ server.asker.now.desk.now.table)
        × (0 < server.manner.idle_turns) };

    ghost serves = { λ old before after new. (new.asker.ghost_name ≡ old.asker.ghost_name)
        × (new.asker.now.pass.ghost_name ≡ old.asker.now.pass.ghost_name)
        × ServesCaller
        (serving_of old.terms.now old.manner old.asker.now.pass.now old.asker.now.faults) before after
        (serving_of new.terms.now new.manner new.asker.now.pass.now new.asker.now.faults) };

    fn serve<L: Link>(&mut self, link: &mut L) {
        serve_link(self.alloc, self.asker, link, self.manner, self.terms);
    }
}

impl<R: Wait, K: Keeper> SessionServer<'_, '_, '_, R, K> {
    ghost use Rattle.pool_server.specs.Shifts.{IsWorked};

    /// Serves those who call at a door, up to an end.
    fn serve_door<D: Door>(&mut self, rt: &R, door: &mut D, door_turns: u64) -> DoorEnd
        requires desk { self.old.asker.now.pass.now.table ≡ self.old.asker.now.desk.now.table }
        requires waits { (0 < self.old.manner.idle_turns) × (0 < door_turns) }
        ensures same { self.new.asker.ghost_name ≡ self.old.asker.ghost_name }
        ensures pass { self.new.asker.now.pass.ghost_name ≡ self.old.asker.now.pass.ghost_name }
        ensures desk { self.new.asker.now.pass.now.table ≡ self.new.asker.now.desk.now.table }
        ensures worked { IsWorked self.old.terms.now self.old.manner door_turns (D.seen door.old)
            (D.seen door.new)
            (record { pass = self.old.asker.now.pass.now; faults = self.old.asker.now.faults })
            (record { pass = self.new.asker.now.pass.now; faults = self.new.asker.now.faults })
            result }
    {
        door_threads::work(rt, self, door, door_turns)
    }
}

/// Serves those who call at a door, one after the other, until the door says that it is closed or
/// failed, memory is wanting, or nobody came for too many answers in a row.
pub fn work<R: Wait, K: Keeper, D: Door>(
    alloc: Global,
    asker: &mut DeskWorker<'_, R, K>,
    door: &mut D,
    manner: Manner,
    terms: &V1Terms,
    door_turns: u64,
) -> DoorEnd
    requires desk { asker.old.pass.now.table ≡ asker.old.desk.now.table }
    requires waits { (0 < manner.idle_turns) × (0 < door_turns) }
    ensures desk { asker.new.pass.now.table ≡ asker.new.desk.now.table }
    ensures pass { asker.new.pass.ghost_name ≡ asker.old.pass.ghost_name }
    ensures worked { IsWorked terms.now manner door_turns (D.seen door.old) (D.seen door.new)
        (record { pass = asker.old.pass.now; faults = asker.old.faults })
        (record { pass = asker.new.pass.now; faults = asker.new.faults }) result }
{
    let rt = asker.rt;
    let mut server = SessionServer {
        alloc,
        asker,
        manner,
        terms,
    };
    let end = server.serve_door(rt, door, door_turns);
    let SessionServer {
        alloc: _,
        asker: _,
        manner: _,
        terms: _,
    } = server;
    end
}
