//! The worker at a door, who serves each caller as a miner by calls of one pass.

ghost use Rattle.std.specs.Prelude.{◌≡◌, ◌<◌};
ghost use Rattle.proxy_server.specs.Shifts.{IsMinersShift};

use crate::caller::ProxyCaller;
use crate::workers::serve_miner_link;
use door_threads::{DoorEnd, LinkServer};
use pool_network::{Door, Link};
use std::alloc::Global;
use std::sync::Wait;

/// Who serves callers, each as a miner: a pass at its desk, and how long a miner is waited for.
struct MinerServer<'w, 'a, R: Wait> {
    alloc: Global,
    caller: &'w mut ProxyCaller<'a, R>,
    idle_turns: u64,
}

impl<R: Wait> LinkServer for MinerServer<'_, '_, R> {
    ghost use Rattle.proxy_server.specs.Shifts.{ServesMinerAt, serving_at};

    ghost ready = { λ server. (server.caller.now.pass.now.table ≡ server.caller.now.desk.now.table)
        × (0 < server.idle_turns) };

    ghost serves = { λ old before after new. (new.caller.ghost_name ≡ old.caller.ghost_name)
        × (new.caller.now.pass.ghost_name ≡ old.caller.now.pass.ghost_name)
        × ServesMinerAt (serving_at old.idle_turns old.caller.now.pass.now) before after
        (serving_at new.idle_turns new.caller.now.pass.now) };

    fn serve<L: Link>(&mut self, link: &mut L) {
        serve_miner_link(self.alloc, self.caller, link, self.idle_turns);
    }
}

impl<R: Wait> MinerServer<'_, '_, R> {
    ghost use Rattle.proxy_server.specs.Shifts.{IsMinersShift};

    /// Serves those who call at a door, up to an end.
    fn serve_door<D: Door>(&mut self, rt: &R, door: &mut D, door_turns: u64) -> DoorEnd
        requires desk { self.old.caller.now.pass.now.table ≡ self.old.caller.now.desk.now.table }
        requires waits { (0 < self.old.idle_turns) × (0 < door_turns) }
        ensures same { self.new.caller.ghost_name ≡ self.old.caller.ghost_name }
        ensures pass { self.new.caller.now.pass.ghost_name
            ≡ self.old.caller.now.pass.ghost_name }
        ensures desk { self.new.caller.now.pass.now.table ≡ self.new.caller.now.desk.now.table }
        ensures worked { IsMinersShift self.old.idle_turns door_turns (D.seen door.old)
            (D.seen door.new) self.old.caller.now.pass.now self.new.caller.now.pass.now result }
    {
        door_threads::work(rt, self, door, door_turns)
    }
}

/// Serves those who call at a door as miners, one after the other, until the door says that it is closed
/// or failed, memory is wanting, or nobody came for too many answers in a row.
pub fn work<R: Wait, D: Door>(
    alloc: Global,
    caller: &mut ProxyCaller<'_, R>,
    door: &mut D,
    idle_turns: u64,
    door_turns: u64,
) -> DoorEnd
    requires desk { caller.old.pass.now.table ≡ caller.old.desk.now.table }
    requires waits { (0 < idle_turns) × (0 < door_turns) }
    ensures desk { caller.new.pass.now.table ≡ caller.new.desk.now.table }
    ensures pass { caller.new.pass.ghost_name ≡ caller.old.pass.ghost_name }
    ensures worked { IsMinersShift idle_turns door_turns (D.seen door.old) (D.seen door.new)
        caller.old.pass.now caller.new.pass.now result }
{
    let rt = caller.rt;
    let mut server = MinerServer {
        alloc,
        caller,
        idle_turns,
    };
    let end = server.serve_door(rt, door, door_turns);
    let MinerServer {
        alloc: _,
        caller: _,
        idle_turns: _,
    } = server;
    end
}
