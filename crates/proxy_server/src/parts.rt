//! What one thread has in hand, and its work.

ghost use Rattle.std.specs.Prelude.{◌≡◌, ◌<◌};
ghost use Rattle.proxy_server.specs.Parts.{IsAttended, seeing_of, service_of};

use crate::{ProxyCaller, UpstreamEnd, serve_upstream_link, work};
use desk::{Desk, Pass, Tending};
use door_threads::{ThreadPart, ThreadTask};
use pool_io::Limits;
use pool_network::Door;
use proxy_core::Proxy;
use std::alloc::Global;
use std::sync::Wait;

/// What all threads share: how long a peer is waited for.
#[derive(Drop)]
pub(crate) struct Attending {
    pub(crate) alloc: Global,
    pub(crate) limits: Limits,
}

impl<D: Door> Tending<Proxy, ThreadPart<D, D::L>> for Attending {
    ghost use Rattle.std.specs.Prelude.{◌<◌};
    ghost use Rattle.proxy_server.specs.Parts.{IsAttended, seeing_of, service_of};

    ghost ready = { λ work. (0 < work.limits.idle_turns) × (0 < work.limits.door_turns) };

    ghost tends = { λ work. IsAttended (seeing_of D.seen D.L.seen (service_of work.limits)) };

    fn tend<R: Wait>(
        &self,
        rt: &R,
        desk: &Desk<Proxy>,
        part: &mut ThreadPart<D, D::L>,
        pass: &mut Pass<Proxy>,
    ) {
        attend(rt, self.alloc, desk, self.limits, part, pass)
    }
}

/// Does a part's task to its end, by calls of a pass.
fn attend<R: Wait, D: Door>(
    rt: &R,
    alloc: Global,
    desk: &Desk<Proxy>,
    limits: Limits,
    part: &mut ThreadPart<D, D::L>,
    pass: &mut Pass<Proxy>,
)
    requires desk { pass.old.table ≡ desk.now.table }
    requires waits { (0 < limits.idle_turns) × (0 < limits.door_turns) }
    ensures { IsAttended (seeing_of D.seen D.L.seen (service_of limits))
        (part.old, pass.old) (part.new, pass.new) }
{
    let ThreadPart { task, faults: _ } = part;
    let mut caller = ProxyCaller { rt, desk, pass };
    match task {
        ThreadTask::Link(link, end) => {
            let served = serve_upstream_link(alloc, &mut caller, link, limits.idle_turns);
            let UpstreamEnd {
                end: ended,
                phase: _,
            } = served;
            *end = Some(ended);
        }
        ThreadTask::Door(door, end) => {
            let ended = work(
                alloc,
                &mut caller,
                door,
                limits.idle_turns,
                limits.door_turns,
            );
            *end = Some(ended);
        }
    }
    let ProxyCaller {
        rt: _,
        desk: _,
        pass: _,
    } = caller;
}
