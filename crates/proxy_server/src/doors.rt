//! All links of a proxy, from its desk's opening to its closing.

ghost use Rattle.std.specs.Prelude.{◌≡◌, ◌↔◌, ◌<◌, ◌+◌, ◌-◌, ◌≤◌, ◌^◌, [], IsTrue, List, vec_len};
ghost use Rattle.std.specs.Vec.{vec_capacity};
ghost use Rattle.desk.specs.Passes.{HasJustOpened};
ghost use Rattle.proxy_rules.specs.declared.events.ProxyEvent.{ProxyEvent as Brought};
ghost use Rattle.session_steps.specs.declared.ends.SessionEnd.TheVariants.{BadSetup};
ghost use Rattle.proxy_server.specs.Ending.{HasProxied, IsFinished};
ghost use Rattle.proxy_server.specs.Parts.{seeing_of, service_of};

use crate::parts::Attending;
use desk::{Desk, Pass, tend_all};
use door_threads::{Tended, ThreadPart, list, unlist};
use pool_io::Limits;
use pool_network::Door;
use proxy_core::Proxy;
use session_steps::SessionEnd;
use std::alloc::Global;
use std::sync::Wait;
use std::thread::Threads;

/// What is left of a proxy, its doors and its upstream's link.
pub enum Proxied<D: Door> {
    /// All were served.
    Ran {
        proxy: Proxy,
        /// The doors, in their order.
        doors: Vec<D>,
        up: D::L,
        up_end: SessionEnd,
        /// Whether no proxy could go on with the upstream.
        bad: bool,
        /// How many doors failed. It stays at 2^64 - 1 once it is there.
        door_faults: u64,
        /// How many doors had no memory for a caller, the same way.
        door_memory: u64,
    },
    /// There was no memory, and nothing was asked.
    Memory(Proxy, Vec<D>, D::L),
}

/// Serves the upstream's link and the miners at all doors at once, until the upstream's link is over and no
/// door is asked any more. Each door has a thread, and so has the upstream; where no thread can be made,
/// they are served one after the other.
pub fn serve_proxy<R: Threads + Wait + Sync, D: Door + Send>(
    rt: &R,
    alloc: Global,
    proxy: Proxy,
    doors: Vec<D>,
    up: D::L,
    limits: Limits,
) -> Proxied<D>
where
    D::L: Send,
    requires few { vec_len doors < 2 ^ 32 - 1 }
    requires waits { (0 < limits.idle_turns) × (0 < limits.door_turns) }
    ensures { HasProxied (seeing_of D.seen D.L.seen (service_of limits)) proxy doors up result }
{
    let Ok(parts) = Vec::with_capacity(alloc, doors.len() + 1) else {
        return Proxied::Memory(proxy, doors, up);
    };
    let Ok(pairs) = Vec::with_capacity(alloc, doors.len() + 1) else {
        parts.destroy_empty();
        return Proxied::Memory(proxy, doors, up);
    };
    let count = doors.len() as u32 + 1;
    match Desk::new(alloc, proxy, count) {
        Ok((desk, passes)) => {
            let room = Room { parts, pairs };
            let work = Attending { alloc, limits };
            run(rt, &work, desk, passes, doors, up, room)
        }
        Err((proxy, _)) => {
            parts.destroy_empty();
            pairs.destroy_empty();
            Proxied::Memory(proxy, doors, up)
        }
    }
}

/// Room for all parts, and for each with its pass.
struct Room<D, L> {
    parts: Vec<ThreadPart<D, L>>,
    pairs: Vec<(ThreadPart<D, L>, Pass<Proxy>)>,
}

/// Serves the upstream's link with the first pass and each door with a later one, all at once, and closes
/// the desk.
fn run<R: Threads + Wait + Sync, D: Door + Send>(
    rt: &R,
    work: &Attending,
    desk: Desk<Proxy>,
    passes: Vec<Pass<Proxy>>,
    mut doors: Vec<D>,
    up: D::L,
    room: Room<D, D::L>,
) -> Proxied<D>
where
    D::L: Send,
    requires opened { HasJustOpened (λ (events : List Brought). events) desk.start desk.count desk
        passes.items }
    requires as_many { vec_len doors + 1 ≡ desk.count }
    requires waits { (0 < work.now.limits.idle_turns) × (0 < work.now.limits.door_turns) }
    requires empty { (room.parts.items ≡ []) × (room.pairs.items ≡ []) }
    requires room { (vec_len doors + 1 ≤ vec_capacity room.parts)
        × (vec_len doors + 1 ≤ vec_capacity room.pairs) }
    ensures { HasProxied (seeing_of D.seen D.L.seen (service_of work.now.limits)) desk.start doors
        up result }
{
    let Room { mut parts, pairs } = room;
    list(&mut doors, up, &mut parts);
    let (proxy, parts) = tend_all(rt, desk, passes, parts, pairs, work);
    let tended = unlist(parts, doors);
    finish(proxy, tended)
}

/// Whether no proxy could go on with an upstream whose link ended so.
fn is_bad(end: SessionEnd) -> bool
    ensures { IsTrue result ↔ (end ≡ BadSetup) }
{
    matches!(end, SessionEnd::BadSetup)
}

/// Says what is left of a proxy that a desk gave, and of what came back.
fn finish<D: Door>(proxy: Proxy, tended: Tended<D, D::L>) -> Proxied<D>
    ensures { IsFinished proxy tended result }
{
    let Tended {
        doors,
        link,
        link_end,
        faults: _,
        door_faults,
        door_memory,
    } = tended;
    let bad = is_bad(link_end);
    Proxied::Ran {
        proxy,
        doors,
        up: link,
        up_end: link_end,
        bad,
        door_faults,
        door_memory,
    }
}
