//! Links that are served by calls of one pass.

ghost use Rattle.std.specs.Prelude.{◌≡◌, ◌<◌};
ghost use Rattle.proxy_server.specs.Visits.{VisitsMiner, VisitsUpstream};

use crate::caller::ProxyCaller;
use crate::{UpstreamEnd, serve_miner, serve_upstream};
use pool_network::Link;
use session_steps::SessionEnd;
use std::alloc::Global;
use std::sync::Wait;

/// Serves a miner's link by calls of one pass, up to an end, and hangs up.
pub fn serve_miner_link<R: Wait, L: Link>(
    alloc: Global,
    caller: &mut ProxyCaller<'_, R>,
    link: &mut L,
    idle_turns: u64,
) -> SessionEnd
    requires desk { caller.old.pass.now.table ≡ caller.old.desk.now.table }
    requires waits { 0 < idle_turns }
    ensures desk { caller.new.pass.now.table ≡ caller.new.desk.now.table }
    ensures pass { caller.new.pass.ghost_name ≡ caller.old.pass.ghost_name }
    ensures served { VisitsMiner idle_turns (L.seen link.old) (L.seen link.new) result
        caller.old.pass.now caller.new.pass.now }
{
    let end = serve_miner(alloc, caller, link, idle_turns);
    link.hang_up();
    end
}

/// Serves the upstream's link by calls of one pass, up to an end, which is told, and hangs up.
pub fn serve_upstream_link<R: Wait, L: Link>(
    alloc: Global,
    caller: &mut ProxyCaller<'_, R>,
    link: &mut L,
    idle_turns: u64,
) -> UpstreamEnd
    requires desk { caller.old.pass.now.table ≡ caller.old.desk.now.table }
    requires waits { 0 < idle_turns }
    ensures desk { caller.new.pass.now.table ≡ caller.new.desk.now.table }
    ensures pass { caller.new.pass.ghost_name ≡ caller.old.pass.ghost_name }
    ensures served { VisitsUpstream idle_turns (L.seen link.old) (L.seen link.new) result.end
        result.phase caller.old.pass.now caller.new.pass.now }
{
    let end = serve_upstream(alloc, caller, link, idle_turns);
    link.hang_up();
    end
}
