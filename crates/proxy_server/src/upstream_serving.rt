//! The upstream's link, from its first poll to its end.

ghost use Rattle.std.specs.Prelude.{◌≡◌, ◌<◌};
ghost use Rattle.proxy_server.specs.Upstreams.{ServesUpstream};

use crate::asking::ProxyAsking;
use crate::news::tell_news;
use crate::phase::UpPhase;
use crate::serving::leave;
use crate::upstream::UpstreamLink;
use link_hearing::hear_turns;
use link_turns::Waiting;
use pool_network::Link;
use proxy_rules::ProxyRequest;
use session_steps::SessionEnd;
use std::alloc::Global;
use sv2_frames::Splitter;

/// The most bytes of a payload.
const MOST_PAYLOAD: u32 = 262_144;

/// How an upstream's link ended, and how far the upstream had come.
#[derive(Clone, Copy)]
pub struct UpstreamEnd {
    pub end: SessionEnd,
    pub phase: UpPhase,
}

impl<A: ProxyAsking> UpstreamLink<'_, A> {
    ghost use Rattle.std.specs.Prelude.{◌≡◌, ◌<◌, []};
    ghost use Rattle.sv2_frames.specs.Holding.{IsCutWithin};
    ghost use Rattle.proxy_server.specs.declared.phase.UpPhase.TheVariants.{Unset};
    ghost use Rattle.proxy_server.specs.Frames.{most_payload};
    ghost use Rattle.proxy_server.specs.Upstreams.{HearsUp};

    /// Puts what is there for the upstream, and hears its turns, up to an end.
    fn hear<L: Link>(&mut self, link: &mut L, idle_turns: u64) -> SessionEnd
        requires ready { A.ready self.old.asking.now }
        requires new { (self.old.splitter.held ≡ []) × (self.old.cursor ≡ 0)
            × (self.old.phase ≡ Unset) }
        requires splits { (self.old.splitter.limit ≡ most_payload)
            × IsCutWithin self.old.splitter }
        requires waits { 0 < idle_turns }
        ensures ready { A.ready self.new.asking.now }
        ensures same { self.new.asking.ghost_name ≡ self.old.asking.ghost_name }
        ensures hears { HearsUp A.does idle_turns self.old.asking.now (L.seen link.old) result
            self.new.phase self.new.asking.now (L.seen link.new) }
    {
        match tell_news(self.asking, &mut self.cursor, link) {
            Ok(()) => hear_turns(link, self, Waiting::new(idle_turns)),
            Err(end) => end,
        }
    }
}

/// Serves the upstream's link for a proxy, by who asks that as the upstream, up to an end, which is told.
pub fn serve_upstream<L: Link, A: ProxyAsking>(
    alloc: Global,
    asking: &mut A,
    link: &mut L,
    idle_turns: u64,
) -> UpstreamEnd
    requires ready { A.ready asking.old }
    requires waits { 0 < idle_turns }
    ensures ready { A.ready asking.new }
    ensures served { ServesUpstream A.does idle_turns asking.old (L.seen link.old) result.end
        result.phase asking.new (L.seen link.new) }
{
    let Ok(splitter) = Splitter::new(alloc, MOST_PAYLOAD) else {
        return UpstreamEnd {
            end: leave(asking, ProxyRequest::UpEnd, SessionEnd::Memory),
            phase: UpPhase::Unset,
        };
    };
    let mut upstream = UpstreamLink {
        alloc,
        asking,
        splitter,
        cursor: 0,
        phase: UpPhase::Unset,
    };
    let end = upstream.hear(link, idle_turns);
    let UpstreamLink {
        alloc: _,
        asking,
        splitter: _,
        cursor: _,
        phase,
    } = upstream;
    UpstreamEnd {
        end: leave(asking, ProxyRequest::UpEnd, end),
        phase,
    }
}
