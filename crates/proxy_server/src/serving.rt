//! A miner's link, from its Join to its Leave.

ghost use Rattle.std.specs.Prelude.{◌≡◌, ◌<◌};
ghost use Rattle.proxy_server.specs.Serving.{JoinsOrFails, LeavesAtEnd, ServesMiner, end_unleft};

use crate::asking::ProxyAsking;
use crate::miner::MinerLink;
use crate::news::tell_news;
use link_hearing::hear_turns;
use link_turns::Waiting;
use pool_network::Link;
use proxy_rules::{ProxyReply, ProxyRequest};
use session_steps::SessionEnd;
use std::alloc::{AllocError, Global};
use v1_lines::LineReader;

/// Joins. Who is joined from before, since a leaving found no memory, leaves first.
fn join<A: ProxyAsking>(asking: &mut A) -> Result<(), AllocError>
    requires { A.ready asking.old }
    ensures ready { A.ready asking.new }
    ensures joins { JoinsOrFails A.does asking.old result asking.new }
{
    let ProxyReply::Again = asking.ask(ProxyRequest::Join)? else {
        return Ok(());
    };
    asking.ask(ProxyRequest::Leave)?;
    asking.ask(ProxyRequest::Join)?;
    Ok(())
}

/// A leaving that found no memory.
fn unleft(end: SessionEnd) -> SessionEnd
    ensures { result ≡ end_unleft end }
{
    match end {
        SessionEnd::Done => SessionEnd::Memory,
        _ => end,
    }
}

/// Asks the last request of a link: that its caller leaves, or that the upstream ended.
pub(crate) fn leave<A: ProxyAsking>(
    asking: &mut A,
    request: ProxyRequest,
    end: SessionEnd,
) -> SessionEnd
    requires { A.ready asking.old }
    ensures ready { A.ready asking.new }
    ensures leaves { LeavesAtEnd A.does request asking.old end result asking.new }
{
    match asking.ask(request) {
        Ok(_reply) => end,
        Err(_fault) => unleft(end),
    }
}

impl<A: ProxyAsking> MinerLink<'_, A> {
    ghost use Rattle.std.specs.Prelude.{◌≡◌, ◌<◌, []};
    ghost use Rattle.proxy_server.specs.Serving.{HearsMinerLink};

    /// Puts what is there for a miner that joined, and hears its turns, up to an end.
    fn hear<L: Link>(&mut self, link: &mut L, idle_turns: u64) -> SessionEnd
        requires ready { A.ready self.old.asking.now }
        requires new { (self.old.reader ≡ []) × (self.old.cursor ≡ 0) }
        requires waits { 0 < idle_turns }
        ensures ready { A.ready self.new.asking.now }
        ensures same { self.new.asking.ghost_name ≡ self.old.asking.ghost_name }
        ensures hears { HearsMinerLink A.does idle_turns self.old.asking.now (L.seen link.old) result
            self.new.asking.now (L.seen link.new) }
    {
        match tell_news(self.asking, &mut self.cursor, link) {
            Ok(()) => hear_turns(link, self, Waiting::new(idle_turns)),
            Err(end) => end,
        }
    }
}

/// Serves a miner's link for a proxy, by who asks that as the miner, up to an end.
pub fn serve_miner<L: Link, A: ProxyAsking>(
    alloc: Global,
    asking: &mut A,
    link: &mut L,
    idle_turns: u64,
) -> SessionEnd
    requires ready { A.ready asking.old }
    requires waits { 0 < idle_turns }
    ensures ready { A.ready asking.new }
    ensures served { ServesMiner A.does idle_turns asking.old (L.seen link.old) result asking.new
        (L.seen link.new) }
{
    let Ok(reader) = LineReader::new(alloc) else {
        return SessionEnd::Memory;
    };
    let Ok(()) = join(asking) else {
        return SessionEnd::Memory;
    };
    let mut miner = MinerLink {
        alloc,
        asking,
        reader,
        cursor: 0,
    };
    let end = miner.hear(link, idle_turns);
    let MinerLink {
        alloc: _,
        asking,
        reader: _,
        cursor: _,
    } = miner;
    leave(asking, ProxyRequest::Leave, end)
}
