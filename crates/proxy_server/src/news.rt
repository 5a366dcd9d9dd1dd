//! What is new to a link, asked for and put.

ghost use Rattle.std.specs.Prelude.{◌≡◌, ℕ, List, IfErr};
ghost use Rattle.link_hearing.specs.Hearing.{end_of};
ghost use Rattle.proxy_server.specs.Links.{IsPutEnd, PollsOwed, PutsNews, Tongue};

use crate::asking::ProxyAsking;
use pool_io::SinkFailed;
use pool_network::{Link, put_whole};
use proxy_rules::{ProxyReply, ProxyRequest};
use session_steps::SessionEnd;

/// Puts what is new. The cursor is then behind it.
fn put_news<L: Link>(news: &[u8], cursor: &mut u64, link: &mut L) -> Result<(), SessionEnd>
    ensures source { (L.seen link.new).source ≡ (L.seen link.old).source }
    ensures puts { PutsNews cursor.old news.now (L.seen link.old).sink (end_of result) cursor.new
        (L.seen link.new).sink }
    ensures ends { IfErr result IsPutEnd }
{
    let Some(behind) = cursor.checked_add(news.len() as u64) else {
        return Err(SessionEnd::Memory);
    };
    match put_whole(link, news) {
        Ok(()) => {
            *cursor = behind;
            Ok(())
        }
        Err(SinkFailed::Failed) => Err(SessionEnd::WriteFault),
        Err(SinkFailed::Memory) => Err(SessionEnd::Memory),
    }
}

/// Asks for what is new to the link, and puts it.
pub(crate) fn tell_news<L: Link, A: ProxyAsking>(
    asking: &mut A,
    cursor: &mut u64,
    link: &mut L,
) -> Result<(), SessionEnd>
    requires ready { A.ready asking.old }
    ensures ready { A.ready asking.new }
    ensures source { (L.seen link.new).source ≡ (L.seen link.old).source }
    ensures polls { (tongue : Tongue) (unmet : List ℕ) → PollsOwed tongue A.does unmet cursor.old
        asking.old (L.seen link.old).sink (end_of result) cursor.new asking.new
        (L.seen link.new).sink }
    ensures ends { IfErr result IsPutEnd }
{
    let reply = match asking.ask(ProxyRequest::Poll(*cursor)) {
        Ok(reply) => reply,
        Err(_) => return Err(SessionEnd::Memory),
    };
    let ProxyReply::Bytes(news) = reply else {
        unreachable!()
    };
    put_news(news.bytes(), cursor, link)
}
