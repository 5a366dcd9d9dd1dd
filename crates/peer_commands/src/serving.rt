//! A feed at an address.

ghost use Rattle.std.specs.Prelude.{◌≡◌};
ghost use Rattle.std.specs.Prelude.{Err, Ok};
ghost use Rattle.test_miner.specs.Feeds.{IsNewFeed};
ghost use Rattle.peer_commands.specs.Callers.{WaitsForCaller};
ghost use Rattle.peer_commands.specs.Feeding.{FeedsCaller};
ghost use Rattle.peer_commands.specs.FeedRow.{FeedsAtAddress};
ghost use Rattle.peer_commands.specs.Serving.{ServesFirst};

use crate::caller::{NoCaller, first_caller};
use link_turns::{TalkEnd, talk};
use pool_io::HostError;
use pool_network::{Door, Network};
use std::alloc::Global;
use stream_commands::IDLE_TURNS;
use test_miner::{Feed, FeedEnd};

/// What became of a feed at an address.
#[derive(Drop)]
pub enum Fed {
    /// Somebody called, and was fed up to this end.
    Caller(TalkEnd<FeedEnd>),
    /// Nobody was let in.
    Nobody(NoCaller),
    /// The network opened no door.
    NoDoor(HostError),
}

/// Opens a door at an address, feeds the first who calls, and hands the door back.
pub(crate) fn feed_at<N: Network>(
    alloc: Global,
    network: &mut N,
    address: &str,
    feed: &mut Feed,
) -> Fed
    requires { IsNewFeed feed.old }
    ensures fed { FeedsAtAddress feed.old.ear.course.script address.now (N.seen network.old)
        (N.seen network.new) result feed.new.ear.course.verdicts }
    ensures links { (N.seen network.new).links.lent ≡ (N.seen network.old).links.lent }
    ensures doors { (N.seen network.new).doors.lent ≡ (N.seen network.old).doors.lent }
{
    let mut doors = match network.open_doors(address, 1) {
        Ok(doors) => doors,
        Err(error) => return Fed::NoDoor(error),
    };
    let served = feed_first(alloc, &mut doors[0], feed);
    network.done_doors(doors);
    match served {
        Ok(end) => Fed::Caller(end),
        Err(cause) => Fed::Nobody(cause),
    }
}

/// Feeds the first who calls at a door, and hands the connection back.
fn feed_first<D: Door>(
    alloc: Global,
    door: &mut D,
    feed: &mut Feed,
) -> Result<TalkEnd<FeedEnd>, NoCaller>
    requires { IsNewFeed feed.old }
    ensures { ServesFirst feed.old.ear.course.script (D.seen door.old) (D.seen door.new)
        feed.new.ear.course.verdicts result }
{
    let mut link = first_caller(door)?;
    let end = talk(alloc, &mut link, feed, IDLE_TURNS);
    door.done(link);
    Ok(end)
}
