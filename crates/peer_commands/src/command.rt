//! The command: a peer is dialled, mined for and handed back, and then the output is opened.

ghost use Rattle.std.specs.Prelude.{◌≡◌, ◌<◌, ◌≤◌, IfOk, length};
ghost use Rattle.pool_io.specs.Hosts.{IsHandedBack};
ghost use Rattle.stream_commands.specs.Printing.{PrintsText};
ghost use Rattle.test_miner.specs.Miners.{IsNewMiner};
ghost use Rattle.peer_commands.specs.Mining.{FinishesMining, mined_text};
ghost use Rattle.peer_commands.specs.Row.{MineRow};

use link_turns::{TalkEnd, talk};
use payouts::put_line;
use pool_io::Host;
use pool_network::Network;
use std::alloc::{AllocError, Global};
use stream_commands::{IDLE_TURNS, Status, print_text, refusal_status};
use sv2_types::Str255;
use test_miner::{Miner, MinerEnd, MinerTask};

/// Mines for a user at the peer of an address, by shares of a class, until so many were credited,
/// and prints how many were.
pub fn mine<H: Host, N: Network>(
    alloc: Global,
    host: &mut H,
    network: &mut N,
    address: &str,
    user: &str,
    class: u8,
    count: u32,
) -> Status
    requires user { length user.now ≤ 255 }
    requires class { class ≤ 60 }
    requires count { 0 < count }
    ensures row { MineRow address.now (record { user = user.now; class = class; count = count })
        (record { host = H.seen host.old; network = N.seen network.old })
        (record { host = H.seen host.new; network = N.seen network.new }) result }

    // Everything that the host and the network gave has come back.
    ensures back { IsHandedBack (H.seen host.old) (H.seen host.new) }
    ensures links { (N.seen network.new).links.lent ≡ (N.seen network.old).links.lent }
    ensures doors { (N.seen network.new).doors.lent ≡ (N.seen network.old).doors.lent }
{
    let Ok(mut miner) = miner_of(alloc, user, class, count) else {
        return Status::Memory;
    };
    let mut link = match network.dial(address) {
        Ok(link) => link,
        Err(error) => return refusal_status(error),
    };
    let end = talk(alloc, &mut link, &mut miner, IDLE_TURNS);
    network.done_link(link);
    finish(alloc, host, end)
}

/// A miner that has said nothing yet.
fn miner_of(alloc: Global, user: &str, class: u8, count: u32) -> Result<Miner, AllocError>
    requires user { length user.now ≤ 255 }
    requires class { class ≤ 60 }
    requires count { 0 < count }
    ensures task { IfOk result (λ miner.
        miner.task ≡ record { user = user.now; class = class; count = count }) }
    ensures new { IfOk result IsNewMiner }
{
    let user = Str255::of(alloc, user)?;
    Miner::new(alloc, MinerTask { user, class, count })
}

/// Answers an end, and prints what there is to print.
fn finish<H: Host>(alloc: Global, host: &mut H, end: TalkEnd<MinerEnd>) -> Status
    ensures row { FinishesMining end (H.seen host.old) (H.seen host.new) result }
    ensures back { IsHandedBack (H.seen host.old) (H.seen host.new) }
{
    match end {
        TalkEnd::Ended(MinerEnd::Mined(count)) => print_count(alloc, host, count, Status::Done),
        TalkEnd::Ended(MinerEnd::Ended(count)) => print_count(alloc, host, count, Status::Refused),
        TalkEnd::IdleOut | TalkEnd::BytesOut => Status::Limit,
        TalkEnd::ReadFault => Status::ReadFault,
        TalkEnd::WriteFault => Status::WriteFault,
        TalkEnd::Memory => Status::Memory,
    }
}

/// Prints how many submissions were credited.
fn print_count<H: Host>(alloc: Global, host: &mut H, count: u32, wanted: Status) -> Status
    ensures row { PrintsText (mined_text count) wanted (H.seen host.old) (H.seen host.new) result }
    ensures back { IsHandedBack (H.seen host.old) (H.seen host.new) }
{
    let mut text = Vec::new(alloc);
    match put_line(&mut text, b"mined", u64::from(count)) {
        Ok(()) => print_text(host, &text, wanted),
        Err(_) => Status::Memory,
    }
}
