//! The command: a script is read, a door is opened, served and handed back, and then the output is
//! opened.

ghost use Rattle.std.specs.Prelude.{◌≡◌};
ghost use Rattle.pool_io.specs.Hosts.{IsHandedBack};
ghost use Rattle.peer_commands.specs.Feeding.{FinishesFeeding, status_of_feed_end};
ghost use Rattle.peer_commands.specs.FeedRow.{FeedRow, FeedsAfterScript, FinishesAtAddress};

use crate::lines::lines_of;
use crate::script::open_script;
use crate::serving::{Fed, feed_at};
use link_turns::TalkEnd;
use pool_io::Host;
use pool_network::Network;
use std::alloc::Global;
use stream_commands::{Status, print_text, refusal_status};
use test_miner::{Feed, FeedEnd, Script, Verdict};

/// Gives the script of a file to the first who calls at an address, and prints what came of the
/// caller's solutions.
pub fn feed<H: Host, N: Network>(
    alloc: Global,
    host: &mut H,
    network: &mut N,
    script_name: &str,
    address: &str,
) -> Status
    ensures row { FeedRow script_name.now address.now
        (record { host = H.seen host.old; network = N.seen network.old })
        (record { host = H.seen host.new; network = N.seen network.new }) result }

    // Everything that the host and the network gave has come back.
    ensures back { IsHandedBack (H.seen host.old) (H.seen host.new) }
    ensures links { (N.seen network.new).links.lent ≡ (N.seen network.old).links.lent }
    ensures doors { (N.seen network.new).doors.lent ≡ (N.seen network.old).doors.lent }
{
    match open_script(alloc, host, script_name) {
        Ok(script) => feed_script(alloc, host, network, script, address),
        Err(cause) => cause.status(),
    }
}

/// The same of a script.
fn feed_script<H: Host, N: Network>(
    alloc: Global,
    host: &mut H,
    network: &mut N,
    script: Script,
    address: &str,
) -> Status
    ensures row { FeedsAfterScript address.now (Ok script)
        (record { host = H.seen host.old; network = N.seen network.old })
        (record { host = H.seen host.new; network = N.seen network.new }) result }
    ensures back { IsHandedBack (H.seen host.old) (H.seen host.new) }
    ensures links { (N.seen network.new).links.lent ≡ (N.seen network.old).links.lent }
    ensures doors { (N.seen network.new).doors.lent ≡ (N.seen network.old).doors.lent }
{
    let Ok(mut feed) = Feed::new(alloc, script) else {
        return Status::Memory;
    };
    let fed = feed_at(alloc, network, address, &mut feed);
    finish(alloc, host, fed, feed.ear.course.verdicts())
}

/// Answers what became of a feed, and prints what there is to print.
fn finish<H: Host>(alloc: Global, host: &mut H, fed: Fed, verdicts: &[Verdict]) -> Status
    ensures row { FinishesAtAddress fed verdicts.now (H.seen host.old) (H.seen host.new) result }
    ensures back { IsHandedBack (H.seen host.old) (H.seen host.new) }
{
    match fed {
        Fed::Caller(end) => print_verdicts(alloc, host, end, verdicts),
        Fed::Nobody(cause) => cause.status(),
        Fed::NoDoor(error) => refusal_status(error),
    }
}

/// Prints what came of the solutions.
fn print_verdicts<H: Host>(
    alloc: Global,
    host: &mut H,
    end: TalkEnd<FeedEnd>,
    verdicts: &[Verdict],
) -> Status
    ensures row { FinishesFeeding end verdicts.now (H.seen host.old) (H.seen host.new) result }
    ensures back { IsHandedBack (H.seen host.old) (H.seen host.new) }
{
    let wanted = end_status(end);
    if wanted == Status::Memory {
        return Status::Memory;
    }
    match lines_of(alloc, verdicts) {
        Ok(text) => print_text(host, &text, wanted),
        Err(_) => Status::Memory,
    }
}

/// The status of an end.
fn end_status(end: TalkEnd<FeedEnd>) -> Status
    ensures { result ≡ status_of_feed_end end }
{
    match end {
        TalkEnd::Ended(FeedEnd::Done) => Status::Done,
        TalkEnd::Ended(FeedEnd::BadPeer) => Status::Refused,
        TalkEnd::IdleOut | TalkEnd::BytesOut => Status::Limit,
        TalkEnd::ReadFault => Status::ReadFault,
        TalkEnd::WriteFault => Status::WriteFault,
        TalkEnd::Memory => Status::Memory,
    }
}
