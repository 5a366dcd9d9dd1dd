//! The command: an upstream is dialled and doors are opened, and the output when all links are over; all
//! that was given is handed back.

ghost use Rattle.std.specs.Prelude.{◌≡◌, ◌≤◌, length};
ghost use Rattle.pool_io.specs.Hosts.{IsHandedBack};
ghost use Rattle.stream_commands.specs.declared.status.Status.TheVariants as status;
ghost use Rattle.stream_commands.specs.Printing.{PrintsText};
ghost use Rattle.proxy_command.specs.Row.{FinishesProxy, ProxyRow, proxied_text};

use crate::serving::{Reached, proxy_on_network};
use crate::status::proxied_status;
use payouts::put_line;
use pool_io::Host;
use pool_network::{Door, Network};
use proxy_core::Proxy;
use std::alloc::Global;
use std::sync::Wait;
use std::thread::Threads;
use stream_commands::{Status, print_text, refusal_status};

/// Lets the miners who call at an address share one channel, which is opened for a user at the upstream of
/// another address. Each link has a thread, where threads can be made.
pub fn proxy<R: Threads + Wait + Sync, H: Host, N: Network>(
    rt: &R,
    alloc: Global,
    host: &mut H,
    network: &mut N,
    upstream: &str,
    user: &str,
    address: &str,
    count: u32,
) -> Status
where
    N::D: Send,
    <N::D as Door>::L: Send,
    requires user { length user.now ≤ 255 }
    requires few { count ≤ 64 }
    ensures row { ProxyRow (record {
      user = user.now;
      places = record { peer = upstream.now; address = address.now; doors = count };
    })
        (record { host = H.seen host.old; network = N.seen network.old })
        (record { host = H.seen host.new; network = N.seen network.new }) result }

    // Everything that the host and the network gave has come back.
    ensures back { IsHandedBack (H.seen host.old) (H.seen host.new) }
    ensures links { (N.seen network.new).links.lent ≡ (N.seen network.old).links.lent }
    ensures doors { (N.seen network.new).doors.lent ≡ (N.seen network.old).doors.lent }
{
    let reached = proxy_on_network(rt, alloc, network, upstream, user, address, count);
    finish(alloc, host, reached)
}

/// Prints what there is to say.
fn finish<H: Host>(alloc: Global, host: &mut H, reached: Reached) -> Status
    ensures row { FinishesProxy (H.seen host.old) (H.seen host.new) reached result }
    ensures back { IsHandedBack (H.seen host.old) (H.seen host.new) }
{
    match reached {
        Reached::Ran {
            proxy,
            up_end,
            door_faults,
            door_memory,
        } => {
            let printed = print_sent(alloc, host, &proxy);
            proxied_status(up_end, door_faults, door_memory, printed)
        }
        Reached::Unserved(error) => refusal_status(error),
    }
}

/// Prints how many submissions went upstream.
fn print_sent<H: Host>(alloc: Global, host: &mut H, proxy: &Proxy) -> Status
    ensures row { PrintsText (proxied_text proxy.now) status.Done (H.seen host.old) (H.seen host.new)
        result }
    ensures back { IsHandedBack (H.seen host.old) (H.seen host.new) }
{
    let Ok(count) = proxy.sent() else {
        return Status::Memory;
    };
    let mut text = Vec::new(alloc);
    match put_line(&mut text, b"proxied", u64::from(count)) {
        Ok(()) => print_text(host, &text, Status::Done),
        Err(_) => Status::Memory,
    }
}
