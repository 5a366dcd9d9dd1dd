//! A proxy on a network, from the dialling of the upstream to the return of the doors.

ghost use Rattle.std.specs.Prelude.{◌≡◌, ◌≤◌, IfOk, length};
ghost use Rattle.proxy_command.specs.Serving.{ProxiesOnNetwork, start_for};

use door_threads::{Opened, leave_places, open_places};
use pool_io::{HostError, Limits};
use pool_network::{Door, Network};
use proxy_core::Proxy;
use proxy_server::{Proxied, serve_proxy};
use session_steps::SessionEnd;
use std::alloc::{AllocError, Global};
use std::sync::Wait;
use std::thread::Threads;
use stream_commands::IDLE_TURNS;
use sv2_types::Str255;

/// The class whose difficulty is shown as 1: about Bitcoin's own difficulty 1.
const BASE: u8 = 32;

/// What became of a proxy on a network.
pub enum Reached {
    /// All links are over.
    Ran {
        proxy: Proxy,
        up_end: SessionEnd,
        door_faults: u64,
        door_memory: u64,
    },
    /// The network gave no link or no doors, or there was no memory: nobody was served.
    Unserved(HostError),
}

/// A proxy for this user.
fn proxy_for(alloc: Global, user: &str) -> Result<Proxy, AllocError>
    requires { length user.now ≤ 255 }
    ensures { IfOk result (λ proxy. proxy ≡ start_for user.now) }
{
    let user = Str255::of(alloc, user)?;
    Proxy::new(alloc, user, BASE)
}

/// Dials the upstream, opens so many doors, serves all of them by one proxy, and hands the link and the doors
/// back. A link is given up once it was idle `IDLE_TURNS` times, and so is a door.
pub fn proxy_on_network<R: Threads + Wait + Sync, N: Network>(
    rt: &R,
    alloc: Global,
    network: &mut N,
    upstream: &str,
    user: &str,
    address: &str,
    count: u32,
) -> Reached
where
    N::D: Send,
    <N::D as Door>::L: Send,
    requires user { length user.now ≤ 255 }
    requires few { count ≤ 64 }
    ensures proxies { ProxiesOnNetwork (record {
      user = user.now;
      places = record { peer = upstream.now; address = address.now; doors = count };
    }) (N.seen network.old) (N.seen network.new) result }
    ensures links { (N.seen network.new).links.lent ≡ (N.seen network.old).links.lent }
    ensures doors { (N.seen network.new).doors.lent ≡ (N.seen network.old).doors.lent }
{
    let Ok(proxy) = proxy_for(alloc, user) else {
        return Reached::Unserved(HostError::Memory);
    };
    let opened = match open_places(network, upstream, address, count) {
        Ok(opened) => opened,
        Err(error) => return Reached::Unserved(error),
    };
    let Opened { link, doors } = opened;
    let limits = Limits {
        idle_turns: IDLE_TURNS,
        door_turns: IDLE_TURNS,
    };
    match serve_proxy(rt, alloc, proxy, doors, link, limits) {
        Proxied::Ran {
            proxy,
            doors,
            up: link,
            up_end,
            bad: _,
            door_faults,
            door_memory,
        } => {
            leave_places(network, Opened { link, doors });
            Reached::Ran {
                proxy,
                up_end,
                door_faults,
                door_memory,
            }
        }
        Proxied::Memory(_proxy, doors, link) => {
            leave_places(network, Opened { link, doors });
            Reached::Unserved(HostError::Memory)
        }
    }
}
