//! A feed, a pool, a proxy and two miners of Stratum V1 behind it, all in one process.

use crate::farm_link::{Farm, FarmLink, HallLink};
use crate::meeting::{IDLE_TURNS, door_to, run_feed, run_pool};
use crate::pair_link::{PairLink, pair};
use anyhow::{Context, Result};
use pool_io::Limits;
use pool_network::MemDoor;
use proxy_core::Proxy;
use proxy_server::{Proxied, serve_proxy};
use std::alloc::Global;
use std::sync::Wait;
use std::thread;
use std::thread::Threads;
use sv2_types::Str255;

/// Lets them meet, and tells in lines what came of it.
pub(crate) fn meet_behind_proxy<R: Threads + Wait + Sync + Send + Copy + Drop>(
    rt: &R,
    alloc: Global,
    script: &[u8],
) -> Result<String> {
    let (feed, pool_feed) = pair(*rt, alloc)?;
    let (upstream, pool_end) = pair(*rt, alloc)?;
    let door = door_to(alloc, pool_end)?;
    let doors = Vec::from_array(alloc, [door])?;
    let (partners, pool) = thread::join(
        rt,
        move || run_partners(rt, alloc, script, feed, upstream),
        move || run_pool(rt, alloc, doors, pool_feed),
    );
    let pool = pool.context("no memory for the pool")?;
    let (feed, farm) = partners;
    let farm = farm.context("no memory for the proxy")?;
    let said = format!(in alloc; "feed {feed:?}\n{farm}\n{pool}")?;
    Ok(said)
}

/// The feed and the proxy, each in a thread of its own.
fn run_partners<R: Threads + Wait + Sync + Send + Copy + Drop>(
    rt: &R,
    alloc: Global,
    script: &[u8],
    feed: PairLink<R>,
    upstream: PairLink<R>,
) -> (Option<usize>, Option<String>) {
    thread::join(
        rt,
        move || run_feed(alloc, script, feed, 4),
        move || run_proxy(rt, alloc, upstream),
    )
}

/// A proxy with two doors, at each of which a miner calls; and what it tells once all have left.
fn run_proxy<R: Threads + Wait + Sync + Send + Copy + Drop>(
    rt: &R,
    alloc: Global,
    upstream: PairLink<R>,
) -> Option<String> {
    let user = Str255::of(alloc, "farm.rig").ok()?;
    let proxy = Proxy::new(alloc, user, 0).ok()?;
    let farm = Farm::new();
    let one = FarmLink::new(alloc, &farm);
    let other = FarmLink::new(alloc, &farm);
    let one = door_to(alloc, HallLink::Miner(one)).ok()?;
    let other = door_to(alloc, HallLink::Miner(other)).ok()?;
    let doors = Vec::from_array(alloc, [one, other]).ok()?;
    let up = HallLink::Upstream {
        link: upstream,
        farm: &farm,
    };
    let limits = Limits {
        idle_turns: IDLE_TURNS,
        door_turns: 1,
    };
    match serve_proxy(rt, alloc, proxy, doors, up, limits) {
        Proxied::Ran {
            proxy,
            doors,
            up: _,
            up_end,
            bad,
            door_faults,
            door_memory,
        } => {
            let sent = proxy.sent().ok()?;
            let miners = (miner_at(&doors, 0), miner_at(&doors, 1));
            let faults = (door_faults, door_memory);
            format!(in alloc;
                "proxy {up_end:?} bad {bad} faults {faults:?} sent {sent}\nminer {}\nminer {}",
                miners.0, miners.1
            )
            .ok()
        }
        Proxied::Memory(_proxy, _doors, _up) => None,
    }
}

/// What the miner at a door was told: its lead, and that both of its shares were credited.
fn miner_at<R: Wait>(doors: &[MemDoor<HallLink<'_, R>>], place: usize) -> &'static str {
    let Some(HallLink::Miner(link)) = doors.get(place).and_then(|door| door.links().first()) else {
        return "nobody";
    };
    match (
        link.has_lead("\"000000000000\",6]"),
        link.has_lead("\"000000000001\",6]"),
    ) {
        _ if !link.has_answers() => "without both answers",
        (true, false) => "with the lead 0 and both answers",
        (false, true) => "with the lead 1 and both answers",
        _ => "without a lead",
    }
}
