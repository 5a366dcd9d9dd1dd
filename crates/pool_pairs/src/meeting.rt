//! A feed, a pool and two miners, all in one process.

ghost use Rattle.std.specs.Prelude.{◌≤◌, ◌<◌, ◌-◌, ◌^◌, length, vec_len};

use crate::counted_link::CountedLink;
use crate::pair_link::{PairLink, pair};
use anyhow::{Context, Result};
use link_turns::{TalkEnd, talk};
use pool_io::{Keeper, Limits, SureKeeper};
use pool_network::{Arrival, Door, Link, MemDoor};
use pool_server::{Served, serve};
use share_ledger::Book;
use std::alloc::Global;
use std::collections::VecDeque;
use std::sync::Wait;
use std::thread::Threads;
use std::{str, thread};
use sv2_types::Str255;
use test_miner::{Feed, FeedEnd, Miner, MinerEnd, MinerTask, Script};
use trial_cases::example_rules;
use v1_translate::V1Terms;
use v2_sessions::SessionEnd;

/// How many turns in a row may bring nothing: so many that only who is waited for in vain gets there.
pub(crate) const IDLE_TURNS: u64 = 10_000_000;

/// What the pool says to its feed beside solutions, its setup and its constraints; and a solution.
const FEED_BYTES: usize = 22 + 12;

const SOLUTION_BYTES: usize = 103;

/// Each miner's class.
const CLASS: u8 = 8;

/// How many credits each miner wants.
const COUNT: u32 = 3;

/// What the three at the pool's links came to: how many of the feed's solutions were valid, where all
/// were and it ended as its input did, and how many credits each miner had where it has mined.
type Partners = (Option<usize>, (Option<u32>, Option<u32>));

/// Lets them meet, and tells in lines what came of it.
pub(crate) fn meet<R: Threads + Wait + Sync + Send + Copy + Drop>(
    rt: &R,
    alloc: Global,
    script: &[u8],
) -> Result<String> {
    let (feed, pool_feed) = pair(*rt, alloc)?;
    let (one, pool_one) = pair(*rt, alloc)?;
    let (other, pool_other) = pair(*rt, alloc)?;
    let door = door_to(alloc, pool_one)?;
    let other_door = door_to(alloc, pool_other)?;
    let doors = Vec::from_array(alloc, [door, other_door])?;
    let (partners, pool) = thread::join(
        rt,
        move || run_partners(rt, alloc, script, feed, one, other),
        move || run_pool(rt, alloc, doors, pool_feed),
    );
    let pool = pool.context("no memory for the pool")?;
    let (feed, (one, other)) = partners;
    let said = format!(in alloc; "feed {feed:?}\nminer {one:?}\nminer {other:?}\n{pool}")?;
    Ok(said)
}

/// A door at which this one calls.
pub(crate) fn door_to<L: Link + Drop>(alloc: Global, link: L) -> Result<MemDoor<L>> {
    let mut coming = VecDeque::new(alloc);
    coming.push_back(Arrival::Caller(link))?;
    Ok(MemDoor::new(alloc, coming, Vec::new(alloc)))
}

/// A feed and two miners, each in a thread of its own.
fn run_partners<R: Threads + Wait + Sync + Send + Copy + Drop>(
    rt: &R,
    alloc: Global,
    script: &[u8],
    feed: PairLink<R>,
    one: PairLink<R>,
    other: PairLink<R>,
) -> Partners {
    thread::join(
        rt,
        move || run_feed(alloc, script, feed, 6),
        move || run_miners(rt, alloc, one, other),
    )
}

fn run_miners<R: Threads + Wait + Sync + Send + Copy + Drop>(
    rt: &R,
    alloc: Global,
    one: PairLink<R>,
    other: PairLink<R>,
) -> (Option<u32>, Option<u32>) {
    thread::join(
        rt,
        move || run_miner(alloc, "a", one),
        move || run_miner(alloc, "b", other),
    )
}

/// How many credits a miner had, where it has mined.
fn run_miner<R: Wait + Drop>(alloc: Global, user: &str, mut link: PairLink<R>) -> Option<u32>
    requires { length user.now ≤ 255 }
{
    let user = Str255::of(alloc, user).ok()?;
    let task = MinerTask {
        user,
        class: CLASS,
        count: COUNT,
    };
    let mut miner = Miner::new(alloc, task).ok()?;
    match talk(alloc, &mut link, &mut miner, IDLE_TURNS) {
        TalkEnd::Ended(MinerEnd::Mined(count)) => Some(count),
        _ => None,
    }
}

/// How many solutions a feed has heard, which ends behind so many, where all of them were valid and its
/// input ended well.
pub(crate) fn run_feed<R: Wait + Drop>(
    alloc: Global,
    script: &[u8],
    link: PairLink<R>,
    solutions: usize,
) -> Option<usize>
    requires { solutions ≤ 1000 }
{
    let script = Script::read(alloc, script).ok()?;
    let mut feed = Feed::new(alloc, script).ok()?;
    let mut counted = CountedLink {
        link,
        left: FEED_BYTES + solutions * SOLUTION_BYTES,
    };
    let end = talk(alloc, &mut counted, &mut feed, IDLE_TURNS);
    let verdicts = feed.ear.course.verdicts();
    match end {
        TalkEnd::Ended(FeedEnd::Done) if verdicts.iter().all(|verdict| verdict.is_valid) => {
            Some(verdicts.len())
        }
        _ => None,
    }
}

/// What the pool tells once all have left.
pub(crate) fn run_pool<R: Threads + Wait + Sync + Send + Copy + Drop>(
    rt: &R,
    alloc: Global,
    doors: Vec<MemDoor<PairLink<R>>>,
    feed: PairLink<R>,
) -> Option<String> {
    if doors.len() > 64 {
        return None;
    }
    let rules = example_rules(alloc, true, 1000).ok()?;
    let terms = V1Terms::of(alloc, &rules, 32).ok()?;
    match Book::new(alloc, rules, SureKeeper::new(alloc)) {
        Ok(book) => serve_all(rt, alloc, book, doors, feed, &terms),
        Err((_keeper, _error)) => None,
    }
}

/// The same on this book: how the feed's session ended, the counts of failures, and the summary.
fn serve_all<R, K: Keeper + Send + Drop, D: Door + Send + Drop>(
    rt: &R,
    alloc: Global,
    book: Book<K>,
    doors: Vec<D>,
    feed: D::L,
    terms: &V1Terms,
) -> Option<String>
where
    R: Threads + Wait + Sync,
    D::L: Send + Drop,
    requires few { vec_len doors < 2 ^ 32 - 1 }
{
    let limits = Limits {
        idle_turns: IDLE_TURNS,
        door_turns: 1,
    };
    match serve(rt, alloc, book, doors, feed, terms, limits) {
        Served::Ran {
            book,
            doors: _,
            feed: _,
            feed_end,
            ledger_faults,
            door_faults,
            door_memory,
        } => {
            let summed = summary(alloc, &book);
            let (_keeper, _history) = book.into_parts();
            let faults = (ledger_faults, door_faults, door_memory);
            tell(alloc, feed_end, faults, summed?.as_str())
        }
        Served::Memory(book, _doors, _feed) => {
            let (_keeper, _history) = book.into_parts();
            None
        }
    }
}

fn tell(alloc: Global, end: SessionEnd, faults: (u64, u64, u64), summed: &str) -> Option<String> {
    format!(in alloc; "session {end:?} faults {faults:?}\n{summed}").ok()
}

/// A book's summary.
fn summary<K: Keeper>(alloc: Global, book: &Book<K>) -> Option<String> {
    let mut lines = Vec::new(alloc);
    book.summary(&mut lines).ok()?;
    let lines = str::from_utf8(lines.as_slice()).ok()?;
    String::from_str(alloc, lines).ok()
}
