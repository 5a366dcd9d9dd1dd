//! Sessions on a network, from the dialling of the feed to the return of the doors.

ghost use Rattle.std.specs.Prelude.{◌≡◌, ◌<◌, ◌≤◌};
ghost use Rattle.pool_server.specs.Parts.{service_of};
ghost use Rattle.pool_commands.specs.Serving.{ServesOnNetwork, reached_seen};

use door_threads::{Opened, leave_places, open_places};
use pool_io::{HostError, Keeper, Limits};
use pool_network::{Door, Network};
use pool_server::{Served, serve};
use share_ledger::Book;
use std::alloc::Global;
use std::sync::Wait;
use std::thread::Threads;
use v1_translate::V1Terms;
use v2_sessions::SessionEnd;

/// What became of a book on a network.
pub enum Reached<K: Keeper> {
    /// All sessions are over.
    Ran {
        book: Book<K>,
        feed_end: SessionEnd,
        ledger_faults: u64,
        door_faults: u64,
        door_memory: u64,
    },
    /// The network gave no link or no doors, or there was no memory: no session began.
    Unserved(Book<K>, HostError),
}

/// Dials the feed, opens as many doors as workers, serves all of them on the book, and hands the
/// link and the doors back.
pub fn serve_on_network<R: Threads + Wait + Sync, K: Keeper + Send, N: Network>(
    rt: &R,
    alloc: Global,
    network: &mut N,
    book: Book<K>,
    feed: &str,
    address: &str,
    workers: u32,
    terms: &V1Terms,
    limits: Limits,
) -> Reached<K>
where
    N::D: Send,
    <N::D as Door>::L: Send,
    requires few { workers ≤ 64 }
    requires waits { (0 < limits.idle_turns) × (0 < limits.door_turns) }
    ensures served { ServesOnNetwork (service_of terms.now limits)
        (record { peer = feed.now; address = address.now; doors = workers })
        (N.seen network.old) (N.seen network.new) book (reached_seen result) }
    ensures links { (N.seen network.new).links.lent ≡ (N.seen network.old).links.lent }
    ensures doors { (N.seen network.new).doors.lent ≡ (N.seen network.old).doors.lent }
{
    let opened = match open_places(network, feed, address, workers) {
        Ok(opened) => opened,
        Err(error) => return Reached::Unserved(book, error),
    };
    let Opened { link, doors } = opened;
    match serve(rt, alloc, book, doors, link, terms, limits) {
        Served::Ran {
            book,
            doors,
            feed: link,
            feed_end,
            ledger_faults,
            door_faults,
            door_memory,
        } => {
            leave_places(network, Opened { link, doors });
            Reached::Ran {
                book,
                feed_end,
                ledger_faults,
                door_faults,
                door_memory,
            }
        }
        Served::Memory(book, doors, link) => {
            leave_places(network, Opened { link, doors });
            Reached::Unserved(book, HostError::Memory)
        }
    }
}
