//! All sessions on one book, from its desk's opening to its closing.

ghost use Rattle.std.specs.Prelude.{◌≡◌, ◌<◌, ◌-◌, ◌+◌, ◌≤◌, ◌^◌, [], vec_len};
ghost use Rattle.std.specs.Vec.{vec_capacity};
ghost use Rattle.desk.specs.Passes.{HasJustOpened};
ghost use Rattle.share_ledger.specs.Books.{BookSeen};
ghost use Rattle.pool_server.specs.Ending.{HasServed, IsFinished};
ghost use Rattle.pool_server.specs.Parts.{seeing_of, service_of};

use crate::parts::Attending;
use desk::{Desk, Pass, tend_all};
use door_threads::{Tended, ThreadPart, list, unlist};
use pool_io::{Keeper, Limits};
use pool_network::Door;
use share_ledger::Book;
use std::alloc::Global;
use std::sync::Wait;
use std::thread::Threads;
use v1_translate::V1Terms;
use v2_sessions::SessionEnd;

/// What is left of a book, its doors and a feed's link.
pub enum Served<K: Keeper, D: Door> {
    /// All were served.
    Ran {
        book: Book<K>,
        /// The doors, in their order.
        doors: Vec<D>,
        feed: D::L,
        feed_end: SessionEnd,
        /// How many calls the keeper's fault answered, how many doors failed, and how many had no
        /// memory for a caller. Each stays at 2^64 - 1 once it is there.
        ledger_faults: u64,
        door_faults: u64,
        door_memory: u64,
    },
    /// There was no memory, and nothing was called.
    Memory(Book<K>, Vec<D>, D::L),
}

/// Serves a feed's link and the callers of all doors at once, on one book, until the feed's session
/// is over and no door is asked any more. Each door has a thread, and so has the feed; where no
/// thread can be made, they are served one after the other.
pub fn serve<R: Threads + Wait + Sync, K: Keeper + Send, D: Door + Send>(
    rt: &R,
    alloc: Global,
    book: Book<K>,
    doors: Vec<D>,
    feed: D::L,
    terms: &V1Terms,
    limits: Limits,
) -> Served<K, D>
where
    D::L: Send,
    requires few { vec_len doors < 2 ^ 32 - 1 }
    requires waits { (0 < limits.idle_turns) × (0 < limits.door_turns) }
    ensures { HasServed (seeing_of D.seen D.L.seen (service_of terms.now limits))
        book doors feed result }
{
    let Ok(parts) = Vec::with_capacity(alloc, doors.len() + 1) else {
        return Served::Memory(book, doors, feed);
    };
    let Ok(pairs) = Vec::with_capacity(alloc, doors.len() + 1) else {
        parts.destroy_empty();
        return Served::Memory(book, doors, feed);
    };
    let count = doors.len() as u32 + 1;
    match Desk::new(alloc, book, count) {
        Ok((desk, passes)) => {
            let room = Room { parts, pairs };
            let work = Attending {
                alloc,
                terms,
                limits,
            };
            run(rt, &work, desk, passes, doors, feed, room)
        }
        Err((book, _)) => {
            parts.destroy_empty();
            pairs.destroy_empty();
            Served::Memory(book, doors, feed)
        }
    }
}

/// Room for all parts, and for each with its pass.
struct Room<D, L, K: Keeper> {
    parts: Vec<ThreadPart<D, L>>,
    pairs: Vec<(ThreadPart<D, L>, Pass<Book<K>>)>,
}

/// Serves the feed's link with the first pass and each door with a later one, all at once, and closes
/// the desk.
fn run<R: Threads + Wait + Sync, K: Keeper + Send, D: Door + Send>(
    rt: &R,
    work: &Attending<'_>,
    desk: Desk<Book<K>>,
    passes: Vec<Pass<Book<K>>>,
    mut doors: Vec<D>,
    feed: D::L,
    room: Room<D, D::L, K>,
) -> Served<K, D>
where
    D::L: Send,
    requires opened { HasJustOpened (λ (seen : BookSeen). seen.events) desk.start desk.count desk
        passes.items }
    requires as_many { vec_len doors + 1 ≡ desk.count }
    requires waits { (0 < work.now.limits.idle_turns) × (0 < work.now.limits.door_turns) }
    requires empty { (room.parts.items ≡ []) × (room.pairs.items ≡ []) }
    requires room { (vec_len doors + 1 ≤ vec_capacity room.parts)
        × (vec_len doors + 1 ≤ vec_capacity room.pairs) }
    ensures { HasServed (seeing_of D.seen D.L.seen (service_of work.now.terms.now work.now.limits))
        desk.start doors feed result }
{
    let Room { mut parts, pairs } = room;
    list(&mut doors, feed, &mut parts);
    let (book, parts) = tend_all(rt, desk, passes, parts, pairs, work);
    let tended = unlist(parts, doors);
    finish(book, tended)
}

/// Says what is left of a book that a desk gave, and of what came back.
fn finish<K: Keeper, D: Door>(book: Book<K>, tended: Tended<D, D::L>) -> Served<K, D>
    ensures { IsFinished book tended result }
{
    let Tended {
        doors,
        link,
        link_end,
        faults,
        door_faults,
        door_memory,
    } = tended;
    book.history_is_kept();
    Served::Ran {
        book,
        doors,
        feed: link,
        feed_end: link_end,
        ledger_faults: faults,
        door_faults,
        door_memory,
    }
}
