//! One session of both roles over a book on a disk.

ghost use Rattle.std.specs.Prelude.{◌≡◌, ◌<◌, IsTrue, List, Some, false};
ghost use Rattle.pool_io.specs.declared.turn.Turn.{Turn};
ghost use Rattle.pool_history.specs.Accounts.{are_in_range};
ghost use Rattle.v2_sessions.specs.Good.{IsGoodInput};
ghost use Rattle.pool_sessions.specs.Solo.{solo_manner};
ghost use Rattle.ledger_resume.specs.Books.{IsJustOpened};
ghost use Rattle.pool_commands.specs.DurableSessions.{BlamesNoInput, ServesOnDisk};

use ledger_disk::Disk;
use ledger_resume::{NoBook, ready_book};
use pool_history::Rules;
use pool_io::{Limits, Sink, Source};
use pool_sessions::{ServedBook, serve_book};
use std::alloc::Global;
use v2_sessions::SessionEnd;

/// How it ended.
#[derive(Clone, Copy)]
pub enum DiskEnd {
    /// There was no book that can be served on.
    NoBook(NoBook),
    /// The session is over.
    Over(SessionEnd),
}

/// All that was given, and how it ended.
pub struct ServedDisk<S: Source, T: Sink, D: Disk> {
    pub source: S,
    pub sink: T,
    pub disk: D,
    pub end: DiskEnd,
}

/// Serves one session of both roles by the book on a disk that was just opened: a new one of these
/// rules, or the one that is there.
pub fn serve_disk<S: Source, T: Sink, D: Disk>(
    alloc: Global,
    rules: Rules,
    disk: D,
    source: S,
    sink: T,
    limits: Limits,
) -> ServedDisk<S, T, D>
    requires rules { IsTrue (are_in_range rules) }
    requires opened { IsJustOpened (D.seen disk) }
    requires waits { 0 < limits.idle_turns }
    ensures served { ServesOnDisk rules limits.idle_turns (record {
      source = S.seen source;
      sink = T.seen sink;
      disk = D.seen disk;
    }) (record {
      source = S.seen result.source;
      sink = T.seen result.sink;
      disk = D.seen result.disk;
    }) result.end }

    // Input that is to blame for nothing isn't blamed.
    ensures good { (told : List Turn) → (S.seen source).left ≡ Some told
        → IsGoodInput (solo_manner rules false limits.idle_turns) told → BlamesNoInput result.end }
{
    let rolling = rules.version_rolling;
    match ready_book(alloc, rules, disk) {
        Ok(book) => {
            let ServedBook {
                source,
                sink,
                book,
                end,
            } = serve_book(alloc, book, source, sink, rolling, false, limits);
            let (ledger, _history) = book.into_parts();
            ServedDisk {
                source,
                sink,
                disk: ledger.into_disk(),
                end: DiskEnd::Over(end),
            }
        }
        Err((disk, cause)) => ServedDisk {
            source,
            sink,
            disk,
            end: DiskEnd::NoBook(cause),
        },
    }
}
