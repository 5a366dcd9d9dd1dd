//! The session, from its keeper to its end.

ghost use Rattle.std.specs.Prelude.{◌≡◌, ◌<◌, [], IsTrue, List, Some};
ghost use Rattle.pool_io.specs.declared.turn.Turn.{Turn};
ghost use Rattle.pool_history.specs.Accounts.{are_in_range};
ghost use Rattle.v2_sessions.specs.Good.{IsGoodEnd, IsGoodInput};
ghost use Rattle.share_ledger.specs.Books.{IsUnused};
ghost use Rattle.share_ledger.specs.Recovery.{IsRecoverable};
ghost use Rattle.pool_sessions.specs.Solo.{BlamesNoInput, ServesBook, ServesSession, manner_of, solo_manner};

use crate::{SoleBook, sole_calls_go_on};
use pool_history::{BookError, Role, Rules};
use pool_io::{Keeper, Limits, Sink, Source};
use pool_network::Streams;
use session_steps::Manner;
use share_ledger::Book;
use std::alloc::Global;
use v2_sessions::{SessionEnd, converse};

/// How it ended.
#[derive(Clone, Copy)]
pub enum SoloEnd {
    /// The first record wasn't kept, so no session began.
    Unbegun(BookError),
    /// The session is over.
    Over(SessionEnd),
}

/// All that was given, and how it ended.
pub struct Solo<S: Source, T: Sink, K: Keeper> {
    pub source: S,
    pub sink: T,
    pub keeper: K,
    pub end: SoloEnd,
}

/// Serves one session of both roles, by a history that begins with these rules and is kept by the
/// keeper. Declarations are taken or not.
pub fn serve_solo<S: Source, T: Sink, K: Keeper>(
    alloc: Global,
    rules: Rules,
    keeper: K,
    source: S,
    sink: T,
    declares: bool,
    limits: Limits,
) -> Solo<S, T, K>
    requires rules { IsTrue (are_in_range rules) }
    requires unused { IsUnused (K.seen keeper).records }
    requires recovers { IsRecoverable (K.seen keeper) (K.may_find keeper) [] }
    requires waits { 0 < limits.idle_turns }
    ensures served { ServesSession rules declares limits.idle_turns (record {
      source = S.seen source;
      sink = T.seen sink;
      keeper = K.seen keeper;
    }) (record {
      source = S.seen result.source;
      sink = T.seen result.sink;
      keeper = K.seen result.keeper;
    }) result.end }

    // Input that is to blame for nothing isn't blamed.
    ensures good { (told : List Turn) → (S.seen source).left ≡ Some told
        → IsGoodInput (solo_manner rules declares limits.idle_turns) told → BlamesNoInput result.end }
{
    let rolling = rules.version_rolling;
    let book = match Book::new(alloc, rules, keeper) {
        Ok(book) => book,
        Err((keeper, cause)) => {
            return Solo {
                source,
                sink,
                keeper,
                end: SoloEnd::Unbegun(cause),
            };
        }
    };
    let ServedBook {
        source,
        sink,
        book,
        end,
    } = serve_book(alloc, book, source, sink, rolling, declares, limits);
    let (keeper, _history) = book.into_parts();
    Solo {
        source,
        sink,
        keeper,
        end: SoloEnd::Over(end),
    }
}

/// The streams and the book that were given, and how the session over them ended.
pub struct ServedBook<S: Source, T: Sink, K: Keeper> {
    pub source: S,
    pub sink: T,
    pub book: Book<K>,
    pub end: SessionEnd,
}

/// Serves one session of both roles over a book, and hands the book back with the session's history. A
/// miner's bits of the version count where `rolling` says so, and its declarations are taken where
/// `declares` does.
pub fn serve_book<S: Source, T: Sink, K: Keeper>(
    alloc: Global,
    book: Book<K>,
    source: S,
    sink: T,
    rolling: bool,
    declares: bool,
    limits: Limits,
) -> ServedBook<S, T, K>
    requires waits { 0 < limits.idle_turns }
    ensures served { ServesBook (manner_of rolling declares limits.idle_turns) book.events (record {
      source = S.seen source;
      sink = T.seen sink;
      keeper = book.keeper;
    }) (record {
      source = S.seen result.source;
      sink = T.seen result.sink;
      keeper = result.book.keeper;
    }) result.end result.book.events }

    // Input that is to blame for nothing isn't blamed.
    ensures good { (told : List Turn) → (S.seen source).left ≡ Some told
        → IsGoodInput (manner_of rolling declares limits.idle_turns) told → IsGoodEnd result.end }
{
    book.history_is_kept();
    let mut streams = Streams { source, sink };
    let mut sole = SoleBook { book, worker: 0 };
    sole_calls_go_on();
    let manner = Manner {
        role: Role::Solo,
        rolling,
        declares,
        idle_turns: limits.idle_turns,
    };
    let end = converse(alloc, &mut streams, &mut sole, manner);
    sole.book.history_is_kept();
    let SoleBook { book, worker: _ } = sole;
    let Streams { source, sink } = streams;
    ServedBook {
        source,
        sink,
        book,
        end,
    }
}
