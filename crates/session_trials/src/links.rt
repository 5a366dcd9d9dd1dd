//! Sessions on links at a desk: how each ends, as its input and the outside bring it.

ghost use Rattle.std.specs.Prelude.{◌≡◌, ◌<◌};

use crate::books::{begun, rules_of};
use crate::desks::Pair;
use crate::steps::{numbers, turns_of};
use pool_history::Role;
use pool_io::{Keeper, MemKeeper, MemSink, MemSource};
use pool_network::{Link, MemLink};
use pool_server::{DeskWorker, serve_link};
use session_steps::Manner;
use share_ledger::Book;
use std::sync::Wait;
use trial_cases::{Found, role, word};
use v1_translate::V1Terms;

/// A session of its own for each line: in a role, over the turns of a link, where a take, a put or an
/// append may fail.
pub(crate) fn play(rt: &impl Wait, found: &mut Found, words: &str) {
    let steps = words.splitn(4, ' ').nth(3).unwrap_or("");
    let turns = turns_of(found, steps, ' ', 0);
    let source = MemSource::new(turns, failing(found, words, "take"));
    let sink = MemSink::new(Vec::new(found.alloc()), failing(found, words, "put"));
    let mut link = MemLink::new(source, sink);
    let keeper = MemKeeper::new(found.alloc(), failing(found, words, "append"));
    let rules = rules_of(found, true, 3, "");
    if let Some(book) = begun(found, rules, keeper) {
        serve(rt, found, book, &mut link, role(word(words, 0)));
    }
    found.say(" ");
    found.bytes(link.bytes());
}

/// The number of the call that fails, where it is one of these.
fn failing(found: &mut Found, words: &str, which: &str) -> Vec<u64> {
    let call = if word(words, 1) == which {
        word(words, 2)
    } else {
        ""
    };
    numbers(found, call, 0)
}

/// Serves a session over a book at a desk of its own, and tells how it ends.
pub(crate) fn serve<K: Keeper + Drop, L: Link>(
    rt: &impl Wait,
    found: &mut Found,
    book: Book<K>,
    link: &mut L,
    role: Role,
) {
    if let Ok(rules) = rules_of(found, true, 3, "")
        && let Some(mut pair) = Pair::open(found.alloc(), book)
    {
        visit(rt, found, &mut pair, link, role, &V1Terms::new(rules, 32));
        if let Some(book) = pair.close(found.alloc()) {
            let (_keeper, _history) = book.into_parts();
        }
    }
}

/// Serves one session on a link by the first pass.
fn visit<K: Keeper, L: Link>(
    rt: &impl Wait,
    found: &mut Found,
    pair: &mut Pair<Book<K>>,
    link: &mut L,
    role: Role,
    terms: &V1Terms,
) {
    let mut asker = DeskWorker {
        rt,
        desk: &pair.desk,
        pass: &mut pair.passes.0,
        faults: 0,
    };
    let end = serve_link(found.alloc(), &mut asker, link, manner(role, true), terms);
    let DeskWorker {
        rt: _,
        desk: _,
        pass: _,
        faults: _,
    } = asker;
    found.debug(&end);
}

/// How sessions are held: they wait for two Idle turns.
pub(crate) fn manner(role: Role, rolling: bool) -> Manner
    ensures { 0 < result.idle_turns }
{
    Manner {
        role,
        rolling,
        declares: false,
        idle_turns: 2,
    }
}
