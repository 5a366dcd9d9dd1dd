//! Sessions of lines, over a book to which a feed brings its template while a session asks it, or not.

use crate::asking::{request, tell_summary};
use crate::books::{begun, rules_of};
use crate::links::manner;
use crate::steps::turns_of;
use pool_history::{Note, Reply, Request, Role};
use pool_io::{Keeper, MemSink, MemSource, PIECE_LEN, SureKeeper};
use pool_network::{Link, MemLink};
use pool_sessions::SoleBook;
use share_ledger::Book;
use std::alloc::Global;
use std::str;
use trial_cases::{Case, Found, Trial, word};
use v1_sessions::serve_lines;
use v1_translate::V1Terms;
use v2_sessions::{Acted, Acting, SessionEnd, begin};

/// The worker whose session brings templates.
const FEED: u32 = 1;

/// A book and its miner, before one of whose requests the feed brings the worked session's template
/// and tip.
#[derive(Drop)]
struct FedBook<K: Keeper> {
    sole: SoleBook<K>,
    /// How many requests there are up to that one, with it; none where it is over or never comes.
    left: u32,
    /// What goes wrong when they are brought.
    found: Found,
}

// Nothing is told of what a call does, since the feed's come between.
impl<K: Keeper> Acting for FedBook<K> {
    ghost worker = { λ fed. fed.sole.worker };

    ghost ready = { λ _. Unit {0} };

    ghost does = { λ _ _ _. Unit {0} };

    fn act(&mut self, request: Request) -> Acted {
        if self.left == 1 {
            bring(&mut self.found, &mut self.sole.book);
        }
        self.left = self.left.saturating_sub(1);
        self.sole.act(request)
    }
}

/// The feed brings the worked session's template and tip.
fn bring<K: Keeper>(found: &mut Found, book: &mut Book<K>) {
    for words in ["1 template 5 future", "1 tip 5 11 ff"] {
        let reply = book.act(FEED, request(found, words));
        found.done(reply.is_ok());
    }
}

/// What comes of a case, and in which pieces something else comes of it.
pub(crate) struct Lines;

impl Trial for Lines {
    fn find(found: &mut Found, _subject: &str, case: Case<'_>) {
        find_in(found, case, 0);
        for size in [1, 7, 4_096] {
            let mut cut = Found::new(found.alloc());
            find_in(&mut cut, case, size);
            if cut.text() != found.text() {
                found.say(", otherwise in pieces of ");
                found.tell(&size);
            }
        }
    }
}

/// What comes of a case whose bytes come in pieces of this size.
fn find_in(found: &mut Found, case: Case<'_>, size: usize) {
    let steps = case.given.splitn(3, '|').nth(2).unwrap_or("");
    let turns = turns_of(found, steps, '|', size);
    let source = MemSource::new(turns, Vec::new(found.alloc()));
    let sink = MemSink::new(Vec::new(found.alloc()), Vec::new(found.alloc()));
    let mut link = MemLink::new(source, sink);
    let mut behind = Found::new(found.alloc());
    serve(&mut behind, case.part(1), &mut link);
    for line in str::from_utf8(link.bytes())
        .unwrap_or("no text")
        .split_inclusive('\n')
    {
        found.say(line.trim_end_matches('\n'));
        found.say(if line.ends_with('\n') { "\\n " } else { "" });
    }
    found.say(behind.text());
}

/// Serves a session of a setting over a book of its own.
fn serve<L: Link>(found: &mut Found, setting: &str, link: &mut L) {
    let fed_with = found.short_number(word(setting, 0));
    let base = found.number(word(setting, 1)).min(60) as u8;
    let rolls = word(setting, 2) == "rolls";
    let accounts = setting.splitn(4, ' ').nth(3).unwrap_or("");
    let rules = rules_of(found, rolls, 3, accounts);
    let keeper = SureKeeper::new(found.alloc());
    if let Ok(terms) = rules_of(found, rolls, 3, accounts)
        && let Some(book) = begun(found, rules, keeper)
    {
        serve_over(found, book, &V1Terms::new(terms, base), fed_with, link);
    }
}

/// Serves a session over a book, before one of whose requests the feed brings its template, and tells
/// how it ends, and what came of the book.
fn serve_over<K: Keeper + Drop, L: Link>(
    found: &mut Found,
    mut book: Book<K>,
    terms: &V1Terms,
    fed_with: u32,
    link: &mut L,
) {
    found.done(book.act(FEED, Request::Enter(Role::Feed, 0)).is_ok());
    let mut fed = FedBook {
        sole: SoleBook { book, worker: 0 },
        left: fed_with,
        found: Found::new(found.alloc()),
    };
    let end = talk(found.alloc(), link, &mut fed, terms);
    found.say(fed.found.text());
    found.debug(&end);
    tell_summary(found, &fed.sole.book, (", ", ""));
    tell_solutions(found, &mut fed.sole.book);
}

/// Serves one session from its first bytes on, which are those of lines.
fn talk<L: Link, A: Acting>(
    alloc: Global,
    link: &mut L,
    acting: &mut A,
    terms: &V1Terms,
) -> SessionEnd
    requires { A.ready acting.old }
{
    let manner = manner(Role::Miner, terms.rules().version_rolling);
    let mut buffer = [0; PIECE_LEN];
    match begin(alloc, link, manner, &mut buffer) {
        Ok(first) => {
            let piece = &buffer[..first.count];
            serve_lines(alloc, link, acting, terms, manner, first.waiting, piece)
        }
        Err(end) => end,
    }
}

/// Tells the version of each block that the feed is told of.
fn tell_solutions<K: Keeper>(found: &mut Found, book: &mut Book<K>) {
    if let Ok(Reply::News(_, notes)) = book.act(FEED, Request::Poll(0)) {
        for note in notes.items() {
            if let Note::Solution { version, .. } = note {
                found.say(", solution ");
                found.hex(&version.to_be_bytes());
            }
        }
    }
}
