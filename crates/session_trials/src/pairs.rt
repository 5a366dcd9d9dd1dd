//! A book at a desk: two threads book each share once, and a pass that met no other is told of another
//! worker's template and tip.

ghost use Rattle.std.specs.Prelude.{◌≡◌};

use crate::asking::{request, share, tell_of, tell_reply, tell_summary};
use crate::books::{begun, rules_of};
use crate::desks::Pair;
use desk::{Desk, Pass};
use pool_history::{Reply, Request, Submission};
use pool_io::{Keeper, SureKeeper};
use share_headers::{check, rolled_length};
use share_ledger::Book;
use std::rt::Files;
use std::sync::Wait;
use std::thread::Threads;
use std::{fs, io, thread};
use trial_cases::{Found, Tried, operation_in};

type Sure = Book<SureKeeper>;

/// How often each thread submits, with two calls each time.
const SUBMISSIONS: u32 = 500;

/// Tries a file, which is the case of this title: the lines of two workers first, each by its own
/// pass, and then what two threads do behind them.
pub(crate) fn try_desk<R: Files + Print + AllocGlobal + Threads + Wait + Sync>(
    rt: &R,
    file: &str,
    title: &str,
) -> io::Result<()> {
    let text = fs::read_to_string(rt, file)?;
    let mut tried = Tried::new(rt.alloc());
    tried.begin(file, title);
    let mut found = Found::new(rt.alloc());
    let rules = rules_of(&mut found, true, 1000, "");
    if let Some(book) = begun(&mut found, rules, SureKeeper::new(rt.alloc()))
        && let Some(mut pair) = Pair::open(rt.alloc(), book)
    {
        go(rt, &mut tried, &mut found, &mut pair, text.as_str());
        submit_in_threads(rt, &mut found, pair);
    }
    let threads = text
        .lines()
        .find_map(|line| line.strip_prefix("threads -> "));
    tried.compare("threads", threads.unwrap_or("an answer"), &found);
    println!(rt; "{}", tried.told())
}

/// Carries out the lines of two workers, by the first pass for worker 0 and else by the second.
fn go<K: Keeper + Drop>(
    rt: &impl Wait,
    tried: &mut Tried,
    found: &mut Found,
    pair: &mut Pair<Book<K>>,
    text: &str,
) {
    for line in text.lines() {
        if let Some((operation, want)) = operation_in(line)
            && operation != "threads"
        {
            let request = request(found, operation);
            match pair.act(rt, !operation.starts_with("0 "), request) {
                Ok((_, reply)) => tell_reply(found, &reply),
                Err((_, error)) => found.tell(&error),
            }
            tried.compare(operation, want, found);
            found.clear();
        }
    }
}

/// Has a share judged, hashed outside the turn, and booked; tells whether it was credited.
fn submit<K: Keeper>(
    rt: &impl Wait,
    desk: &Desk<Book<K>>,
    pass: &mut Pass<Book<K>>,
    share: Submission,
) -> bool
    requires { pass.old.table ≡ desk.now.table }
    ensures { pass.new.table ≡ pass.old.table }
{
    if let Ok((_, Reply::Brief(brief))) = desk.act(rt, pass, Request::Brief(share))
        && rolled_length(brief.kind, &brief.lead) == share.extranonce_len
    {
        let booked = desk.act(rt, pass, Request::Commit(check(brief, share)));
        matches!(booked, Ok((_, Reply::Credited(_))))
    } else {
        false
    }
}

/// Submits each share of a channel twice, and tells how often one was credited.
fn submit_each_twice<K: Keeper>(
    rt: &impl Wait,
    desk: &Desk<Book<K>>,
    mut pass: Pass<Book<K>>,
    channel: u32,
) -> (Pass<Book<K>>, u32)
    requires { pass.table ≡ desk.now.table }
    ensures { result.0.table ≡ desk.now.table }
{
    let mut credits = 0;
    for number in 0..SUBMISSIONS {
        if submit(rt, desk, &mut pass, share(channel, number / 2)) {
            credits += 1;
        }
    }
    (pass, credits)
}

/// Two threads, each with a pass, and a channel of its own.
fn submit_in_two_threads<R: Threads + Wait + Sync>(
    rt: &R,
    desk: &Desk<Sure>,
    first: Pass<Sure>,
    second: Pass<Sure>,
) -> ((Pass<Sure>, u32), (Pass<Sure>, u32))
    requires { (first.table ≡ desk.now.table) × (second.table ≡ desk.now.table) }
    ensures { (result.0.0.table ≡ desk.now.table) × (result.1.0.table ≡ desk.now.table) }
{
    thread::join(
        rt,
        move || -> (Pass<Sure>, u32)
            requires { first.table ≡ desk.now.table }
            ensures { result.0.table ≡ desk.entry.now.table }
        { submit_each_twice(rt, desk, first, 1) },
        move || -> (Pass<Sure>, u32)
            requires { second.table ≡ desk.now.table }
            ensures { result.0.table ≡ desk.entry.now.table }
        { submit_each_twice(rt, desk, second, 2) },
    )
}

/// Tells what two threads come to: how often each had a share credited, how many calls there were, and
/// what the book says then.
fn submit_in_threads<R: Threads + Wait + Sync>(rt: &R, found: &mut Found, pair: Pair<Sure>) {
    let Pair { desk, passes } = pair;
    let (mut one, other) = submit_in_two_threads(rt, &desk, passes.0, passes.1);
    tell_of(found, "credited ", &one.1);
    tell_of(found, " ", &other.1);
    tell_of(found, " calls ", &desk.look(&mut one.0));
    found.say(" ");
    let passes = (one.0, other.0);
    if let Some(book) = (Pair { desk, passes }).close(found.alloc()) {
        tell_summary(found, &book, ("[", "]"));
        let (_keeper, _history) = book.into_parts();
    }
}
