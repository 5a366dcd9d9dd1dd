//! A counter at a desk: that calls return, that a failed one gives the turn back, and that two threads
//! work at once.

ghost use Rattle.std.specs.Prelude.{◌≡◌, ◌+◌, ◌<◌, ◌^◌, [], ◌∷◌, length, sum};
ghost use Rattle.desk.specs.Machines.{tells_nothing};

use crate::asking::tell_of;
use crate::desks::Pair;
use desk::{CloseError, Desk, Machine, Pass};
use std::sync::Wait;
use std::thread;
use std::thread::Threads;
use trial_cases::Found;

/// The most numbers that are added.
const MOST: usize = (1 << 62) - 1;

/// The number at which the counter breaks.
const BREAKING: u64 = 5;

/// Why a number wasn't added: for want of room, or since the counter broke.
#[derive(Drop)]
pub(crate) struct Broken {
    wants_room: bool,
}

/// A machine that adds numbers up.
#[derive(Drop)]
pub(crate) struct Counter {
    added: Vec<u64>,
    total: u64,
    faults: u64,
    ghost summed: { total ≡ sum added.items },
    ghost few: { length added.items < 2 ^ 62 },
}

impl Machine for Counter {
    type Event = u64;

    type Request = u64;

    type Reply = u64;

    type Fault = Broken;

    ghost events = { λ counter. counter.added.items };

    ghost health = { λ counter. record { faults = counter.faults; tells = tells_nothing } };

    ghost wants_memory = { λ broken. broken.wants_room };

    ghost answers = { λ before caller request added reply.
        (added ≡ request ∷ []) × (reply ≡ sum before + request) };

    fn length(&self) -> u64 {
        self.added.len() as u64
    }

    fn act(&mut self, caller: u32, request: u64) -> Result<u64, Broken> {
        match self.total.checked_add(request) {
            _ if request == BREAKING => {
                self.faults = self.faults.saturating_add(1);
                Err(Broken { wants_room: false })
            }
            Some(total) if self.added.len() < MOST && self.added.push(request).is_ok() => {
                self.total = total;
                Ok(total)
            }
            _ => Err(Broken { wants_room: true }),
        }
    }
}

/// A counter of its own for each line.
pub(crate) fn play<R: Threads + Wait + Sync>(rt: &R, found: &mut Found, words: &str) {
    let counter = Counter {
        added: Vec::new(found.alloc()),
        total: 0,
        faults: 0,
    };
    match Pair::open(found.alloc(), counter) {
        Some(mut pair) if words == "passes" => {
            use_passes(rt, found, &mut pair);
            close_late(found, pair);
        }
        Some(mut pair) if words == "failures" => {
            fail(rt, found, &mut pair);
            close(found, pair);
        }
        Some(pair) => add_in_threads(rt, found, pair, words == "threads by turns"),
        None => found.done(false),
    }
}

/// Adds a number by a pass, and tells what is answered: the front, and the sum or why there is none.
fn add(rt: &impl Wait, found: &mut Found, pair: &mut Pair<Counter>, is_second: bool, number: u64) {
    match pair.act(rt, is_second, number) {
        Ok((front, sum)) => {
            found.tell(&front);
            tell_of(found, " ", &sum);
        }
        Err((front, broken)) => {
            found.tell(&front);
            found.say(if broken.wants_room {
                " no room"
            } else {
                " broken"
            });
        }
    }
    found.say(", ");
}

/// Two passes add, look and meet.
fn use_passes(rt: &impl Wait, found: &mut Found, pair: &mut Pair<Counter>) {
    add(rt, found, pair, false, 1);
    add(rt, found, pair, true, 2);
    tell_of(found, "workers ", &pair.passes.0.worker());
    tell_of(found, " ", &pair.passes.1.worker());
    tell_of(found, ", look ", &pair.desk.look(&mut pair.passes.0));
    let met = pair.desk.meet(&mut pair.passes.0, &mut pair.passes.1);
    tell_of(found, ", meet ", &met);
}

/// Closes a desk by its second pass alone, which is refused, and then by both.
fn close_late(found: &mut Found, pair: Pair<Counter>) {
    let Pair { desk, passes } = pair;
    let (first, second) = passes;
    let mut passes = Vec::new(found.alloc());
    found.done(passes.push(second).is_ok());
    if let Err(refused) = desk.close(passes) {
        let CloseError {
            desk,
            mut passes,
            place,
        } = refused;
        tell_of(found, ", refused at ", &place);
        found.done(passes.push(first).is_ok());
        if let Ok(counter) = desk.close(passes) {
            tell_of(found, ", total ", &counter.total);
        }
    }
}

/// A call that fails gives the turn back, and the number of the call is spent.
fn fail(rt: &impl Wait, found: &mut Found, pair: &mut Pair<Counter>) {
    add(rt, found, pair, false, 1);
    add(rt, found, pair, true, BREAKING);
    add(rt, found, pair, true, 2);
    add(rt, found, pair, false, u64::MAX);
    tell_of(found, "look ", &pair.desk.look(&mut pair.passes.1));
}

/// Closes a desk, and tells what was added, and how many calls failed.
fn close(found: &mut Found, pair: Pair<Counter>) {
    if let Some(counter) = pair.close(found.alloc()) {
        found.say(", added ");
        found.debug(&counter.added.as_slice());
        tell_of(found, ", faults ", &counter.faults);
    }
}

/// Whether so many calls were made before the desk was looked at ten million times. A test ends so
/// also where no other thread is at work.
fn comes_to(desk: &Desk<Counter>, pass: &mut Pass<Counter>, count: u64) -> bool
    requires { pass.old.table ≡ desk.now.table }
    ensures { pass.new.table ≡ pass.old.table }
{
    for _ in 0..10_000_000u32 {
        if desk.look(pass) == count {
            return true;
        }
        thread::yield_now();
    }
    false
}

/// Adds ones 1,000 times, or tens by the second pass, by turns with another thread where that is said,
/// and answers how many calls had a reply. It ends where the other's call doesn't come.
fn add_often(
    rt: &impl Wait,
    desk: &Desk<Counter>,
    mut pass: Pass<Counter>,
    is_second: bool,
    by_turns: bool,
) -> (Pass<Counter>, u64)
    requires { pass.table ≡ desk.now.table }
    ensures { result.0.table ≡ desk.now.table }
{
    let number = if is_second { 10 } else { 1 };
    let mut replies = 0;
    for round in 0..1000u64 {
        if by_turns && !comes_to(desk, &mut pass, 2 * round + u64::from(is_second)) {
            break;
        }
        if desk.act(rt, &mut pass, number).is_ok() {
            replies += 1;
        }
    }
    (pass, replies)
}

/// Two threads, each with a pass.
fn add_in_two_threads<R: Threads + Wait + Sync>(
    rt: &R,
    desk: &Desk<Counter>,
    one: Pass<Counter>,
    other: Pass<Counter>,
    by_turns: bool,
) -> ((Pass<Counter>, u64), (Pass<Counter>, u64))
    requires { (one.table ≡ desk.now.table) × (other.table ≡ desk.now.table) }
    ensures { (result.0.0.table ≡ desk.now.table) × (result.1.0.table ≡ desk.now.table) }
{
    thread::join(
        rt,
        move || -> (Pass<Counter>, u64)
            requires { one.table ≡ desk.now.table }
            ensures { result.0.table ≡ desk.entry.now.table }
        { add_often(rt, desk, one, false, by_turns) },
        move || -> (Pass<Counter>, u64)
            requires { other.table ≡ desk.now.table }
            ensures { result.0.table ≡ desk.entry.now.table }
        { add_often(rt, desk, other, true, by_turns) },
    )
}

/// Tells what two threads come to: how many of their calls had a reply, how many numbers were added
/// and what they add up to, and whether they were added by turns, where that is asked.
fn add_in_threads<R: Threads + Wait + Sync>(
    rt: &R,
    found: &mut Found,
    pair: Pair<Counter>,
    by_turns: bool,
) {
    let Pair { desk, passes } = pair;
    let (one, other) = add_in_two_threads(rt, &desk, passes.0, passes.1, by_turns);
    tell_of(found, "replies ", &one.1);
    tell_of(found, " ", &other.1);
    let passes = (one.0, other.0);
    if let Some(counter) = (Pair { desk, passes }).close(found.alloc()) {
        tell_of(found, ", added ", &counter.added.len());
        tell_of(found, ", total ", &counter.total);
        let mut turns = counter.added.chunks(2);
        let is_as_asked = !by_turns || turns.all(|turn| turn == [1, 10].as_slice());
        found.say(", ");
        found.say(if is_as_asked { "as asked" } else { "otherwise" });
    }
}
