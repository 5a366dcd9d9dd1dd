//! Talks of the test miner over a link in memory.

ghost use Rattle.std.specs.Prelude.{◌≤◌, ◌<◌, IfSome};
ghost use Rattle.test_miner.specs.Miners.{IsNewMiner};

use link_turns::{TalkEnd, talk};
use pool_io::{MemSink, MemSource, Piece, Turn};
use pool_network::MemLink;
use std::alloc::Global;
use sv2_types::Str255;
use test_miner::{Miner, MinerEnd, MinerTask};
use trial_cases::{Case, Found, word};

/// Tries a line: tells `ok` and its title, or what was found in place of what it wants.
pub(crate) fn try_line(found: &mut Found, line: &str) {
    let (given, end) = line.rsplit_once('|').unwrap_or(("", line));
    let case = Case { given };
    let mut wanted = Found::new(found.alloc());
    let put = wanted.bytes_of(case.part(5));
    wanted.say(end.trim());
    wanted.say(" ");
    wanted.hex(&put);
    let mut met = Found::new(found.alloc());
    tell_talk(&mut met, case);
    if met.text() == wanted.text() {
        found.say("ok ");
        found.say(case.part(0));
    } else {
        found.say("WRONG ");
        found.say(case.part(0));
        found.say(": ");
        found.say(met.text());
    }
}

/// How a talk ends, and the bytes that the link's peer has then.
fn tell_talk(met: &mut Found, case: Case<'_>) {
    let class = met.number(word(case.part(1), 1));
    let count = met.short_number(word(case.part(1), 2));
    match task(met.alloc(), word(case.part(1), 0), class, count) {
        Some(task) => talk_by(met, case, task),
        None => met.say("no miner is asked for that"),
    }
}

/// The same of a miner with this task.
fn talk_by(met: &mut Found, case: Case<'_>, task: MinerTask)
    requires class { task.class ≤ 60 }
    requires some { 0 < task.count }
{
    match Miner::new(met.alloc(), task) {
        Ok(mut miner) => talk_with(met, case, &mut miner),
        Err(_) => met.done(false),
    }
}

fn talk_with(met: &mut Found, case: Case<'_>, miner: &mut Miner)
    requires new { IsNewMiner miner.old }
{
    let idle_turns = met.number(case.part(2));
    let source = MemSource::new(
        turns_of(met, case.part(4)),
        failing(met, case.part(3), "take"),
    );
    let sink = MemSink::new(Vec::new(met.alloc()), failing(met, case.part(3), "put"));
    let mut link = MemLink::new(source, sink);
    if idle_turns > 0 {
        let end = talk(met.alloc(), &mut link, miner, idle_turns);
        tell_end(met, end);
        met.say(" ");
        met.hex(link.bytes());
    } else {
        met.say("no turn is waited for");
    }
}

/// An end, in words.
fn tell_end(met: &mut Found, end: TalkEnd<MinerEnd>) {
    match end {
        TalkEnd::Ended(MinerEnd::Mined(count)) => {
            met.say("mined ");
            met.tell(&count);
        }
        TalkEnd::Ended(MinerEnd::Ended(count)) => {
            met.say("ended ");
            met.tell(&count);
        }
        TalkEnd::IdleOut => met.say("idle-out"),
        TalkEnd::BytesOut => met.say("bytes-out"),
        TalkEnd::ReadFault => met.say("read-fault"),
        TalkEnd::WriteFault => met.say("write-fault"),
        TalkEnd::Memory => met.done(false),
    }
}

/// A task, where it is one.
fn task(alloc: Global, user: &str, class: u64, count: u32) -> Option<MinerTask>
    ensures { IfSome result (λ task. (task.class ≤ 60) × (0 < task.count)) }
{
    if user.len() > 255 || class > 60 || count == 0 {
        return None;
    }
    let user = Str255::of(alloc, user).ok()?;
    let class = class as u8;
    Some(MinerTask { user, class, count })
}

/// The turns of a link: `idle`, `end`, or the bytes of a piece.
fn turns_of(met: &mut Found, words: &str) -> Vec<Turn> {
    let mut turns = Vec::new(met.alloc());
    for word in words.split_whitespace() {
        let turn = turn_of(met, word);
        met.done(turns.push(turn).is_ok());
    }
    turns
}

fn turn_of(met: &mut Found, word: &str) -> Turn {
    match word {
        "idle" => Turn::Idle,
        "end" => Turn::End,
        digits => {
            let bytes = met.bytes_of(digits);
            if bytes.is_empty() {
                Turn::Idle
            } else {
                Turn::Piece(Piece::of(bytes))
            }
        }
    }
}

/// The number of the call that fails, where it is one of these.
fn failing(met: &mut Found, words: &str, which: &str) -> Vec<u64> {
    let mut calls = Vec::new(met.alloc());
    if word(words, 0) == which {
        let number = met.number(word(words, 1));
        met.done(calls.push(number).is_ok());
    }
    calls
}
