//! Disks in memory, by themselves, by their names and under ledgers, call by call and crash by crash.

use crate::turns::numbers;
use ledger_disk::{Disk, DiskLedger, Disks, Failures, MemDisk, MemDisks, NamedDisk};
use pool_io::Name;
use trial_cases::{Case, Found, word};

/// A disk of these bytes that fails so.
fn disk_of(found: &mut Found, content: &str, failing: &str) -> MemDisk {
    let disk = MemDisk::new(found.alloc(), found.bytes_of(content));
    disk.with_failures(failures(found, failing))
}

/// Which calls fail: for `3 5 part 1` the calls 3 and 5, of which one byte is done, for `from 3 part 0`
/// each from then on, and without words none.
fn failures(found: &mut Found, failing: &str) -> Failures {
    let (calls, part) = failing.split_once("part").unwrap_or(("", "0"));
    let (listed, from) = match calls.trim().strip_prefix("from") {
        Some(from) => ("", from.trim()),
        None => (calls, "18446744073709551615"),
    };
    Failures {
        listed: numbers(found, listed),
        from: found.number(from),
        part: found.number(part.trim()),
    }
}

/// What a crash leaves by a pick: it takes one of these numbers for each call, round and round.
fn crash(found: &mut Found, disk: MemDisk, words: &str) -> MemDisk {
    let count = words.split_whitespace().count();
    let mut pick = [0; 8];
    for (at, byte) in pick.iter_mut().enumerate() {
        let at = at.checked_rem(count).unwrap_or(0);
        *byte = (found.number(word(words, at)) & 0xff) as u8;
    }
    disk.crash(u64::from_le_bytes(pick))
}

/// What a disk answers to calls, and what a crash leaves.
pub(crate) fn find(found: &mut Found, case: Case<'_>) {
    let mut disk = disk_of(found, case.part(0), case.part(1));
    for call in case.part(2).split(',') {
        find_call(found, &mut disk, call);
        found.say("; ");
    }
    let left = crash(found, disk, case.part(3));
    found.say("left ");
    found.bytes(left.content());
}

fn find_call(found: &mut Found, disk: &mut MemDisk, call: &str) {
    let size = disk.content().len();
    let place = word(call, 1);
    let at = found
        .number(if place.is_empty() { "0" } else { place })
        .min(size as u64);
    match word(call, 0) {
        "write" => {
            let bytes = found.bytes_of(word(call, 2));
            found.debug(&disk.write_at(at, &bytes));
        }
        "cut" => found.debug(&disk.cut(at)),
        "sync" => found.debug(&disk.sync()),
        "length" => found.debug(&disk.length()),
        _ => {
            let mut buffer = [0; 2];
            if 2 <= size && at <= size as u64 - 2 {
                match disk.read_at(at, &mut buffer) {
                    Ok(()) => found.bytes(&buffer),
                    Err(error) => found.debug(&error),
                }
            }
        }
    }
}

/// What comes of openings of named disks, which names are told, and what came back.
pub(crate) fn find_named(found: &mut Found, case: Case<'_>) {
    let named = named_disks(found, case.part(0));
    let failing = numbers(found, case.part(1));
    let mut disks = MemDisks::new(found.alloc(), named, failing).with_failures(failures(
        found,
        case.part(2),
    ));
    for opening in case.part(3).split(',') {
        find_opening(found, &mut disks, opening);
        found.say("; ");
    }
    found.say("told");
    for name in disks.calls() {
        found.say(" ");
        found.say(name.text());
    }
    found.say("; back");
    for disk in disks.disks() {
        found.say(" ");
        found.bytes(disk.content());
    }
}

fn named_disks(found: &mut Found, words: &str) -> Vec<NamedDisk> {
    let mut named = Vec::new(found.alloc());
    for words in words.split(',') {
        if let Some((name, content)) = words.trim().split_once(' ')
            && let Ok(name) = Name::of(found.alloc(), name)
        {
            let content = found.bytes_of(content);
            found.done(named.push(NamedDisk { name, content }).is_ok());
        }
    }
    named
}

/// What the disk of a name holds, and what it answers to a write of some bytes at its beginning; then
/// it is given back.
fn find_opening(found: &mut Found, disks: &mut MemDisks, words: &str) {
    let written = found.bytes_of(word(words, 1));
    match disks.open_disk(word(words, 0)) {
        Ok(mut disk) => {
            found.bytes(disk.content());
            found.say(" ");
            found.debug(&disk.write_at(0, &written));
            disks.done_disk(disk);
        }
        Err(error) => found.debug(&error),
    }
}

/// What a ledger answers to each of some appends, and what is found after a crash.
pub(crate) fn find_ledger(found: &mut Found, case: Case<'_>) {
    let empty = disk_of(found, "-", case.part(0));
    let disk = match DiskLedger::open(found.alloc(), empty) {
        Ok((mut ledger, _entries)) => {
            for entry in case.part(1).split_whitespace() {
                find_append(found, &mut ledger, entry);
            }
            ledger.into_disk()
        }
        Err((disk, error)) => {
            found.debug(&error);
            found.say("; ");
            disk
        }
    };
    let left = crash(found, disk, case.part(2));
    let _disk = open(found, left);
}

fn find_append(found: &mut Found, ledger: &mut DiskLedger<MemDisk>, entry: &str) {
    let entry = found.bytes_of(entry);
    if entry.len() <= 300_100 {
        found.debug(&ledger.append(&entry));
        found.say("; ");
    }
}

/// What an opening finds, what a crash leaves, and what is found then.
pub(crate) fn find_opened(found: &mut Found, case: Case<'_>) {
    let disk = disk_of(found, case.part(0), case.part(1));
    let disk = open(found, disk);
    let left = crash(found, disk, case.part(2));
    found.say("; left ");
    found.bytes(left.content());
    found.say("; ");
    let _disk = open(found, left);
}

/// Opens a disk, tells what is found, and gives it back.
fn open(found: &mut Found, disk: MemDisk) -> MemDisk {
    match DiskLedger::open(found.alloc(), disk) {
        Ok((ledger, entries)) => {
            found.say("found");
            for entry in &entries {
                found.say(" ");
                found.bytes(entry.bytes());
            }
            ledger.into_disk()
        }
        Err((disk, error)) => {
            found.debug(&error);
            disk
        }
    }
}
