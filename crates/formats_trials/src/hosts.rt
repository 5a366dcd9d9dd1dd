//! Keepers and hosts in memory, call by call.

use crate::turns::{host_of_file, numbers, turns};
use pool_io::{Host, Keeper, KeptRecord, MemHost, MemKeeper, Script, Source, SureKeeper, Took};
use trial_cases::{Case, Found};

pub(crate) fn find(found: &mut Found, case: Case<'_>) {
    match case.part(0) {
        "keeper" => {
            let failing = numbers(found, case.part(1));
            let mut keeper = MemKeeper::new(found.alloc(), failing);
            find_answers(found, &mut keeper, case.part(2));
            tell_kept(found, keeper.records());
        }
        "sure keeper" => {
            let mut keeper = SureKeeper::new(found.alloc());
            find_answers(found, &mut keeper, case.part(2));
            tell_kept(found, keeper.records());
        }
        _ => find_host(found, case),
    }
}

/// What a keeper answers to records, appended in turn.
pub(crate) fn find_answers<K: Keeper>(found: &mut Found, keeper: &mut K, words: &str) {
    for word in words.split_whitespace() {
        let record = found.bytes_of(word);
        if record.len() <= 300_100 {
            found.say(" ");
            found.debug(&keeper.append(&record));
        }
    }
}

/// The records that are kept.
fn tell_kept(found: &mut Found, records: &[KeptRecord]) {
    found.say(" kept");
    for record in records {
        tell_piece(found, record.bytes());
    }
}

fn tell_piece(found: &mut Found, bytes: &[u8]) {
    found.say(" ");
    found.bytes(bytes);
}

/// What a host answers to calls, one after the other; what came back to it; and the calls it tells.
fn find_host(found: &mut Found, case: Case<'_>) {
    let file = Script {
        contents: turns(found, case.part(2)),
        failing: Vec::new(found.alloc()),
    };
    let mut host = host_of_file(found, "file", file, case.part(1));
    for call in case.part(3).split(',') {
        find_call(found, &mut host, call.trim());
        found.say("; ");
    }
    found.tell(&host.sources().len());
    found.say(" ");
    found.tell(&host.sinks().len());
    found.say(";");
    for keeper in host.keepers() {
        tell_kept(found, keeper.records());
    }
    found.say("; ");
    found.debug(&host.calls());
}

/// What comes of a call. What is opened is handed back.
fn find_call(found: &mut Found, host: &mut MemHost, call: &str) {
    match call.split_once(' ') {
        Some(("source", name)) => match host.open_source(name) {
            Ok(mut source) => {
                find_brought(found, &mut source);
                host.done_source(source);
            }
            Err(error) => found.debug(&error),
        },
        Some((_, name)) => match host.open_keeper(name) {
            Ok(mut keeper) => {
                find_answers(found, &mut keeper, "01 02");
                host.done_keeper(keeper);
            }
            Err(error) => found.debug(&error),
        },
        None if call == "input" => match host.input() {
            Ok(source) => host.done_source(source),
            Err(error) => found.debug(&error),
        },
        None => match host.output() {
            Ok(sink) => host.done_sink(sink),
            Err(error) => found.debug(&error),
        },
    }
}

/// What a source brings, up to its end.
fn find_brought<S: Source>(found: &mut Found, source: &mut S) {
    let mut buffer = [0; 4];
    for _ in 0..100 {
        let took = source.take(&mut buffer);
        match took {
            Took::Bytes(count) => tell_piece(found, &buffer[..count]),
            Took::End => break,
            _ => {
                found.say(" ");
                found.debug(&took);
            }
        }
    }
}
