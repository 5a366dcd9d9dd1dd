//! Turns, scripts and hosts in memory, from words.

use pool_io::{MemFile, MemHost, Name, Piece, Script, Turn};
use trial_cases::Found;

/// The turns that words tell: `-` is an Idle answer, maybe with how often it comes; other words are
/// a piece each.
pub(crate) fn turns(found: &mut Found, words: &str) -> Vec<Turn> {
    let mut turns = Vec::new(found.alloc());
    for word in words.split_whitespace() {
        match word.strip_prefix("-") {
            Some(times) => put_idles(found, &mut turns, times.strip_prefix("*").unwrap_or("1")),
            None => {
                let piece = found.bytes_of(word);
                put_piece(found, &mut turns, piece);
            }
        }
    }
    turns
}

fn put_idles(found: &mut Found, turns: &mut Vec<Turn>, times: &str) {
    for _ in 0..found.number(times) {
        found.done(turns.push(Turn::Idle).is_ok());
    }
}

/// One more turn that brings these bytes, if there are any.
pub(crate) fn put_piece(found: &mut Found, turns: &mut Vec<Turn>, bytes: Vec<u8>) {
    if !bytes.is_empty() {
        found.done(turns.push(Turn::Piece(Piece::of(bytes))).is_ok());
    }
}

/// The numbers of the calls that are to fail.
pub(crate) fn numbers(found: &mut Found, words: &str) -> Vec<u64> {
    let mut numbers = Vec::new(found.alloc());
    for word in words.split_whitespace() {
        let number = found.number(word);
        found.done(numbers.push(number).is_ok());
    }
    numbers
}

/// A script none of whose calls fail.
fn script<T>(found: &Found) -> Script<T> {
    Script {
        contents: Vec::new(found.alloc()),
        failing: Vec::new(found.alloc()),
    }
}

/// A host with one file, whose opening calls of these numbers fail, and whose first keeper fails at
/// its first append.
pub(crate) fn host_of_file(
    found: &mut Found,
    name: &str,
    file: Script<Turn>,
    failing: &str,
) -> MemHost {
    let mut files = Vec::new(found.alloc());
    match Name::of(found.alloc(), name) {
        Ok(name) => found.done(files.push(MemFile { name, script: file }).is_ok()),
        Err(_) => found.done(false),
    }
    let failing = numbers(found, failing);
    let failing_appends = numbers(found, "0");
    MemHost::new(found.alloc(), script(found), script(found), failing).with_files(
        files,
        failing_appends,
    )
}
