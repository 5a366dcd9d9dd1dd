//! Files whose lines are each tried by themselves, by calls that may wait.

use crate::{counter, links, pieces};
use std::rt::Files;
use std::sync::Wait;
use std::thread::Threads;
use std::{fs, io};
use trial_cases::{Found, Tried, operation_in};

/// Tries the lines of a file, whose first case has this title.
pub(crate) fn try_plays<R: Files + Print + AllocGlobal + Threads + Wait + Sync>(
    rt: &R,
    file: &str,
    title: &str,
) -> io::Result<()> {
    let text = fs::read_to_string(rt, file)?;
    let mut tried = Tried::new(rt.alloc());
    tried.begin(file, title);
    for line in text.lines() {
        if let Some(title) = line.strip_prefix("case ") {
            tried.begin(file, title);
        } else if let Some((operation, want)) = operation_in(line) {
            let mut found = Found::new(rt.alloc());
            play(rt, &mut found, file, operation);
            tried.compare(operation, want, &found);
        }
    }
    println!(rt; "{}", tried.told())
}

/// Tells what comes of a line's words.
fn play<R: Threads + Wait + Sync>(rt: &R, found: &mut Found, file: &str, words: &str) {
    match file {
        "pieces.txt" => pieces::play(rt, found, words),
        "counter.txt" => counter::play(rt, found, words),
        _ => links::play(rt, found, words),
    }
}
