//! The benchmarks of hashes and of frames: the first word picks what is done, and what comes of it is
//! printed in one line. It measures no time: the scripts that call it do.
#![tactic(auto)]

mod bytes;
mod frames;
mod hash;
mod lanes;
mod messages;
mod numbered;
mod paths;
mod shares;
mod stream;

use crate::lanes::Way;
use anyhow::{Context, Result, bail};
use std::alloc::Global;
use std::rt::Files;
use std::{env, fs};

/// What each first word wants behind it.
const USAGE: &str = "want: hash COUNT, bytes LENGTH COUNT, shares SIBLINGS COUNT, path IDS COUNT, \
        lanes FORM COUNT, singly FORM COUNT, frames, messages or each";

/// What `each` does, but for the two streams.
const SMALL: [(&str, &str, u32); 12] = [
    ("hash", "", 1000),
    ("lanes", "digest-64", 25),
    ("singly", "digest-64", 25),
    ("lanes", "double-64", 25),
    ("singly", "double-64", 25),
    ("lanes", "double-80", 25),
    ("singly", "double-80", 25),
    ("bytes", "98", 3),
    ("shares", "0", 1),
    ("shares", "12", 1000),
    ("path", "1", 2),
    ("path", "12", 100),
];

fn main(rt: HostRuntime) -> Result<()> {
    let alloc = rt.alloc();
    let mut words = env::args(&rt)?;
    let _program = words.next();
    let what = words.next().context(USAGE)?;
    let line = match what.as_str() {
        "each" => return print_each(&rt, alloc),
        "frames" => frames::report(alloc, &mut rt.stdin())?,
        "messages" => messages::report(alloc, &mut rt.stdin())?,
        word => {
            let first = words.next().context(USAGE)?;
            match words.next() {
                Some(count) => line(alloc, word, first.as_str(), number(count.as_str())?)?,
                None => line(alloc, word, "", number(first.as_str())?)?,
            }
        }
    };
    println!(rt; "{line}")?;
    Ok(())
}

/// Prints what comes of each word in small, and of two streams that are kept in hexadecimal.
fn print_each<R: Files + AllocGlobal + Print>(rt: &R, alloc: Global) -> Result<()> {
    for (word, first, count) in &SMALL {
        println!(rt; "{}", line(alloc, word, first, *count)?)?;
    }
    let stream = stream_of(alloc, fs::read_to_string(rt, "frames.txt")?.as_str())?;
    println!(rt; "{}", frames::report(alloc, &mut stream.as_slice())?)?;
    let stream = stream_of(alloc, fs::read_to_string(rt, "messages.txt")?.as_str())?;
    println!(rt; "{}", messages::report(alloc, &mut stream.as_slice())?)?;
    Ok(())
}

/// The bytes that a text has in hexadecimal, a frame in each line.
fn stream_of(alloc: Global, text: &str) -> Result<Vec<u8>> {
    let mut stream = Vec::new(alloc);
    for line in text.lines() {
        let frame = hex::decode(alloc, line)?;
        stream.extend_from_slice(frame.as_slice())?;
    }
    Ok(stream)
}

/// What comes of a word with what it wants in front of its count.
fn line(alloc: Global, word: &str, first: &str, count: u32) -> Result<String> {
    match word {
        "hash" => hash::report(alloc, count),
        "bytes" => bytes::report(alloc, number(first)?, count),
        "shares" => shares::report(alloc, number(first)?, count),
        "path" => paths::report(alloc, number(first)?, count),
        "lanes" => lanes::report(alloc, Way::AtOnce, first, count),
        "singly" => lanes::report(alloc, Way::OneByOne, first, count),
        _ => bail!("{USAGE}"),
    }
}

fn number(digits: &str) -> Result<u32> {
    digits.parse().context(USAGE)
}
