//! The host and the network that a case describes.

use crate::case::{Case, numbers};
use crate::expressions::{Names, number};
use crate::links::{CaseDoor, Gate, Gated, GatedLink, Progress};
use anyhow::{Result, bail};
use ledger_records::{MAGIC, chain, magic_hash};
use pool_io::{FailingCalls, MemFile, MemHost, Name, Piece, Script, Turn};
use pool_network::{Arrival, MemDoor, MemNetwork};
use std::alloc::Global;
use std::collections::VecDeque;
use std::mem;

/// The network of a case.
pub type CaseNetwork<'a> = MemNetwork<GatedLink<'a>, CaseDoor<'a>>;

/// The host of a case, whose bytes come in pieces of at most so many.
pub fn host_of(alloc: Global, names: &Names, case: &Case<'_>, size: usize) -> Result<MemHost> {
    let input = Script {
        contents: turns_of(alloc, names, case.last("input").unwrap_or(""), size)?,
        failing: case.numbers(alloc, "fail-take")?,
    };
    let output = Script {
        contents: Vec::new(alloc),
        failing: case.numbers(alloc, "fail-put")?,
    };
    let mut files = Vec::new(alloc);
    for line in case.lines().iter().rev() {
        if line.key == "file" {
            files.push(file_of(alloc, names, case, line.rest, size)?)?;
        }
    }
    let host = MemHost::new(alloc, input, output, case.numbers(alloc, "fail-open")?);
    Ok(host.with_files(files, case.numbers(alloc, "fail-append")?))
}

/// The file of a line: its name and its turns.
fn file_of(
    alloc: Global,
    names: &Names,
    case: &Case<'_>,
    line: &str,
    size: usize,
) -> Result<MemFile> {
    let (name, turns) = line.split_once(' ').unwrap_or((line, ""));
    let contents = match turns.strip_prefix("chained ") {
        Some(records) => {
            let mut contents = Vec::new(alloc);
            let mut bytes = chained(alloc, names, records)?;
            add_pieces(alloc, &mut contents, &mut bytes, size)?;
            contents
        }
        None => turns_of(alloc, names, turns, size)?,
    };
    Ok(MemFile {
        name: Name::of(alloc, name)?,
        script: Script {
            contents,
            failing: case.numbers(alloc, "fail-read")?,
        },
    })
}

/// The ledger of format 2 whose records the words stand for: each with the hash over it and all
/// before it. Behind the records, words that cut or change stand for themselves.
fn chained(alloc: Global, names: &Names, records: &str) -> Result<Vec<u8>> {
    let mut bytes = MAGIC.to_vec(alloc)?;
    let mut hash = magic_hash();
    for word in records.split_whitespace() {
        if word.starts_with("..") || word.contains('^') {
            names.add_word(&mut bytes, word)?;
            continue;
        }
        let record = names.bytes_of(word)?;
        hash = chain(&hash, &record);
        bytes.extend_from_slice(&record)?;
        bytes.extend_from_slice(&hash)?;
    }
    Ok(bytes)
}

/// The turns of a line: bytes are a piece up to `|`, `idle` or `end`; `idle*N` is that many.
fn turns_of(alloc: Global, names: &Names, line: &str, size: usize) -> Result<Vec<Turn>> {
    let mut turns = Vec::new(alloc);
    let mut bytes = Vec::new(alloc);
    for word in line.split_whitespace() {
        let (first, count) = word.split_once('*').unwrap_or((word, "1"));
        match first {
            "|" => add_pieces(alloc, &mut turns, &mut bytes, size)?,
            "end" => {
                add_pieces(alloc, &mut turns, &mut bytes, size)?;
                turns.push(Turn::End)?;
            }
            "idle" => {
                add_pieces(alloc, &mut turns, &mut bytes, size)?;
                add_idle_turns(&mut turns, number(count)?)?;
            }
            _ => names.add_word(&mut bytes, word)?,
        }
    }
    add_pieces(alloc, &mut turns, &mut bytes, size)?;
    Ok(turns)
}

/// Adds bytes in pieces of at most so many, and takes them away.
fn add_pieces(
    alloc: Global,
    turns: &mut Vec<Turn>,
    bytes: &mut Vec<u8>,
    size: usize,
) -> Result<()> {
    for piece in bytes.chunks(size.max(1)) {
        if !piece.is_empty() {
            turns.push(Turn::Piece(Piece::of(piece.to_vec(alloc)?)))?;
        }
    }
    bytes.clear();
    Ok(())
}

fn add_idle_turns(turns: &mut Vec<Turn>, count: u64) -> Result<()> {
    for _ in 0..count {
        turns.push(Turn::Idle)?;
    }
    Ok(())
}

/// The network of a case: the feed's link, where there is one, and doors with their callers.
pub fn network_of<'a>(
    alloc: Global,
    names: &Names,
    case: &Case<'_>,
    progress: &'a [Progress],
) -> Result<CaseNetwork<'a>> {
    let mut to_dial = VecDeque::new(alloc);
    if let Some(frames) = case.last("feed") {
        to_dial.push_back(link_of(alloc, names, case, frames, 0, progress)?)?;
    }
    let mut doors = Vec::new(alloc);
    for door in 0..number(case.last("doors").unwrap_or("0"))? {
        let coming = coming_to(alloc, names, case, door, progress)?;
        let failing = case.numbers(alloc, "fail-accept")?;
        let is_starved = case.last("starved").is_some();
        let opened = MemDoor::new(alloc, coming, failing);
        doors.push(CaseDoor::new(opened, is_starved))?;
    }
    Ok(MemNetwork::new(alloc, to_dial, doors))
}

/// Those who come to a door. The callers of all doors have the places 1, 2 and so on.
fn coming_to<'a>(
    alloc: Global,
    names: &Names,
    case: &Case<'_>,
    door: u64,
    progress: &'a [Progress],
) -> Result<VecDeque<Arrival<GatedLink<'a>>>> {
    let mut coming = VecDeque::new(alloc);
    let mut place = 0usize;
    for line in case.lines() {
        let (at, frames) = line.rest.split_once(' ').unwrap_or((line.rest, ""));
        if line.key == "caller" {
            place = place.saturating_add(1);
            if number(at)? == door {
                let link = link_of(alloc, names, case, frames, place, progress)?;
                coming.push_back(Arrival::Caller(link))?;
            }
        } else if line.key == "nobody" && number(at)? == door {
            coming.push_back(Arrival::Idle)?;
        }
    }
    Ok(coming)
}

/// The link at a place that brings these frames: each behind its gate `@PLACE:BYTES` or
/// `@PLACE#FRAMES`.
fn link_of<'a>(
    alloc: Global,
    names: &Names,
    case: &Case<'_>,
    frames: &str,
    place: usize,
    progress: &'a [Progress],
) -> Result<GatedLink<'a>> {
    let mut coming = VecDeque::new(alloc);
    let mut gate = Gated {
        place,
        gate: Gate::Taken(0),
        frame: Vec::new(alloc),
        given: 0,
    };
    let mut is_first = true;
    for word in frames.split_whitespace() {
        let Some(opened_by) = word.strip_prefix("@") else {
            names.add_word(&mut gate.frame, word)?;
            continue;
        };
        let next = gate_of(alloc, opened_by)?;
        let before = mem::replace(&mut gate, next);
        if !is_first {
            coming.push_back(before)?;
        }
        is_first = false;
    }
    coming.push_back(gate)?;
    Ok(GatedLink {
        coming,
        held: Vec::new(alloc),
        place,
        given: 0,
        takes: FailingCalls::of(failing_at(alloc, case, "fail-link-take", place)?),
        puts: FailingCalls::of(failing_at(alloc, case, "fail-link-put", place)?),
        is_over: false,
        progress,
    })
}

/// The numbers of the calls that fail, which the last line with a key lists behind a link's place.
fn failing_at(alloc: Global, case: &Case<'_>, key: &str, place: usize) -> Result<Vec<u64>> {
    for line in case.lines().iter().rev() {
        let (at, calls) = line.rest.split_once(' ').unwrap_or((line.rest, ""));
        if line.key == key && number(at)? == place as u64 {
            return numbers(alloc, calls);
        }
    }
    Ok(Vec::new(alloc))
}

/// A gate, `PLACE:BYTES` or `PLACE#FRAMES`, before a frame without bytes.
fn gate_of(alloc: Global, text: &str) -> Result<Gated> {
    let (place, gate) = if let Some((place, bytes)) = text.split_once(':') {
        (place, Gate::Taken(number(bytes)?))
    } else if let Some((place, frames)) = text.split_once('#') {
        (place, Gate::Met(number(frames)?))
    } else {
        bail!("{text} is no gate");
    };
    Ok(Gated {
        place: number(place)? as usize,
        gate,
        frame: Vec::new(alloc),
        given: 0,
    })
}
