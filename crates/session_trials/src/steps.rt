//! What comes over a link, by the steps of a case.

use pool_io::{Piece, Turn};
use trial_cases::Found;

/// The turns of steps, which a separator parts: bytes in pieces of this size, whatever step they are
/// of, or those of each step together where it is 0.
pub(crate) fn turns_of(found: &mut Found, steps: &str, separator: char, size: usize) -> Vec<Turn> {
    let mut turns = Vec::new(found.alloc());
    let mut came = Vec::new(found.alloc());
    for step in steps.split(separator) {
        let is_idle = step.trim() == "idle";
        if !is_idle {
            put_step(found, &mut came, step.trim());
        }
        if is_idle || size == 0 {
            put_pieces(found, &mut turns, &mut came, size);
        }
        if is_idle {
            found.done(turns.push(Turn::Idle).is_ok());
        }
    }
    put_pieces(found, &mut turns, &mut came, size);
    turns
}

/// Appends the bytes of a step: a line, a text, or bytes as words spell them.
fn put_step(found: &mut Found, came: &mut Vec<u8>, step: &str) {
    let (form, rest) = step.split_once(' ').unwrap_or((step, ""));
    let bytes = match form {
        "bytes" => found.bytes_of(rest),
        "line" | "text" => Vec::new(found.alloc()),
        _ => found.bytes_of(step),
    };
    found.done(came.extend_from_slice(&bytes).is_ok());
    if form == "line" || form == "text" {
        found.done(came.extend_from_slice(rest.as_bytes()).is_ok());
    }
    if form == "line" {
        found.done(came.push(b'\n').is_ok());
    }
}

/// Makes turns of the bytes that came, and forgets them.
fn put_pieces(found: &mut Found, turns: &mut Vec<Turn>, came: &mut Vec<u8>, size: usize) {
    let size = if size == 0 { came.len() } else { size };
    for piece in came.chunks(size.max(1)) {
        let mut bytes = Vec::new(found.alloc());
        found.done(bytes.extend_from_slice(piece).is_ok());
        if !bytes.is_empty() {
            found.done(turns.push(Turn::Piece(Piece::of(bytes))).is_ok());
        }
    }
    came.clear();
}

/// The numbers of words, but for some first ones.
pub(crate) fn numbers(found: &mut Found, words: &str, first: usize) -> Vec<u64> {
    let mut numbers = Vec::new(found.alloc());
    for word in words.split_whitespace().skip(first) {
        let number = found.number(word);
        found.done(numbers.push(number).is_ok());
    }
    numbers
}
