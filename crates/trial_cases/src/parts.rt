//! The parts of a case, and their words.

use pool_history::{Kind, Role};

/// What a case gives: its parts between bars, all but the last.
#[derive(Clone, Copy)]
pub struct Case<'a> {
    pub given: &'a str,
}

impl<'a> Case<'a> {
    /// A part, counted from 0; empty where there is none.
    pub fn part(&self, at: usize) -> &'a str {
        self.given.split('|').nth(at).unwrap_or("").trim()
    }
}

/// An operation of a line and the answer that it wants; none of an empty line and of one that begins
/// with `#`.
pub fn operation_in(line: &str) -> Option<(&str, &str)> {
    if line.is_empty() || line.starts_with('#') {
        return None;
    }
    Some(line.split_once(" -> ").unwrap_or((line, "an answer")))
}

/// A word of a part, counted from 0; empty where there is none.
pub fn word(part: &str, at: usize) -> &str {
    part.split_whitespace().nth(at).unwrap_or("")
}

/// The kind of channel that a word says.
pub fn kind(word: &str) -> Kind {
    match word {
        "standard" => Kind::Standard,
        "extended" => Kind::Extended,
        _ => Kind::V1,
    }
}

/// The role of a session that a word says.
pub fn role(word: &str) -> Role {
    match word {
        "miner" => Role::Miner,
        "feed" => Role::Feed,
        _ => Role::Solo,
    }
}
