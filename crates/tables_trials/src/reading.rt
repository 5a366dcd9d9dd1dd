//! What several subjects read of a line, and tell.

use std::fmt::Display;
use std::str;
use trial_cases::{Found, word};

/// Tells that an operation can't be carried out.
pub(crate) fn refuse(found: &mut Found) {
    found.say("not to be carried out");
}

/// The text that a word says; `-` is the empty one.
pub(crate) fn text(words: &str, at: usize) -> &str {
    match word(words, at) {
        "-" => "",
        text => text,
    }
}

/// Tells a value, or that there is none.
pub(crate) fn tell_some<T: Display + Drop>(found: &mut Found, value: Option<T>) {
    match value {
        Some(value) => found.tell(&value),
        None => found.say("none"),
    }
}

/// Tells whether something is so.
pub(crate) fn tell_truth(found: &mut Found, is_so: bool) {
    found.say(if is_so { "yes" } else { "no" });
}

/// Tells the lines of a text, each in front of a mark and behind one.
pub(crate) fn tell_lines(found: &mut Found, lines: &[u8], open: &str, close: &str) {
    match str::from_utf8(lines) {
        Ok(text) => {
            for line in text.lines() {
                found.say(open);
                found.say(line);
                found.say(close);
            }
        }
        Err(_) => found.say("no text"),
    }
}
