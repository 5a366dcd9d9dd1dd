//! Payloads of messages from the words of a step.

use trial_cases::Found;

/// The bytes of words: a number for `#`, a short text behind `"`, or hexadecimal digits.
pub(crate) fn payload_of(found: &mut Found, words: &str, number: u32) -> Vec<u8> {
    let mut payload = Vec::new(found.alloc());
    for word in words.split_whitespace() {
        put_word(found, &mut payload, word, number);
    }
    payload
}

fn put_word(found: &mut Found, payload: &mut Vec<u8>, word: &str, number: u32) {
    if word == "#" {
        found.done(payload.extend_from_slice(&number.to_le_bytes()).is_ok());
    } else if let Some(text) = word.strip_prefix('"') {
        found.done(payload.push((text.len() & 0xff) as u8).is_ok());
        found.done(payload.extend_from_slice(text.as_bytes()).is_ok());
    } else {
        let bytes = found.bytes_of(word);
        found.done(payload.extend_from_slice(&bytes).is_ok());
    }
}

/// The first and the last number of words, and what stands behind them.
pub(crate) fn range_in<'a>(found: &mut Found, words: &'a str) -> (u32, u32, &'a str) {
    let (first, rest) = words.split_once(' ').unwrap_or(("", ""));
    let (last, message) = rest.split_once(' ').unwrap_or(("", ""));
    (found.short_number(first), found.short_number(last), message)
}
