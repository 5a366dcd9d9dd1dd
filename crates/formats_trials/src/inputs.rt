//! Whole inputs, and settings by their bytes and from files.

use crate::turns::{host_of_file, numbers, put_piece, turns};
use pool_io::{MemSource, Script};
use pool_settings::{Settings, SettingsError, open_settings, read_settings};
use stream_commands::{Unread, read_whole};
use trial_cases::{Case, Found};

/// What is read of turns up to a limit, or an answer as words.
pub(crate) fn find_whole(found: &mut Found, case: Case<'_>) {
    match case.part(1) {
        "TooLong" => found.tell(&Unread::TooLong),
        "IdleOut" => found.tell(&Unread::IdleOut),
        "ReadFault" => found.tell(&Unread::ReadFault),
        "Memory" => found.tell(&Unread::Memory),
        failing => {
            let failing = numbers(found, failing);
            let turns = turns(found, case.part(2));
            let mut source = MemSource::new(turns, failing);
            let most = found.number(case.part(0)).min(1_000_000);
            match read_whole(found.alloc(), most, &mut source) {
                Ok(contents) => found.bytes(contents.bytes()),
                Err(unread) => found.tell(&unread),
            }
        }
    }
}

/// What settings say, or a refusal as words.
pub(crate) fn find_settings(found: &mut Found, case: Case<'_>) {
    let text = case.part(1);
    match case.part(0) {
        "refusal" if text == "Bad" => found.tell(&SettingsError::Bad),
        "refusal" => found.tell(&SettingsError::Memory),
        "bytes" => {
            let bytes = found.bytes_of(text);
            find_read(found, &bytes, false);
        }
        "padded" => {
            let padded = padded(found, text, case.part(2));
            find_read(found, &padded, false);
        }
        form => find_read(found, text.as_bytes(), form == "says"),
    }
}

fn find_read(found: &mut Found, text: &[u8], is_whole: bool) {
    match read_settings(found.alloc(), text) {
        Ok(settings) if is_whole => found.debug(&settings),
        Ok(settings) => tell_fee(found, &settings),
        Err(error) => found.tell(&error),
    }
}

fn tell_fee(found: &mut Found, settings: &Settings) {
    found.say("fee ");
    found.tell(&settings.rules.fee);
}

/// The fee that a file's settings say. The file is named `pool`, and blanks follow its text up to so
/// many bytes.
pub(crate) fn find_file(found: &mut Found, case: Case<'_>) {
    let bytes = padded(found, case.part(4), case.part(3));
    let mut contents = Vec::new(found.alloc());
    put_piece(found, &mut contents, bytes);
    let failing = numbers(found, case.part(2));
    let mut host = host_of_file(found, "pool", Script { contents, failing }, case.part(1));
    match open_settings(found.alloc(), &mut host, case.part(0)) {
        Ok(settings) => tell_fee(found, &settings),
        Err(error) => found.tell(&error),
    }
}

/// A text, with blanks behind it up to so many bytes.
fn padded(found: &mut Found, text: &str, size: &str) -> Vec<u8> {
    let size = found.short_number(size) as usize;
    let mut bytes = Vec::new(found.alloc());
    found.done(bytes.extend_from_slice(text.as_bytes()).is_ok());
    for _ in text.len()..size {
        found.done(bytes.push(b' ').is_ok());
    }
    bytes
}
