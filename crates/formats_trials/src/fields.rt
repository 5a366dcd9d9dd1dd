//! Fields of each type: read, written back, and cut.

use std::str;
use sv2_types::{
    Blob, Hashes, ReadError, Reader, Str255, put_b16m, put_b32, put_b64k, put_b255, put_boolean,
    put_f32_bytes, put_option_u32, put_seq_bytes, put_seq_u16, put_seq_u256, put_seq64k_u256,
    put_str255, put_u8, put_u16, put_u24, put_u32, put_u64, put_u256,
};
use trial_cases::{Case, Found};

/// Tells what is read, and writes it back; or tells why nothing is.
macro_rules! again {
    ($found:ident, $out:ident, $read:expr, $put:ident, $value:ident => $told:expr) => {
        match $read {
            Ok($value) => {
                $told;
                $found.done($put($out, $value).is_ok());
            }
            Err(error) => $found.tell(&error),
        }
    };
}

pub(crate) fn find(found: &mut Found, case: Case<'_>) {
    match case.part(0) {
        "owned" => find_copy(found, case),
        "number" => find_number(found, case.part(1)),
        field => find_value(found, field, case.part(1)),
    }
}

/// The value that bytes spell, the bytes that it is written as where they are others, and whether it
/// isn't short where it is cut.
fn find_value(found: &mut Found, field: &str, words: &str) {
    let spelled = found.bytes_of(words);
    let mut written = Vec::new(found.alloc());
    read_field(found, field, &spelled, &mut written);
    if written.is_empty() {
        return;
    }
    if written != spelled {
        found.say(", written ");
        found.bytes(&written);
    }
    if !is_short_where_cut(found, field, &spelled) {
        found.say(", cut at a byte it isn't short");
    }
}

/// The spelling is short where it is cut: at each byte, and in a long one at some of them.
fn is_short_where_cut(found: &Found, field: &str, spelled: &[u8]) -> bool {
    let mut is_short = true;
    for (end, _) in spelled.iter().enumerate() {
        if end <= 300 || end % 65_537 == 0 || end.saturating_add(300) >= spelled.len() {
            is_short &= is_short_at(found, field, &spelled[..end]);
        }
    }
    is_short
}

fn is_short_at(found: &Found, field: &str, cut: &[u8]) -> bool {
    let mut at_cut = Found::new(found.alloc());
    read_field(&mut at_cut, field, cut, &mut Vec::new(found.alloc()));
    at_cut.text() == "the bytes end inside a field"
}

/// Reads a field and writes its value.
fn read_field(found: &mut Found, field: &str, bytes: &[u8], out: &mut Vec<u8>) {
    match field {
        "U8" | "U16" | "U24" | "U32" | "U64" => read_number(found, field, bytes, out),
        "B0_255" | "B0_32" | "B0_64K" | "B0_16M" => read_string(found, field, bytes, out),
        "BOOL" | "OPTION[U32]" | "U256" | "F32" | "STR0_255" => {
            read_value(found, field, bytes, out);
        }
        _ => read_sequence(found, field, bytes, out),
    }
}

fn read_number(found: &mut Found, field: &str, bytes: &[u8], out: &mut Vec<u8>) {
    let mut reader = Reader::new(bytes);
    match field {
        "U8" => again!(found, out, reader.u8(), put_u8, value => found.tell(&value)),
        "U16" => again!(found, out, reader.u16(), put_u16, value => found.tell(&value)),
        "U24" => again!(found, out, reader.u24(), put_u24, value => found.tell(&value)),
        "U32" => again!(found, out, reader.u32(), put_u32, value => found.tell(&value)),
        _ => again!(found, out, reader.u64(), put_u64, value => found.tell(&value)),
    }
}

fn read_value(found: &mut Found, field: &str, bytes: &[u8], out: &mut Vec<u8>) {
    let mut reader = Reader::new(bytes);
    match field {
        "BOOL" => again!(found, out, reader.boolean(), put_boolean, it => found.tell(&it)),
        "U256" => again!(found, out, reader.u256(), put_u256, it => found.bytes(it.bytes())),
        "F32" => again!(found, out, reader.f32_bytes(), put_f32_bytes, it => found.bytes(&it)),
        "STR0_255" => {
            again!(found, out, reader.str255(), put_str255, it => found.bytes(it.as_bytes()));
        }
        _ => again!(found, out, reader.option_u32(), put_option_u32, it => found.debug(&it)),
    }
}

fn read_string(found: &mut Found, field: &str, bytes: &[u8], out: &mut Vec<u8>) {
    let mut reader = Reader::new(bytes);
    match field {
        "B0_255" => again!(found, out, reader.b255(), put_b255, value => found.bytes(value)),
        "B0_32" => again!(found, out, reader.b32(), put_b32, value => found.bytes(value)),
        "B0_64K" => again!(found, out, reader.b64k(), put_b64k, value => found.bytes(value)),
        _ => again!(found, out, reader.b16m(), put_b16m, value => found.bytes(value)),
    }
}

/// How many items there are, and the first four.
fn read_sequence(found: &mut Found, field: &str, bytes: &[u8], out: &mut Vec<u8>) {
    let mut reader = Reader::new(bytes);
    match field {
        "SEQ0_255[U256]" => {
            again!(found, out, reader.seq_u256(), put_seq_u256, it => tell_all(found, it.items()));
        }
        "SEQ0_64K[U256]" => again!(
            found, out, reader.seq64k_u256(), put_seq64k_u256, it => tell_all(found, it.items())
        ),
        "SEQ0_64K[U16]" => again!(found, out, reader.seq_u16(), put_seq_u16, it => {
            found.tell(&it.len());
            found.say(":");
            for at in 0..it.len().min(4) {
                found.say(" ");
                found.debug(&it.get(at));
            }
        }),
        _ => again!(found, out, reader.seq_bytes(), put_seq_bytes, it => {
            found.tell(&it.len());
            found.say(":");
            for at in 0..it.len().min(4) {
                found.say(" ");
                found.bytes(it.get(at).unwrap_or(b"none"));
            }
        }),
    }
}

fn tell_all(found: &mut Found, hashes: &[[u8; 32]]) {
    found.tell(&hashes.len());
    found.say(":");
    for hash in hashes.iter().take(4) {
        found.say(" ");
        found.bytes(hash);
    }
}

/// What an owned copy holds, and what it holds after it was given back.
fn find_copy(found: &mut Found, case: Case<'_>) {
    let bytes = found.bytes_of(case.part(2));
    match case.part(1) {
        "Str255" => find_text(found, str::from_utf8(&bytes).unwrap_or("")),
        "Blob" => find_blob(found, &bytes),
        _ => find_hashes(found, &bytes),
    }
}

fn find_text(found: &mut Found, text: &str) {
    if text.len() <= 255
        && let Ok(copy) = Str255::of(found.alloc(), text)
    {
        found.bytes(copy.text().as_bytes());
        found.say(" ");
        found.bytes(Str255::from_text(copy.into_text()).text().as_bytes());
    }
}

fn find_blob(found: &mut Found, bytes: &[u8]) {
    if let Ok(copy) = Blob::of(found.alloc(), bytes) {
        found.bytes(copy.bytes());
        found.say(" ");
        found.bytes(Blob::from_vec(copy.into_vec()).bytes());
    }
}

fn find_hashes(found: &mut Found, bytes: &[u8]) {
    let mut hashes: Vec<[u8; 32]> = Vec::new(found.alloc());
    for part in bytes.chunks(32) {
        found.done(hashes.push(part.try_into().unwrap_or([0; 32])).is_ok());
    }
    if let Ok(copy) = Hashes::of(found.alloc(), &hashes) {
        tell_all(found, copy.items());
        found.say(" ");
        tell_all(found, Hashes::from_vec(copy.into_vec()).items());
    }
}

fn find_number(found: &mut Found, name: &str) {
    let defect = match name {
        "Short" => ReadError::Short,
        "LengthTooGreat" => ReadError::LengthTooGreat,
        "NotUtf8" => ReadError::NotUtf8,
        _ => ReadError::CountTooGreat,
    };
    found.tell(&(defect as u8));
}
