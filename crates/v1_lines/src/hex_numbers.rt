//! Numbers in hexadecimal digits.

ghost use Rattle.std.specs.Prelude.{◌≡◌, ◌-◌, ◌≤◌, ◌++◌, IfOk, length, replicate, string_bytes};
ghost use Rattle.v1_lines.specs.HexNumbers as numbers;

use hex::FromHex;
use std::alloc::{AllocError, Global};

/// How many digits a number has at most.
const MOST_DIGITS: usize = 8;

/// The number that 1 to 8 digits in either case say, the most significant first.
pub fn hex_number(text: &str) -> Option<u32>
    ensures { result ≡ numbers.hex_number text.now }
{
    if 1 <= text.len() && text.len() <= MOST_DIGITS {
        number_in(padded(text))
    } else {
        None
    }
}

/// The number that just eight digits say.
pub fn hex_word(text: &str) -> Option<u32>
    ensures { result ≡ numbers.hex_word text.now }
{
    if text.len() == MOST_DIGITS {
        hex_number(text)
    } else {
        None
    }
}

/// The digits, with zeros before them.
fn padded(text: &str) -> [u8; 8]
    requires { length text.now ≤ 8 }
    ensures { result ≡ replicate (8 - length text.now) 48 ++ text.now }
{
    let mut digits = [b'0'; MOST_DIGITS];
    digits[MOST_DIGITS - text.len()..].copy_from_slice(text.as_bytes());
    digits
}

/// The number that eight digits say.
fn number_in(digits: [u8; 8]) -> Option<u32>
    ensures { result ≡ numbers.number_behind 0 digits }
{
    match <[u8; 4]>::from_hex(&digits) {
        Ok(bytes) => Some(u32::from_be_bytes(bytes)),
        Err(_) => None,
    }
}

/// A number as eight lower case digits, the most significant first.
pub fn word_text(alloc: Global, word: u32) -> Result<String, AllocError>
    ensures { IfOk result (λ text. string_bytes text ≡ numbers.word_text word) }
{
    hex::encode(alloc, word.to_be_bytes())
}

/// A number as lower case digits without leading zeros.
pub fn number_text(alloc: Global, number: u32) -> Result<String, AllocError>
    ensures { IfOk result (λ text. string_bytes text ≡ numbers.number_text number) }
{
    format!(in alloc; "{number:x}")
}
