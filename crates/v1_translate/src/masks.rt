//! The bits of a version that a miner rolls (BIP 310, BIP 320).

ghost use Rattle.std.specs.Prelude.{◌≡◌, IsTrue, option_map};
ghost use Rattle.serde_json.specs.View.{view};
ghost use Rattle.v1_translate.specs.Configuring as configuring;
ghost use Rattle.v1_translate.specs.Submitting as submitting;

use serde_json::Value;
use v1_lines::hex_word;

/// The bits that may be rolled (BIP 320).
const ROLLED_BITS: u32 = 0x1fffe000;

/// The bits that may be rolled of those that a miner asks for.
pub fn granted_mask(asked: u32) -> u32
    ensures { result ≡ configuring.granted_mask asked }
{
    asked & ROLLED_BITS
}

/// The mask that an option asks for: eight digits, or all bits where there is none.
pub fn asked_mask(option: Option<&Value>) -> Option<u32>
    ensures { result ≡ configuring.asked_mask (option_map (λ value. view value.now) option.entry) }
{
    match option {
        None => Some(u32::MAX),
        Some(value) => hex_word(value.as_str()?),
    }
}

/// Whether the bits that are rolled are within the mask.
pub fn are_within(mask: u32, bits: Option<u32>) -> bool
    ensures { result ≡ submitting.are_within mask bits }
{
    match bits {
        None => true,
        Some(bits) => bits & !mask == 0,
    }
}

/// A job's version with the bits that are rolled, or as it is.
pub fn rolled_version(version: u32, mask: u32, bits: Option<u32>) -> u32
    ensures { result ≡ submitting.rolled_version version mask bits }
{
    match bits {
        None => version,
        Some(bits) => version & !mask | bits,
    }
}
