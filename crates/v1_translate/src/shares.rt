//! Submissions, as they are asked for and as they are sent on.

ghost use Rattle.std.specs.Prelude.{◌≡◌, IfOk, option_map};
ghost use Rattle.serde_json.specs.Find.{get_item};
ghost use Rattle.serde_json.specs.View.{items_view};
ghost use Rattle.v1_translate.specs.Submitting as submitting;

use hex::FromHexError;
use std::alloc::{AllocError, Global};
use v1_lines::{MethodCall, hex_number};

/// How many digits an extranonce has at most.
const MOST_DIGITS: usize = 64;

/// A submission that is asked for; what its digits say is read, but that of the job.
#[derive(Drop)]
pub struct AskedShare<'a> {
    pub worker: &'a str,
    pub job: &'a str,
    pub extranonce: &'a str,
    pub ntime: u32,
    pub nonce: u32,
    pub bits: Option<u32>,
}

/// A share that is sent on.
#[derive(Drop)]
pub struct SentShare<'a> {
    pub channel: u32,
    pub sequence: u32,
    pub job: u32,
    pub nonce: u32,
    pub ntime: u32,
    pub version: u32,
    pub extranonce: &'a [u8],
}

/// What the parameters ask for, where there are five at least, the first six are texts, and time,
/// nonce and bits have 1 to 8 digits.
pub fn asked_share<'a>(call: &MethodCall<'a>) -> Option<AskedShare<'a>>
    ensures { option_map submitting.asked_by result
        ≡ submitting.asked_share (items_view call.now.params.now) }
{
    Some(AskedShare {
        worker: call.text_at(0)?,
        job: call.text_at(1)?,
        extranonce: call.text_at(2)?,
        ntime: hex_number(call.text_at(3)?)?,
        nonce: hex_number(call.text_at(4)?)?,
        bits: bits_in(call)?,
    })
}

/// The bits at the sixth place, which may be left out.
fn bits_in(call: &MethodCall<'_>) -> Option<Option<u32>>
    ensures { result ≡ submitting.bits_in (get_item 5 (items_view call.now.params.now)) }
{
    match call.params.get(5) {
        None => Some(None),
        Some(value) => Some(Some(hex_number(value.as_str()?)?)),
    }
}

/// The bytes of an even number of at most 64 digits.
pub fn extranonce_in(alloc: Global, text: &str) -> Result<Option<Vec<u8>>, AllocError>
    ensures { IfOk result (λ found. option_map (λ bytes. bytes.items) found
        ≡ submitting.extranonce_in text.now) }
{
    if text.len() > MOST_DIGITS {
        return Ok(None);
    }
    match hex::decode(alloc, text) {
        Ok(bytes) => Ok(Some(bytes)),
        Err(FromHexError::OutOfMemory) => Err(AllocError),
        Err(_) => Ok(None),
    }
}
