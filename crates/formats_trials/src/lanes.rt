//! Four hashes at once: a message in each lane, beside other messages in the others.

ghost use Rattle.std.specs.Prelude.{◌<◌};

use sha256_lanes as lanes;
use trial_cases::{Case, Found};

/// The digest of a message by a form of call. Where it isn't the same in each lane, others stand
/// behind it.
pub(crate) fn find(found: &mut Found, case: Case<'_>) {
    let message = found.bytes_of(case.part(2));
    for lane in 0..4 {
        match case.part(0) {
            "common" => find_common(found, &message, lane),
            form => tell_once(found, &digest_in(form, &message, lane)),
        }
    }
}

/// Tells a digest, if it isn't what was told.
fn tell_once(found: &mut Found, digest: &[u8; 32]) {
    let mut once = Found::new(found.alloc());
    once.hex(digest);
    if once.text() != found.text() {
        found.say(once.text());
    }
}

fn digest_in(form: &str, message: &[u8], lane: usize) -> [u8; 32]
    requires { lane < 4 }
{
    match (form, message.len()) {
        ("sha256", 32) => lanes::sha256_32(&beside(message, lane))[lane],
        ("sha256", 64) => lanes::sha256_64(&beside(message, lane))[lane],
        ("sha256", 80) => lanes::sha256_80(&beside(message, lane))[lane],
        ("double", 32) => lanes::double_32(&beside(message, lane))[lane],
        ("double", 64) => lanes::double_64(&beside(message, lane))[lane],
        ("double", 80) => lanes::double_80(&beside(message, lane))[lane],
        ("kept", _) => behind_kept(&sized(message), lane),
        _ => by_blocks(message, lane),
    }
}

/// The message in its lane, and in the others the message with all of its bytes changed.
fn beside<const N: usize>(message: &[u8], lane: usize) -> [[u8; N]; 4] {
    let own = sized(message);
    let mut four = [own, changed(&own, 1), changed(&own, 2), changed(&own, 3)];
    four.swap(0, lane % 4);
    four
}

fn sized<const N: usize>(bytes: &[u8]) -> [u8; N] {
    bytes.try_into().unwrap_or([0; N])
}

fn changed<const N: usize>(message: &[u8; N], by: u8) -> [u8; N] {
    let mut other = *message;
    for byte in &mut other {
        *byte ^= by;
    }
    other
}

/// The digest of the digest of 80 bytes, by what is kept of their first 64.
fn behind_kept(message: &[u8; 80], lane: usize) -> [u8; 32]
    requires { lane < 4 }
{
    let kept = lanes::Kept::behind(&sized(&message[..64]));
    kept.double_80(&beside(&message[64..], lane))[lane]
}

/// The digest of a message that stands with its padding, block by block.
fn by_blocks(padded: &[u8], lane: usize) -> [u8; 32]
    requires { lane < 4 }
{
    let mut state = lanes::initial_hash();
    for block in padded.chunks(64) {
        let next = lanes::compress(state, &beside(block, lane));
        state = next;
    }
    lanes::digests_of(state)[lane]
}

/// The digest of a message's digest, by what the message has in common with others that differ from
/// it in twelve bytes, wherever these stand.
fn find_common(found: &mut Found, message: &[u8], lane: usize)
    requires { lane < 4 }
{
    for place in 0..message.len().saturating_sub(11) {
        let (before, rest) = message.split_at(place);
        let (middle, after) = rest.split_at(12);
        if let Ok(Some(common)) = lanes::CommonText::of(found.alloc(), before, after) {
            tell_once(found, &common.double(&beside(middle, lane))[lane]);
        }
    }
}
