//! Messages of the three protocols: their frames, their defects, and what is too long for them.

use declare_msgs::{Declare, DeclareMiningJob};
use mining_msgs::{Mining, NewExtendedMiningJob, SetExtranoncePrefix};
use sv2_messages::{MsgError, name_of};
use sv2_types::{ReadError, Seq32};
use template_msgs::{NewTemplate, SubmitSolution, Template};
use trial_cases::{Case, Found, Spelling};

/// Tells a message that is read, and writes it as a frame; or tells why there is none.
macro_rules! again {
    ($found:ident, $out:ident, $read:expr) => {
        match $read {
            Ok(message) => {
                $found.debug(&message);
                if message.fits() {
                    $found.done(message.frame($out).is_ok());
                }
            }
            Err(error) => $found.tell(&error),
        }
    };
}

/// Why there is no message, if there is none.
macro_rules! defect {
    ($read:expr) => {
        match $read {
            Ok(_) => None,
            Err(defect) => Some(defect),
        }
    };
}

/// Whether a message fits.
macro_rules! fits {
    ($message:expr) => {
        match &Some($message) {
            Some(message) => message.fits(),
            None => false,
        }
    };
}

pub(crate) fn find(found: &mut Found, case: Case<'_>) {
    match case.part(0) {
        "defect" => {
            let payload = found.bytes_of(case.part(4));
            let kind = (found.hex_number(case.part(3)) & 0xff) as u8;
            found.debug(&defect_of(case.part(1), kind, &payload));
        }
        "fits" => find_fit(found, case.part(1), case.part(2)),
        protocol => find_frame(found, protocol, case),
    }
}

/// The message of a whole frame, by its fields' names; what it is written as where that is another
/// frame; and what is otherwise than it should be.
fn find_frame(found: &mut Found, protocol: &str, case: Case<'_>) {
    let mut frame = found.spelled(case.part(2));
    let kind = frame.bytes.get(2).copied().unwrap_or(0xff);
    let mut written = Vec::new(found.alloc());
    read_message(found, protocol, kind, payload_of(&frame), &mut written);
    if written != frame.bytes {
        found.say(", written ");
        found.hex(&written);
    }
    if name_of(kind) != Some(case.part(1)) {
        found.say(", its kind has another name");
    }
    if !is_short_where_cut(protocol, kind, &frame) {
        found.say(", cut at a byte it isn't short in that field");
    }
    found.done(frame.bytes.push(0).is_ok());
    if defect_of(protocol, kind, payload_of(&frame)) != Some(MsgError::Trailing(1)) {
        found.say(", with a byte more it isn't refused");
    }
}

fn payload_of(frame: &Spelling) -> &[u8] {
    frame.bytes.get(6..).unwrap_or(b"")
}

/// A payload that is cut has its defect in the field that is cut. The frame's first word spells its
/// header, and each of the others a field.
fn is_short_where_cut(protocol: &str, kind: u8, frame: &Spelling) -> bool {
    let payload = payload_of(frame);
    let mut is_short = true;
    for (end, _) in payload.iter().enumerate() {
        let words = frame.words_begun(end.saturating_add(6));
        let short = MsgError::BadField(words.wrapping_sub(2), ReadError::Short);
        is_short &= defect_of(protocol, kind, &payload[..end]) == Some(short);
    }
    is_short
}

/// Reads a message, and writes it again.
fn read_message(found: &mut Found, protocol: &str, kind: u8, payload: &[u8], out: &mut Vec<u8>) {
    match protocol {
        "mining" => again!(found, out, mining_msgs::read(kind, payload)),
        "template" => again!(found, out, template_msgs::read(kind, payload)),
        _ => again!(found, out, declare_msgs::read(kind, payload)),
    }
}

/// Why a payload is no message of its kind.
fn defect_of(protocol: &str, kind: u8, payload: &[u8]) -> Option<MsgError> {
    match protocol {
        "mining" => defect!(mining_msgs::read(kind, payload)),
        "template" => defect!(template_msgs::read(kind, payload)),
        _ => defect!(declare_msgs::read(kind, payload)),
    }
}

/// Whether a message fits that has a field of so many bytes or hashes.
fn find_fit(found: &mut Found, field: &str, count: &str) {
    let count = found.short_number(count);
    let hashes = [[0; 32]; 256];
    let path = Seq32::of(&hashes[..(count as usize).min(256)]);
    match vec![in found.alloc(); 0u8; count as usize] {
        Ok(bytes) if field == "ProvideMissingTransactions.Success.transaction_list" => {
            find_list_fit(found, &bytes, count);
        }
        Ok(bytes) => found.tell(&is_fit(field, &bytes, path)),
        Err(_) => found.done(false),
    }
}

fn is_fit(field: &str, bytes: &[u8], path: Seq32<'_>) -> bool {
    match field {
        "SetExtranoncePrefix.extranonce_prefix" => {
            fits!(Mining::SetExtranoncePrefix(SetExtranoncePrefix {
                channel_id: 1,
                extranonce_prefix: bytes,
            }))
        }
        "NewExtendedMiningJob.merkle_path" => is_fit_job(path),
        "NewTemplate.merkle_path" => is_fit_template(b"", path),
        "NewTemplate.coinbase_prefix" => is_fit_template(bytes, Seq32::of(&[])),
        "SubmitSolution.coinbase_tx" => fits!(Template::SubmitSolution(SubmitSolution {
            template_id: 5,
            version: 0x2000_0000,
            header_timestamp: 1_000_000,
            header_nonce: 0,
            coinbase_tx: bytes,
        })),
        _ => fits!(Declare::DeclareMiningJob(DeclareMiningJob {
            request_id: 1,
            mining_job_token: &[1],
            version: 0,
            coinbase_tx_prefix: &[],
            coinbase_tx_suffix: &[],
            wtxid_list: Seq32::of(&[]),
            excess_data: bytes,
        })),
    }
}

fn is_fit_job(merkle_path: Seq32<'_>) -> bool {
    fits!(Mining::NewExtendedMiningJob(NewExtendedMiningJob {
        channel_id: 1,
        job_id: 1,
        min_ntime: None,
        version: 0x2000_0000,
        version_rolling_allowed: true,
        merkle_path,
        coinbase_tx_prefix: &[],
        coinbase_tx_suffix: &[],
    }))
}

fn is_fit_template(coinbase_prefix: &[u8], merkle_path: Seq32<'_>) -> bool {
    fits!(Template::NewTemplate(NewTemplate {
        template_id: 5,
        future_template: true,
        version: 0x2000_0000,
        coinbase_tx_version: 2,
        coinbase_prefix,
        coinbase_tx_input_sequence: 0xffff_ffff,
        coinbase_tx_value_remaining: 1000,
        coinbase_tx_outputs_count: 0,
        coinbase_tx_outputs: &[],
        coinbase_tx_locktime: 0,
        merkle_path,
    }))
}

/// A list of one transaction can only be read, and not be made.
fn find_list_fit(found: &mut Found, transaction: &[u8], count: u32) {
    let [low, middle, high, _] = count.to_le_bytes();
    let mut payload = Vec::new(found.alloc());
    let header = [0, 0, 0, 0, 1, 0, low, middle, high];
    found.done(payload.extend_from_slice(&header).is_ok());
    found.done(payload.extend_from_slice(transaction).is_ok());
    match declare_msgs::read(0x56, &payload) {
        Ok(message) => found.tell(&message.fits()),
        Err(defect) => found.tell(&defect),
    }
}
