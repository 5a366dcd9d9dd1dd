//! A generated session's frames, each by itself.

ghost use Rattle.std.specs.Prelude.{◌≡◌, ◌≤◌, ◌<◌, ◌++◌, OnOk};
ghost use Rattle.load_command.specs.Frames as frames;

use block_header::target_of;
use mining_msgs::{Mining, OpenExtendedMiningChannel, SubmitSharesExtended, put_plain_setup};
use std::alloc::AllocError;
use sv2_types::{Seq32, U256};
use template_msgs::{NewTemplate, SetNewPrevHash, Template};

/// Appends the setup of a connection that mines and sends templates.
pub(crate) fn put_setup(out: &mut Vec<u8>) -> Result<(), AllocError>
    ensures { OnOk result (out.new.items ≡ out.old.items ++ frames.setup_frame) }
{
    put_plain_setup(out, 0)
}

/// Appends the request with a number for a channel.
pub(crate) fn put_opening(out: &mut Vec<u8>, number: u32) -> Result<(), AllocError>
    ensures { OnOk result (out.new.items ≡ out.old.items ++ frames.opening_frame number) }
{
    // In a tuple, since no proof covers a local of an enum whose structs borrow.
    let opening = (
        Mining::OpenExtendedMiningChannel(OpenExtendedMiningChannel {
            request_id: number,
            user_identity: user_name(number),
            nominal_hash_rate: [0; 4],
            max_target: target_of(0),
            min_extranonce_size: 8,
        }),
    );
    opening.0.frame(out)
}

/// The name of one of five users.
fn user_name(number: u32) -> &'static str
    ensures { result.now ≡ frames.user_name number }
{
    match number % 5 {
        0 => "u0",
        1 => "u1",
        2 => "u2",
        3 => "u3",
        _ => "u4",
    }
}

/// Appends a future template, and the tip that makes its job live.
pub(crate) fn put_job(out: &mut Vec<u8>, id: u64) -> Result<(), AllocError>
    ensures { OnOk result (out.new.items ≡ out.old.items ++ frames.job_frames id) }
{
    put_template(out, id)?;
    put_tip(out, id)
}

fn put_template(out: &mut Vec<u8>, id: u64) -> Result<(), AllocError>
    ensures { OnOk result (out.new.items ≡ out.old.items ++ frames.template_frame id) }
{
    let template = (
        Template::NewTemplate(NewTemplate {
            template_id: id,
            future_template: true,
            version: 0x2000_0000,
            coinbase_tx_version: 2,
            coinbase_prefix: &[0x51, 0x51],
            coinbase_tx_input_sequence: 0xffff_ffff,
            coinbase_tx_value_remaining: 5_000_000_000,
            coinbase_tx_outputs_count: 0,
            coinbase_tx_outputs: &[],
            coinbase_tx_locktime: 0,
            merkle_path: Seq32::of(&[]),
        }),
    );
    template.0.frame(out)
}

fn put_tip(out: &mut Vec<u8>, id: u64) -> Result<(), AllocError>
    ensures { OnOk result (out.new.items ≡ out.old.items ++ frames.tip_frame id) }
{
    let tip = (
        Template::SetNewPrevHash(SetNewPrevHash {
            template_id: id,
            prev_hash: U256::of([(id % 256) as u8; 32]),
            header_timestamp: 1_000_000,
            nbits: 0x207f_ffff,
            target: target_of(9),
        }),
    );
    tip.0.frame(out)
}

/// Appends the share of a step, which a random number places, after so many templates.
pub(crate) fn put_share(
    out: &mut Vec<u8>,
    step: u32,
    templates: u32,
    random: u32,
) -> Result<(), AllocError>
    requires { templates < 1000 }
    ensures { OnOk result (out.new.items
        ≡ out.old.items ++ frames.share_frame step templates random) }
{
    let share = (
        Mining::SubmitSharesExtended(SubmitSharesExtended {
            channel_id: 1 + random % 18,
            sequence_number: step,
            job_id: 1 + (random >> 8) % (templates + 1),
            nonce: (random >> 16) % 4096,
            ntime: 1_000_000,
            version: 0x2000_0000,
            extranonce: &[0; 8],
        }),
    );
    share.0.frame(out)
}
