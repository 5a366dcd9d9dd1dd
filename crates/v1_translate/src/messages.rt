//! What is asked of the pool, as messages.

ghost use Rattle.std.specs.Prelude.{◌≡◌, ◌≤◌};
ghost use Rattle.mining_msgs.specs.Seen.{mining_message};
ghost use Rattle.v1_translate.specs.Asked as asked;
ghost use Rattle.v1_translate.specs.Submitting.{share_of};

use crate::shares::SentShare;
use block_header::target_of;
use mining_msgs::{Mining, OpenExtendedMiningChannel, SubmitSharesExtended, UpdateChannel};

/// How many bytes of the extranonce are rolled.
const ROLLED_BYTES: u16 = 8;

/// The opening of a channel, by the class of its greatest target.
pub fn open_message(class: u8) -> Mining<'static>
    requires { class ≤ 60 }
    ensures { mining_message result ≡ asked.open_message class }
{
    Mining::OpenExtendedMiningChannel(OpenExtendedMiningChannel {
        request_id: 0,
        user_identity: "",
        nominal_hash_rate: [0; 4],
        max_target: target_of(class),
        min_extranonce_size: ROLLED_BYTES,
    })
}

/// Another target for a channel, by its class.
pub fn update_message(channel: u32, class: u8) -> Mining<'static>
    requires { class ≤ 60 }
    ensures { mining_message result ≡ asked.update_message channel class }
{
    Mining::UpdateChannel(UpdateChannel {
        channel_id: channel,
        nominal_hash_rate: [0; 4],
        maximum_target: target_of(class),
    })
}

/// A share that is sent on.
pub fn share_message<'a>(share: &'a SentShare<'_>) -> Mining<'a>
    ensures { mining_message result ≡ asked.share_message (share_of share.now) }
{
    Mining::SubmitSharesExtended(SubmitSharesExtended {
        channel_id: share.channel,
        sequence_number: share.sequence,
        job_id: share.job,
        nonce: share.nonce,
        ntime: share.ntime,
        version: share.version,
        extranonce: share.extranonce,
    })
}
