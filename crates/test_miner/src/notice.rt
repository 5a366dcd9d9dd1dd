//! What a frame says to a miner.

ghost use Rattle.std.specs.Prelude.{◌≡◌};
ghost use Rattle.mining_msgs.specs.Seen.{mining_message};
ghost use Rattle.test_miner.specs.Notices.{is_heard_kind, meaning, notice_in, unread_notice};

use mining_msgs::{Mining, NewMiningJob, SetNewPrevHash, read};
use sv2_frames::Frame;
use sv2_messages::kinds;

/// The channel bit of an extension type, which isn't looked at.
pub(crate) const CHANNEL_BIT: u16 = 0x8000;

/// What a miner makes of one frame.
#[derive(Clone, Copy)]
pub enum Notice {
    /// The connection is accepted, with this version.
    SetUp(u16),
    /// The connection or a channel is refused.
    Refused,
    /// The request of this id has opened the channel of that id.
    Opened(u32, u32),
    Job(NewMiningJob),
    Tip(SetNewPrevHash),
    /// A channel's submission of this sequence number is credited.
    Credited(u32, u32),
    /// A channel's submission of this sequence number is refused.
    Rejected(u32, u32),
    /// A frame of a kind that a miner hears, whose payload is no message.
    NoMessage,
    /// A frame that a miner ignores.
    Other,
}

/// What a frame says to a miner.
pub fn notice_in(frame: Frame<'_>) -> Notice
    ensures { result ≡ notice_in (record {
      ext = frame.entry.ext;
      kind = frame.entry.kind;
      payload = frame.entry.payload.now;
    }) }
{
    if frame.ext % CHANNEL_BIT != 0 {
        return Notice::Other;
    }
    notice_by(frame.kind, frame.payload)
}

fn notice_by(kind: u8, payload: &[u8]) -> Notice
    ensures { result ≡ notice_in (record {
      ext = 0;
      kind = kind;
      payload = payload.now;
    }) }
{
    let read = read(kind, payload);
    match &read {
        Ok(message) => meaning(message),
        Err(_) => unread(kind),
    }
}

/// What a payload that is no message says.
fn unread(kind: u8) -> Notice
    ensures { result ≡ unread_notice kind }
{
    if is_heard_kind(kind) {
        Notice::NoMessage
    } else {
        Notice::Other
    }
}

/// Whether a miner hears frames of this kind.
fn is_heard_kind(kind: u8) -> bool
    ensures { result ≡ is_heard_kind kind }
{
    kind == kinds::SETUP_CONNECTION_SUCCESS
        || kind == kinds::SETUP_CONNECTION_ERROR
        || kind == kinds::OPEN_STANDARD_MINING_CHANNEL_SUCCESS
        || kind == kinds::OPEN_MINING_CHANNEL_ERROR
        || kind == kinds::NEW_MINING_JOB
        || kind == kinds::SUBMIT_SHARES_SUCCESS
        || kind == kinds::SUBMIT_SHARES_ERROR
        || kind == kinds::MINING_SET_NEW_PREV_HASH
}

/// What a message says.
fn meaning(message: &Mining<'_>) -> Notice
    ensures { result ≡ meaning (mining_message message.now).kind (mining_message message.now).fields }
{
    match message {
        Mining::SetupConnectionSuccess(success) => Notice::SetUp(success.used_version),
        Mining::SetupConnectionError(_) | Mining::OpenMiningChannelError(_) => Notice::Refused,
        Mining::OpenStandardMiningChannelSuccess(opened) => Notice::Opened(
            opened.request_id,
            opened.channel_id,
        ),
        Mining::NewMiningJob(job) => Notice::Job(*job),
        Mining::SetNewPrevHash(tip) => Notice::Tip(*tip),
        Mining::SubmitSharesSuccess(success) => Notice::Credited(
            success.channel_id,
            success.last_sequence_number,
        ),
        Mining::SubmitSharesError(error) => Notice::Rejected(
            error.channel_id,
            error.sequence_number,
        ),
        Mining::SetupConnection(_)
        | Mining::OpenStandardMiningChannel(_)
        | Mining::OpenExtendedMiningChannel(_)
        | Mining::OpenExtendedMiningChannelSuccess(_)
        | Mining::UpdateChannel(_)
        | Mining::UpdateChannelError(_)
        | Mining::CloseChannel(_)
        | Mining::SetExtranoncePrefix(_)
        | Mining::SubmitSharesStandard(_)
        | Mining::SubmitSharesExtended(_)
        | Mining::NewExtendedMiningJob(_)
        | Mining::SetTarget(_)
        | Mining::SetCustomMiningJob(_)
        | Mining::SetCustomMiningJobSuccess(_)
        | Mining::SetCustomMiningJobError(_) => Notice::Other,
    }
}
