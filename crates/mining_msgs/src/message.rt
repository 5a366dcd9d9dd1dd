//! The messages as one type.

ghost use Rattle.std.specs.Prelude.{◌≡◌, ◌↔◌, ◌++◌, IsTrue, OnOk, OnErr};
ghost use Rattle.sv2_messages.specs.Messages.{FitsFrame, message_frame};
ghost use Rattle.sv2_messages.specs.Tables.{mining_table};
ghost use Rattle.mining_msgs.specs.Seen.{mining_message};

use crate::channels::{
    CloseChannel, OpenExtendedMiningChannel, OpenExtendedMiningChannelSuccess,
    OpenMiningChannelError, OpenStandardMiningChannel, OpenStandardMiningChannelSuccess,
    SetExtranoncePrefix, SetTarget, UpdateChannel, UpdateChannelError,
};
use crate::custom_jobs::{SetCustomMiningJob, SetCustomMiningJobError, SetCustomMiningJobSuccess};
use crate::jobs::{NewExtendedMiningJob, NewMiningJob, SetNewPrevHash};
use crate::setup::{SetupConnection, SetupConnectionError, SetupConnectionSuccess};
use crate::shares::{
    SubmitSharesError, SubmitSharesExtended, SubmitSharesStandard, SubmitSharesSuccess,
};
use std::alloc::AllocError;
use sv2_messages::{fits, kinds, put_frame};

/// A common message or one of the mining protocol.
#[derive(Clone, Copy, Debug)]
pub enum Mining<'a> {
    SetupConnection(SetupConnection<'a>),
    SetupConnectionSuccess(SetupConnectionSuccess),
    SetupConnectionError(SetupConnectionError<'a>),
    OpenStandardMiningChannel(OpenStandardMiningChannel<'a>),
    OpenStandardMiningChannelSuccess(OpenStandardMiningChannelSuccess<'a>),
    OpenMiningChannelError(OpenMiningChannelError<'a>),
    OpenExtendedMiningChannel(OpenExtendedMiningChannel<'a>),
    OpenExtendedMiningChannelSuccess(OpenExtendedMiningChannelSuccess<'a>),
    NewMiningJob(NewMiningJob),
    UpdateChannel(UpdateChannel),
    UpdateChannelError(UpdateChannelError<'a>),
    CloseChannel(CloseChannel<'a>),
    SetExtranoncePrefix(SetExtranoncePrefix<'a>),
    SubmitSharesStandard(SubmitSharesStandard),
    SubmitSharesExtended(SubmitSharesExtended<'a>),
    SubmitSharesSuccess(SubmitSharesSuccess),
    SubmitSharesError(SubmitSharesError<'a>),
    NewExtendedMiningJob(NewExtendedMiningJob<'a>),
    SetNewPrevHash(SetNewPrevHash),
    SetTarget(SetTarget),
    SetCustomMiningJob(SetCustomMiningJob<'a>),
    SetCustomMiningJobSuccess(SetCustomMiningJobSuccess),
    SetCustomMiningJobError(SetCustomMiningJobError<'a>),
}

impl Mining<'_> {
    /// The message type of its frame.
    pub fn kind(&self) -> u8
        ensures { result ≡ (mining_message self.now).kind }
    {
        match self {
            Mining::SetupConnection(_) => kinds::SETUP_CONNECTION,
            Mining::SetupConnectionSuccess(_) => kinds::SETUP_CONNECTION_SUCCESS,
            Mining::SetupConnectionError(_) => kinds::SETUP_CONNECTION_ERROR,
            Mining::OpenStandardMiningChannel(_) => kinds::OPEN_STANDARD_MINING_CHANNEL,
            Mining::OpenStandardMiningChannelSuccess(_) =>
                kinds::OPEN_STANDARD_MINING_CHANNEL_SUCCESS,
            Mining::OpenMiningChannelError(_) => kinds::OPEN_MINING_CHANNEL_ERROR,
            Mining::OpenExtendedMiningChannel(_) => kinds::OPEN_EXTENDED_MINING_CHANNEL,
            Mining::OpenExtendedMiningChannelSuccess(_) =>
                kinds::OPEN_EXTENDED_MINING_CHANNEL_SUCCESS,
            Mining::NewMiningJob(_) => kinds::NEW_MINING_JOB,
            Mining::UpdateChannel(_) => kinds::UPDATE_CHANNEL,
            Mining::UpdateChannelError(_) => kinds::UPDATE_CHANNEL_ERROR,
            Mining::CloseChannel(_) => kinds::CLOSE_CHANNEL,
            Mining::SetExtranoncePrefix(_) => kinds::SET_EXTRANONCE_PREFIX,
            Mining::SubmitSharesStandard(_) => kinds::SUBMIT_SHARES_STANDARD,
            Mining::SubmitSharesExtended(_) => kinds::SUBMIT_SHARES_EXTENDED,
            Mining::SubmitSharesSuccess(_) => kinds::SUBMIT_SHARES_SUCCESS,
            Mining::SubmitSharesError(_) => kinds::SUBMIT_SHARES_ERROR,
            Mining::NewExtendedMiningJob(_) => kinds::NEW_EXTENDED_MINING_JOB,
            Mining::SetNewPrevHash(_) => kinds::MINING_SET_NEW_PREV_HASH,
            Mining::SetTarget(_) => kinds::SET_TARGET,
            Mining::SetCustomMiningJob(_) => kinds::SET_CUSTOM_MINING_JOB,
            Mining::SetCustomMiningJobSuccess(_) => kinds::SET_CUSTOM_MINING_JOB_SUCCESS,
            Mining::SetCustomMiningJobError(_) => kinds::SET_CUSTOM_MINING_JOB_ERROR,
        }
    }

    /// Whether each field has a spelling of its type, and the payload fewer than 2^24 bytes.
    pub fn fits(&self) -> bool
        ensures { IsTrue result ↔ FitsFrame mining_table (mining_message self.now) }
    {
        match self {
            Mining::SetupConnection(message) => fits(&message.fields()),
            Mining::SetupConnectionSuccess(message) => fits(&message.fields()),
            Mining::SetupConnectionError(message) => fits(&message.fields()),
            Mining::OpenStandardMiningChannel(message) => fits(&message.fields()),
            Mining::OpenStandardMiningChannelSuccess(message) => fits(&message.fields()),
            Mining::OpenMiningChannelError(message) => fits(&message.fields()),
            Mining::OpenExtendedMiningChannel(message) => fits(&message.fields()),
            Mining::OpenExtendedMiningChannelSuccess(message) => fits(&message.fields()),
            Mining::NewMiningJob(message) => fits(&message.fields()),
            Mining::UpdateChannel(message) => fits(&message.fields()),
            Mining::UpdateChannelError(message) => fits(&message.fields()),
            Mining::CloseChannel(message) => fits(&message.fields()),
            Mining::SetExtranoncePrefix(message) => fits(&message.fields()),
            Mining::SubmitSharesStandard(message) => fits(&message.fields()),
            Mining::SubmitSharesExtended(message) => fits(&message.fields()),
            Mining::SubmitSharesSuccess(message) => fits(&message.fields()),
            Mining::SubmitSharesError(message) => fits(&message.fields()),
            Mining::NewExtendedMiningJob(message) => fits(&message.fields()),
            Mining::SetNewPrevHash(message) => fits(&message.fields()),
            Mining::SetTarget(message) => fits(&message.fields()),
            Mining::SetCustomMiningJob(message) => fits(&message.fields()),
            Mining::SetCustomMiningJobSuccess(message) => fits(&message.fields()),
            Mining::SetCustomMiningJobError(message) => fits(&message.fields()),
        }
    }

    /// Appends the whole frame, or nothing where memory runs out.
    pub fn frame(&self, out: &mut Vec<u8>) -> Result<(), AllocError>
        requires { FitsFrame mining_table (mining_message self.now) }
        ensures ok { OnOk result (out.new.items ≡ out.old.items
            ++ message_frame mining_table (mining_message self.now)) }
        ensures err { OnErr result (out.new.items ≡ out.old.items) }
    {
        // Most frames are answers to shares, which don't wait until there is room for the fields of
        // any other message.
        match self {
            Mining::SubmitSharesSuccess(message) => put_frame(
                out,
                kinds::SUBMIT_SHARES_SUCCESS,
                &message.fields(),
            ),
            Mining::SubmitSharesError(message) => put_frame(
                out,
                kinds::SUBMIT_SHARES_ERROR,
                &message.fields(),
            ),
            _ => self.any_frame(out),
        }
    }

    /// The same of any message.
    #[inline(never)]
    fn any_frame(&self, out: &mut Vec<u8>) -> Result<(), AllocError>
        requires { FitsFrame mining_table (mining_message self.now) }
        ensures ok { OnOk result (out.new.items ≡ out.old.items
            ++ message_frame mining_table (mining_message self.now)) }
        ensures err { OnErr result (out.new.items ≡ out.old.items) }
    {
        let kind = self.kind();
        match self {
            Mining::SetupConnection(message) => put_frame(out, kind, &message.fields()),
            Mining::SetupConnectionSuccess(message) => put_frame(out, kind, &message.fields()),
            Mining::SetupConnectionError(message) => put_frame(out, kind, &message.fields()),
            Mining::OpenStandardMiningChannel(message) => put_frame(out, kind, &message.fields()),
            Mining::OpenStandardMiningChannelSuccess(message) => put_frame(
                out,
                kind,
                &message.fields(),
            ),
            Mining::OpenMiningChannelError(message) => put_frame(out, kind, &message.fields()),
            Mining::OpenExtendedMiningChannel(message) => put_frame(out, kind, &message.fields()),
            Mining::OpenExtendedMiningChannelSuccess(message) => put_frame(
                out,
                kind,
                &message.fields(),
            ),
            Mining::NewMiningJob(message) => put_frame(out, kind, &message.fields()),
            Mining::UpdateChannel(message) => put_frame(out, kind, &message.fields()),
            Mining::UpdateChannelError(message) => put_frame(out, kind, &message.fields()),
            Mining::CloseChannel(message) => put_frame(out, kind, &message.fields()),
            Mining::SetExtranoncePrefix(message) => put_frame(out, kind, &message.fields()),
            Mining::SubmitSharesStandard(message) => put_frame(out, kind, &message.fields()),
            Mining::SubmitSharesExtended(message) => put_frame(out, kind, &message.fields()),
            Mining::SubmitSharesSuccess(message) => put_frame(out, kind, &message.fields()),
            Mining::SubmitSharesError(message) => put_frame(out, kind, &message.fields()),
            Mining::NewExtendedMiningJob(message) => put_frame(out, kind, &message.fields()),
            Mining::SetNewPrevHash(message) => put_frame(out, kind, &message.fields()),
            Mining::SetTarget(message) => put_frame(out, kind, &message.fields()),
            Mining::SetCustomMiningJob(message) => put_frame(out, kind, &message.fields()),
            Mining::SetCustomMiningJobSuccess(message) => put_frame(out, kind, &message.fields()),
            Mining::SetCustomMiningJobError(message) => put_frame(out, kind, &message.fields()),
        }
    }
}
