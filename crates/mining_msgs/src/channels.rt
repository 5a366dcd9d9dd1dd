//! The messages that open, change and close a channel.

ghost use Rattle.std.specs.Prelude.{◌≡◌};
ghost use Rattle.sv2_messages.specs.declared.kinds.TheConstants as kinds;
ghost use Rattle.sv2_messages.specs.Tables.{mining_table};
ghost use Rattle.sv2_messages.specs.Writing.{AreFields};
ghost use Rattle.mining_msgs.specs.Seen.{mining_message, ReadsMining};

use crate::message::Mining;
use sv2_messages::{Field, FieldReader, MsgError};
use sv2_types::U256;

/// Asks for a channel on which the miner rolls the header alone (Stratum V2,
/// "OpenStandardMiningChannel").
#[derive(Clone, Copy, Debug)]
pub struct OpenStandardMiningChannel<'a> {
    pub request_id: u32,
    pub user_identity: &'a str,
    /// Hashes a second: an IEEE 754 single, low byte first, that is carried and never read as a
    /// number.
    pub nominal_hash_rate: [u8; 4],
    /// The greatest target that the miner takes: a number whose low byte comes first.
    pub max_target: U256,
}

impl OpenStandardMiningChannel<'_> {
    /// The fields in their order.
    pub(crate) fn fields(&self) -> [Field<'_>; 4]
        ensures { AreFields mining_table
            (mining_message (Mining.OpenStandardMiningChannel self.now)) result }
    {
        [
            Field::U32(self.request_id),
            Field::Str255(self.user_identity),
            Field::F32(self.nominal_hash_rate),
            Field::U256(self.max_target),
        ]
    }
}

#[tactic(auto, unfolding(sv2_messages::specs::Reading::values_of))]
pub(crate) fn read_open_standard_mining_channel<'a>(
    payload: &'a [u8],
) -> Result<Mining<'a>, MsgError>
    ensures { ReadsMining kinds.OPEN_STANDARD_MINING_CHANNEL payload.now result }
{
    let mut fields = FieldReader::new(payload);
    let message = OpenStandardMiningChannel {
        request_id: fields.u32()?,
        user_identity: fields.str255()?,
        nominal_hash_rate: fields.f32_bytes()?,
        max_target: fields.u256()?,
    };
    fields.end()?;
    Ok(Mining::OpenStandardMiningChannel(message))
}

/// Opens the standard channel that a miner asked for (Stratum V2,
/// "OpenStandardMiningChannel.Success").
#[derive(Clone, Copy, Debug)]
pub struct OpenStandardMiningChannelSuccess<'a> {
    /// The id that the request has.
    pub request_id: u32,
    pub channel_id: u32,
    /// A number whose low byte comes first.
    pub target: U256,
    pub extranonce_prefix: &'a [u8],
    pub group_channel_id: u32,
}

impl OpenStandardMiningChannelSuccess<'_> {
    /// The fields in their order.
    pub(crate) fn fields(&self) -> [Field<'_>; 5]
        ensures { AreFields mining_table
            (mining_message (Mining.OpenStandardMiningChannelSuccess self.now)) result }
    {
        [
            Field::U32(self.request_id),
            Field::U32(self.channel_id),
            Field::U256(self.target),
            Field::B32(self.extranonce_prefix),
            Field::U32(self.group_channel_id),
        ]
    }
}

#[tactic(auto, unfolding(sv2_messages::specs::Reading::values_of))]
pub(crate) fn read_open_standard_mining_channel_success<'a>(
    payload: &'a [u8],
) -> Result<Mining<'a>, MsgError>
    ensures { ReadsMining kinds.OPEN_STANDARD_MINING_CHANNEL_SUCCESS payload.now result }
{
    let mut fields = FieldReader::new(payload);
    let message = OpenStandardMiningChannelSuccess {
        request_id: fields.u32()?,
        channel_id: fields.u32()?,
        target: fields.u256()?,
        extranonce_prefix: fields.b32()?,
        group_channel_id: fields.u32()?,
    };
    fields.end()?;
    Ok(Mining::OpenStandardMiningChannelSuccess(message))
}

/// Refuses a channel of either kind, with an error code (Stratum V2, "OpenMiningChannel.Error").
#[derive(Clone, Copy, Debug)]
pub struct OpenMiningChannelError<'a> {
    /// The id that the request has.
    pub request_id: u32,
    pub error_code: &'a str,
}

impl OpenMiningChannelError<'_> {
    /// The fields in their order.
    pub(crate) fn fields(&self) -> [Field<'_>; 2]
        ensures { AreFields mining_table
            (mining_message (Mining.OpenMiningChannelError self.now)) result }
    {
        [Field::U32(self.request_id), Field::Str255(self.error_code)]
    }
}

#[tactic(auto, unfolding(sv2_messages::specs::Reading::values_of))]
pub(crate) fn read_open_mining_channel_error<'a>(payload: &'a [u8]) -> Result<Mining<'a>, MsgError>
    ensures { ReadsMining kinds.OPEN_MINING_CHANNEL_ERROR payload.now result }
{
    let mut fields = FieldReader::new(payload);
    let message = OpenMiningChannelError {
        request_id: fields.u32()?,
        error_code: fields.str255()?,
    };
    fields.end()?;
    Ok(Mining::OpenMiningChannelError(message))
}

/// Asks for a channel on which the miner rolls the coinbase too (Stratum V2,
/// "OpenExtendedMiningChannel").
#[derive(Clone, Copy, Debug)]
pub struct OpenExtendedMiningChannel<'a> {
    pub request_id: u32,
    pub user_identity: &'a str,
    /// Hashes a second: an IEEE 754 single, low byte first, that is carried and never read as a
    /// number.
    pub nominal_hash_rate: [u8; 4],
    /// The greatest target that the miner takes: a number whose low byte comes first.
    pub max_target: U256,
    /// Bytes that the miner wants to roll at least.
    pub min_extranonce_size: u16,
}

impl OpenExtendedMiningChannel<'_> {
    /// The fields in their order.
    pub(crate) fn fields(&self) -> [Field<'_>; 5]
        ensures { AreFields mining_table
            (mining_message (Mining.OpenExtendedMiningChannel self.now)) result }
    {
        [
            Field::U32(self.request_id),
            Field::Str255(self.user_identity),
            Field::F32(self.nominal_hash_rate),
            Field::U256(self.max_target),
            Field::U16(self.min_extranonce_size),
        ]
    }
}

#[tactic(auto, unfolding(sv2_messages::specs::Reading::values_of))]
pub(crate) fn read_open_extended_mining_channel<'a>(
    payload: &'a [u8],
) -> Result<Mining<'a>, MsgError>
    ensures { ReadsMining kinds.OPEN_EXTENDED_MINING_CHANNEL payload.now result }
{
    let mut fields = FieldReader::new(payload);
    let message = OpenExtendedMiningChannel {
        request_id: fields.u32()?,
        user_identity: fields.str255()?,
        nominal_hash_rate: fields.f32_bytes()?,
        max_target: fields.u256()?,
        min_extranonce_size: fields.u16()?,
    };
    fields.end()?;
    Ok(Mining::OpenExtendedMiningChannel(message))
}

/// Opens the extended channel that a miner asked for (Stratum V2,
/// "OpenExtendedMiningChannel.Success").
#[derive(Clone, Copy, Debug)]
pub struct OpenExtendedMiningChannelSuccess<'a> {
    /// The id that the request has.
    pub request_id: u32,
    pub channel_id: u32,
    /// A number whose low byte comes first.
    pub target: U256,
    /// Bytes that the miner rolls.
    pub extranonce_size: u16,
    pub extranonce_prefix: &'a [u8],
}

impl OpenExtendedMiningChannelSuccess<'_> {
    /// The fields in their order.
    pub(crate) fn fields(&self) -> [Field<'_>; 5]
        ensures { AreFields mining_table
            (mining_message (Mining.OpenExtendedMiningChannelSuccess self.now)) result }
    {
        [
            Field::U32(self.request_id),
            Field::U32(self.channel_id),
            Field::U256(self.target),
            Field::U16(self.extranonce_size),
            Field::B32(self.extranonce_prefix),
        ]
    }
}

#[tactic(auto, unfolding(sv2_messages::specs::Reading::values_of))]
pub(crate) fn read_open_extended_mining_channel_success<'a>(
    payload: &'a [u8],
) -> Result<Mining<'a>, MsgError>
    ensures { ReadsMining kinds.OPEN_EXTENDED_MINING_CHANNEL_SUCCESS payload.now result }
{
    let mut fields = FieldReader::new(payload);
    let message = OpenExtendedMiningChannelSuccess {
        request_id: fields.u32()?,
        channel_id: fields.u32()?,
        target: fields.u256()?,
        extranonce_size: fields.u16()?,
        extranonce_prefix: fields.b32()?,
    };
    fields.end()?;
    Ok(Mining::OpenExtendedMiningChannelSuccess(message))
}

/// Tells the miner's new hash rate and asks for another target (Stratum V2, "UpdateChannel").
#[derive(Clone, Copy, Debug)]
pub struct UpdateChannel {
    pub channel_id: u32,
    /// Hashes a second: an IEEE 754 single, low byte first, that is carried and never read as a
    /// number.
    pub nominal_hash_rate: [u8; 4],
    /// A number whose low byte comes first.
    pub maximum_target: U256,
}

impl UpdateChannel {
    /// The fields in their order.
    pub(crate) fn fields(&self) -> [Field<'_>; 3]
        ensures { AreFields mining_table (mining_message (Mining.UpdateChannel self.now)) result }
    {
        [
            Field::U32(self.channel_id),
            Field::F32(self.nominal_hash_rate),
            Field::U256(self.maximum_target),
        ]
    }
}

#[tactic(auto, unfolding(sv2_messages::specs::Reading::values_of))]
pub(crate) fn read_update_channel<'a>(payload: &'a [u8]) -> Result<Mining<'a>, MsgError>
    ensures { ReadsMining kinds.UPDATE_CHANNEL payload.now result }
{
    let mut fields = FieldReader::new(payload);
    let message = UpdateChannel {
        channel_id: fields.u32()?,
        nominal_hash_rate: fields.f32_bytes()?,
        maximum_target: fields.u256()?,
    };
    fields.end()?;
    Ok(Mining::UpdateChannel(message))
}

/// Refuses a change of a channel, with an error code (Stratum V2, "UpdateChannel.Error").
#[derive(Clone, Copy, Debug)]
pub struct UpdateChannelError<'a> {
    pub channel_id: u32,
    pub error_code: &'a str,
}

impl UpdateChannelError<'_> {
    /// The fields in their order.
    pub(crate) fn fields(&self) -> [Field<'_>; 2]
        ensures { AreFields mining_table
            (mining_message (Mining.UpdateChannelError self.now)) result }
    {
        [Field::U32(self.channel_id), Field::Str255(self.error_code)]
    }
}

#[tactic(auto, unfolding(sv2_messages::specs::Reading::values_of))]
pub(crate) fn read_update_channel_error<'a>(payload: &'a [u8]) -> Result<Mining<'a>, MsgError>
    ensures { ReadsMining kinds.UPDATE_CHANNEL_ERROR payload.now result }
{
    let mut fields = FieldReader::new(payload);
    let message = UpdateChannelError {
        channel_id: fields.u32()?,
        error_code: fields.str255()?,
    };
    fields.end()?;
    Ok(Mining::UpdateChannelError(message))
}

/// Ends a channel (Stratum V2, "CloseChannel").
#[derive(Clone, Copy, Debug)]
pub struct CloseChannel<'a> {
    pub channel_id: u32,
    pub reason_code: &'a str,
}

impl CloseChannel<'_> {
    /// The fields in their order.
    pub(crate) fn fields(&self) -> [Field<'_>; 2]
        ensures { AreFields mining_table (mining_message (Mining.CloseChannel self.now)) result }
    {
        [Field::U32(self.channel_id), Field::Str255(self.reason_code)]
    }
}

#[tactic(auto, unfolding(sv2_messages::specs::Reading::values_of))]
pub(crate) fn read_close_channel<'a>(payload: &'a [u8]) -> Result<Mining<'a>, MsgError>
    ensures { ReadsMining kinds.CLOSE_CHANNEL payload.now result }
{
    let mut fields = FieldReader::new(payload);
    let message = CloseChannel {
        channel_id: fields.u32()?,
        reason_code: fields.str255()?,
    };
    fields.end()?;
    Ok(Mining::CloseChannel(message))
}

/// The pool gives a channel another prefix of its extranonces (Stratum V2, "SetExtranoncePrefix").
#[derive(Clone, Copy, Debug)]
pub struct SetExtranoncePrefix<'a> {
    pub channel_id: u32,
    pub extranonce_prefix: &'a [u8],
}

impl SetExtranoncePrefix<'_> {
    /// The fields in their order.
    pub(crate) fn fields(&self) -> [Field<'_>; 2]
        ensures { AreFields mining_table
            (mining_message (Mining.SetExtranoncePrefix self.now)) result }
    {
        [
            Field::U32(self.channel_id),
            Field::B32(self.extranonce_prefix),
        ]
    }
}

#[tactic(auto, unfolding(sv2_messages::specs::Reading::values_of))]
pub(crate) fn read_set_extranonce_prefix<'a>(payload: &'a [u8]) -> Result<Mining<'a>, MsgError>
    ensures { ReadsMining kinds.SET_EXTRANONCE_PREFIX payload.now result }
{
    let mut fields = FieldReader::new(payload);
    let message = SetExtranoncePrefix {
        channel_id: fields.u32()?,
        extranonce_prefix: fields.b32()?,
    };
    fields.end()?;
    Ok(Mining::SetExtranoncePrefix(message))
}

/// The pool gives a channel another target (Stratum V2, "SetTarget").
#[derive(Clone, Copy, Debug)]
pub struct SetTarget {
    pub channel_id: u32,
    /// A number whose low byte comes first.
    pub maximum_target: U256,
}

impl SetTarget {
    /// The fields in their order.
    pub(crate) fn fields(&self) -> [Field<'_>; 2]
        ensures { AreFields mining_table (mining_message (Mining.SetTarget self.now)) result }
    {
        [
            Field::U32(self.channel_id),
            Field::U256(self.maximum_target),
        ]
    }
}

#[tactic(auto, unfolding(sv2_messages::specs::Reading::values_of))]
pub(crate) fn read_set_target<'a>(payload: &'a [u8]) -> Result<Mining<'a>, MsgError>
    ensures { ReadsMining kinds.SET_TARGET payload.now result }
{
    let mut fields = FieldReader::new(payload);
    let message = SetTarget {
        channel_id: fields.u32()?,
        maximum_target: fields.u256()?,
    };
    fields.end()?;
    Ok(Mining::SetTarget(message))
}
