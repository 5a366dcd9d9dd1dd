//! The messages that bring shares, and their answers.

ghost use Rattle.std.specs.Prelude.{◌≡◌};
ghost use Rattle.sv2_messages.specs.declared.kinds.TheConstants as kinds;
ghost use Rattle.sv2_messages.specs.Tables.{mining_table};
ghost use Rattle.sv2_messages.specs.Writing.{AreFields};
ghost use Rattle.mining_msgs.specs.Seen.{mining_message, ReadsMining};

use crate::message::Mining;
use sv2_messages::{Field, FieldReader, MsgError};

/// A share that a miner found on a standard channel (Stratum V2, "SubmitSharesStandard").
#[derive(Clone, Copy, Debug)]
pub struct SubmitSharesStandard {
    pub channel_id: u32,
    pub sequence_number: u32,
    pub job_id: u32,
    pub nonce: u32,
    /// Seconds since 1970, as in the block header.
    pub ntime: u32,
    /// The block header's version.
    pub version: u32,
}

impl SubmitSharesStandard {
    /// The fields in their order.
    pub(crate) fn fields(&self) -> [Field<'_>; 6]
        ensures { AreFields mining_table
            (mining_message (Mining.SubmitSharesStandard self.now)) result }
    {
        [
            Field::U32(self.channel_id),
            Field::U32(self.sequence_number),
            Field::U32(self.job_id),
            Field::U32(self.nonce),
            Field::U32(self.ntime),
            Field::U32(self.version),
        ]
    }
}

#[tactic(auto, unfolding(sv2_messages::specs::Reading::values_of))]
pub(crate) fn read_submit_shares_standard<'a>(payload: &'a [u8]) -> Result<Mining<'a>, MsgError>
    ensures { ReadsMining kinds.SUBMIT_SHARES_STANDARD payload.now result }
{
    let mut fields = FieldReader::new(payload);
    let message = SubmitSharesStandard {
        channel_id: fields.u32()?,
        sequence_number: fields.u32()?,
        job_id: fields.u32()?,
        nonce: fields.u32()?,
        ntime: fields.u32()?,
        version: fields.u32()?,
    };
    fields.end()?;
    Ok(Mining::SubmitSharesStandard(message))
}

/// A share that a miner found on an extended channel (Stratum V2, "SubmitSharesExtended").
#[derive(Clone, Copy, Debug)]
pub struct SubmitSharesExtended<'a> {
    pub channel_id: u32,
    pub sequence_number: u32,
    pub job_id: u32,
    pub nonce: u32,
    /// Seconds since 1970, as in the block header.
    pub ntime: u32,
    /// The block header's version.
    pub version: u32,
    pub extranonce: &'a [u8],
}

impl SubmitSharesExtended<'_> {
    /// The fields in their order.
    pub(crate) fn fields(&self) -> [Field<'_>; 7]
        ensures { AreFields mining_table
            (mining_message (Mining.SubmitSharesExtended self.now)) result }
    {
        [
            Field::U32(self.channel_id),
            Field::U32(self.sequence_number),
            Field::U32(self.job_id),
            Field::U32(self.nonce),
            Field::U32(self.ntime),
            Field::U32(self.version),
            Field::B32(self.extranonce),
        ]
    }
}

#[tactic(auto, unfolding(sv2_messages::specs::Reading::values_of))]
pub(crate) fn read_submit_shares_extended<'a>(payload: &'a [u8]) -> Result<Mining<'a>, MsgError>
    ensures { ReadsMining kinds.SUBMIT_SHARES_EXTENDED payload.now result }
{
    let mut fields = FieldReader::new(payload);
    let message = SubmitSharesExtended {
        channel_id: fields.u32()?,
        sequence_number: fields.u32()?,
        job_id: fields.u32()?,
        nonce: fields.u32()?,
        ntime: fields.u32()?,
        version: fields.u32()?,
        extranonce: fields.b32()?,
    };
    fields.end()?;
    Ok(Mining::SubmitSharesExtended(message))
}

/// The pool credits shares up to a sequence number (Stratum V2, "SubmitShares.Success").
#[derive(Clone, Copy, Debug)]
pub struct SubmitSharesSuccess {
    pub channel_id: u32,
    pub last_sequence_number: u32,
    pub new_submits_accepted_count: u32,
    /// The sum of the difficulties of the new shares.
    pub new_shares_sum: u64,
}

impl SubmitSharesSuccess {
    /// The fields in their order.
    pub(crate) fn fields(&self) -> [Field<'_>; 4]
        ensures { AreFields mining_table
            (mining_message (Mining.SubmitSharesSuccess self.now)) result }
    {
        [
            Field::U32(self.channel_id),
            Field::U32(self.last_sequence_number),
            Field::U32(self.new_submits_accepted_count),
            Field::U64(self.new_shares_sum),
        ]
    }
}

#[tactic(auto, unfolding(sv2_messages::specs::Reading::values_of))]
pub(crate) fn read_submit_shares_success<'a>(payload: &'a [u8]) -> Result<Mining<'a>, MsgError>
    ensures { ReadsMining kinds.SUBMIT_SHARES_SUCCESS payload.now result }
{
    let mut fields = FieldReader::new(payload);
    let message = SubmitSharesSuccess {
        channel_id: fields.u32()?,
        last_sequence_number: fields.u32()?,
        new_submits_accepted_count: fields.u32()?,
        new_shares_sum: fields.u64()?,
    };
    fields.end()?;
    Ok(Mining::SubmitSharesSuccess(message))
}

/// The pool credits no share for this one (Stratum V2, "SubmitShares.Error").
#[derive(Clone, Copy, Debug)]
pub struct SubmitSharesError<'a> {
    pub channel_id: u32,
    pub sequence_number: u32,
    pub error_code: &'a str,
}

impl SubmitSharesError<'_> {
    /// The fields in their order.
    pub(crate) fn fields(&self) -> [Field<'_>; 3]
        ensures { AreFields mining_table
            (mining_message (Mining.SubmitSharesError self.now)) result }
    {
        [
            Field::U32(self.channel_id),
            Field::U32(self.sequence_number),
            Field::Str255(self.error_code),
        ]
    }
}

#[tactic(auto, unfolding(sv2_messages::specs::Reading::values_of))]
pub(crate) fn read_submit_shares_error<'a>(payload: &'a [u8]) -> Result<Mining<'a>, MsgError>
    ensures { ReadsMining kinds.SUBMIT_SHARES_ERROR payload.now result }
{
    let mut fields = FieldReader::new(payload);
    let message = SubmitSharesError {
        channel_id: fields.u32()?,
        sequence_number: fields.u32()?,
        error_code: fields.str255()?,
    };
    fields.end()?;
    Ok(Mining::SubmitSharesError(message))
}
