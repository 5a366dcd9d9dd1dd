//! The messages with which a miner brings work of its own (layouts of this project's own).

ghost use Rattle.std.specs.Prelude.{◌≡◌};
ghost use Rattle.sv2_messages.specs.declared.kinds.TheConstants as kinds;
ghost use Rattle.sv2_messages.specs.Tables.{mining_table};
ghost use Rattle.sv2_messages.specs.Writing.{AreFields};
ghost use Rattle.mining_msgs.specs.Seen.{mining_message, ReadsMining};

use crate::message::Mining;
use sv2_messages::{Field, FieldReader, MsgError};
use sv2_types::{Seq32, U256};

/// Asks to mine on a job of the miner's own.
#[derive(Clone, Copy, Debug)]
pub struct SetCustomMiningJob<'a> {
    pub channel_id: u32,
    pub request_id: u32,
    pub token: &'a [u8],
    /// The block header's version.
    pub version: u32,
    /// 32 bytes as they stand in a block header.
    pub prev_hash: U256,
    /// Seconds since 1970: the least time that a share may have.
    pub min_ntime: u32,
    /// The compact target, as in the block header.
    pub nbits: u32,
    pub coinbase_tx_version: u32,
    /// The first bytes of the coinbase's input script.
    pub coinbase_prefix: &'a [u8],
    pub coinbase_tx_input_sequence: u32,
    /// The outputs one after the other, without their count, in Bitcoin's raw transaction format.
    pub coinbase_tx_outputs: &'a [u8],
    pub coinbase_tx_locktime: u32,
    /// The hashes beside the coinbase's on the way to the root, each 32 bytes as they stand in a
    /// block header.
    pub merkle_path: Seq32<'a>,
}

impl SetCustomMiningJob<'_> {
    /// The fields in their order.
    pub(crate) fn fields(&self) -> [Field<'_>; 13]
        ensures { AreFields mining_table
            (mining_message (Mining.SetCustomMiningJob self.now)) result }
    {
        [
            Field::U32(self.channel_id),
            Field::U32(self.request_id),
            Field::B255(self.token),
            Field::U32(self.version),
            Field::U256(self.prev_hash),
            Field::U32(self.min_ntime),
            Field::U32(self.nbits),
            Field::U32(self.coinbase_tx_version),
            Field::B255(self.coinbase_prefix),
            Field::U32(self.coinbase_tx_input_sequence),
            Field::B64k(self.coinbase_tx_outputs),
            Field::U32(self.coinbase_tx_locktime),
            Field::SeqU256(self.merkle_path),
        ]
    }
}

#[tactic(auto, unfolding(sv2_messages::specs::Reading::values_of))]
pub(crate) fn read_set_custom_mining_job<'a>(payload: &'a [u8]) -> Result<Mining<'a>, MsgError>
    ensures { ReadsMining kinds.SET_CUSTOM_MINING_JOB payload.now result }
{
    let mut fields = FieldReader::new(payload);
    let message = SetCustomMiningJob {
        channel_id: fields.u32()?,
        request_id: fields.u32()?,
        token: fields.b255()?,
        version: fields.u32()?,
        prev_hash: fields.u256()?,
        min_ntime: fields.u32()?,
        nbits: fields.u32()?,
        coinbase_tx_version: fields.u32()?,
        coinbase_prefix: fields.b255()?,
        coinbase_tx_input_sequence: fields.u32()?,
        coinbase_tx_outputs: fields.b64k()?,
        coinbase_tx_locktime: fields.u32()?,
        merkle_path: fields.seq_u256()?,
    };
    fields.end()?;
    Ok(Mining::SetCustomMiningJob(message))
}

/// Accepts the job that a miner made, and gives its number.
#[derive(Clone, Copy, Debug)]
pub struct SetCustomMiningJobSuccess {
    pub channel_id: u32,
    /// The id that the request has.
    pub request_id: u32,
    pub job_id: u32,
}

impl SetCustomMiningJobSuccess {
    /// The fields in their order.
    pub(crate) fn fields(&self) -> [Field<'_>; 3]
        ensures { AreFields mining_table
            (mining_message (Mining.SetCustomMiningJobSuccess self.now)) result }
    {
        [
            Field::U32(self.channel_id),
            Field::U32(self.request_id),
            Field::U32(self.job_id),
        ]
    }
}

#[tactic(auto, unfolding(sv2_messages::specs::Reading::values_of))]
pub(crate) fn read_set_custom_mining_job_success<'a>(
    payload: &'a [u8],
) -> Result<Mining<'a>, MsgError>
    ensures { ReadsMining kinds.SET_CUSTOM_MINING_JOB_SUCCESS payload.now result }
{
    let mut fields = FieldReader::new(payload);
    let message = SetCustomMiningJobSuccess {
        channel_id: fields.u32()?,
        request_id: fields.u32()?,
        job_id: fields.u32()?,
    };
    fields.end()?;
    Ok(Mining::SetCustomMiningJobSuccess(message))
}

/// Refuses the job that a miner made, with an error code.
#[derive(Clone, Copy, Debug)]
pub struct SetCustomMiningJobError<'a> {
    pub channel_id: u32,
    /// The id that the request has.
    pub request_id: u32,
    pub error_code: &'a str,
}

impl SetCustomMiningJobError<'_> {
    /// The fields in their order.
    pub(crate) fn fields(&self) -> [Field<'_>; 3]
        ensures { AreFields mining_table
            (mining_message (Mining.SetCustomMiningJobError self.now)) result }
    {
        [
            Field::U32(self.channel_id),
            Field::U32(self.request_id),
            Field::Str255(self.error_code),
        ]
    }
}

#[tactic(auto, unfolding(sv2_messages::specs::Reading::values_of))]
pub(crate) fn read_set_custom_mining_job_error<'a>(
    payload: &'a [u8],
) -> Result<Mining<'a>, MsgError>
    ensures { ReadsMining kinds.SET_CUSTOM_MINING_JOB_ERROR payload.now result }
{
    let mut fields = FieldReader::new(payload);
    let message = SetCustomMiningJobError {
        channel_id: fields.u32()?,
        request_id: fields.u32()?,
        error_code: fields.str255()?,
    };
    fields.end()?;
    Ok(Mining::SetCustomMiningJobError(message))
}
