//! The messages that give tokens, and bring a block that was found.

ghost use Rattle.std.specs.Prelude.{◌≡◌};
ghost use Rattle.sv2_messages.specs.declared.kinds.TheConstants as kinds;
ghost use Rattle.sv2_messages.specs.Tables.{declare_table};
ghost use Rattle.sv2_messages.specs.Writing.{AreFields};
ghost use Rattle.declare_msgs.specs.Seen.{declare_message, ReadsDeclare};

use crate::message::Declare;
use sv2_messages::{Field, FieldReader, MsgError};
use sv2_types::U256;

/// A miner asks for a token, with which to declare a job.
#[derive(Clone, Copy, Debug)]
pub struct AllocateMiningJobToken<'a> {
    pub user_identifier: &'a str,
    pub request_id: u32,
}

impl AllocateMiningJobToken<'_> {
    /// The fields in their order.
    pub(crate) fn fields(&self) -> [Field<'_>; 2]
        ensures { AreFields declare_table
            (declare_message (Declare.AllocateMiningJobToken self.now)) result }
    {
        [
            Field::Str255(self.user_identifier),
            Field::U32(self.request_id),
        ]
    }
}

#[tactic(auto, unfolding(sv2_messages::specs::Reading::values_of))]
pub(crate) fn read_allocate_mining_job_token<'a>(payload: &'a [u8]) -> Result<Declare<'a>, MsgError>
    ensures { ReadsDeclare kinds.ALLOCATE_MINING_JOB_TOKEN payload.now result }
{
    let mut fields = FieldReader::new(payload);
    let message = AllocateMiningJobToken {
        user_identifier: fields.str255()?,
        request_id: fields.u32()?,
    };
    fields.end()?;
    Ok(Declare::AllocateMiningJobToken(message))
}

/// Gives the token that a miner asked for, and the outputs that the coinbase is to have.
#[derive(Clone, Copy, Debug)]
pub struct AllocateMiningJobTokenSuccess<'a> {
    /// The id that the request has.
    pub request_id: u32,
    pub mining_job_token: &'a [u8],
    /// In Bitcoin's raw transaction format.
    pub coinbase_tx_outputs: &'a [u8],
}

impl AllocateMiningJobTokenSuccess<'_> {
    /// The fields in their order.
    pub(crate) fn fields(&self) -> [Field<'_>; 3]
        ensures { AreFields declare_table
            (declare_message (Declare.AllocateMiningJobTokenSuccess self.now)) result }
    {
        [
            Field::U32(self.request_id),
            Field::B255(self.mining_job_token),
            Field::B64k(self.coinbase_tx_outputs),
        ]
    }
}

#[tactic(auto, unfolding(sv2_messages::specs::Reading::values_of))]
pub(crate) fn read_allocate_mining_job_token_success<'a>(
    payload: &'a [u8],
) -> Result<Declare<'a>, MsgError>
    ensures { ReadsDeclare kinds.ALLOCATE_MINING_JOB_TOKEN_SUCCESS payload.now result }
{
    let mut fields = FieldReader::new(payload);
    let message = AllocateMiningJobTokenSuccess {
        request_id: fields.u32()?,
        mining_job_token: fields.b255()?,
        coinbase_tx_outputs: fields.b64k()?,
    };
    fields.end()?;
    Ok(Declare::AllocateMiningJobTokenSuccess(message))
}

/// A miner brings a block that was found.
#[derive(Clone, Copy, Debug)]
pub struct PushSolution<'a> {
    pub extranonce: &'a [u8],
    /// 32 bytes as they stand in a block header.
    pub prev_hash: U256,
    pub nonce: u32,
    /// Seconds since 1970, as in the block header.
    pub ntime: u32,
    /// The compact target, as in the block header.
    pub nbits: u32,
    /// The block header's version.
    pub version: u32,
}

impl PushSolution<'_> {
    /// The fields in their order.
    pub(crate) fn fields(&self) -> [Field<'_>; 6]
        ensures { AreFields declare_table (declare_message (Declare.PushSolution self.now)) result }
    {
        [
            Field::B32(self.extranonce),
            Field::U256(self.prev_hash),
            Field::U32(self.nonce),
            Field::U32(self.ntime),
            Field::U32(self.nbits),
            Field::U32(self.version),
        ]
    }
}

#[tactic(auto, unfolding(sv2_messages::specs::Reading::values_of))]
pub(crate) fn read_push_solution<'a>(payload: &'a [u8]) -> Result<Declare<'a>, MsgError>
    ensures { ReadsDeclare kinds.PUSH_SOLUTION payload.now result }
{
    let mut fields = FieldReader::new(payload);
    let message = PushSolution {
        extranonce: fields.b32()?,
        prev_hash: fields.u256()?,
        nonce: fields.u32()?,
        ntime: fields.u32()?,
        nbits: fields.u32()?,
        version: fields.u32()?,
    };
    fields.end()?;
    Ok(Declare::PushSolution(message))
}
