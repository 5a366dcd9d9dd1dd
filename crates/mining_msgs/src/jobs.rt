//! The messages that bring work.

ghost use Rattle.std.specs.Prelude.{◌≡◌};
ghost use Rattle.sv2_messages.specs.declared.kinds.TheConstants as kinds;
ghost use Rattle.sv2_messages.specs.Tables.{mining_table};
ghost use Rattle.sv2_messages.specs.Writing.{AreFields};
ghost use Rattle.mining_msgs.specs.Seen.{mining_message, ReadsMining};

use crate::message::Mining;
use sv2_messages::{Field, FieldReader, MsgError};
use sv2_types::{Seq32, U256};

/// The pool gives a standard channel a job (Stratum V2, "NewMiningJob").
#[derive(Clone, Copy, Debug)]
pub struct NewMiningJob {
    pub channel_id: u32,
    pub job_id: u32,
    /// Seconds since 1970: the least time that a share may have. None for a future job.
    pub min_ntime: Option<u32>,
    /// The block header's version.
    pub version: u32,
    /// 32 bytes as they stand in a block header.
    pub merkle_root: U256,
}

impl NewMiningJob {
    /// The fields in their order.
    pub(crate) fn fields(&self) -> [Field<'_>; 5]
        ensures { AreFields mining_table (mining_message (Mining.NewMiningJob self.now)) result }
    {
        [
            Field::U32(self.channel_id),
            Field::U32(self.job_id),
            Field::OptionU32(self.min_ntime),
            Field::U32(self.version),
            Field::U256(self.merkle_root),
        ]
    }
}

#[tactic(auto, unfolding(sv2_messages::specs::Reading::values_of))]
pub(crate) fn read_new_mining_job<'a>(payload: &'a [u8]) -> Result<Mining<'a>, MsgError>
    ensures { ReadsMining kinds.NEW_MINING_JOB payload.now result }
{
    let mut fields = FieldReader::new(payload);
    let message = NewMiningJob {
        channel_id: fields.u32()?,
        job_id: fields.u32()?,
        min_ntime: fields.option_u32()?,
        version: fields.u32()?,
        merkle_root: fields.u256()?,
    };
    fields.end()?;
    Ok(Mining::NewMiningJob(message))
}

/// The pool gives an extended channel a job (Stratum V2, "NewExtendedMiningJob").
#[derive(Clone, Copy, Debug)]
pub struct NewExtendedMiningJob<'a> {
    pub channel_id: u32,
    pub job_id: u32,
    /// Seconds since 1970: the least time that a share may have. None for a future job.
    pub min_ntime: Option<u32>,
    /// The block header's version.
    pub version: u32,
    pub version_rolling_allowed: bool,
    /// The hashes beside the coinbase's on the way to the root, each 32 bytes as they stand in a
    /// block header.
    pub merkle_path: Seq32<'a>,
    /// The coinbase's bytes before the extranonce, in Bitcoin's raw transaction format.
    pub coinbase_tx_prefix: &'a [u8],
    /// The coinbase's bytes after the extranonce, in Bitcoin's raw transaction format.
    pub coinbase_tx_suffix: &'a [u8],
}

impl NewExtendedMiningJob<'_> {
    /// The fields in their order.
    pub(crate) fn fields(&self) -> [Field<'_>; 8]
        ensures { AreFields mining_table
            (mining_message (Mining.NewExtendedMiningJob self.now)) result }
    {
        [
            Field::U32(self.channel_id),
            Field::U32(self.job_id),
            Field::OptionU32(self.min_ntime),
            Field::U32(self.version),
            Field::Boolean(self.version_rolling_allowed),
            Field::SeqU256(self.merkle_path),
            Field::B64k(self.coinbase_tx_prefix),
            Field::B64k(self.coinbase_tx_suffix),
        ]
    }
}

#[tactic(auto, unfolding(sv2_messages::specs::Reading::values_of))]
pub(crate) fn read_new_extended_mining_job<'a>(payload: &'a [u8]) -> Result<Mining<'a>, MsgError>
    ensures { ReadsMining kinds.NEW_EXTENDED_MINING_JOB payload.now result }
{
    let mut fields = FieldReader::new(payload);
    let message = NewExtendedMiningJob {
        channel_id: fields.u32()?,
        job_id: fields.u32()?,
        min_ntime: fields.option_u32()?,
        version: fields.u32()?,
        version_rolling_allowed: fields.boolean()?,
        merkle_path: fields.seq_u256()?,
        coinbase_tx_prefix: fields.b64k()?,
        coinbase_tx_suffix: fields.b64k()?,
    };
    fields.end()?;
    Ok(Mining::NewExtendedMiningJob(message))
}

/// The pool makes a future job the one on the new tip (Stratum V2, "SetNewPrevHash").
#[derive(Clone, Copy, Debug)]
pub struct SetNewPrevHash {
    pub channel_id: u32,
    pub job_id: u32,
    /// 32 bytes as they stand in a block header.
    pub prev_hash: U256,
    /// Seconds since 1970: the least time that a share may have.
    pub min_ntime: u32,
    /// The compact target, as in the block header.
    pub nbits: u32,
}

impl SetNewPrevHash {
    /// The fields in their order.
    pub(crate) fn fields(&self) -> [Field<'_>; 5]
        ensures { AreFields mining_table (mining_message (Mining.SetNewPrevHash self.now)) result }
    {
        [
            Field::U32(self.channel_id),
            Field::U32(self.job_id),
            Field::U256(self.prev_hash),
            Field::U32(self.min_ntime),
            Field::U32(self.nbits),
        ]
    }
}

#[tactic(auto, unfolding(sv2_messages::specs::Reading::values_of))]
pub(crate) fn read_set_new_prev_hash<'a>(payload: &'a [u8]) -> Result<Mining<'a>, MsgError>
    ensures { ReadsMining kinds.MINING_SET_NEW_PREV_HASH payload.now result }
{
    let mut fields = FieldReader::new(payload);
    let message = SetNewPrevHash {
        channel_id: fields.u32()?,
        job_id: fields.u32()?,
        prev_hash: fields.u256()?,
        min_ntime: fields.u32()?,
        nbits: fields.u32()?,
    };
    fields.end()?;
    Ok(Mining::SetNewPrevHash(message))
}
