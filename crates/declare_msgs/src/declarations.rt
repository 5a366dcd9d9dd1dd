//! The messages that declare a job.

ghost use Rattle.std.specs.Prelude.{◌≡◌};
ghost use Rattle.sv2_messages.specs.declared.kinds.TheConstants as kinds;
ghost use Rattle.sv2_messages.specs.Tables.{declare_table};
ghost use Rattle.sv2_messages.specs.Writing.{AreFields};
ghost use Rattle.declare_msgs.specs.Seen.{declare_message, ReadsDeclare};

use crate::message::Declare;
use sv2_messages::{Field, FieldReader, MsgError};
use sv2_types::{Seq32, SeqBytes, SeqU16};

/// Asks a miner for transactions of a declared job, by their places.
#[derive(Clone, Copy, Debug)]
pub struct ProvideMissingTransactions<'a> {
    pub request_id: u32,
    pub unknown_tx_position_list: SeqU16<'a>,
}

impl ProvideMissingTransactions<'_> {
    /// The fields in their order.
    pub(crate) fn fields(&self) -> [Field<'_>; 2]
        ensures { AreFields declare_table
            (declare_message (Declare.ProvideMissingTransactions self.now)) result }
    {
        [
            Field::U32(self.request_id),
            Field::SeqU16(self.unknown_tx_position_list),
        ]
    }
}

#[tactic(auto, unfolding(sv2_messages::specs::Reading::values_of))]
pub(crate) fn read_provide_missing_transactions<'a>(
    payload: &'a [u8],
) -> Result<Declare<'a>, MsgError>
    ensures { ReadsDeclare kinds.PROVIDE_MISSING_TRANSACTIONS payload.now result }
{
    let mut fields = FieldReader::new(payload);
    let message = ProvideMissingTransactions {
        request_id: fields.u32()?,
        unknown_tx_position_list: fields.seq_u16()?,
    };
    fields.end()?;
    Ok(Declare::ProvideMissingTransactions(message))
}

/// Brings the transactions that the miner was asked for.
#[derive(Clone, Copy, Debug)]
pub struct ProvideMissingTransactionsSuccess<'a> {
    /// The id that the request has.
    pub request_id: u32,
    /// Each is in Bitcoin's raw transaction format.
    pub transaction_list: SeqBytes<'a>,
}

impl ProvideMissingTransactionsSuccess<'_> {
    /// The fields in their order.
    pub(crate) fn fields(&self) -> [Field<'_>; 2]
        ensures { AreFields declare_table
            (declare_message (Declare.ProvideMissingTransactionsSuccess self.now)) result }
    {
        [
            Field::U32(self.request_id),
            Field::SeqBytes(self.transaction_list),
        ]
    }
}

#[tactic(auto, unfolding(sv2_messages::specs::Reading::values_of))]
pub(crate) fn read_provide_missing_transactions_success<'a>(
    payload: &'a [u8],
) -> Result<Declare<'a>, MsgError>
    ensures { ReadsDeclare kinds.PROVIDE_MISSING_TRANSACTIONS_SUCCESS payload.now result }
{
    let mut fields = FieldReader::new(payload);
    let message = ProvideMissingTransactionsSuccess {
        request_id: fields.u32()?,
        transaction_list: fields.seq_bytes()?,
    };
    fields.end()?;
    Ok(Declare::ProvideMissingTransactionsSuccess(message))
}

/// A miner declares a job.
#[derive(Clone, Copy, Debug)]
pub struct DeclareMiningJob<'a> {
    pub request_id: u32,
    pub mining_job_token: &'a [u8],
    /// The block header's version.
    pub version: u32,
    /// The first bytes of the coinbase, in Bitcoin's raw transaction format.
    pub coinbase_tx_prefix: &'a [u8],
    /// The last bytes of the coinbase, in Bitcoin's raw transaction format.
    pub coinbase_tx_suffix: &'a [u8],
    /// The witness transaction ids, each 32 bytes as they are hashed.
    pub wtxid_list: Seq32<'a>,
    pub excess_data: &'a [u8],
}

impl DeclareMiningJob<'_> {
    /// The fields in their order.
    pub(crate) fn fields(&self) -> [Field<'_>; 7]
        ensures { AreFields declare_table
            (declare_message (Declare.DeclareMiningJob self.now)) result }
    {
        [
            Field::U32(self.request_id),
            Field::B255(self.mining_job_token),
            Field::U32(self.version),
            Field::B64k(self.coinbase_tx_prefix),
            Field::B64k(self.coinbase_tx_suffix),
            Field::Seq64kU256(self.wtxid_list),
            Field::B64k(self.excess_data),
        ]
    }
}

#[tactic(auto, unfolding(sv2_messages::specs::Reading::values_of))]
pub(crate) fn read_declare_mining_job<'a>(payload: &'a [u8]) -> Result<Declare<'a>, MsgError>
    ensures { ReadsDeclare kinds.DECLARE_MINING_JOB payload.now result }
{
    let mut fields = FieldReader::new(payload);
    let message = DeclareMiningJob {
        request_id: fields.u32()?,
        mining_job_token: fields.b255()?,
        version: fields.u32()?,
        coinbase_tx_prefix: fields.b64k()?,
        coinbase_tx_suffix: fields.b64k()?,
        wtxid_list: fields.seq64k_u256()?,
        excess_data: fields.b64k()?,
    };
    fields.end()?;
    Ok(Declare::DeclareMiningJob(message))
}

/// Accepts the job that a miner declared, and gives the token to mine on it.
#[derive(Clone, Copy, Debug)]
pub struct DeclareMiningJobSuccess<'a> {
    /// The id that the request has.
    pub request_id: u32,
    pub new_mining_job_token: &'a [u8],
}

impl DeclareMiningJobSuccess<'_> {
    /// The fields in their order.
    pub(crate) fn fields(&self) -> [Field<'_>; 2]
        ensures { AreFields declare_table
            (declare_message (Declare.DeclareMiningJobSuccess self.now)) result }
    {
        [
            Field::U32(self.request_id),
            Field::B255(self.new_mining_job_token),
        ]
    }
}

#[tactic(auto, unfolding(sv2_messages::specs::Reading::values_of))]
pub(crate) fn read_declare_mining_job_success<'a>(
    payload: &'a [u8],
) -> Result<Declare<'a>, MsgError>
    ensures { ReadsDeclare kinds.DECLARE_MINING_JOB_SUCCESS payload.now result }
{
    let mut fields = FieldReader::new(payload);
    let message = DeclareMiningJobSuccess {
        request_id: fields.u32()?,
        new_mining_job_token: fields.b255()?,
    };
    fields.end()?;
    Ok(Declare::DeclareMiningJobSuccess(message))
}

/// Refuses the job that a miner declared, with an error code.
#[derive(Clone, Copy, Debug)]
pub struct DeclareMiningJobError<'a> {
    /// The id that the request has.
    pub request_id: u32,
    pub error_code: &'a str,
    pub error_details: &'a [u8],
}

impl DeclareMiningJobError<'_> {
    /// The fields in their order.
    pub(crate) fn fields(&self) -> [Field<'_>; 3]
        ensures { AreFields declare_table
            (declare_message (Declare.DeclareMiningJobError self.now)) result }
    {
        [
            Field::U32(self.request_id),
            Field::Str255(self.error_code),
            Field::B64k(self.error_details),
        ]
    }
}

#[tactic(auto, unfolding(sv2_messages::specs::Reading::values_of))]
pub(crate) fn read_declare_mining_job_error<'a>(payload: &'a [u8]) -> Result<Declare<'a>, MsgError>
    ensures { ReadsDeclare kinds.DECLARE_MINING_JOB_ERROR payload.now result }
{
    let mut fields = FieldReader::new(payload);
    let message = DeclareMiningJobError {
        request_id: fields.u32()?,
        error_code: fields.str255()?,
        error_details: fields.b64k()?,
    };
    fields.end()?;
    Ok(Declare::DeclareMiningJobError(message))
}
