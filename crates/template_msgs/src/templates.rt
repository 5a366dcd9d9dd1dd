//! The messages that bring templates.

ghost use Rattle.std.specs.Prelude.{◌≡◌};
ghost use Rattle.sv2_messages.specs.declared.kinds.TheConstants as kinds;
ghost use Rattle.sv2_messages.specs.Tables.{template_table};
ghost use Rattle.sv2_messages.specs.Writing.{AreFields};
ghost use Rattle.template_msgs.specs.Seen.{template_message, ReadsTemplate};

use crate::message::Template;
use sv2_messages::{Field, FieldReader, MsgError};
use sv2_types::{Seq32, U256};

/// Tells the template provider how much room the pool's outputs want (Stratum V2,
/// "CoinbaseOutputConstraints").
#[derive(Clone, Copy, Debug)]
pub struct CoinbaseOutputConstraints {
    /// Bytes that the pool's outputs may add to the coinbase.
    pub max_additional_size: u32,
    /// Signature operations that the pool's outputs may add.
    pub max_additional_sigops: u16,
}

impl CoinbaseOutputConstraints {
    /// The fields in their order.
    pub(crate) fn fields(&self) -> [Field<'_>; 2]
        ensures { AreFields template_table
            (template_message (Template.CoinbaseOutputConstraints self.now)) result }
    {
        [
            Field::U32(self.max_additional_size),
            Field::U16(self.max_additional_sigops),
        ]
    }
}

#[tactic(auto, unfolding(sv2_messages::specs::Reading::values_of))]
pub(crate) fn read_coinbase_output_constraints<'a>(
    payload: &'a [u8],
) -> Result<Template<'a>, MsgError>
    ensures { ReadsTemplate kinds.COINBASE_OUTPUT_CONSTRAINTS payload.now result }
{
    let mut fields = FieldReader::new(payload);
    let message = CoinbaseOutputConstraints {
        max_additional_size: fields.u32()?,
        max_additional_sigops: fields.u16()?,
    };
    fields.end()?;
    Ok(Template::CoinbaseOutputConstraints(message))
}

/// The template provider gives a block to be mined, but for its coinbase (Stratum V2,
/// "NewTemplate").
#[derive(Clone, Copy, Debug)]
pub struct NewTemplate<'a> {
    pub template_id: u64,
    pub future_template: bool,
    /// The block header's version.
    pub version: u32,
    pub coinbase_tx_version: u32,
    /// The first bytes of the coinbase's input script.
    pub coinbase_prefix: &'a [u8],
    pub coinbase_tx_input_sequence: u32,
    /// Satoshis that are left for the pool's outputs.
    pub coinbase_tx_value_remaining: u64,
    pub coinbase_tx_outputs_count: u32,
    /// The outputs one after the other, without their count, in Bitcoin's raw transaction format.
    pub coinbase_tx_outputs: &'a [u8],
    pub coinbase_tx_locktime: u32,
    /// The hashes beside the coinbase's on the way to the root, each 32 bytes as they stand in a
    /// block header.
    pub merkle_path: Seq32<'a>,
}

impl NewTemplate<'_> {
    /// The fields in their order.
    pub(crate) fn fields(&self) -> [Field<'_>; 11]
        ensures { AreFields template_table
            (template_message (Template.NewTemplate self.now)) result }
    {
        [
            Field::U64(self.template_id),
            Field::Boolean(self.future_template),
            Field::U32(self.version),
            Field::U32(self.coinbase_tx_version),
            Field::B255(self.coinbase_prefix),
            Field::U32(self.coinbase_tx_input_sequence),
            Field::U64(self.coinbase_tx_value_remaining),
            Field::U32(self.coinbase_tx_outputs_count),
            Field::B64k(self.coinbase_tx_outputs),
            Field::U32(self.coinbase_tx_locktime),
            Field::SeqU256(self.merkle_path),
        ]
    }
}

#[tactic(auto, unfolding(sv2_messages::specs::Reading::values_of))]
pub(crate) fn read_new_template<'a>(payload: &'a [u8]) -> Result<Template<'a>, MsgError>
    ensures { ReadsTemplate kinds.NEW_TEMPLATE payload.now result }
{
    let mut fields = FieldReader::new(payload);
    let message = NewTemplate {
        template_id: fields.u64()?,
        future_template: fields.boolean()?,
        version: fields.u32()?,
        coinbase_tx_version: fields.u32()?,
        coinbase_prefix: fields.b255()?,
        coinbase_tx_input_sequence: fields.u32()?,
        coinbase_tx_value_remaining: fields.u64()?,
        coinbase_tx_outputs_count: fields.u32()?,
        coinbase_tx_outputs: fields.b64k()?,
        coinbase_tx_locktime: fields.u32()?,
        merkle_path: fields.seq_u256()?,
    };
    fields.end()?;
    Ok(Template::NewTemplate(message))
}

/// The template provider makes a future template the one on the new tip (Stratum V2,
/// "SetNewPrevHash").
#[derive(Clone, Copy, Debug)]
pub struct SetNewPrevHash {
    pub template_id: u64,
    /// 32 bytes as they stand in a block header.
    pub prev_hash: U256,
    /// Seconds since 1970, as in the block header.
    pub header_timestamp: u32,
    /// The compact target, as in the block header.
    pub nbits: u32,
    /// A number whose low byte comes first.
    pub target: U256,
}

impl SetNewPrevHash {
    /// The fields in their order.
    pub(crate) fn fields(&self) -> [Field<'_>; 5]
        ensures { AreFields template_table
            (template_message (Template.SetNewPrevHash self.now)) result }
    {
        [
            Field::U64(self.template_id),
            Field::U256(self.prev_hash),
            Field::U32(self.header_timestamp),
            Field::U32(self.nbits),
            Field::U256(self.target),
        ]
    }
}

#[tactic(auto, unfolding(sv2_messages::specs::Reading::values_of))]
pub(crate) fn read_set_new_prev_hash<'a>(payload: &'a [u8]) -> Result<Template<'a>, MsgError>
    ensures { ReadsTemplate kinds.TEMPLATE_SET_NEW_PREV_HASH payload.now result }
{
    let mut fields = FieldReader::new(payload);
    let message = SetNewPrevHash {
        template_id: fields.u64()?,
        prev_hash: fields.u256()?,
        header_timestamp: fields.u32()?,
        nbits: fields.u32()?,
        target: fields.u256()?,
    };
    fields.end()?;
    Ok(Template::SetNewPrevHash(message))
}

/// Brings the template provider a block that was found (Stratum V2, "SubmitSolution").
#[derive(Clone, Copy, Debug)]
pub struct SubmitSolution<'a> {
    pub template_id: u64,
    /// The block header's version.
    pub version: u32,
    /// Seconds since 1970, as in the block header.
    pub header_timestamp: u32,
    pub header_nonce: u32,
    /// The whole coinbase, in Bitcoin's raw transaction format.
    pub coinbase_tx: &'a [u8],
}

impl SubmitSolution<'_> {
    /// The fields in their order.
    pub(crate) fn fields(&self) -> [Field<'_>; 5]
        ensures { AreFields template_table
            (template_message (Template.SubmitSolution self.now)) result }
    {
        [
            Field::U64(self.template_id),
            Field::U32(self.version),
            Field::U32(self.header_timestamp),
            Field::U32(self.header_nonce),
            Field::B64k(self.coinbase_tx),
        ]
    }
}

#[tactic(auto, unfolding(sv2_messages::specs::Reading::values_of))]
pub(crate) fn read_submit_solution<'a>(payload: &'a [u8]) -> Result<Template<'a>, MsgError>
    ensures { ReadsTemplate kinds.SUBMIT_SOLUTION payload.now result }
{
    let mut fields = FieldReader::new(payload);
    let message = SubmitSolution {
        template_id: fields.u64()?,
        version: fields.u32()?,
        header_timestamp: fields.u32()?,
        header_nonce: fields.u32()?,
        coinbase_tx: fields.b64k()?,
    };
    fields.end()?;
    Ok(Template::SubmitSolution(message))
}
