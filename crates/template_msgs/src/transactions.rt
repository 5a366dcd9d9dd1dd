//! The messages that bring a template's transactions.

ghost use Rattle.std.specs.Prelude.{◌≡◌};
ghost use Rattle.sv2_messages.specs.declared.kinds.TheConstants as kinds;
ghost use Rattle.sv2_messages.specs.Tables.{template_table};
ghost use Rattle.sv2_messages.specs.Writing.{AreFields};
ghost use Rattle.template_msgs.specs.Seen.{template_message, ReadsTemplate};

use crate::message::Template;
use sv2_messages::{Field, FieldReader, MsgError};
use sv2_types::SeqBytes;

/// Asks the template provider for a template's transactions (Stratum V2, "RequestTransactionData").
#[derive(Clone, Copy, Debug)]
pub struct RequestTransactionData {
    pub template_id: u64,
}

impl RequestTransactionData {
    /// The fields in their order.
    pub(crate) fn fields(&self) -> [Field<'_>; 1]
        ensures { AreFields template_table
            (template_message (Template.RequestTransactionData self.now)) result }
    {
        [Field::U64(self.template_id)]
    }
}

#[tactic(auto, unfolding(sv2_messages::specs::Reading::values_of))]
pub(crate) fn read_request_transaction_data<'a>(payload: &'a [u8]) -> Result<Template<'a>, MsgError>
    ensures { ReadsTemplate kinds.REQUEST_TRANSACTION_DATA payload.now result }
{
    let mut fields = FieldReader::new(payload);
    let message = RequestTransactionData {
        template_id: fields.u64()?,
    };
    fields.end()?;
    Ok(Template::RequestTransactionData(message))
}

/// Brings a template's transactions (Stratum V2, "RequestTransactionData.Success").
#[derive(Clone, Copy, Debug)]
pub struct RequestTransactionDataSuccess<'a> {
    pub template_id: u64,
    pub excess_data: &'a [u8],
    /// Each is in Bitcoin's raw transaction format.
    pub transaction_list: SeqBytes<'a>,
}

impl RequestTransactionDataSuccess<'_> {
    /// The fields in their order.
    pub(crate) fn fields(&self) -> [Field<'_>; 3]
        ensures { AreFields template_table
            (template_message (Template.RequestTransactionDataSuccess self.now)) result }
    {
        [
            Field::U64(self.template_id),
            Field::B64k(self.excess_data),
            Field::SeqBytes(self.transaction_list),
        ]
    }
}

#[tactic(auto, unfolding(sv2_messages::specs::Reading::values_of))]
pub(crate) fn read_request_transaction_data_success<'a>(
    payload: &'a [u8],
) -> Result<Template<'a>, MsgError>
    ensures { ReadsTemplate kinds.REQUEST_TRANSACTION_DATA_SUCCESS payload.now result }
{
    let mut fields = FieldReader::new(payload);
    let message = RequestTransactionDataSuccess {
        template_id: fields.u64()?,
        excess_data: fields.b64k()?,
        transaction_list: fields.seq_bytes()?,
    };
    fields.end()?;
    Ok(Template::RequestTransactionDataSuccess(message))
}

/// Refuses a template's transactions, with an error code (Stratum V2,
/// "RequestTransactionData.Error").
#[derive(Clone, Copy, Debug)]
pub struct RequestTransactionDataError<'a> {
    pub template_id: u64,
    pub error_code: &'a str,
}

impl RequestTransactionDataError<'_> {
    /// The fields in their order.
    pub(crate) fn fields(&self) -> [Field<'_>; 2]
        ensures { AreFields template_table
            (template_message (Template.RequestTransactionDataError self.now)) result }
    {
        [Field::U64(self.template_id), Field::Str255(self.error_code)]
    }
}

#[tactic(auto, unfolding(sv2_messages::specs::Reading::values_of))]
pub(crate) fn read_request_transaction_data_error<'a>(
    payload: &'a [u8],
) -> Result<Template<'a>, MsgError>
    ensures { ReadsTemplate kinds.REQUEST_TRANSACTION_DATA_ERROR payload.now result }
{
    let mut fields = FieldReader::new(payload);
    let message = RequestTransactionDataError {
        template_id: fields.u64()?,
        error_code: fields.str255()?,
    };
    fields.end()?;
    Ok(Template::RequestTransactionDataError(message))
}
