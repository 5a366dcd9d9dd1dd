//! Reads a message from its kind and its payload.

ghost use Rattle.std.specs.Prelude.{◌≡◌, ◌↔◌, IfOk, IsOkAnd, IsErrOf};
ghost use Rattle.sv2_messages.specs.declared.error.MsgError.{MsgError};
ghost use Rattle.sv2_messages.specs.Messages.{Message, MsgOf};
ghost use Rattle.sv2_messages.specs.Reading.{IsFirstDefect};
ghost use Rattle.sv2_messages.specs.Tables.{template_table};
ghost use Rattle.template_msgs.specs.Seen.{template_message, ReadsTemplate};

use crate::message::Template;
use crate::templates::{
    read_coinbase_output_constraints, read_new_template, read_set_new_prev_hash,
    read_submit_solution,
};
use crate::transactions::{
    read_request_transaction_data, read_request_transaction_data_error,
    read_request_transaction_data_success,
};
use sv2_messages::{MsgError, kinds};

/// Reads a message. What it gives borrows the payload; it takes no memory.
pub fn read<'a>(kind: u8, payload: &'a [u8]) -> Result<Template<'a>, MsgError>
    // What is read is the payload's message.
    ensures found { IfOk result (λ m. MsgOf template_table kind payload.now (template_message m)) }
    // A payload that is a message's is read as it.
    ensures only { (m : Message) → MsgOf template_table kind payload.now m
        → IsOkAnd result (λ read. template_message read ≡ m) }
    // Else it is the first defect.
    ensures refused { (e : MsgError) → IsErrOf result e
        ↔ IsFirstDefect template_table kind payload.now e }
{
    read_by_kind(kind, payload)
}

fn read_by_kind<'a>(kind: u8, payload: &'a [u8]) -> Result<Template<'a>, MsgError>
    ensures { ReadsTemplate kind payload.now result }
{
    match kind {
        kinds::COINBASE_OUTPUT_CONSTRAINTS => read_coinbase_output_constraints(payload),
        kinds::NEW_TEMPLATE => read_new_template(payload),
        kinds::TEMPLATE_SET_NEW_PREV_HASH => read_set_new_prev_hash(payload),
        kinds::REQUEST_TRANSACTION_DATA => read_request_transaction_data(payload),
        kinds::REQUEST_TRANSACTION_DATA_SUCCESS => read_request_transaction_data_success(payload),
        kinds::REQUEST_TRANSACTION_DATA_ERROR => read_request_transaction_data_error(payload),
        kinds::SUBMIT_SOLUTION => read_submit_solution(payload),
        _ => Err(MsgError::UnknownKind(kind)),
    }
}
