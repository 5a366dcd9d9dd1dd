//! Reads a message from its kind and its payload.

ghost use Rattle.std.specs.Prelude.{◌≡◌, ◌↔◌, IfOk, IsOkAnd, IsErrOf};
ghost use Rattle.sv2_messages.specs.declared.error.MsgError.{MsgError};
ghost use Rattle.sv2_messages.specs.Messages.{Message, MsgOf};
ghost use Rattle.sv2_messages.specs.Reading.{IsFirstDefect};
ghost use Rattle.sv2_messages.specs.Tables.{mining_table};
ghost use Rattle.mining_msgs.specs.Seen.{mining_message, ReadsMining};

use crate::channels::{
    read_close_channel, read_open_extended_mining_channel,
    read_open_extended_mining_channel_success, read_open_mining_channel_error,
    read_open_standard_mining_channel, read_open_standard_mining_channel_success,
    read_set_extranonce_prefix, read_set_target, read_update_channel, read_update_channel_error,
};
use crate::custom_jobs::{
    read_set_custom_mining_job, read_set_custom_mining_job_error,
    read_set_custom_mining_job_success,
};
use crate::jobs::{read_new_extended_mining_job, read_new_mining_job, read_set_new_prev_hash};
use crate::message::Mining;
use crate::setup::{
    read_setup_connection, read_setup_connection_error, read_setup_connection_success,
};
use crate::shares::{
    read_submit_shares_error, read_submit_shares_extended, read_submit_shares_standard,
    read_submit_shares_success,
};
use sv2_messages::{MsgError, kinds};

/// Reads a message. What it gives borrows the payload; it takes no memory.
pub fn read<'a>(kind: u8, payload: &'a [u8]) -> Result<Mining<'a>, MsgError>
    // What is read is the payload's message.
    ensures found { IfOk result (λ m. MsgOf mining_table kind payload.now (mining_message m)) }
    // A payload that is a message's is read as it.
    ensures only { (m : Message) → MsgOf mining_table kind payload.now m
        → IsOkAnd result (λ read. mining_message read ≡ m) }
    // Else it is the first defect.
    ensures refused { (e : MsgError) → IsErrOf result e
        ↔ IsFirstDefect mining_table kind payload.now e }
{
    read_by_kind(kind, payload)
}

fn read_by_kind<'a>(kind: u8, payload: &'a [u8]) -> Result<Mining<'a>, MsgError>
    ensures { ReadsMining kind payload.now result }
{
    match kind {
        kinds::SETUP_CONNECTION => read_setup_connection(payload),
        kinds::SETUP_CONNECTION_SUCCESS => read_setup_connection_success(payload),
        kinds::SETUP_CONNECTION_ERROR => read_setup_connection_error(payload),
        kinds::OPEN_STANDARD_MINING_CHANNEL => read_open_standard_mining_channel(payload),
        kinds::OPEN_STANDARD_MINING_CHANNEL_SUCCESS => read_open_standard_mining_channel_success(
            payload,
        ),
        kinds::OPEN_MINING_CHANNEL_ERROR => read_open_mining_channel_error(payload),
        kinds::OPEN_EXTENDED_MINING_CHANNEL => read_open_extended_mining_channel(payload),
        kinds::OPEN_EXTENDED_MINING_CHANNEL_SUCCESS => read_open_extended_mining_channel_success(
            payload,
        ),
        kinds::NEW_MINING_JOB => read_new_mining_job(payload),
        kinds::UPDATE_CHANNEL => read_update_channel(payload),
        kinds::UPDATE_CHANNEL_ERROR => read_update_channel_error(payload),
        kinds::CLOSE_CHANNEL => read_close_channel(payload),
        kinds::SET_EXTRANONCE_PREFIX => read_set_extranonce_prefix(payload),
        kinds::SUBMIT_SHARES_STANDARD => read_submit_shares_standard(payload),
        kinds::SUBMIT_SHARES_EXTENDED => read_submit_shares_extended(payload),
        kinds::SUBMIT_SHARES_SUCCESS => read_submit_shares_success(payload),
        kinds::SUBMIT_SHARES_ERROR => read_submit_shares_error(payload),
        kinds::NEW_EXTENDED_MINING_JOB => read_new_extended_mining_job(payload),
        kinds::MINING_SET_NEW_PREV_HASH => read_set_new_prev_hash(payload),
        kinds::SET_TARGET => read_set_target(payload),
        kinds::SET_CUSTOM_MINING_JOB => read_set_custom_mining_job(payload),
        kinds::SET_CUSTOM_MINING_JOB_SUCCESS => read_set_custom_mining_job_success(payload),
        kinds::SET_CUSTOM_MINING_JOB_ERROR => read_set_custom_mining_job_error(payload),
        _ => Err(MsgError::UnknownKind(kind)),
    }
}
