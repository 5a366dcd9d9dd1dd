//! Reads a message from its kind and its payload.

ghost use Rattle.std.specs.Prelude.{◌≡◌, ◌↔◌, IfOk, IsOkAnd, IsErrOf};
ghost use Rattle.sv2_messages.specs.declared.error.MsgError.{MsgError};
ghost use Rattle.sv2_messages.specs.Messages.{Message, MsgOf};
ghost use Rattle.sv2_messages.specs.Reading.{IsFirstDefect};
ghost use Rattle.sv2_messages.specs.Tables.{declare_table};
ghost use Rattle.declare_msgs.specs.Seen.{declare_message, ReadsDeclare};

use crate::declarations::{
    read_declare_mining_job, read_declare_mining_job_error, read_declare_mining_job_success,
    read_provide_missing_transactions, read_provide_missing_transactions_success,
};
use crate::message::Declare;
use crate::tokens::{
    read_allocate_mining_job_token, read_allocate_mining_job_token_success, read_push_solution,
};
use sv2_messages::{MsgError, kinds};

/// Reads a message. What it gives borrows the payload; it takes no memory.
pub fn read<'a>(kind: u8, payload: &'a [u8]) -> Result<Declare<'a>, MsgError>
    // What is read is the payload's message.
    ensures found { IfOk result (λ m. MsgOf declare_table kind payload.now (declare_message m)) }
    // A payload that is a message's is read as it.
    ensures only { (m : Message) → MsgOf declare_table kind payload.now m
        → IsOkAnd result (λ read. declare_message read ≡ m) }
    // Else it is the first defect.
    ensures refused { (e : MsgError) → IsErrOf result e
        ↔ IsFirstDefect declare_table kind payload.now e }
{
    read_by_kind(kind, payload)
}

fn read_by_kind<'a>(kind: u8, payload: &'a [u8]) -> Result<Declare<'a>, MsgError>
    ensures { ReadsDeclare kind payload.now result }
{
    match kind {
        kinds::ALLOCATE_MINING_JOB_TOKEN => read_allocate_mining_job_token(payload),
        kinds::ALLOCATE_MINING_JOB_TOKEN_SUCCESS => read_allocate_mining_job_token_success(payload),
        kinds::PROVIDE_MISSING_TRANSACTIONS => read_provide_missing_transactions(payload),
        kinds::PROVIDE_MISSING_TRANSACTIONS_SUCCESS => read_provide_missing_transactions_success(
            payload,
        ),
        kinds::DECLARE_MINING_JOB => read_declare_mining_job(payload),
        kinds::DECLARE_MINING_JOB_SUCCESS => read_declare_mining_job_success(payload),
        kinds::DECLARE_MINING_JOB_ERROR => read_declare_mining_job_error(payload),
        kinds::PUSH_SOLUTION => read_push_solution(payload),
        _ => Err(MsgError::UnknownKind(kind)),
    }
}
