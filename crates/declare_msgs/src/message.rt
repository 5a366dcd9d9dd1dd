//! The messages as one type.

ghost use Rattle.std.specs.Prelude.{◌≡◌, ◌↔◌, ◌++◌, IsTrue, OnOk, OnErr};
ghost use Rattle.sv2_messages.specs.Messages.{FitsFrame, message_frame};
ghost use Rattle.sv2_messages.specs.Tables.{declare_table};
ghost use Rattle.declare_msgs.specs.Seen.{declare_message};

use crate::declarations::{
    DeclareMiningJob, DeclareMiningJobError, DeclareMiningJobSuccess, ProvideMissingTransactions,
    ProvideMissingTransactionsSuccess,
};
use crate::tokens::{AllocateMiningJobToken, AllocateMiningJobTokenSuccess, PushSolution};
use std::alloc::AllocError;
use sv2_messages::{fits, kinds, put_frame};

/// A message of job declaration. The kinds and the fields are this project's own.
#[derive(Clone, Copy, Debug)]
pub enum Declare<'a> {
    AllocateMiningJobToken(AllocateMiningJobToken<'a>),
    AllocateMiningJobTokenSuccess(AllocateMiningJobTokenSuccess<'a>),
    ProvideMissingTransactions(ProvideMissingTransactions<'a>),
    ProvideMissingTransactionsSuccess(ProvideMissingTransactionsSuccess<'a>),
    DeclareMiningJob(DeclareMiningJob<'a>),
    DeclareMiningJobSuccess(DeclareMiningJobSuccess<'a>),
    DeclareMiningJobError(DeclareMiningJobError<'a>),
    PushSolution(PushSolution<'a>),
}

impl Declare<'_> {
    /// The message type of its frame.
    pub fn kind(&self) -> u8
        ensures { result ≡ (declare_message self.now).kind }
    {
        match self {
            Declare::AllocateMiningJobToken(_) => kinds::ALLOCATE_MINING_JOB_TOKEN,
            Declare::AllocateMiningJobTokenSuccess(_) => kinds::ALLOCATE_MINING_JOB_TOKEN_SUCCESS,
            Declare::ProvideMissingTransactions(_) => kinds::PROVIDE_MISSING_TRANSACTIONS,
            Declare::ProvideMissingTransactionsSuccess(_) =>
                kinds::PROVIDE_MISSING_TRANSACTIONS_SUCCESS,
            Declare::DeclareMiningJob(_) => kinds::DECLARE_MINING_JOB,
            Declare::DeclareMiningJobSuccess(_) => kinds::DECLARE_MINING_JOB_SUCCESS,
            Declare::DeclareMiningJobError(_) => kinds::DECLARE_MINING_JOB_ERROR,
            Declare::PushSolution(_) => kinds::PUSH_SOLUTION,
        }
    }

    /// Whether each field has a spelling of its type, and the payload fewer than 2^24 bytes.
    pub fn fits(&self) -> bool
        ensures { IsTrue result ↔ FitsFrame declare_table (declare_message self.now) }
    {
        match self {
            Declare::AllocateMiningJobToken(message) => fits(&message.fields()),
            Declare::AllocateMiningJobTokenSuccess(message) => fits(&message.fields()),
            Declare::ProvideMissingTransactions(message) => fits(&message.fields()),
            Declare::ProvideMissingTransactionsSuccess(message) => fits(&message.fields()),
            Declare::DeclareMiningJob(message) => fits(&message.fields()),
            Declare::DeclareMiningJobSuccess(message) => fits(&message.fields()),
            Declare::DeclareMiningJobError(message) => fits(&message.fields()),
            Declare::PushSolution(message) => fits(&message.fields()),
        }
    }

    /// Appends the whole frame, or nothing where memory runs out.
    pub fn frame(&self, out: &mut Vec<u8>) -> Result<(), AllocError>
        requires { FitsFrame declare_table (declare_message self.now) }
        ensures ok { OnOk result (out.new.items ≡ out.old.items
            ++ message_frame declare_table (declare_message self.now)) }
        ensures err { OnErr result (out.new.items ≡ out.old.items) }
    {
        let kind = self.kind();
        match self {
            Declare::AllocateMiningJobToken(message) => put_frame(out, kind, &message.fields()),
            Declare::AllocateMiningJobTokenSuccess(message) => put_frame(
                out,
                kind,
                &message.fields(),
            ),
            Declare::ProvideMissingTransactions(message) => put_frame(out, kind, &message.fields()),
            Declare::ProvideMissingTransactionsSuccess(message) => put_frame(
                out,
                kind,
                &message.fields(),
            ),
            Declare::DeclareMiningJob(message) => put_frame(out, kind, &message.fields()),
            Declare::DeclareMiningJobSuccess(message) => put_frame(out, kind, &message.fields()),
            Declare::DeclareMiningJobError(message) => put_frame(out, kind, &message.fields()),
            Declare::PushSolution(message) => put_frame(out, kind, &message.fields()),
        }
    }
}
