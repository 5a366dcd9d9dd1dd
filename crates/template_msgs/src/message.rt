//! The messages as one type.

ghost use Rattle.std.specs.Prelude.{◌≡◌, ◌↔◌, ◌++◌, IsTrue, OnOk, OnErr};
ghost use Rattle.sv2_messages.specs.Messages.{FitsFrame, message_frame};
ghost use Rattle.sv2_messages.specs.Tables.{template_table};
ghost use Rattle.template_msgs.specs.Seen.{template_message};

use crate::templates::{CoinbaseOutputConstraints, NewTemplate, SetNewPrevHash, SubmitSolution};
use crate::transactions::{
    RequestTransactionData, RequestTransactionDataError, RequestTransactionDataSuccess,
};
use std::alloc::AllocError;
use sv2_messages::{fits, kinds, put_frame};

/// A message of the template distribution protocol.
#[derive(Clone, Copy, Debug)]
pub enum Template<'a> {
    CoinbaseOutputConstraints(CoinbaseOutputConstraints),
    NewTemplate(NewTemplate<'a>),
    SetNewPrevHash(SetNewPrevHash),
    RequestTransactionData(RequestTransactionData),
    RequestTransactionDataSuccess(RequestTransactionDataSuccess<'a>),
    RequestTransactionDataError(RequestTransactionDataError<'a>),
    SubmitSolution(SubmitSolution<'a>),
}

impl Template<'_> {
    /// The message type of its frame.
    pub fn kind(&self) -> u8
        ensures { result ≡ (template_message self.now).kind }
    {
        match self {
            Template::CoinbaseOutputConstraints(_) => kinds::COINBASE_OUTPUT_CONSTRAINTS,
            Template::NewTemplate(_) => kinds::NEW_TEMPLATE,
            Template::SetNewPrevHash(_) => kinds::TEMPLATE_SET_NEW_PREV_HASH,
            Template::RequestTransactionData(_) => kinds::REQUEST_TRANSACTION_DATA,
            Template::RequestTransactionDataSuccess(_) => kinds::REQUEST_TRANSACTION_DATA_SUCCESS,
            Template::RequestTransactionDataError(_) => kinds::REQUEST_TRANSACTION_DATA_ERROR,
            Template::SubmitSolution(_) => kinds::SUBMIT_SOLUTION,
        }
    }

    /// Whether each field has a spelling of its type, and the payload fewer than 2^24 bytes.
    pub fn fits(&self) -> bool
        ensures { IsTrue result ↔ FitsFrame template_table (template_message self.now) }
    {
        match self {
            Template::CoinbaseOutputConstraints(message) => fits(&message.fields()),
            Template::NewTemplate(message) => fits(&message.fields()),
            Template::SetNewPrevHash(message) => fits(&message.fields()),
            Template::RequestTransactionData(message) => fits(&message.fields()),
            Template::RequestTransactionDataSuccess(message) => fits(&message.fields()),
            Template::RequestTransactionDataError(message) => fits(&message.fields()),
            Template::SubmitSolution(message) => fits(&message.fields()),
        }
    }

    /// Appends the whole frame, or nothing where memory runs out.
    pub fn frame(&self, out: &mut Vec<u8>) -> Result<(), AllocError>
        requires { FitsFrame template_table (template_message self.now) }
        ensures ok { OnOk result (out.new.items ≡ out.old.items
            ++ message_frame template_table (template_message self.now)) }
        ensures err { OnErr result (out.new.items ≡ out.old.items) }
    {
        let kind = self.kind();
        match self {
            Template::CoinbaseOutputConstraints(message) => put_frame(out, kind, &message.fields()),
            Template::NewTemplate(message) => put_frame(out, kind, &message.fields()),
            Template::SetNewPrevHash(message) => put_frame(out, kind, &message.fields()),
            Template::RequestTransactionData(message) => put_frame(out, kind, &message.fields()),
            Template::RequestTransactionDataSuccess(message) => put_frame(
                out,
                kind,
                &message.fields(),
            ),
            Template::RequestTransactionDataError(message) => put_frame(
                out,
                kind,
                &message.fields(),
            ),
            Template::SubmitSolution(message) => put_frame(out, kind, &message.fields()),
        }
    }
}
