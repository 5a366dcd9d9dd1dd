//! The messages of the template distribution protocol, from their payloads and as frames. It takes
//! no memory to read, and it knows no order in which messages come.
#![tactic(auto)]

mod message;
mod reading;
mod templates;
mod transactions;

pub use message::Template;
pub use reading::read;
pub use sv2_messages::MsgError;
pub use templates::{CoinbaseOutputConstraints, NewTemplate, SetNewPrevHash, SubmitSolution};
pub use transactions::{
    RequestTransactionData, RequestTransactionDataError, RequestTransactionDataSuccess,
};
