//! The messages of job declaration, from their payloads and as frames. It takes no memory to read,
//! and it knows no order in which messages come.
#![tactic(auto)]

mod declarations;
mod message;
mod reading;
mod tokens;

pub use declarations::{
    DeclareMiningJob, DeclareMiningJobError, DeclareMiningJobSuccess, ProvideMissingTransactions,
    ProvideMissingTransactionsSuccess,
};
pub use message::Declare;
pub use reading::read;
pub use sv2_messages::MsgError;
pub use tokens::{AllocateMiningJobToken, AllocateMiningJobTokenSuccess, PushSolution};
