//! The book of a pool: one history, kept record by record. Each request is answered by the history
//! before it, and an event is kept before it takes effect.
#![tactic(auto)]

mod book;
mod changing;
mod channel_plans;
mod dispatch;
mod job_plans;
mod keeping;
mod machine;
mod planning;
mod session_plans;
mod share_plans;
mod tables;
mod token_plans;

pub use book::Book;
pub use tables::Tables;
