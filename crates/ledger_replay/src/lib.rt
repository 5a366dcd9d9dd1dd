//! The events of a history, replayed one after the other: each is judged by those before it, and
//! told to tables if it is legal. It keeps no list of events.
#![tactic(auto)]

mod channel_events;
mod error;
mod foreseeing;
mod job_events;
mod opening_events;
mod own_job_events;
mod replay;
mod session_events;
mod sessions_by;
mod share_events;
mod summing;
mod taking;
mod token_events;

pub use error::ReplayError;
pub use replay::{Replay, ReplayedTables};
pub use share_events::{Credited, submission_of};
