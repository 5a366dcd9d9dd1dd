//! The command `frames`: it lists the frames of standard input on standard output, and says where
//! the first bad one goes wrong. It answers no frame.
//!
//! Hashes of headers that were foreseen, four worked out side by side. They are asked for by the
//! header itself, so that one that was foreseen wrongly is never used. It takes no memory.
//!
//! The command `solo fixed`: it judges the shares of one fixed job, from the bytes of standard
//! input to those of standard output. It keeps no ledger.
#![tactic(auto)]

mod answer;
mod command;
mod fixed;
mod flaw;
mod front;
mod fronts;
mod judge;
mod laws;
mod lines;
mod lister;
mod stream;
mod submission;
mod table;
mod verdict;

pub use command::list_frames;
pub use fixed::judge_shares;
pub use flaw::Flaw;
pub use judge::{Job, Refusal};
pub use laws::has_one_reading;
pub use lister::Lister;
pub use stream::{FixedJob, FixedTask};
pub use table::Foreseen;
