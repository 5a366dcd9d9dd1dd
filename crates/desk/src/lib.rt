//! One machine for many threads. Any number of passes call it, one after the other, and what became
//! of its events is one history, of which every pass has seen a front. It starts no thread, and
//! knows of a machine only its list of events, its faults and what it answers.
//!
//! Calls of one pass at its desk, one after the other, over any machine: what they are of the pass's
//! own calls, and of what it has seen.
//!
//! Tasks at a desk, each done by a thread of its own with a pass of its own, and one history left
//! behind. Nothing here knows what a task is, or which machine stands at the desk.
#![tactic(auto)]

mod asking;
mod close;
mod desk;
mod machine;
mod open;
mod pairing;
mod pass;
mod plays;
mod rule;
mod running;
mod tending;
mod turn;

pub use asking::ask;
pub use close::CloseError;
pub use desk::Desk;
pub use machine::Machine;
pub use pass::Pass;
pub use running::tend_all;
pub use tending::Tending;
