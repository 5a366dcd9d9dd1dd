//! What every layer of Maqefwi shares: words on counts, lists and steps, and the calls of a machine,
//! as data for proofs alone: when each is good, that together they are what became of the events of
//! the start, and that one caller's calls stand in their order. It calls nothing, and knows no
//! machine.
#![tactic(auto)]

mod laws;

pub use laws::{callers_go_on, calls_are_all, later_calls_stand_behind};
