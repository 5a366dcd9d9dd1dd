//! The events of a pool as they are kept, and the news of its sessions computed from them. It
//! judges nothing: what is pushed has been judged before.
#![tactic(auto)]

mod audience;
mod hearing;
mod history;
mod index;
mod marks;
mod notes;
mod places;
mod telling;

pub use history::History;
