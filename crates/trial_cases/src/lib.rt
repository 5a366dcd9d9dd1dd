//! What the programs of trials share: cases as lines of text, and how they are tried; and the rules
//! of the worked session.
//!
//! A case is either a line with parts between bars, of which the last is what is wanted; or lines of
//! operations, each with the answer that it wants, which are carried out one after the other.
#![tactic(auto)]

mod found;
mod operations;
mod parts;
mod rules;
mod trying;

pub use found::{Found, Spelling};
pub use operations::{Subject, Tried, try_operations};
pub use parts::{Case, kind, operation_in, role, word};
pub use rules::example_rules;
pub use trying::{Trial, try_files};
