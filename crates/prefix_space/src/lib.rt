//! The leads that open channels hold, and which lead comes next. It knows no channel.
#![tactic(auto)]

mod nodes;
mod paths;
mod rows;
mod space;
mod tree;

pub use rows::Steps;
pub use space::{Space, SpaceError};
