//! The frames of a generated session, which are the same for everybody who has its number: sixteen
//! channels of five users, ten templates with their tips, and shares of which some are refused. They
//! are bytes for a link: nothing here opens, sends or judges anything.
//!
//! The command `load NUMBER`: a generated session is served in memory, by the code that serves any, and
//! what it left is told. Nothing is read, and no file is opened.
#![tactic(auto)]

mod command;
mod counting;
mod frames;
mod generated;
mod session;

pub use command::load;
pub use generated::{STEPS, put_load};
