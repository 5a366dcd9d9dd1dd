//! The command `mine ADDRESS USER CLASS COUNT`, over any host and any network: a test miner on one
//! connection, and how many of its shares were credited. Nothing here opens a socket.
//!
//! The command `feed SCRIPT ADDRESS`, over any host and any network: a script, read from a file and
//! given to the first who calls, and what came of the caller's solutions. Nothing here opens a
//! socket or a file.
#![tactic(auto)]

mod caller;
mod command;
mod feeding;
mod lines;
mod script;
mod serving;

pub use caller::NoCaller;
pub use command::mine;
pub use feeding::feed;
pub use script::NoScript;
pub use serving::Fed;
