//! The lines that come over a link, each told to who hears them before the next turn is taken.
//! Nothing here opens a connection, looks into a line or knows what is answered.
#![tactic(auto)]

mod hearing;
mod talker;

pub use hearing::hear_lines;
pub use talker::LineTalker;
