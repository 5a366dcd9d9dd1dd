//! The turns of a link, each told to who hears them before the next one is taken, with the limits of
//! what is waited for. Nothing here opens a connection, looks at the bytes or knows what is answered.
#![tactic(auto)]

mod hearer;
mod hearing;

pub use hearer::TurnHearer;
pub use hearing::hear_turns;
