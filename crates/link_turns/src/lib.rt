//! Turns that are taken of a link, up to the limits of what is waited for, and the talk of a partner
//! over them. Nothing here opens a connection, waits by itself or knows what the bytes mean.
#![tactic(auto)]

mod partner;
mod talking;
mod waiting;

pub use partner::Partner;
pub use talking::{TalkEnd, talk};
pub use waiting::{Limit, Waiting};
