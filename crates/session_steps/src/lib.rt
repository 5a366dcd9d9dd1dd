//! What a session is: the frames that it takes, what each asks for, what is answered, and how it
//! ends, as a list of steps. It holds no session: the crates above keep to these definitions.
#![tactic(auto)]

mod about;
mod ends;
mod laws;
mod manner;
mod meeting;

pub use about::About;
pub use ends::SessionEnd;
pub use laws::{bytes_decide, met_are_frames, taken_bytes_are_met};
pub use manner::Manner;
pub use meeting::{SetupCode, Step};
