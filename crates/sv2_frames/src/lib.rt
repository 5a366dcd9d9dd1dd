//! Stratum V2 frames. It never looks into a payload.
#![tactic(auto)]

mod buffer;
mod framing;
mod running;
mod splitting;

pub use buffer::{FrameHeader, TooLong};
pub use framing::{Frame, frames_are_unique, frames_exist, no_frame_begins_another, write_frame};
pub use running::{RunEnd, TakeFrames};
pub use splitting::Splitter;
