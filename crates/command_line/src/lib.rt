//! The words of a command line, and the top call `run`, which does what they ask for over any host,
//! any network and any disks. Nothing here touches the real system.
#![tactic(auto)]

mod on_disk;
mod top_call;
mod words;

pub use top_call::{run, run_alone};
pub use words::{Form, OnDisk, Word};
