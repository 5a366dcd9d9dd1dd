//! A worker that serves sessions at a desk that others call too: a pass of the desk is who answers a
//! session's requests; one session on a link is served by its calls; and at a door each who calls is
//! served by one session and handed back, before the door is asked again. Nothing here opens a door
//! or starts a thread.
//!
//! Many sessions at once on one book: a feed's link and the callers of any number of doors, each
//! served by a thread of its own at one desk, with one history left behind. Nothing here opens a
//! connection, a door or a file.
#![tactic(auto)]

mod doors;
mod parts;
mod serving;
mod worker;
mod working;

pub use door_threads::DoorEnd;
pub use doors::{Served, serve};
pub use serving::serve_link;
pub use worker::{DeskWorker, desk_calls_go_on};
pub use working::work;
