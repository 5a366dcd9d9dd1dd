//! A worker at a door: each who calls is served by whoever serves links, and handed back before the
//! door is asked again. Nothing here opens a door, starts a thread or knows how a link is served.
//!
//! What threads have in hand, one part each: a link, and doors. They are listed before, and taken
//! from the list once the work is done. Nothing here starts a thread, or serves anybody.
//!
//! A link to a peer and doors at an address, asked of a network one after the other and handed back
//! together. Nothing here opens a socket.
#![tactic(auto)]

mod listing;
mod parts;
mod places;
mod server;
mod working;

pub use listing::{Tended, list, unlist};
pub use parts::{ThreadPart, ThreadTask};
pub use places::{Opened, leave_places, open_places};
pub use server::LinkServer;
pub use working::{DoorEnd, work};
