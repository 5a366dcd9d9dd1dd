//! The open channels of a pool, exact to the moves that they were told of, but for classes that no
//! job can ask for.
#![tactic(auto)]

mod changes;
mod channel;
mod laws;
mod listing;
mod openings;
mod plan;
mod settings;
mod table;

pub use channel::Channel;
pub use laws::tables_show_histories;
pub use openings::class_given;
pub use plan::ChannelPlan;
pub use table::{Channels, NotOpen, SetError, spaces_apart};
