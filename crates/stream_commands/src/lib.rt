//! What all commands over a source and a sink share: their limits, their ends, the put of a whole
//! buffer or text, the reading of all input or of a file up to a limit, the printing of a text, and
//! the one loop that drives a command from turn to turn. It opens nothing but what a host gives, and
//! knows nothing of what a command says.
#![tactic(auto)]

mod command;
mod driver;
mod end;
mod files;
mod gatherer;
mod hosting;
mod printing;
mod putting;
mod reading;
mod status;
mod tally;
mod text;

pub use command::{Stop, StreamCommand};
pub use driver::drive;
pub use end::End;
pub use files::{FileError, read_file};
pub use gatherer::Gatherer;
pub use hosting::run_on_host;
pub use printing::print_text;
pub use putting::put_all;
pub use reading::{Contents, Unread, read_whole};
pub use status::{Status, refusal_status};
pub use text::put_text;

/// The most Idle answers in a row: an hour of a source that waits a tenth of a second.
pub const IDLE_TURNS: u64 = 36_000;
