//! A book from the records that an earlier run kept: the events are read back and judged again, and
//! the tables are told them. It opens nothing, and keeps nothing more.
//!
//! A book whose ledger stands on a disk: begun where no record is found there, and gone on with where
//! some are. Nothing here touches a real file.
#![tactic(auto)]

mod cause;
mod disk_laws;
mod error;
mod laws;
mod leaving;
mod ready;
mod refusing;
mod restored;
mod resuming;
mod starting;
mod units;

pub use cause::NoBook;
pub use disk_laws::{
    crashes_are_gone_on_with, next_runs_go_on, nothing_stored_is_lost, own_ledgers_are_not_refused,
};
pub use error::ResumeError;
pub use laws::{histories_are_not_refused, resumed_books_answer_alike};
pub use ready::{open_ledger, ready_book};
pub use resuming::resume;
