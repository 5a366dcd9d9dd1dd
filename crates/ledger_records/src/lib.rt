//! The laws of ledgers: a record is read back whatever follows, a ledger is of one history, what
//! one more event adds to it, and that each event of an answer can be kept. It writes and reads no
//! ledger: the definitions of `pool_history` say its bytes, and each law is the contract of a
//! function with nothing to compute.
//!
//! Events as the records of a ledger: written, read back, and chained by their hashes. It knows no
//! history: whether an event is legal, others judge.
#![tactic(auto)]

mod chaining;
mod error;
mod events;
mod fields;
mod kinds;
mod laws;
mod reading;
mod record_fields;
mod requests;
mod starting;
mod users;
mod writing;

pub use chaining::{MAGIC, chain, magic_hash, write_first_piece, write_piece};
pub use error::RecordError;
pub use fields::{fields_fit, texts_are_utf8};
pub use kinds::record_kind;
pub use laws::{
    answers_can_be_kept, calls_can_be_kept, formats_differ, kept_ledgers_are_of_one_history,
    ledgers_are_of_one_history, ledgers_begin_alike, ledgers_grow, no_record_begins_another,
    old_ledgers_are_of_one_history, old_ledgers_begin_alike, pieces_grow, records_are_of_one_event,
    records_are_read_back, starts_are_kept,
};
pub use reading::read_record;
pub use requests::request_fits;
pub use writing::write_record;
