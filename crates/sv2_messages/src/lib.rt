//! What all messages have in common: the table of their kinds, names and fields, by which fields
//! are read and written in their order. It has no type for any message.
#![tactic(auto)]

mod error;
mod field;
pub mod kinds;
mod laws;
mod names;
mod reading;
mod writing;

pub use error::MsgError;
pub use field::Field;
pub use laws::written_is_read_back;
pub use names::name_of;
pub use reading::FieldReader;
pub use writing::{fits, put_frame};
