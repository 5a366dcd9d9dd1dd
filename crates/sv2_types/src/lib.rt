//! The primitive values of Stratum V2, read from bytes and written to them. It never looks at
//! messages.
#![tactic(auto)]

mod error;
mod grammar;
mod hash;
mod little_endian;
mod owned;
mod reading;
mod sequences;
mod writing;

pub use error::ReadError;
pub use grammar::{no_spelling_begins_another, spelling_has_no_defect, written_is_spelling};
pub use hash::U256;
pub use owned::{Blob, Hashes, Str255};
pub use reading::Reader;
pub use sequences::{Seq32, SeqBytes, SeqU16};
pub use writing::{
    put_b16m, put_b32, put_b64k, put_b255, put_boolean, put_f32_bytes, put_option_u32,
    put_seq_bytes, put_seq_u16, put_seq_u256, put_seq64k_u256, put_str255, put_u8, put_u16,
    put_u24, put_u32, put_u64, put_u256,
};
