//! Lines of bytes, cut out of a stream that comes in any pieces. It never looks into a line.
//!
//! Lines of Stratum V1 as JSON: what a line asks, and how replies and notices are written. It knows
//! no session, and judges nothing.
#![tactic(auto)]

mod buffer;
mod errors;
mod hex_numbers;
mod laws;
mod notices;
mod reader;
mod replies;
mod requests;

pub use buffer::LineTooLong;
pub use errors::V1Error;
pub use hex_numbers::{hex_number, hex_word, number_text, word_text};
pub use laws::{cuts_dont_matter, lines_are_found, lines_are_unique, readers_find_lines};
pub use notices::{NotifiedJob, notice_value, notify_value, set_difficulty_value};
pub use reader::LineReader;
pub use replies::{answer_value, error_reply, put_line, refusal_reply, reply_value};
pub use requests::{MethodCall, answer_id, call_in, is_blank_line, line_value};
