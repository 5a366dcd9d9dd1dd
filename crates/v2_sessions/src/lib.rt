//! One session: what it makes of frames, and the frames that it answers with. It reads no stream
//! and keeps no history.
//!
//! One session, from its greeting to its leaving: turns are taken of a link, what the frames ask is
//! asked, and each answer is put before the next request is made. Nothing here opens a connection
//! or keeps a history.
//!
//! Laws of a session's ends: which limit, which answer or which failure each comes from, and that
//! good input ends well where there was none of these. Each is the contract of a function that
//! computes nothing.
#![tactic(auto)]

mod acting;
mod answering;
mod asking;
mod beginning;
mod conversation;
mod ends;
mod foreseeing;
mod laws;
mod listening;
mod meaning;
mod meeting;
mod news;
mod putting;
mod serving;
mod session;
mod taking;

pub use acting::{Acted, Acting};
pub use answering::put_refusal;
pub use asking::padded;
pub use beginning::{FirstPiece, begin};
pub use conversation::{AfterReply, after_answer, told_to};
pub use ends::{input_end, keep_limits, leave};
pub use laws::{
    bytes_out_shows_bytes, enters_come_first, good_input_ends_well, idle_out_shows_idles,
    ledger_fault_shows_call, limits_come_last, only_enters_find_it_full, pool_full_shows_reply,
    read_fault_shows_take, write_fault_shows_put,
};
pub use pool_history::Role;
pub use putting::put_bytes;
pub use serving::{converse, go_on};
pub use session::Session;
pub use session_steps::{About, SessionEnd, SetupCode, Step};
