//! One session over a link, of whichever language its first byte tells: a miner whose first byte is
//! `{` speaks the lines of Stratum V1, everybody else the frames of Stratum V2. Nothing here opens
//! a connection or keeps a history.
//!
//! One session of both roles over a book of its own: what comes from a source is answered to a sink,
//! and each event is kept before it takes effect. Nobody else asks the book, so each call finds the
//! whole history that the one before it left. Nothing here opens a file or reads settings.
#![tactic(auto)]

mod alone;
mod serving;
mod sole;

pub use alone::{ServedBook, Solo, SoloEnd, serve_book, serve_solo};
pub use serving::serve_session;
pub use sole::{SoleBook, sole_calls_go_on};
