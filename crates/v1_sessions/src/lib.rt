//! What a session of Stratum V1 is: the lines that it hears, what each asks of the pool, what is said,
//! and how it ends, as a list of steps. It holds no session: the crates above keep to these
//! definitions.
//!
//! Laws of the ends of a session of lines: what each comes from, and that good lines end well where
//! nothing failed and no limit was reached. Each is the contract of a function that computes
//! nothing.
//!
//! One session of Stratum V1, from its first bytes to its leaving: its lines are answered, what they
//! ask is asked of the pool, and what the pool answers is told in lines. Nothing here opens a
//! connection or keeps a history.
#![tactic(auto)]

mod asking;
mod conversation;
mod laws;
mod limit_laws;
mod serving;
mod telling;

pub use laws::{requests_are_answered, said_is_put, sessions_are_folds, taken_bytes_are_heard};
pub use limit_laws::{
    good_lines_end_well, line_ends_have_causes, line_sessions_enter_first,
    line_sessions_keep_limits,
};
pub use serving::serve_lines;
