//! The outside in memory. Calls are numbered from 0, and those whose numbers are listed fail.

pub mod failing;
pub mod host;
pub mod keeper;
pub mod sink;
pub mod source;
