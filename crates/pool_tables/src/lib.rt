//! The sessions of a pool: which were entered, and which of them are present. It knows no history.
//!
//! The tokens that a pool granted for miners' own jobs, and which of them are spent. It knows no
//! history and no job.
//!
//! How a share is judged by the tables of open channels and of jobs: what the first six conditions
//! find, the tests of the last three, and the headers that were credited. It keeps no history, and
//! books nothing.
#![tactic(auto)]

mod admission;
mod conditions;
mod entered;
mod grant_laws;
mod granted;
mod grants;
mod headers;
mod keys;
mod late;
mod laws;
mod mined;
mod own_jobs;
mod passing;
mod presents;
mod refusals;
mod table;
mod tokens;

pub use admission::{Admission, admit};
pub use entered::Entered;
pub use grant_laws::other_events_leave_grants;
pub use granted::Granted;
pub use grants::Grants;
pub use headers::Headers;
pub use late::late_refusal;
pub use laws::other_events_leave_sessions;
pub use own_jobs::own_job_refusal;
pub use passing::Passed;
pub use refusals::grant_refusal_of;
pub use table::Sessions;
