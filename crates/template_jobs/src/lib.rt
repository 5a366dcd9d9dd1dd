//! The jobs of a pool, exact to the templates, tips and miners' own jobs that they were told of. What
//! is future or live is kept whole; of the others no more is kept than whose they were.
#![tactic(auto)]

mod content;
mod job;
mod laws;
mod lists;
mod making;
mod messages;
mod origin;
mod owner;
mod table;

pub use job::Job;
pub use laws::{histories_are_read, moves_are_told};
pub use messages::{custom_of, template_of, tip_of};
pub use table::{JobPlan, Jobs};
