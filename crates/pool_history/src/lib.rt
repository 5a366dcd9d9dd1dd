//! What a pool's history is made of, and everything that is defined over it. It holds no pool: the
//! crates above keep the history, and answer by these definitions.
#![tactic(auto)]

mod accounts;
mod asking;
mod boxed;
mod causes;
mod codes;
mod coinbases;
mod events;
mod laws;
mod leads;
mod ranges;
mod refusals;
mod replies;
mod settings;
mod shares;
mod spans;
mod telling;
mod templates;

pub use accounts::{account_in, is_known_account};
pub use asking::{OpenAsk, Request};
pub use boxed::Boxed;
pub use causes::Cause;
pub use coinbases::template_coinbase;
pub use events::{Event, JobState, Kind, Role};
pub use laws::{classes_by_places, jobs_by_places, states_by_places};
pub use leads::Lead;
pub use ranges::are_rules_in_range;
pub use refusals::{
    BookError, CustomError, Failed, GrantError, JobError, NameError, OpenError, UpdateError,
};
pub use replies::{Class, Opened, Reply, Script, SessionNumber};
pub use settings::{Rules, Users};
pub use shares::{Brief, Checked, RootSource, Submission};
pub use spans::LiveSpan;
pub use telling::{Note, Notes};
pub use templates::{CustomData, TemplateData, TipData};
