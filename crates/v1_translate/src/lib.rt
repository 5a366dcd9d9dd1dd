//! The rules of a session of Stratum V1: what it heard, what it knows, and what it makes of a line,
//! of a message of the pool and of the answer to a name. It holds no session: the definitions say
//! what one does, the laws what holds of all, and the functions compute the parts.
//!
//! A session of Stratum V1, as a machine: it hears lines of its miner, messages of the pool, and
//! whether a name was taken, and makes of each what `v1_rules` says. It reads no stream and knows no
//! book: its caller brings it what it hears, puts its lines, and asks the pool.
#![tactic(auto)]

mod answers;
mod asking;
mod configuring;
mod difficulty;
mod ids;
mod jobs;
mod laws;
mod masks;
mod messages;
mod methods;
mod sayings;
mod session;
mod shares;
mod step;
mod submissions;
mod terms;
mod waiting;

pub use answers::subscription_value;
pub use asking::V1Ask;
pub use difficulty::{asked_difficulty, class_of_difficulty, difficulty_of};
pub use ids::LineId;
pub use laws::{
    few_jobs_are_held, masks_are_cut, no_request_is_lost, requests_are_answered_once,
    sessions_ask_on_their_channel, states_are_of_what_was_heard, versions_are_the_jobs,
};
pub use masks::{are_within, asked_mask, granted_mask, rolled_version};
pub use messages::{open_message, share_message, update_message};
pub use methods::Method;
pub use sayings::{say_answer, say_code};
pub use session::V1Session;
pub use shares::{AskedShare, SentShare, asked_share, extranonce_in};
pub use step::V1Step;
pub use submissions::CheckedShare;
pub use terms::V1Terms;
