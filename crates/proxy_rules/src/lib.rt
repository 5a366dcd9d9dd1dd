//! What a proxy makes of what it is brought: frames of one upstream (Stratum V2), and lines of many
//! miners (Stratum V1) that share its channel. It holds no proxy: the definitions say what one does,
//! the laws what holds of all.
#![tactic(auto)]

mod events;
mod laws;
mod refusals;
mod requests;

pub use events::ProxyEvent;
pub use laws::{
    answers_are_of_submissions, answers_go_to_their_miner, extranonces_have_one_lead, leads_differ,
    sent_lines_are_silent, sessions_say_their_own, shares_have_the_ids_of_lines, spaces_are_apart,
    submissions_are_answered_once, submissions_are_of_lines,
};
pub use refusals::ProxyRefusal;
pub use requests::{ProxyReply, ProxyRequest};
