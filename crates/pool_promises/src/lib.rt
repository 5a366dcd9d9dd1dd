//! Laws of presence: what a worker calls finds the session present that its last Enter began, up to
//! the call that ends it. Each is the contract of a function that computes nothing.
//!
//! Laws of a session that takes declarations of jobs, over the steps that a session is: that they
//! are answered by the rules, and of which transactions the paths are that its Grants fix. Each is
//! the contract of a function that computes nothing.
//!
//! Laws of what serving leaves: that each request of a session of Stratum V1 is answered. Each is
//! the contract of a function that computes nothing.
//!
//! Laws of what a session that takes declarations leaves: where the paths come from that its ledger
//! fixes, and how each declaration was answered. Each is the contract of a function that computes
//! nothing.
//!
//! Laws of a proxy over links: it keeps the laws of all proxies, and what each link was put is
//! the output of the proxy's rules up to its last poll.
#![tactic(auto)]

mod declared;
mod declaring;
mod headline;
mod laws;
mod proxying;
mod serving_laws;

pub use declared::{
    declarations_are_answered, declare_leaves_declared, histories_fix_listed_paths,
};
pub use declaring::{
    declarations_are_by_the_rules, declared_grants_are_answered, fixed_paths_are_asked_for,
    fixed_paths_are_of_listed_transactions,
};
pub use headline::{
    durable_serve_keeps_its_promise, durable_solo_keeps_its_promise, serve_keeps_its_promise,
    solo_keeps_its_promise,
};
pub use laws::sessions_stay_present;
pub use proxying::{
    bad_setups_are_exact, miners_are_put_output, proxies_keep_laws, upstreams_are_put_output,
};
pub use serving_laws::{
    frame_sessions_are_answered, frames_stand_in_order, line_sessions_are_answered,
    lines_stand_in_order, served_callers_are_answered,
};
