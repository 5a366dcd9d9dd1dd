//! Laws of the pool's histories: what legality is, what one more event does, what stays as it is,
//! that open extranonce spaces are disjoint, and that answers keep a history legal. Each is the
//! contract of a function that computes nothing; the layers above call it to have its statement.
#![tactic(auto)]

mod answers;
mod conditions;
mod credited;
mod kept_jobs;
mod legality;
mod limits;
mod news;
mod one_more;
mod openings;
mod places;
mod serving;
mod spaces;
mod staying;

pub use answers::{
    answers_fit, answers_keep_legality, briefs_roll, credits_are_committed, shares_are_briefed,
    shares_are_judged, shares_need_a_session,
};
pub use conditions::{
    bookings_by_places, conditions_stand_by_themselves, headers_by_places, live_jobs_by_places,
    live_jobs_say_since,
};
pub use credited::{credits_are_booked, credits_fit, credits_have_headers, no_share_twice};
pub use kept_jobs::{kept_jobs_move, kept_jobs_suffice};
pub use legality::{
    empty_is_legal, first_illegal_is_one, legal_histories_start, legality_by_places,
    legality_is_decided, one_more_is_legal, prefixes_are_legal, start_is_legal,
};
pub use limits::{jobs_spend_tokens, legal_histories_keep_limits, own_jobs_are_read};
pub use news::{news_by_places, news_go_on};
pub use one_more::{
    channels_one_more, counts_one_more, credits_one_more, entrances_one_more, grants_one_more,
    headers_one_more, jobs_one_more, present_one_more, rules_one_more, spending_one_more,
};
pub use openings::{open_channels_fit, openings_get_lowest};
pub use places::{
    channels_by_places, entrances_by_places, present_by_places, present_is_some_workers,
};
pub use serving::{
    calls_are_answered, calls_are_judged, calls_keep_legality, credits_are_called,
    sessions_ask_behind_their_enter,
};
pub use spaces::{are_apart, lowest_is_least, spaces_are_disjoint};
pub use staying::{
    channels_are_numbered, channels_stay, classes_stay, credits_stay, jobs_are_numbered, jobs_stay,
};
