//! The test miner and the script feed as machines by themselves: they take the turns of a link, and
//! say bytes. They reach no link.
#![tactic(auto)]

mod course;
mod feed;
mod feed_machine;
mod hearing;
mod laws;
mod miner;
mod notice;
mod saying;
mod script;
mod trying;

pub use course::{Course, MinerEnd};
pub use feed::{FeedCourse, FeedEnd, Verdict};
pub use feed_machine::{Feed, FeedEar};
pub use hearing::Ear;
pub use laws::{
    ends_tell_credits, feed_says_script, miner_says_shares, one_share_waits, shares_are_numbered,
    shares_meet_class,
};
pub use link_turns::Partner;
pub use miner::{Miner, MinerTask};
pub use notice::{Notice, notice_in};
pub use script::{Script, ScriptError, ScriptTemplate};
pub use trying::{CurrentJob, MinedShare, Tries, Try};
