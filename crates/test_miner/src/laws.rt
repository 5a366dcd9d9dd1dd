//! Laws of the definitions: what holds of a miner and of a feed whatever the turns of their links
//! bring.

ghost use Rattle.test_miner.specs.Feeds.{FeedSaysScript};
ghost use Rattle.test_miner.specs.Laws.{
  EndsTellCredits,
  MinerSaysShares,
  OneShareWaits,
  SharesAreNumbered,
  SharesMeetClass,
};

/// A miner says its setup, the opening of its channel once its connection is accepted, and the
/// submissions of its shares, each once and in their order.
pub fn miner_says_shares()
    ensures { MinerSaysShares }
{}

/// Each share's header meets the class.
pub fn shares_meet_class()
    ensures { SharesMeetClass }
{}

/// The sequence numbers of the shares are 0, 1, 2 and so on.
pub fn shares_are_numbered()
    ensures { SharesAreNumbered }
{}

/// At most one submission waits for its answer.
pub fn one_share_waits()
    ensures { OneShareWaits }
{}

/// An end tells how many submissions were credited, each once and by a Success that it waited for;
/// a miner that has mined has all that were wanted.
pub fn ends_tell_credits()
    ensures { EndsTellCredits }
{}

/// A feed says nothing before its caller has set up, and then its answer and its whole script, once.
pub fn feed_says_script()
    ensures { FeedSaysScript }
{}
