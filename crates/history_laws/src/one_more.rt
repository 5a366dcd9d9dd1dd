//! What one more event does to what a history shows. Each law takes what the history showed, and
//! for the things that are told by places its length, as an object that follows the events keeps
//! them.

ghost use Rattle.history_laws.specs.OneMore.{ChannelsOneMore, CountsOneMore, CreditsOneMore, EntrancesOneMore, GrantsOneMore, HeadersOneMore, JobsOneMore, PresentOneMore, RulesOneMore, SpendingOneMore};

/// The rules.
pub fn rules_one_more()
    ensures { RulesOneMore }
{}

/// The numbers of Enter, Open, Template, Credit and Grant events.
pub fn counts_one_more()
    ensures { CountsOneMore }
{}

/// A worker's present session.
pub fn present_one_more()
    ensures { PresentOneMore }
{}

/// What a session was entered with.
pub fn entrances_one_more()
    ensures { EntrancesOneMore }
{}

/// The jobs and the tip.
pub fn jobs_one_more()
    ensures { JobsOneMore }
{}

/// The open channels.
pub fn channels_one_more()
    ensures { ChannelsOneMore }
{}

/// The headers of all credits.
pub fn headers_one_more()
    ensures { HeadersOneMore }
{}

/// The credits with their accounts, work and rewards.
pub fn credits_one_more()
    ensures { CreditsOneMore }
{}

/// What was granted for a token.
pub fn grants_one_more()
    ensures { GrantsOneMore }
{}

/// Whether a token is spent.
pub fn spending_one_more()
    ensures { SpendingOneMore }
{}
