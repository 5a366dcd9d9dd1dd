//! What stays as it is while a history grows.

ghost use Rattle.history_laws.specs.Numbering.{JobsAreNumbered};
ghost use Rattle.history_laws.specs.Staying.{ChannelsAreNumbered, ChannelsStay, ClassesStay, CreditsStay, JobsStay};

/// An open channel keeps its session, kind, lead and opening class, its account once it has one,
/// and its class before a place that was reached.
pub fn channels_stay()
    ensures { ChannelsStay }
{}

/// Open channels stand in the order of their ids, each of which is at most the number of openings.
pub fn channels_are_numbered()
    ensures { ChannelsAreNumbered }
{}

/// The numbers of all jobs, of those of the future, of the live ones of templates and of the
/// miners' own rise in each of these lists, from 1 to the number of all jobs at most, and none is
/// in two of the last three.
pub fn jobs_are_numbered()
    ensures { JobsAreNumbered }
{}

/// A live job is the same job as long as it is live.
pub fn jobs_stay()
    ensures { JobsStay }
{}

/// The class of a channel at a live job never changes.
pub fn classes_stay()
    ensures { ClassesStay }
{}

/// The rebuilt headers of the credits that stand never change, nor do their accounts, work and
/// rewards.
pub fn credits_stay()
    ensures { CreditsStay }
{}
