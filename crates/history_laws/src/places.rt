//! Sessions and open channels by places over the history from its front.

ghost use Rattle.history_laws.specs.Places.{ChannelsByPlaces, EntrancesByPlaces, PresentByPlaces, PresentIsSomeWorkers};

/// A session was entered as its Enter says, whose number is that of the Enters before it.
pub fn entrances_by_places()
    ensures { EntrancesByPlaces }
{}

/// A worker's present session is that of its last Enter, and has no Leave after it.
pub fn present_by_places()
    ensures { PresentByPlaces }
{}

/// A session is present exactly where it is some worker's.
pub fn present_is_some_workers()
    ensures { PresentIsSomeWorkers }
{}

/// The open channels are those of the Opens with no later Close of the channel and no later Leave
/// of its session; their session, kind, lead and opening class are those of the Open, and the
/// account is the Open's or the Name's.
pub fn channels_by_places()
    ensures { ChannelsByPlaces }
{}
