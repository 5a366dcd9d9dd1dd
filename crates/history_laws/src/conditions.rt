//! The nine conditions of a share, each by itself.

ghost use Rattle.history_laws.specs.NineConditions.{BookingsByPlaces, ConditionsStandByThemselves, HeadersByPlaces, LiveJobsByPlaces, LiveJobsSaySince};

/// What a share is refused by is the first of the nine conditions that fails, each in the
/// standard's words over the history by places, and a share is refused by none exactly where all
/// nine hold.
pub fn conditions_stand_by_themselves()
    ensures { ConditionsStandByThemselves }
{}

/// The headers that no later share may have are those of the Credits, each rebuilt by the events
/// before it.
pub fn headers_by_places()
    ensures { HeadersByPlaces }
{}

/// The live job with a number is the one that the words by places say: a template's, or a miner's
/// own among the last sixteen of some channel.
pub fn live_jobs_by_places()
    ensures { LiveJobsByPlaces }
{}

/// Each live job says since which place of the history it is live.
pub fn live_jobs_say_since()
    ensures { LiveJobsSaySince }
{}

/// What a credit is booked with, of which are its account, its work and whether it is a block, is
/// the open channel, the live job and the last tip by places before it.
pub fn bookings_by_places()
    ensures { BookingsByPlaces }
{}
