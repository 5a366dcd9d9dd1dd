//! What the openings and the open channels of a legal history are.

ghost use Rattle.history_laws.specs.Openings.{OpenChannelsFit, OpeningsGetLowest};

/// Each open channel has a lead of bytes, as many as its kind allows, a class that the rules allow,
/// and a known account, but for a V1 channel that has none yet; no lead begins another.
pub fn open_channels_fit()
    ensures { OpenChannelsFit }
{}

/// Each opening has the lead of its length that comes first in byte order among those that were
/// free before it.
pub fn openings_get_lowest()
    ensures { OpeningsGetLowest }
{}
