//! Where the calls of any machine stand. Events, requests, replies and faults are of any types.

ghost use Rattle.pool_base.specs.Standing.{CallersGoOn, CallsAreAll, LaterCallsStandBehind};

/// Of two calls that part a machine's events, the one with the greater number stands behind what
/// the other added.
pub fn later_calls_stand_behind<E, Q, R, F>()
    ensures { LaterCallsStandBehind E Q R F }
{}

/// The events are those of the start and what the calls added, in the order of their numbers, and
/// the events before a call are what the calls before it left.
pub fn calls_are_all<E, Q, R, F>()
    ensures { CallsAreAll E Q R F }
{}

/// The calls of one caller, whose numbers rise, stand each behind all that the earlier ones added,
/// whatever others called.
pub fn callers_go_on<E, Q, R, F>()
    ensures { CallersGoOn E Q R F }
{}
