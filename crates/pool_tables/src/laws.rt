//! What is said of tables and of what other events do.

ghost use Rattle.pool_tables.specs.Tables.{OtherEventsLeaveSessions};

/// An event that is no Enter and no Leave leaves the sessions that a table shows.
pub fn other_events_leave_sessions()
    ensures { OtherEventsLeaveSessions }
{}
