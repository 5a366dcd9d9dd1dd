//! What is said of tables and of what other events do.

ghost use Rattle.pool_tables.specs.GrantTables.{OtherEventsLeaveGrants};

/// An event that is no Grant and no Custom leaves the grants that a table shows.
pub fn other_events_leave_grants()
    ensures { OtherEventsLeaveGrants }
{}
