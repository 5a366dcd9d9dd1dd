//! Sessions that begin and end.

use crate::error::ReplayError;
use crate::replay::Replay;
use crate::sessions_by::{Right, session_cause};
use pool_history::{Cause, Role};
use pool_tables::other_events_leave_grants;

impl Replay {
    ghost use Rattle.std.specs.Prelude.{◌≡◌, ◌+◌, ◌<◌, ◌-◌, ◌^◌, OnOk};
    ghost use Rattle.pool_history.specs.declared.events.Event.TheVariants as event;
    ghost use Rattle.ledger_replay.specs.Replays.{Judges, event_count};

    /// An Enter.
    pub fn enter(&mut self, worker: u32, role: Role, flags: u32) -> Result<(), ReplayError>
        requires { event_count self.old < 2 ^ 64 - 1 }
        ensures judged { Judges self.old (event.Enter worker role flags) result self.new }
        ensures counts { OnOk result (event_count self.new ≡ event_count self.old + 1) }
    {
        other_events_leave_grants();
        if MOST_ENTERS <= self.sessions.count() {
            return Err(ReplayError::Illegal(Cause::PoolFull));
        }
        if !has_acceptable_flags(self.rules.version_rolling, flags) {
            return Err(ReplayError::Illegal(Cause::BadFlags));
        }
        if self.sessions.reserve().is_err() {
            return Err(ReplayError::Memory);
        }
        self.sessions.enter(worker, role, flags);
        self.events += 1;
        Ok(())
    }

    /// A Leave.
    pub fn leave(&mut self, session: u32) -> Result<(), ReplayError>
        requires { event_count self.old < 2 ^ 64 - 1 }
        ensures judged { Judges self.old (event.Leave session) result self.new }
        ensures counts { OnOk result (event_count self.new ≡ event_count self.old + 1) }
    {
        other_events_leave_grants();
        if let Some(cause) = session_cause(&self.sessions, Right::Present, session) {
            return Err(ReplayError::Illegal(cause));
        }
        self.sessions.leave(session);
        self.channels.leave(session);
        self.events += 1;
        Ok(())
    }
}

ghost use Rattle.std.specs.Prelude.{◌≡◌, ◌==◌, bit_and, if◌then◌else◌};

/// The most Enter events of a history.
const MOST_ENTERS: u32 = 1 << 22;

/// Whether no flag is set but those that are acceptable (Stratum V2, "SetupConnection").
fn has_acceptable_flags(version_rolling: bool, flags: u32) -> bool
    ensures { result ≡ (bit_and flags (if version_rolling then 7 else 3) == flags) }
{
    let allowed: u32 = if version_rolling { 7 } else { 3 };
    flags & allowed == flags
}
