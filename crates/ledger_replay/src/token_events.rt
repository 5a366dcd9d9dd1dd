//! Tokens that are granted.

use crate::error::ReplayError;
use crate::replay::Replay;
use crate::sessions_by::{Right, session_cause};
use pool_history::{Cause, GrantError};
use pool_tables::{grant_refusal_of, other_events_leave_sessions};
use sv2_types::{Hashes, Str255};

impl Replay {
    ghost use Rattle.std.specs.Prelude.{◌≡◌, ◌+◌, ◌<◌, ◌-◌, ◌^◌, OnOk};
    ghost use Rattle.pool_history.specs.declared.events.Event.TheVariants as event;
    ghost use Rattle.ledger_replay.specs.Replays.{Judges, event_count};

    /// A Grant.
    pub fn grant(
        &mut self,
        session: u32,
        account: Str255,
        fixed: bool,
        path: Hashes,
    ) -> Result<(), ReplayError>
        requires { event_count self.old < 2 ^ 64 - 1 }
        ensures judged { Judges self.old (event.Grant session account fixed path) result self.new }
        ensures counts { OnOk result (event_count self.new ≡ event_count self.old + 1) }
    {
        other_events_leave_sessions();
        if let Some(cause) = session_cause(&self.sessions, Right::SelectWork, session) {
            return Err(ReplayError::Illegal(cause));
        }
        let count = self.grants.count();
        let len = path.items().len();
        if let Some(refusal) = grant_refusal_of(&self.rules, count, account.text(), len) {
            return Err(ReplayError::Illegal(grant_cause(refusal)));
        }
        match self.grants.reserve() {
            Ok(()) => {
                self.grants.grant(account, fixed, path);
                self.events += 1;
                Ok(())
            }
            Err(_) => Err(ReplayError::Memory),
        }
    }
}

ghost use Rattle.std.specs.Prelude.{◌≡◌, Some};
ghost use Rattle.pool_history.specs.Legal as legal;

/// What a refusal of a token is called.
fn grant_cause(refusal: GrantError) -> Cause
    ensures { Some result ≡ legal.grant_cause (Some refusal) }
{
    match refusal {
        GrantError::UnknownUser => Cause::UnknownUser,
        GrantError::TooManyGrants(_) => Cause::TooManyGrants,
        GrantError::PathTooLong(_) => Cause::BadPath,
    }
}
