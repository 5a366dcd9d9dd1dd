//! Templates and tips.

use crate::error::ReplayError;
use crate::replay::Replay;
use crate::sessions_by::{Right, session_cause};
use pool_history::{Cause, JobError, TemplateData, TipData};
use pool_tables::{other_events_leave_grants, other_events_leave_sessions};
use template_jobs::{histories_are_read, moves_are_told};

impl Replay {
    ghost use Rattle.std.specs.Prelude.{◌≡◌, ◌+◌, ◌<◌, ◌-◌, ◌^◌, OnOk};
    ghost use Rattle.pool_history.specs.declared.events.Event.TheVariants as event;
    ghost use Rattle.ledger_replay.specs.Replays.{Judges, event_count};

    /// A Template.
    pub fn add_template(&mut self, session: u32, template: &TemplateData) -> Result<(), ReplayError>
        requires { event_count self.old < 2 ^ 64 - 1 }
        ensures judged { Judges self.old (event.Template session template.now) result self.new }
        ensures counts { OnOk result (event_count self.new ≡ event_count self.old + 1) }
    {
        other_events_leave_sessions();
        other_events_leave_grants();
        moves_are_told();
        histories_are_read();
        if let Some(cause) = session_cause(&self.sessions, Right::Feed, session) {
            return Err(ReplayError::Illegal(cause));
        }
        let script = self.rules.pool_script.bytes();
        match self
            .jobs
            .add_template(session, self.events, template, script)
        {
            Ok(_) => {
                self.events += 1;
                Ok(())
            }
            Err(refusal) => Err(template_error(refusal)),
        }
    }

    /// A Tip.
    pub fn set_tip(&mut self, session: u32, tip: &TipData) -> Result<(), ReplayError>
        requires { event_count self.old < 2 ^ 64 - 1 }
        ensures judged { Judges self.old (event.Tip session tip.now) result self.new }
        ensures counts { OnOk result (event_count self.new ≡ event_count self.old + 1) }
    {
        other_events_leave_sessions();
        other_events_leave_grants();
        moves_are_told();
        if let Some(cause) = session_cause(&self.sessions, Right::Feed, session) {
            return Err(ReplayError::Illegal(cause));
        }
        match self.jobs.set_tip(self.events, tip) {
            Ok(_) => {
                self.events += 1;
                Ok(())
            }
            Err(_) => Err(ReplayError::Illegal(Cause::BadTip)),
        }
    }
}

ghost use Rattle.std.specs.Prelude.{◌≡◌};
ghost use Rattle.ledger_replay.specs.Replays.{template_error_of};

/// What a template's refusal is called.
fn template_error(refusal: JobError) -> ReplayError
    ensures { result ≡ template_error_of refusal }
{
    match refusal {
        JobError::Memory => ReplayError::Memory,
        JobError::TooMany(_)
        | JobError::TemplateKnown(_)
        | JobError::NoTip
        | JobError::UnknownTemplate(_)
        | JobError::Coinbase(_) => ReplayError::Illegal(Cause::BadTemplate),
    }
}
