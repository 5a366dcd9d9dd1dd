//! Jobs that miners bring.

use crate::error::ReplayError;
use crate::replay::Replay;
use crate::sessions_by::{Right, session_cause};
use channels::tables_show_histories;
use coinbase::OutputsError;
use pool_history::{Cause, CustomData, CustomError};
use pool_tables::{other_events_leave_sessions, own_job_refusal};
use template_jobs::moves_are_told;

/// As many jobs of miners' own as tokens can be granted, each of which is spent by one.
const MOST_OWN_JOBS: u32 = 1 << 18;

impl Replay {
    ghost use Rattle.std.specs.Prelude.{◌≡◌, ◌+◌, ◌<◌, ◌-◌, ◌^◌, OnOk};
    ghost use Rattle.pool_history.specs.declared.events.Event.TheVariants as event;
    ghost use Rattle.ledger_replay.specs.Replays.{Judges, event_count};

    /// A Custom.
    pub fn custom(&mut self, session: u32, custom: &CustomData) -> Result<(), ReplayError>
        requires { event_count self.old < 2 ^ 64 - 1 }
        ensures judged { Judges self.old (event.Custom session custom.now) result self.new }
        ensures counts { OnOk result (event_count self.new ≡ event_count self.old + 1) }
    {
        other_events_leave_sessions();
        moves_are_told();
        tables_show_histories();
        if let Some(cause) = session_cause(&self.sessions, Right::SelectWork, session) {
            return Err(ReplayError::Illegal(cause));
        }
        let there = self.channels.own(session, custom.channel_id);
        if let Some(refusal) = own_job_refusal(there, &self.grants, self.jobs.tip(), custom) {
            return Err(ReplayError::Illegal(own_job_cause(refusal)));
        }
        // No token is left to spend then, so this was told above.
        if MOST_OWN_JOBS <= self.jobs.own_count() {
            return Err(ReplayError::Illegal(Cause::BadToken));
        }
        let script = self.rules.pool_script.bytes();
        match self.jobs.add_custom(self.events, custom, script) {
            Ok(_) => {
                self.grants.spend(custom.token.bytes());
                self.events += 1;
                Ok(())
            }
            Err(refusal) => Err(coinbase_error(refusal)),
        }
    }
}

ghost use Rattle.std.specs.Prelude.{◌≡◌, Some};
ghost use Rattle.pool_history.specs.Legal as legal;
ghost use Rattle.ledger_replay.specs.Replays.{coinbase_error_of};

/// What a refusal of a miner's own job is called.
fn own_job_cause(refusal: CustomError) -> Cause
    ensures { Some result ≡ legal.custom_cause (Some refusal) }
{
    match refusal {
        CustomError::NotOpen => Cause::NotOpen,
        CustomError::BadToken => Cause::BadToken,
        CustomError::StaleTip => Cause::StalePrevHash,
        CustomError::EarlyTime(_) => Cause::BadNtime,
        CustomError::BadPath(_) => Cause::BadPath,
        CustomError::Coinbase(_) => Cause::BadCoinbase,
    }
}

/// What a refusal of its coinbase is called.
fn coinbase_error(refusal: OutputsError) -> ReplayError
    ensures { result ≡ coinbase_error_of refusal }
{
    match refusal {
        OutputsError::Memory => ReplayError::Memory,
        OutputsError::ScriptTooLong(_)
        | OutputsError::TooLong(_)
        | OutputsError::BadOutputs(_)
        | OutputsError::NoOutputs
        | OutputsError::ForeignOutput(_)
        | OutputsError::RewardTooLarge(_) => ReplayError::Illegal(Cause::BadCoinbase),
    }
}
