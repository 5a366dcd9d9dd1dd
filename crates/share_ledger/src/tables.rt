//! The history and the tables that are told of it.

use channels::Channels;
use event_store::History;
use ledger_records::{fields_fit, starts_are_kept};
use payouts::{Rule, Tally};
use pool_history::{Event, Rules};
use pool_tables::{
    Grants, Headers, Sessions, other_events_leave_grants, other_events_leave_sessions,
};
use std::alloc::{AllocError, Global};
use std::marker::Model;
use template_jobs::Jobs;

/// The events, and tables that were told each of them: all that a book has but its keeper. Contracts
/// see what each of these shows.
#[derive(Drop)]
pub struct Tables {
    pub history: History,
    pub sessions: Sessions,
    pub channels: Channels,
    pub jobs: Jobs,
    pub grants: Grants,
    pub tally: Tally,
    pub headers: Headers,
}

impl Model for Tables {
    ghost use Rattle.share_ledger.specs.Tables.{AreTables, LedgerTables};

    ghost Value = { LedgerTables };

    ghost view = { λ tables. record {
      history = tables.history;
      sessions = tables.sessions;
      channels = tables.channels;
      jobs = tables.jobs;
      grants = tables.grants;
      tally = tables.tally;
      headers = tables.headers;
    } };

    ghost invariant = { λ tables. AreTables (record {
      history = tables.history;
      sessions = tables.sessions;
      channels = tables.channels;
      jobs = tables.jobs;
      grants = tables.grants;
      tally = tables.tally;
      headers = tables.headers;
    }) };
}

impl Tables {
    ghost use Rattle.std.specs.Prelude.{◌≡◌, ◌≤◌, Some, [], ◌∷◌, IfOk, IsTrue, OnOk, slice_get};
    ghost use Rattle.pool_history.specs.declared.events.Event.{Event};
    ghost use Rattle.pool_history.specs.declared.events.Event.TheVariants as event;
    ghost use Rattle.pool_history.specs.Accounts.{are_in_range};
    ghost use Rattle.history_laws.specs.Legality.{Starts};
    ghost use Rattle.ledger_records.specs.Keeping.{IsKept};

    /// The tables of a pool that starts.
    pub(crate) fn start(alloc: Global, rules: Rules) -> Result<Tables, AllocError>
        requires { IsTrue (are_in_range rules) }
        ensures { IfOk result (λ tables. tables.history.events ≡ event.Start rules ∷ []) }
    {
        starts_are_kept();
        other_events_leave_sessions();
        other_events_leave_grants();
        let rule = rule_of(rules.window);
        let history = History::start(alloc, rules)?;
        start_fits(&history);
        let channels = Channels::new(alloc)?;
        let tally = Tally::new(alloc, rule)?;
        let sessions = Sessions::new(alloc);
        let jobs = Jobs::new(alloc);
        let grants = Grants::new(alloc);
        let headers = Headers::new(alloc);
        Ok(Tables {
            history,
            sessions,
            channels,
            jobs,
            grants,
            tally,
            headers,
        })
    }

    /// Room for one event more.
    pub(crate) fn reserve(&mut self) -> Result<(), AllocError>
        ensures same { self.new.history.events ≡ self.old.history.events }
        ensures room { OnOk result (1 ≤ self.new.history.room) }
    {
        self.history.reserve()
    }

    /// The Start.
    pub(crate) fn first(&self) -> &Event
        ensures { (first : Event) → slice_get self.now.history.events 0 ≡ Some first
            → result.now ≡ first }
    {
        match self.history.event(0) {
            Some(first) => first,
            None => unreachable!(),
        }
    }

    /// That the events are legal and have a ledger, and begin with a Start.
    pub(crate) fn are_kept(&self)
        ensures kept { IsKept self.now.history.events }
        ensures begin { Starts self.now.history.events }
    {
        let _ = &self.history;
    }

    /// The events alone.
    pub(crate) fn into_history(self) -> History
        ensures { result.events ≡ self.history.events }
    {
        self.history
    }
}

ghost use Rattle.std.specs.Prelude.{◌≡◌, Some, slice_get};
ghost use Rattle.ledger_records.specs.WellFormed.{IsWellFormed};
ghost use Rattle.pool_history.specs.declared.events.Event.{Event};
ghost use Rattle.payouts.specs.Tallies.{window_of};

/// The rule by which a window weighs credits.
fn rule_of(window: Option<u64>) -> Rule
    ensures { window_of result ≡ window }
{
    match window {
        Some(window) => Rule::Pplns(window),
        None => Rule::Proportional,
    }
}

/// That the fields of the first event are of their types.
fn start_fits(history: &History)
    ensures { (first : Event) → slice_get history.now.events 0 ≡ Some first → IsWellFormed first }
{
    if let Some(first) = history.event(0) {
        fields_fit(first);
    }
}
