//! The replay itself.

ghost use Rattle.std.specs.Prelude.{IsTrue};
ghost use Rattle.pool_history.specs.Accounts.{are_in_range};

use crate::error::ReplayError;
use channels::Channels;
use payouts::{Rule, Tally};
use pool_history::{Cause, Event, Rules, are_rules_in_range};
use pool_tables::{
    Grants, Headers, Sessions, other_events_leave_grants, other_events_leave_sessions,
};
use share_headers::Foresight;
use std::alloc::{AllocError, Global};
use template_jobs::Jobs;

/// What was told of a legal history so far: its rules, how many events it has, and tables that were
/// told each of them.
#[derive(Drop)]
pub struct Replay {
    pub(crate) alloc: Global,
    pub(crate) rules: Rules,
    pub(crate) events: u64,
    pub(crate) sessions: Sessions,
    pub(crate) channels: Channels,
    pub(crate) jobs: Jobs,
    pub(crate) grants: Grants,
    pub(crate) tally: Tally,
    pub(crate) headers: Headers,
    pub(crate) foresight: Foresight,
    pub(crate) ghost in_range: { IsTrue (are_in_range rules) },
}

/// The rules of a history, and the tables that were told it.
#[derive(Drop)]
pub struct ReplayedTables {
    pub rules: Rules,
    pub sessions: Sessions,
    pub channels: Channels,
    pub jobs: Jobs,
    pub grants: Grants,
    pub tally: Tally,
    pub headers: Headers,
}

impl Replay {
    ghost use Rattle.std.specs.Prelude.{◌≡◌, [], ◌∷◌, IfOk};
    ghost use Rattle.pool_history.specs.declared.events.Event.TheVariants as event;
    ghost use Rattle.ledger_replay.specs.Replays.{Begins, WasReplayed, event_count, tables_of, tables_with};

    /// The replay of a first event.
    pub fn begin(alloc: Global, first: Event) -> Result<Replay, ReplayError>
        ensures judged { Begins first result }
        ensures counts { IfOk result (λ replay. event_count replay ≡ 1) }
    {
        let Event::Start(rules) = first else {
            return Err(ReplayError::Illegal(Cause::BadStart));
        };
        let rules = rules.into_inner();
        if !are_rules_in_range(&rules) {
            return Err(ReplayError::Illegal(Cause::BadStart));
        }
        match Replay::with_rules(alloc, rules) {
            Ok(replay) => Ok(replay),
            Err(_) => Err(ReplayError::Memory),
        }
    }

    /// How many events were told.
    pub fn events(&self) -> u64
        ensures { result ≡ event_count self.now }
    {
        self.events
    }

    /// How many blocks were told.
    pub fn blocks(&self) -> u32
        ensures { result ≡ (tables_of self.now).tally.blocks }
    {
        self.tally.blocks()
    }

    /// The rules and the tables.
    pub fn into_tables(self) -> ReplayedTables
        ensures { tables_with (event_count self) result ≡ tables_of self }
    {
        let Replay {
            alloc: _,
            rules,
            events: _,
            sessions,
            channels,
            jobs,
            grants,
            tally,
            headers,
            foresight: _,
        } = self;
        ReplayedTables {
            rules,
            sessions,
            channels,
            jobs,
            grants,
            tally,
            headers,
        }
    }

    /// Tables that were told of these rules alone.
    fn with_rules(alloc: Global, rules: Rules) -> Result<Replay, AllocError>
        requires { IsTrue (are_in_range rules) }
        ensures told { IfOk result (λ replay. WasReplayed replay (event.Start rules ∷ [])) }
        ensures counts { IfOk result (λ replay. event_count replay ≡ 1) }
    {
        other_events_leave_sessions();
        other_events_leave_grants();
        let channels = Channels::new(alloc)?;
        let rule = rule_of(rules.window);
        let tally = Tally::new(alloc, rule)?;
        Ok(Replay {
            alloc,
            rules,
            events: 1,
            sessions: Sessions::new(alloc),
            channels,
            jobs: Jobs::new(alloc),
            grants: Grants::new(alloc),
            tally,
            headers: Headers::new(alloc),
            foresight: Foresight::none(),
        })
    }
}

ghost use Rattle.std.specs.Prelude.{◌≡◌};
ghost use Rattle.payouts.specs.Tallies.{window_of};

/// The rule by which a window weighs credits.
fn rule_of(window: Option<u64>) -> Rule
    ensures { window_of result ≡ window }
{
    match window {
        Some(window) => Rule::Pplns(window),
        None => Rule::Proportional,
    }
}
