//! The kept events.

use crate::index::{Index, put};
use crate::places::{behind, first_of, list_common, since};
use crate::telling::Teller;
use pool_history::{Boxed, Event, Note, Notes, Rules};
use std::alloc::{AllocError, Global};
use std::marker::Model;

// So many events are kept at most.
const MOST_EVENTS: usize = (1 << 62) - 1;

/// The events of a pool, of which there is one at least: its Start.
#[derive(Drop)]
pub struct History {
    alloc: Global,
    events: Vec<Event>,
    /// A number for each event, which says where its marks are.
    details: Vec<u32>,
    index: Index,
    /// The places of the events that may be news to any session.
    common: Vec<u64>,
}

impl Model for History {
    ghost use Rattle.event_store.specs.Kept.{KeptHistory, IsKeptHistory};

    ghost Value = { KeptHistory };

    ghost use Rattle.std.specs.Prelude.{◌-◌, ◌^◌, min, vec_capacity, vec_len};

    ghost view = { λ history. record {
      events = history.events.items;
      room = min
          (min (vec_capacity history.events - vec_len history.events)
          (vec_capacity history.details - vec_len history.details))
          (min (vec_capacity history.common - vec_len history.common)
          (min history.index.room ((2 ^ 62 - 1) - vec_len history.events)));
    } };

    ghost invariant = { λ history. IsKeptHistory history.events.items history.details.items
        history.index.parts history.common.items };
}

impl History {
    ghost use Rattle.std.specs.Prelude.{IsTrue, ◌≡◌, ◌≤◌, ◌<◌, ◌^◌, Some, [], ◌∷◌, ◌++◌, IfOk, OnOk, length, slice_get};
    ghost use Rattle.std.specs.Option.{option_copied};
    ghost use Rattle.pool_history.specs.Accounts.{are_in_range};
    ghost use Rattle.pool_history.specs.declared.events.Event.TheVariants as event;
    ghost use Rattle.pool_history.specs.Legal.{Legal};
    ghost use Rattle.pool_history.specs.News.{news};
    ghost use Rattle.pool_history.specs.Sessions.{past_of, rules_of};
    ghost use Rattle.event_store.specs.Blocks.{is_block_event};
    ghost use Rattle.event_store.specs.Telling.{owed_in};

    /// The history of a pool that starts.
    pub fn start(alloc: Global, rules: Rules) -> Result<History, AllocError>
        requires { IsTrue (are_in_range rules) }
        ensures { IfOk result (λ history. history.events ≡ event.Start rules ∷ []) }
    {
        let mut details = Vec::new(alloc);
        details.push(0)?;
        let mut events = Vec::new(alloc);
        if events
            .push(Event::Start(Boxed::new(alloc, rules)?))
            .is_err()
        {
            return Err(AllocError);
        }
        Ok(History {
            alloc,
            events,
            details,
            index: Index::new(alloc),
            common: Vec::new(alloc),
        })
    }

    /// How many events there are.
    pub fn len(&self) -> u64
        ensures value { result ≡ length self.now.events }
        ensures few { result < 2 ^ 62 }
    {
        self.events.len() as u64
    }

    /// The event at a place; none past the end.
    pub fn event(&self, at: u64) -> Option<&Event>
        ensures { option_copied result ≡ slice_get self.now.events at }
    {
        self.events.get(at as usize)
    }

    /// The rules of the pool.
    pub fn rules(&self) -> &Rules
        ensures { rules_of (past_of self.now.events) ≡ Some result.now }
    {
        match &self.events[0] {
            Event::Start(rules) => rules.get(),
            _ => unreachable!(),
        }
    }

    /// That the events are legal.
    pub fn events_are_legal(&self)
        ensures { Legal self.now.events }
    {
        let _ = &self.events;
    }

    /// Takes memory for one event more. Where there are as many as are kept at most, it answers
    /// that memory runs out.
    pub fn reserve(&mut self) -> Result<(), AllocError>
        ensures same { self.new.events ≡ self.old.events }
        ensures room { OnOk result (1 ≤ self.new.room) }
    {
        if self.events.len() >= MOST_EVENTS {
            return Err(AllocError);
        }
        self.index.reserve()?;
        self.common.reserve(1)?;
        self.details.reserve(1)?;
        self.events.reserve(1)?;
        Ok(())
    }

    /// Keeps an event, for which there is room.
    pub fn push(&mut self, event: Event, is_block: bool)
        requires room { 1 ≤ self.old.room }
        requires legal { Legal (self.old.events ++ event ∷ []) }
        requires block { is_block ≡ is_block_event (past_of self.old.events) event }
        ensures { self.new.events ≡ self.old.events ++ event ∷ [] }
    {
        let at = self.events.len() as u64;
        let detail = self.index.add(at, &event, is_block);
        list_common(&mut self.common, at, &event, is_block);
        put(&mut self.details, detail);
        put(&mut self.events, event);
    }

    /// What a session is owed for the events from a place on, in their order. It reads those that
    /// may be news to the session, and no other.
    pub fn news(&self, from: u64, session: u32) -> Result<Notes, AllocError>
        ensures { IfOk result (λ notes. notes ≡ news from (past_of self.now.events) session) }
    {
        let openings = self.index.openings_since(self.alloc, session, from)?;
        let mut own = openings.as_slice();
        let mut common = since(&self.common, from);
        let mut notes = Vec::new(self.alloc);
        while let Some(at) = first_of(common, own) {
            self.tell(at, session, &mut notes)?;
            common = behind(common, at);
            own = behind(own, at);
        }
        Ok(Notes::of(notes))
    }

    // What it is owed for the event at a place, behind the other notes.
    fn tell(&self, at: u64, session: u32, notes: &mut Vec<Note>) -> Result<(), AllocError>
        requires { at < length self.now.events }
        ensures { OnOk result (notes.new.items ≡ notes.old.items
            ++ owed_in self.now.events at session (slice_get self.now.events at)) }
    {
        let teller = Teller {
            alloc: self.alloc,
            rules: self.rules(),
            events: &self.events,
            index: &self.index,
            session,
        };
        teller.tell(
            at,
            self.details[at as usize],
            &self.events[at as usize],
            notes,
        )
    }
}
