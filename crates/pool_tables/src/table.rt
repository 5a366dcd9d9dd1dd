//! The table of sessions.

ghost use Rattle.std.specs.Prelude.{◌≡◌, ◌<◌, [], ◌∷◌, ◌++◌, vec_capacity, vec_len};

use crate::entered::Entered;
use crate::presents::{begin, end};
use indexmap::IndexMap;
use pool_history::Role;
use std::alloc::{AllocError, Global};
use std::marker::Model;

/// What each session was entered with, and which of them are present. Contracts see the sessions
/// in the order of their numbers, and for how many more there is room.
#[derive(Drop)]
pub struct Sessions {
    entrances: Vec<Entered>,
    /// Each worker's present session.
    presents: IndexMap<u32, u32>,
}

impl Model for Sessions {
    ghost use Rattle.pool_tables.specs.Tables.{SessionTable};

    ghost Value = { SessionTable };

    ghost use Rattle.std.specs.Prelude.{◌-◌, min, vec_capacity, vec_len};
    ghost use Rattle.indexmap.specs.IndexMap.{spare};
    ghost use Rattle.pool_tables.specs.Tables.{HasOwnPresents};

    ghost view = { λ table. record {
      entrances = table.entrances.items;
      presents = table.presents.entries;
      room = min (vec_capacity table.entrances - vec_len table.entrances) (spare table.presents);
    } };

    ghost invariant = { λ table. HasOwnPresents table.entrances.items table.presents.entries };
}

impl Sessions {
    ghost use Rattle.std.specs.Prelude.{◌≡◌, ℕ, ◌<◌, ◌≤◌, List, [], ◌∷◌, OnOk};
    ghost use Rattle.pool_history.specs.declared.events.Event.{Event};
    ghost use Rattle.pool_history.specs.declared.events.Event.TheVariants as event;
    ghost use Rattle.pool_history.specs.Refusing.{most_enters};
    ghost use Rattle.pool_tables.specs.Tables.{ShowsSameSessions, ShowsSessions, entered_count, entrance_in, present_in};

    /// No session was entered.
    pub fn new(alloc: Global) -> Sessions
        ensures { ShowsSessions result [] }
    {
        Sessions {
            entrances: Vec::new(alloc),
            presents: IndexMap::new(alloc),
        }
    }

    /// How many sessions were entered.
    pub fn count(&self) -> u32
        ensures value { result ≡ entered_count self.now }
        ensures most { result ≤ most_enters }
    {
        self.entrances.len() as u32
    }

    /// A worker's present session.
    pub fn present(&self, worker: u32) -> Option<u32>
        ensures { result ≡ present_in self.now worker }
    {
        self.presents.get(&worker).copied()
    }

    /// What a session was entered with; none where it wasn't entered.
    pub fn entrance(&self, session: u32) -> Option<Entered>
        ensures { result ≡ entrance_in self.now session }
    {
        self.entrances.get(session as usize).copied()
    }

    /// Makes room for one more session.
    pub fn reserve(&mut self) -> Result<(), AllocError>
        ensures room { OnOk result (1 ≤ self.new.room) }
        ensures same { ShowsSameSessions self.old self.new }
        ensures shown { (past : List Event) → ShowsSessions self.old past
            → ShowsSessions self.new past }
    {
        self.entrances.reserve(1)?;
        self.presents.reserve(1)
    }

    /// A worker's session begins, and is its present one; its number is answered. It takes no
    /// memory.
    pub fn enter(&mut self, worker: u32, role: Role, flags: u32) -> u32
        requires room { 1 ≤ self.old.room }
        requires few { entered_count self.old < most_enters }
        ensures number { result ≡ entered_count self.old }
        ensures shown { (past : List Event) → ShowsSessions self.old past
            → ShowsSessions self.new (event.Enter worker role flags ∷ past) }
    {
        let session = self.count();
        push_entered(
            &mut self.entrances,
            Entered {
                worker,
                role,
                flags,
            },
        );
        begin(&mut self.presents, worker, session);
        session
    }

    /// A session ends. It takes no memory.
    pub fn leave(&mut self, session: u32)
        ensures { (past : List Event) → ShowsSessions self.old past
            → ShowsSessions self.new (event.Leave session ∷ past) }
    {
        if let Some(entered) = self.entrance(session) {
            end(&mut self.presents, entered.worker, session);
        }
    }
}

/// Puts what a session was entered with behind the others, for which there is room.
fn push_entered(entrances: &mut Vec<Entered>, entered: Entered)
    requires { vec_len entrances.old < vec_capacity entrances.old }
    ensures { entrances.new.items ≡ entrances.old.items ++ entered ∷ [] }
{
    let _done = entrances.push(entered);
}
