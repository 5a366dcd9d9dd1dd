//! The table of grants.

ghost use Rattle.std.specs.Prelude.{◌≡◌, ◌<◌, None, [], ◌∷◌, ◌++◌, length, slice_get, slice_set, vec_capacity, vec_len};
ghost use Rattle.std.specs.Option.{option_copied};
ghost use Rattle.pool_tables.specs.GrantTables.{held_at};

use crate::granted::Granted;
use crate::tokens::place_of;
use std::alloc::{AllocError, Global};
use std::marker::Model;
use sv2_types::{Hashes, Str255};

/// The grants that are still to be spent. Contracts see each that was made, by its number, with
/// none where it is spent, and for how many more there is room.
#[derive(Drop)]
pub struct Grants {
    held: Vec<Option<Granted>>,
}

impl Model for Grants {
    ghost use Rattle.pool_tables.specs.GrantTables.{GrantTable};

    ghost Value = { GrantTable };

    ghost use Rattle.std.specs.Prelude.{◌-◌, ◌≤◌, vec_capacity, vec_len};
    ghost use Rattle.pool_history.specs.Refusing.{most_grants};

    ghost view = { λ table. record {
      held = table.held.items;
      room = vec_capacity table.held - vec_len table.held;
    } };

    ghost invariant = { λ table. vec_len table.held ≤ most_grants };
}

impl Grants {
    ghost use Rattle.std.specs.Prelude.{◌≡◌, ℕ, ◌+◌, ◌<◌, ◌≤◌, List, [], ◌∷◌, IfSome, OnOk, OnSome};
    ghost use Rattle.std.specs.Option.{option_copied};
    ghost use Rattle.pool_history.specs.declared.events.Event.{Event};
    ghost use Rattle.pool_history.specs.declared.events.Event.TheVariants as event;
    ghost use Rattle.pool_history.specs.declared.templates.CustomData.{CustomData};
    ghost use Rattle.pool_history.specs.Refusing.{most_grants};
    ghost use Rattle.pool_tables.specs.GrantTables.{HasOneToSpend, MaySpend, ShowsGrants, ShowsSameGrants, granted_count, held_for, unspent_in};

    /// No token was granted.
    pub fn new(alloc: Global) -> Grants
        ensures { ShowsGrants result [] }
    {
        Grants {
            held: Vec::new(alloc),
        }
    }

    /// How many tokens were granted.
    pub fn count(&self) -> u32
        ensures value { result ≡ granted_count self.now }
        ensures most { result ≤ most_grants }
    {
        self.held.len() as u32
    }

    /// Makes room for one more grant. A grant is spent without memory.
    pub fn reserve(&mut self) -> Result<(), AllocError>
        ensures room { OnOk result (1 ≤ self.new.room) }
        ensures same { ShowsSameGrants self.old self.new }
        ensures shown { (past : List Event) → ShowsGrants self.old past
            → ShowsGrants self.new past }
    {
        self.held.reserve(1)
    }

    /// Grants a token, whose number is answered. It takes no memory.
    pub fn grant(&mut self, account: Str255, fixed: bool, path: Hashes) -> u32
        requires room { 1 ≤ self.old.room }
        requires few { granted_count self.old < most_grants }
        ensures number { result ≡ granted_count self.old + 1 }
        ensures shown { (session : ℕ) (past : List Event) → ShowsGrants self.old past
            → ShowsGrants self.new (event.Grant session account fixed path ∷ past) }
    {
        push_granted(
            &mut self.held,
            Granted {
                account,
                fixed,
                path,
            },
        );
        self.count()
    }

    /// What was granted for a token that an account has still to spend.
    pub fn unspent(&self, token: &[u8], account: &str) -> Option<&Granted>
        ensures value { option_copied result ≡ unspent_in self.now token.now account.now }
        ensures ready { OnSome result (MaySpend self.now token.now) }
        ensures few { OnSome result (HasOneToSpend self.now) }
    {
        match self.granted_for(token) {
            Some(granted) if granted.account.text() == account => Some(granted),
            _ => None,
        }
    }

    /// Spends a token. It takes no memory.
    pub fn spend(&mut self, token: &[u8])
        requires { MaySpend self.old token.now }
        ensures { (session : ℕ) (custom : CustomData) (past : List Event) → custom.token ≡ token.now
            → ShowsGrants self.old past
            → ShowsGrants self.new (event.Custom session custom ∷ past) }
    {
        if let Some(place) = place_of(token, self.count()) {
            take_granted(&mut self.held, place);
        }
    }

    /// What was granted for a token that isn't spent.
    fn granted_for(&self, token: &[u8]) -> Option<&Granted>
        ensures value { option_copied result ≡ held_for self.now.held token.now }
        ensures few { OnSome result (HasOneToSpend self.now) }
    {
        match place_of(token, self.count()) {
            Some(place) => granted_at(&self.held, place),
            None => None,
        }
    }
}

/// Puts what was granted behind the others, for which there is room.
fn push_granted(held: &mut Vec<Option<Granted>>, granted: Granted)
    requires { vec_len held.old < vec_capacity held.old }
    ensures { held.new.items ≡ held.old.items ++ Some granted ∷ [] }
{
    let _done = held.push(Some(granted));
}

/// What is held at a place.
fn granted_at(held: &[Option<Granted>], place: usize) -> Option<&Granted>
    ensures { option_copied result ≡ held_at held.now place }
{
    match held.get(place) {
        Some(Some(granted)) => Some(granted),
        _ => None,
    }
}

/// Nothing is held at a place any more.
fn take_granted(held: &mut Vec<Option<Granted>>, place: usize)
    requires { place < vec_len held.old }
    ensures { held.new.items ≡ slice_set held.old.items place None }
{
    held[place] = None;
}
