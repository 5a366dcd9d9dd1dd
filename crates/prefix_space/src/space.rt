//! The table of held leads.

use crate::nodes::Node;
use crate::paths::key_of;
use crate::rows::Steps;
use crate::tree;
use indexmap::{IndexMap, IndexSet};
use pool_history::Lead;
use std::alloc::{AllocError, Global};
use std::marker::{Brand, Model};
use std::sync::ledger::{Blank, Ledger};
use thiserror::Error;

/// Why no lead is taken.
#[derive(Clone, Copy, Debug, Drop, Error)]
pub enum SpaceError {
    #[error("no lead of this length is free")]
    NoSpace,
    #[error("out of memory")]
    Memory,
}

/// Held leads, of which none begins another. Contracts see them in whatever order, and how many
/// more there is room for.
#[derive(Drop)]
pub struct Space {
    held: IndexSet<u64>,
    nodes: IndexMap<u32, Node>,
}

impl Model for Space {
    ghost use Rattle.prefix_space.specs.HeldLeads.{HeldLeads};

    ghost Value = { HeldLeads };

    ghost use Rattle.prefix_space.specs.Spaces.{IsSpace, lead_room, leads_of};

    ghost view = { λ space. record {
      held = leads_of space.held;
      spare = lead_room space.held space.nodes;
    } };

    ghost invariant = { λ space. IsSpace space.held space.nodes };
}

impl Space {
    ghost use Rattle.std.specs.Prelude.{IsTrue, ◌≡◌, ◌↔◌, ◌+◌, ◌<◌, ◌≤◌, false, None, Some, [], ◌∷◌, IfOk, IsOk, IsPermutation, OnErr, OnOk};
    ghost use Rattle.history_laws.specs.Openings.{AreLeadsApart};
    ghost use Rattle.pool_history.specs.Spaces.{lowest};
    ghost use Rattle.prefix_space.specs.HeldLeads.{is_held};

    /// A space in which nothing is held, with room for one lead.
    pub fn new(alloc: Global) -> Result<Space, AllocError>
        ensures { IfOk result (λ space. (space.held ≡ []) × (1 ≤ space.spare)) }
    {
        let held = IndexSet::with_capacity(alloc, 1)?;
        let mut nodes = IndexMap::with_capacity(alloc, 4)?;
        tree::plant(&mut nodes);
        Ok(Space { held, nodes })
    }

    /// Holds the lowest free lead of so many bytes. Memory may be wanted only where there is no
    /// room.
    pub fn take(&mut self, len: u8) -> Result<Lead, SpaceError>
        requires some { 1 ≤ len }
        requires most { len ≤ 4 }
        ensures lowest { IfOk result (λ lead. lowest len self.old.held ≡ Some lead) }
        ensures held { IfOk result (λ lead. IsPermutation (lead ∷ self.old.held) self.new.held) }
        ensures room { OnOk result (self.old.spare ≤ self.new.spare + 1) }
        ensures none { (result ≡ Err SpaceError.NoSpace) ↔ (lowest len self.old.held ≡ None) }
        ensures memory { result ≡ Err SpaceError.Memory → self.old.spare ≡ 0 }
        ensures refused { OnErr result (self.new ≡ self.old) }
    {
        let Some(lead) = self.lowest(len) else {
            return Err(SpaceError::NoSpace);
        };
        if !make_room(&mut self.held, &mut self.nodes) {
            return Err(SpaceError::Memory);
        }
        hold(&mut self.held, &mut self.nodes, lead);
        Ok(lead)
    }

    /// The lead that `take` would give.
    pub fn lowest(&self, len: u8) -> Option<Lead>
        requires some { 1 ≤ len }
        requires most { len ≤ 4 }
        ensures { result ≡ lowest len self.now.held }
    {
        self.find_for::<Brand>(len, Blank::new(1))
    }

    fn find_for<L: Ledger>(&self, len: u8, blank: Blank) -> Option<Lead>
        requires some { 1 ≤ len }
        requires most { len ≤ 4 }
        requires name { blank.name ≡ L.name }
        requires parts { blank.parts ≡ L.parts }
        requires counts { 0 < blank.parts }
        ensures { result ≡ lowest len self.now.held }
    {
        let mut steps = Steps::<L>::open(blank);
        self.find(len, &mut steps)
    }

    /// The same, with a count of the words that it reads: at most four at each level, whatever is
    /// held.
    pub fn find<L: Ledger>(&self, len: u8, steps: &mut Steps<L>) -> Option<Lead>
        requires some { 1 ≤ len }
        requires most { len ≤ 4 }
        ensures value { result ≡ lowest len self.now.held }
        ensures cost { steps.new ≤ steps.old + 16 }
    {
        tree::find(&self.nodes, len, steps)
    }

    /// Makes room for one more lead.
    pub fn reserve(&mut self) -> Result<(), AllocError>
        ensures held { self.new.held ≡ self.old.held }
        ensures room { OnOk result (1 ≤ self.new.spare) }
        ensures more { self.old.spare ≤ self.new.spare }
        ensures spared { 1 ≤ self.old.spare → IsOk result }
    {
        if make_room(&mut self.held, &mut self.nodes) {
            Ok(())
        } else {
            Err(AllocError)
        }
    }

    /// Gives back a lead that is held.
    pub fn give(&mut self, lead: Lead)
        requires { IsTrue (is_held self.old.held lead) }
        ensures held { IsPermutation self.old.held (lead ∷ self.new.held) }
        ensures gone { is_held self.new.held lead ≡ false }
        ensures room { self.old.spare ≤ self.new.spare }
    {
        let _was = self.held.swap_remove(&key_of(&lead));
        climb_for::<Brand>(&mut self.nodes, lead, false, Blank::new(1));
    }

    /// Whether a lead is held. No held lead begins another.
    pub fn holds(&self, lead: Lead) -> bool
        ensures value { result ≡ is_held self.now.held lead }
        ensures apart { AreLeadsApart self.now.held }
    {
        self.held.contains(&key_of(&lead))
    }
}

ghost use Rattle.std.specs.Prelude.{◌≡◌, ℕ, ◌+◌, ◌<◌, ◌≤◌, ◌++◌, ◌∷◌, [], List, IsPermutation, IsTrue, nat_eq, true, false, length, Some};
ghost use Rattle.std.specs.List.{AllByRecursion};
ghost use Rattle.indexmap.specs.IndexMap.{spare as node_spare};
ghost use Rattle.indexmap.specs.IndexSet.{contains, spare as set_spare};
ghost use Rattle.pool_history.specs.Spaces.{lowest};
ghost use Rattle.prefix_space.specs.Climbs.{FitsUpTo, IsEnd};
ghost use Rattle.prefix_space.specs.Paths.{lead_key};
ghost use Rattle.prefix_space.specs.Spaces.{IsSpace, lead_room, leads_of};
ghost use Rattle.prefix_space.specs.Trees.{nodes_of};

/// Makes room for a lead and for the nodes on its way, and says whether there is room.
fn make_room(held: &mut IndexSet<u64>, nodes: &mut IndexMap<u32, Node>) -> bool
    ensures keys { held.new.keys ≡ held.old.keys }
    ensures nodes { nodes.new.entries ≡ nodes.old.entries }
    ensures room { result ≡ true → 1 ≤ lead_room held.new nodes.new }
    ensures none { result ≡ false → lead_room held.new nodes.new ≡ 0 }
    ensures more { lead_room held.old nodes.old ≤ lead_room held.new nodes.new }
{
    let _held = held.reserve(1);
    let _nodes = nodes.reserve(3);
    // What there is room for is read off the tables: a refusal doesn't say that nothing was gained.
    held.len() < held.capacity() && nodes.len() + 2 < nodes.capacity()
}

/// Holds the lowest free lead, for which there is room.
fn hold(held: &mut IndexSet<u64>, nodes: &mut IndexMap<u32, Node>, lead: Lead)
    requires room { 1 ≤ lead_room held.old nodes.old }
    requires space { IsSpace held.old nodes.old }
    requires lowest { lowest (length lead) (leads_of held.old) ≡ Some lead }
    ensures space { IsSpace held.new nodes.new }
    ensures held { leads_of held.new ≡ leads_of held.old ++ lead ∷ [] }
    ensures room { lead_room held.old nodes.old ≤ lead_room held.new nodes.new + 1 }
{
    put_key(held, key_of(&lead));
    tree::add_way(nodes, lead);
    climb_for::<Brand>(nodes, lead, true, Blank::new(1));
}

/// Puts in a number that isn't there, and for which there is room.
fn put_key(held: &mut IndexSet<u64>, key: u64)
    requires room { 1 ≤ set_spare held.old }
    requires new { contains nat_eq held.old key ≡ false }
    ensures keys { held.new.keys ≡ held.old.keys ++ key ∷ [] }
    ensures room { set_spare held.old ≤ set_spare held.new + 1 }
{
    let Ok(_new) = held.insert(key) else {
        return;
    };
}

/// Brings the tree up to date, and counts nothing.
fn climb_for<L: Ledger>(nodes: &mut IndexMap<u32, Node>, lead: Lead, is_held: bool, blank: Blank)
    requires name { blank.name ≡ L.name }
    requires parts { blank.parts ≡ L.parts }
    requires counts { 0 < blank.parts }
    ensures fits { (held : List (List ℕ)) → IsEnd lead is_held held
        → FitsUpTo lead (length lead) held (nodes_of nodes.old)
        → FitsUpTo lead 0 held (nodes_of nodes.new) }
    ensures room { node_spare nodes.old ≤ node_spare nodes.new }
{
    let mut steps = Steps::<L>::open(blank);
    tree::climb(nodes, lead, is_held, &mut steps);
}
