//! The tree of leads: how it is searched, and how a lead is put into it and taken out.

ghost use Rattle.std.specs.Prelude.{◌≡◌, ℕ, ◌+◌, ◌-◌, ◌≤◌, ◌<◌, Bool, List, length, take, cond, is_some, nat_eq, Option, None, Some, get_or, false, true, []};
ghost use Rattle.indexmap.specs.IndexMap.{IsEmpty, get, spare};
ghost use Rattle.pool_history.specs.Spaces.{lowest};
ghost use Rattle.std.specs.List.{AllByRecursion};
ghost use Rattle.prefix_space.specs.Climbs.{AddsWay, FitsUpTo, IsEnd, IsRenewed, or_node};
ghost use Rattle.prefix_space.specs.Paths.{IsPrefix};
ghost use Rattle.prefix_space.specs.Trees.{FitsTree, nodes_of};

use crate::nodes::Node;
use crate::paths::Path;
use crate::rows::Steps;
use indexmap::IndexMap;
use pool_history::Lead;
use std::sync::ledger::Ledger;

/// The lowest free lead of so many bytes, whatever is held that the tree fits: down from the root by
/// the lowest byte behind which one is free, and by zeros where nothing longer is held.
pub(crate) fn find<L: Ledger>(
    nodes: &IndexMap<u32, Node>,
    len: u8,
    steps: &mut Steps<L>,
) -> Option<Lead>
    requires some { 1 ≤ len }
    requires most { len ≤ 4 }
    ensures value { (held : List (List ℕ)) → FitsTree held (nodes_of nodes.now)
        → result ≡ lowest len held }
    ensures cost { steps.new ≤ steps.old + 16 }
{
    let mut path = Path::root();
    for _level in 0..len {
        let Some(node) = nodes.get(&path.key()) else {
            return Some(path.lead(len));
        };
        let Some(byte) = node.first_zero(len, steps) else {
            return None;
        };
        path = path.then(byte);
    }
    Some(path.lead(len))
}

/// Adds the nodes that are missing on the way to a lead, for which there is room.
pub(crate) fn add_way(nodes: &mut IndexMap<u32, Node>, lead: Lead)
    requires room { 3 ≤ spare nodes.old }
    ensures adds { AllByRecursion (λ byte. byte < 256) lead
        → AddsWay lead (length lead) (nodes_of nodes.old) (nodes_of nodes.new) }
    ensures room { spare nodes.old ≤ spare nodes.new + 3 }
{
    let empty = Node::empty();
    for level in 1..lead.len() {
        add_node(nodes, Path::front(&lead, level).key(), empty);
    }
}

/// Adds a node where there is none, and room for one.
fn add_node(nodes: &mut IndexMap<u32, Node>, key: u32, node: Node)
    requires room { 1 ≤ spare nodes.old }
    ensures added { (other : ℕ) → get nat_eq nodes.new other
        ≡ cond (nat_eq key other) (or_node node (get nat_eq nodes.old other)) (get nat_eq nodes.old other) }
    ensures room { spare nodes.old ≤ spare nodes.new + 1 }
{
    if nodes.contains_key(&key) {
        return;
    }
    let _added = nodes.insert(key, node);
}

/// Brings the tree up to date along the way to a lead that is held from now on, or no more: from
/// its own level up to the root.
pub(crate) fn climb<L: Ledger>(
    nodes: &mut IndexMap<u32, Node>,
    lead: Lead,
    is_held: bool,
    steps: &mut Steps<L>,
)
    ensures fits { (held : List (List ℕ)) → IsEnd lead is_held held
        → FitsUpTo lead (length lead) held (nodes_of nodes.old)
        → FitsUpTo lead 0 held (nodes_of nodes.new) }
    ensures room { spare nodes.old ≤ spare nodes.new }
{
    let mut marks = end_marks(lead.len(), is_held);
    let mut level = lead.len();
    while 0 < level {
        level -= 1;
        let byte = lead.bytes()[usize::from(level)];
        let told = renew(nodes, Path::front(&lead, level), byte, marks, steps);
        marks = told;
    }
}

/// The marks of the lead itself: in the rows of its length and above.
fn end_marks(len: u8, is_held: bool) -> [bool; 4]
    requires some { 1 ≤ len }
    requires most { len ≤ 4 }
    ensures { (at : ℕ) → len ≤ at + 1 → at < 4 → get_or result at false ≡ is_held }
{
    [
        is_held && len == 1,
        is_held && len <= 2,
        is_held && len <= 3,
        is_held,
    ]
}

/// Marks a byte in the node of a prefix, drops the node where nothing longer is left, and tells
/// marks of the prefix itself.
fn renew<L: Ledger>(
    nodes: &mut IndexMap<u32, Node>,
    path: Path,
    byte: u8,
    marks: [bool; 4],
    steps: &mut Steps<L>,
) -> [bool; 4]
    requires { length path < 4 }
    ensures renewed { IsPrefix path
        → IsRenewed path byte marks (nodes_of nodes.old) (nodes_of nodes.new) result }
    ensures room { spare nodes.old ≤ spare nodes.new }
{
    let Some(node) = nodes.get(&path.key()) else {
        return [false; 4];
    };
    let node = node.marked(byte, marks);
    if !node.stays(path.len(), steps) {
        let _gone = nodes.swap_remove(&path.key());
        return [false; 4];
    }
    put_node(nodes, path.key(), node);
    node.marks(path.len(), steps)
}

/// Puts a node in the place of another.
fn put_node(nodes: &mut IndexMap<u32, Node>, key: u32, node: Node)
    requires { is_some (get nat_eq nodes.old key) ≡ true }
    ensures nodes { (other : ℕ) → get nat_eq nodes.new other
        ≡ cond (nat_eq key other) (Some node) (get nat_eq nodes.old other) }
    ensures room { spare nodes.new ≡ spare nodes.old }
{
    if let Some(there) = nodes.get_mut(&key) {
        *there = node;
    }
}

/// Puts the root into an empty tree, for which there is room.
pub(crate) fn plant(nodes: &mut IndexMap<u32, Node>)
    requires empty { IsEmpty nodes.old }
    requires room { 4 ≤ spare nodes.old }
    ensures fits { FitsTree [] (nodes_of nodes.new) }
    ensures room { 3 ≤ spare nodes.new }
{
    add_node(nodes, Path::root().key(), Node::empty());
}
