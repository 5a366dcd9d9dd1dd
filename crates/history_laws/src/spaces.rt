//! When extranonces can't meet, and which lead comes next.

ghost use Rattle.std.specs.Prelude.{IsTrue, ◌↔◌};
ghost use Rattle.history_laws.specs.Apart.{ShareNone, SpacesAreDisjoint};
ghost use Rattle.history_laws.specs.Lowest.{LowestIsLeast};

use pool_history::Lead;

/// Whether no extranonce begins with both leads: neither of them begins the other.
pub fn are_apart(a: &Lead, b: &Lead) -> bool
    ensures { IsTrue result ↔ ShareNone a.now b.now }
{
    if a.len() <= b.len() {
        !b.bytes().starts_with(a.bytes())
    } else {
        !a.bytes().starts_with(b.bytes())
    }
}

/// After each event of a legal history the spaces of two different open channels are disjoint.
pub fn spaces_are_disjoint()
    ensures { SpacesAreDisjoint }
{}

/// What is found as the lowest free lead of a length is the free one that comes first in byte
/// order, and nothing is found exactly where none of that length is free.
pub fn lowest_is_least()
    ensures { LowestIsLeast }
{}
