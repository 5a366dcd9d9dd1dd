//! Which channels each session has open.

ghost use Rattle.std.specs.Prelude.{◌≡◌, ℕ, ◌≤◌, ◌==◌, ◌++◌, if◌then◌else◌, None, Some, List, [], ◌∷◌, IfOk, IsSome, OnOk, filter, length, nat_eq, not};
ghost use Rattle.indexmap.specs.IndexMap.{get};
ghost use Rattle.channels.specs.Tables.{ids_listed, room_listed};

use indexmap::IndexMap;
use std::alloc::{AllocError, Global};

/// How many channels a session has open.
pub(crate) fn count_of(lists: &IndexMap<u32, Vec<u32>>, session: u32) -> u32
    requires { length (ids_listed (get nat_eq lists.now session)) ≤ 1024 }
    ensures { result ≡ length (ids_listed (get nat_eq lists.now session)) }
{
    match lists.get(&session) {
        Some(ids) => ids.len() as u32,
        None => 0,
    }
}

/// The ids of a session's channels.
pub(crate) fn ids_of(lists: &IndexMap<u32, Vec<u32>>, session: u32) -> Result<Vec<u32>, AllocError>
    ensures { IfOk result (λ ids. ids.items ≡ ids_listed (get nat_eq lists.now session)) }
{
    let alloc = *lists.allocator();
    match lists.get(&session) {
        Some(ids) => ids.to_vec(alloc),
        None => Ok(Vec::new(alloc)),
    }
}

/// Room for one more channel of a session.
pub(crate) fn reserve_listing(
    lists: &mut IndexMap<u32, Vec<u32>>,
    session: u32,
) -> Result<(), AllocError>
    ensures same { (other : ℕ) → ids_listed (get nat_eq lists.new other)
        ≡ ids_listed (get nat_eq lists.old other) }
    ensures room { OnOk result (1 ≤ room_listed (get nat_eq lists.new session)) }
{
    start_list(lists, session)?;
    match lists.get_mut(&session) {
        Some(ids) => ids.reserve(1),
        None => Ok(()),
    }
}

/// A list for a session, which is empty where it had none.
fn start_list(lists: &mut IndexMap<u32, Vec<u32>>, session: u32) -> Result<(), AllocError>
    ensures same { (other : ℕ) → ids_listed (get nat_eq lists.new other)
        ≡ ids_listed (get nat_eq lists.old other) }
    ensures there { OnOk result (IsSome (get nat_eq lists.new session)) }
{
    if lists.contains_key(&session) {
        return Ok(());
    }
    let alloc = *lists.allocator();
    match lists.insert(session, Vec::new(alloc)) {
        Ok(_none) => Ok(()),
        Err(_unlisted) => Err(AllocError),
    }
}

/// Lists a channel that a session opens, for which there is room.
pub(crate) fn list_opening(lists: &mut IndexMap<u32, Vec<u32>>, session: u32, id: u32)
    requires { 1 ≤ room_listed (get nat_eq lists.old session) }
    ensures { (other : ℕ) → ids_listed (get nat_eq lists.new other)
        ≡ ids_listed (get nat_eq lists.old other) ++ (if session == other then id ∷ [] else []) }
{
    if let Some(ids) = lists.get_mut(&session) {
        ids.push_reserved(id);
    }
}

/// Forgets a channel that a session closes.
pub(crate) fn unlist(lists: &mut IndexMap<u32, Vec<u32>>, session: u32, id: u32)
    ensures { (other : ℕ) → ids_listed (get nat_eq lists.new other)
        ≡ (if session == other then filter (λ listed. not (listed == id))
        (ids_listed (get nat_eq lists.old other)) else ids_listed (get nat_eq lists.old other)) }
{
    if let Some(ids) = lists.get_mut(&session) {
        forget_id(ids, id);
    }
}

/// Takes an id out of a list.
fn forget_id(ids: &mut Vec<u32>, id: u32)
    ensures { ids.new.items ≡ filter (λ listed. not (listed == id)) ids.old.items }
{
    ids.retain(|listed| *listed != id);
}

/// Takes the list of a session that leaves.
pub(crate) fn take_list(lists: &mut IndexMap<u32, Vec<u32>>, session: u32) -> Vec<u32>
    ensures taken { result.items ≡ ids_listed (get nat_eq lists.old session) }
    ensures others { (other : ℕ) → ids_listed (get nat_eq lists.new other)
        ≡ (if session == other then [] else ids_listed (get nat_eq lists.old other)) }
{
    let alloc = *lists.allocator();
    match lists.swap_remove(&session) {
        Some(ids) => ids,
        None => Vec::new(alloc),
    }
}
