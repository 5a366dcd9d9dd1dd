//! Which session each worker has present.

ghost use Rattle.std.specs.Prelude.{◌≡◌, ℕ, ◌≤◌, ◌==◌, Some, if◌then◌else◌, nat_eq};
ghost use Rattle.pool_history.specs.Sessions.{is_number, unless_left};
ghost use Rattle.indexmap.specs.IndexMap.{get, spare};

use indexmap::IndexMap;

/// A worker's session becomes the present one, for which there is room.
pub(crate) fn begin(presents: &mut IndexMap<u32, u32>, worker: u32, session: u32)
    requires room { 1 ≤ spare presents.old }
    ensures { (other : ℕ) → get nat_eq presents.new other
        ≡ (if worker == other then Some session else get nat_eq presents.old other) }
{
    let _done = presents.insert(worker, session);
}

/// A session of a worker is present no more.
pub(crate) fn end(presents: &mut IndexMap<u32, u32>, worker: u32, session: u32)
    ensures { (other : ℕ) → get nat_eq presents.new other ≡ (if worker == other
        then unless_left session (get nat_eq presents.old other)
        else get nat_eq presents.old other) }
{
    if is_present(presents, worker, session) {
        presents.swap_remove(&worker);
    }
}

/// Whether a session is the worker's present one.
fn is_present(presents: &IndexMap<u32, u32>, worker: u32, session: u32) -> bool
    ensures { result ≡ is_number session (get nat_eq presents.now worker) }
{
    match presents.get(&worker) {
        Some(present) => *present == session,
        None => false,
    }
}
