//! Parts of a link and doors, and the link and the doors of parts.

ghost use Rattle.std.specs.Prelude.{◌≡◌, ◌+◌, ◌≤◌, [], Some, vec_len};
ghost use Rattle.std.specs.Vec.{vec_capacity};
ghost use Rattle.door_threads.specs.Asking.{is_failed_end};
ghost use Rattle.door_threads.specs.declared.parts.ThreadTask.TheVariants as done;
ghost use Rattle.door_threads.specs.Counting.{capped, count_if, is_starved_end};
ghost use Rattle.door_threads.specs.Listing.{HasDoneTasks, IsAskedTask, IsLinkTask, IsUnlisted, parts_of};

use crate::DoorEnd;
use crate::parts::{ThreadPart, ThreadTask};
use session_steps::SessionEnd;

/// What came back once all tasks were done.
pub struct Tended<D, L> {
    pub doors: Vec<D>,
    pub link: L,
    pub link_end: SessionEnd,
    /// How many calls a fault answered, how many doors failed, and how many had no memory for a
    /// caller. Each stays at 2^64 - 1 once it is there.
    pub faults: u64,
    pub door_faults: u64,
    pub door_memory: u64,
}

/// Lists the link, and the doors behind it. What is left of the doors is their room.
pub fn list<D, L>(doors: &mut Vec<D>, link: L, parts: &mut Vec<ThreadPart<D, L>>)
    requires room { vec_len doors.old + 1 ≤ vec_capacity parts.old }
    requires empty { parts.old.items ≡ [] }
    ensures parts { parts.new.items ≡ parts_of link doors.old.items }
    ensures doors { (doors.new.items ≡ []) × (vec_capacity doors.new ≡ vec_capacity doors.old) }
{
    while let Some(door) = doors.pop() {
        parts.push_reserved(ThreadPart {
            task: ThreadTask::Door(door, None),
            faults: 0,
        });
    }
    parts.push_reserved(ThreadPart {
        task: ThreadTask::Link(link, None),
        faults: 0,
    });
    parts.reverse();
}

/// Gives back what parts hold whose tasks are done, in the order in which it was listed.
pub fn unlist<D, L>(mut parts: Vec<ThreadPart<D, L>>, mut doors: Vec<D>) -> Tended<D, L>
    requires whole { HasDoneTasks parts.items }
    requires empty { doors.items ≡ [] }
    requires room { vec_len parts ≤ vec_capacity doors + 1 }
    ensures { IsUnlisted parts.items result }
{
    parts.reverse();
    let popped = parts.pop();
    let Some(part) = popped else { unreachable!() };
    let ThreadPart {
        task,
        faults: link_faults,
    } = part;
    let (link, link_end) = link_of(task);
    let mut faults_told: u64 = 0;
    let mut door_faults: u64 = 0;
    let mut door_memory: u64 = 0;
    while let Some(part) = parts.pop() {
        let ThreadPart { task, faults } = part;
        let (door, end) = door_of(task);
        doors.push_reserved(door);
        faults_told = faults_told.saturating_add(faults);
        door_faults = failed_with(door_faults, end);
        door_memory = starved_with(door_memory, end);
    }
    parts.destroy_empty();
    Tended {
        doors,
        link,
        link_end,
        faults: faults_told.saturating_add(link_faults),
        door_faults,
        door_memory,
    }
}

/// The link and how its session ended.
fn link_of<D, L>(task: ThreadTask<D, L>) -> (L, SessionEnd)
    requires { IsLinkTask task }
    ensures { task ≡ done.Link result.0 (Some result.1) }
{
    match task {
        ThreadTask::Link(link, ended) => {
            let Some(end) = ended else { unreachable!() };
            (link, end)
        }
        ThreadTask::Door(_door, _ended) => unreachable!(),
    }
}

/// A door and why it was asked no more.
fn door_of<D, L>(task: ThreadTask<D, L>) -> (D, DoorEnd)
    requires { IsAskedTask task }
    ensures { task ≡ done.Door result.0 (Some result.1) }
{
    match task {
        ThreadTask::Door(door, ended) => {
            let Some(end) = ended else { unreachable!() };
            (door, end)
        }
        ThreadTask::Link(_link, _ended) => unreachable!(),
    }
}

/// One more door that failed, if this one did.
fn failed_with(count: u64, end: DoorEnd) -> u64
    ensures { result ≡ capped (count + count_if (is_failed_end end)) }
{
    match end {
        DoorEnd::Failed => count.saturating_add(1),
        DoorEnd::IdleOut | DoorEnd::Closed | DoorEnd::Memory => count,
    }
}

/// One more door that had no memory for a caller, if this one had none.
fn starved_with(count: u64, end: DoorEnd) -> u64
    ensures { result ≡ capped (count + count_if (is_starved_end end)) }
{
    match end {
        DoorEnd::Memory => count.saturating_add(1),
        DoorEnd::IdleOut | DoorEnd::Closed | DoorEnd::Failed => count,
    }
}
