//! The worker, from its first asking to its last.

ghost use Rattle.std.specs.Prelude.{◌≡◌, ◌<◌};
ghost use Rattle.door_threads.specs.Asking.{AsksDoorOnce, IsWelcomed, IsWorked};

use crate::server::LinkServer;
use pool_network::{Came, Door};
use std::sync::Wait;

/// Why a worker asked no more.
#[derive(Clone, Copy)]
pub enum DoorEnd {
    /// Nobody called for too many answers in a row.
    IdleOut,
    /// Nobody will call any more.
    Closed,
    /// The door failed.
    Failed,
    /// There was no memory for a caller.
    Memory,
}

/// Serves those who call at a door, one after the other, until the door says that it is closed or
/// failed, memory is wanting, or nobody came for too many answers in a row.
pub fn work<R: Wait, S: LinkServer, D: Door>(
    rt: &R,
    server: &mut S,
    door: &mut D,
    door_turns: u64,
) -> DoorEnd
    requires ready { S.ready server.old }
    requires waits { 0 < door_turns }
    ensures ready { S.ready server.new }
    ensures worked { IsWorked S.serves door_turns (D.seen door.old) (D.seen door.new) server.old
        server.new result }
{
    let mut turns = door_turns;
    for _ in rt.forever() {
        match ask_door(server, door, door_turns, turns) {
            Ok(left) => turns = left,
            Err(end) => return end,
        }
    }
    unreachable!()
}

/// Asks the door once, and serves who called. Answers how many Idle answers in a row are still
/// waited for.
fn ask_door<S: LinkServer, D: Door>(
    server: &mut S,
    door: &mut D,
    door_turns: u64,
    turns: u64,
) -> Result<u64, DoorEnd>
    requires ready { S.ready server.old }
    requires waits { 0 < door_turns }
    requires turns { 0 < turns }
    ensures ready { S.ready server.new }
    ensures next { AsksDoorOnce S.serves door_turns turns (D.seen door.old) (D.seen door.new)
        server.old server.new result }
{
    match door.accept() {
        Came::Caller(link) => {
            welcome(server, door, link);
            Ok(door_turns)
        }
        Came::Idle if turns == 1 => Err(DoorEnd::IdleOut),
        Came::Idle => Ok(turns - 1),
        Came::Closed => Err(DoorEnd::Closed),
        Came::Failed => Err(DoorEnd::Failed),
        Came::Memory => Err(DoorEnd::Memory),
    }
}

/// Serves one who called, and hands the connection back.
fn welcome<S: LinkServer, D: Door>(server: &mut S, door: &mut D, mut link: D::L)
    requires ready { S.ready server.old }
    requires out { 0 < (D.seen door.old).out }
    ensures ready { S.ready server.new }
    ensures served { IsWelcomed S.serves (D.L.seen link) (D.seen door.old) (D.seen door.new)
        server.old server.new }
{
    server.serve(&mut link);
    door.done(link);
}
