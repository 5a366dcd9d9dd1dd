//! The status of the command.

ghost use Rattle.std.specs.Prelude.{◌≡◌};
ghost use Rattle.proxy_command.specs.Statuses as statuses;

use session_steps::SessionEnd;
use stream_commands::Status;

/// What the end of the upstream's link is answered with, if nothing else failed.
fn upstream_status(end: SessionEnd) -> Status
    ensures { result ≡ statuses.status_of_upstream end }
{
    match end {
        SessionEnd::CutFrame(_)
        | SessionEnd::TooLong(_)
        | SessionEnd::BadSetup
        | SessionEnd::BadMessage(_) => Status::Refused,
        SessionEnd::ReadFault => Status::ReadFault,
        SessionEnd::WriteFault => Status::WriteFault,
        SessionEnd::Memory => Status::Memory,
        SessionEnd::IdleOut | SessionEnd::BytesOut => Status::Limit,
        SessionEnd::Done
        | SessionEnd::LineTooLong
        | SessionEnd::PoolFull
        | SessionEnd::LedgerFault => Status::Done,
    }
}

/// What failed doors are answered with.
fn doors_status(door_faults: u64) -> Status
    ensures { result ≡ statuses.status_of_doors door_faults }
{
    if door_faults == 0 {
        Status::Done
    } else {
        Status::HostFault
    }
}

/// What doors that had no memory for a caller are answered with.
fn starved_status(door_memory: u64) -> Status
    ensures { result ≡ statuses.status_of_starved door_memory }
{
    if door_memory == 0 {
        Status::Done
    } else {
        Status::Memory
    }
}

/// Of two causes the one with the lesser number; 0 is none.
fn first_cause(one: Status, other: Status) -> Status
    ensures { result ≡ statuses.first_cause one other }
{
    if one.code() == 0 {
        other
    } else if other.code() == 0 || one.code() <= other.code() {
        one
    } else {
        other
    }
}

/// The status once all links are over: the first cause of all, by their numbers.
pub(crate) fn proxied_status(
    end: SessionEnd,
    door_faults: u64,
    door_memory: u64,
    printed: Status,
) -> Status
    ensures { result ≡ statuses.status_of_proxied end door_faults door_memory printed }
{
    let upstream = upstream_status(end);
    let doors = doors_status(door_faults);
    let starved = starved_status(door_memory);
    first_cause(upstream, first_cause(doors, first_cause(starved, printed)))
}
