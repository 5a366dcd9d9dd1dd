//! The status of the command.

ghost use Rattle.std.specs.Prelude.{◌≡◌};
ghost use Rattle.pool_commands.specs.ServeStatuses.{status_of_served, status_of_start};

use pool_history::BookError;
use stream_commands::Status;

/// The status where the first record wasn't kept.
pub(crate) fn start_status(cause: BookError) -> Status
    ensures { result ≡ status_of_start cause }
{
    match cause {
        BookError::KeeperFault => Status::KeeperFault,
        BookError::Memory => Status::Memory,
    }
}

/// The status once all sessions are over, by what was counted and what the printing was answered
/// with.
pub fn served_status(
    ledger_faults: u64,
    door_faults: u64,
    door_memory: u64,
    printed: Status,
) -> Status
    ensures { result ≡ status_of_served ledger_faults door_faults door_memory printed }
{
    match printed {
        Status::Memory => Status::Memory,
        _ if door_memory > 0 => Status::Memory,
        _ if ledger_faults > 0 => Status::KeeperFault,
        _ if door_faults > 0 => Status::HostFault,
        _ => printed,
    }
}
