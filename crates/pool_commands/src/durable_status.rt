//! The statuses of the commands.

ghost use Rattle.std.specs.Prelude.{◌≡◌};
ghost use Rattle.pool_commands.specs.DurableStatuses.{status_of_disk_end, status_of_no_book};

use crate::durable_session::DiskEnd;
use crate::session_status;
use ledger_resume::NoBook;
use stream_commands::Status;

/// The status where no book was ready.
pub(crate) fn no_book_status(cause: NoBook) -> Status
    ensures { result ≡ status_of_no_book cause }
{
    match cause {
        NoBook::Fault => Status::KeeperFault,
        NoBook::WrongLedger => Status::WrongLedger,
        NoBook::Memory => Status::Memory,
    }
}

/// The status of a session over a disk, if one began.
pub(crate) fn disk_status(end: DiskEnd) -> Status
    ensures { result ≡ status_of_disk_end end }
{
    match end {
        DiskEnd::NoBook(cause) => no_book_status(cause),
        DiskEnd::Over(reason) => session_status(reason),
    }
}
