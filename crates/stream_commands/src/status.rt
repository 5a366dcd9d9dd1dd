//! The statuses of the program.

ghost use Rattle.std.specs.Prelude.{◌≡◌};
ghost use Rattle.stream_commands.specs.Statuses.{status_code, status_of_end, status_of_refusal};

use crate::End;
use pool_io::HostError;

/// What the program ends with.
#[derive(Clone, Copy)]
pub enum Status {
    /// The command did its work, and read its input to the end.
    Done,
    /// The words are none of the forms; nothing was opened.
    Usage,
    /// The input was refused.
    Refused,
    /// A read failed.
    ReadFault,
    /// A write failed.
    WriteFault,
    /// A record wasn't kept.
    KeeperFault,
    /// The host didn't give what it was asked for.
    HostFault,
    /// There was no memory.
    Memory,
    /// The settings file is no settings.
    BadSettings,
    /// No byte came for too long, or too many came.
    Limit,
    /// The ledger that is there is none of this pool's.
    WrongLedger,
}

impl Status {
    /// The number by which a process tells it.
    pub fn code(self) -> u8
        ensures { result ≡ status_code self }
    {
        match self {
            Status::Done => 0,
            Status::Usage => 2,
            Status::Refused => 3,
            Status::ReadFault => 4,
            Status::WriteFault => 5,
            Status::KeeperFault => 6,
            Status::HostFault => 7,
            Status::Memory => 8,
            Status::BadSettings => 9,
            Status::Limit => 10,
            Status::WrongLedger => 11,
        }
    }
}

impl End {
    /// The status of a run that ended so.
    pub fn status(self) -> Status
        ensures { result ≡ status_of_end self }
    {
        match self {
            End::Done => Status::Done,
            End::Refused => Status::Refused,
            End::IdleOut | End::BytesOut => Status::Limit,
            End::ReadFault => Status::ReadFault,
            End::WriteFault => Status::WriteFault,
            End::Memory => Status::Memory,
        }
    }
}

/// The status of a host that gave nothing.
pub fn refusal_status(error: HostError) -> Status
    ensures { result ≡ status_of_refusal error }
{
    match error {
        HostError::Failed => Status::HostFault,
        HostError::Memory => Status::Memory,
    }
}
