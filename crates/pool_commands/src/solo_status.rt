//! The status of a session that a command served.

ghost use Rattle.std.specs.Prelude.{◌≡◌};
ghost use Rattle.pool_commands.specs.SoloStatuses.{status_of_session, status_of_solo};

use pool_history::BookError;
use pool_sessions::SoloEnd;
use stream_commands::Status;
use v2_sessions::SessionEnd;

/// The status of a command by how its session ended, if one began.
pub(crate) fn solo_status(end: SoloEnd) -> Status
    ensures { result ≡ status_of_solo end }
{
    match end {
        SoloEnd::Unbegun(BookError::KeeperFault) => Status::KeeperFault,
        SoloEnd::Unbegun(BookError::Memory) => Status::Memory,
        SoloEnd::Over(reason) => session_status(reason),
    }
}

/// The status of a session's end.
pub fn session_status(reason: SessionEnd) -> Status
    ensures { result ≡ status_of_session reason }
{
    match reason {
        SessionEnd::Done => Status::Done,
        SessionEnd::CutFrame(_)
        | SessionEnd::TooLong(_)
        | SessionEnd::BadSetup
        | SessionEnd::BadMessage(_)
        | SessionEnd::LineTooLong => Status::Refused,
        SessionEnd::IdleOut | SessionEnd::BytesOut | SessionEnd::PoolFull => Status::Limit,
        SessionEnd::ReadFault => Status::ReadFault,
        SessionEnd::WriteFault => Status::WriteFault,
        SessionEnd::LedgerFault => Status::KeeperFault,
        SessionEnd::Memory => Status::Memory,
    }
}
