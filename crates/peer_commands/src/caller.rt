//! The first caller of a door.

ghost use Rattle.std.specs.Prelude.{◌≡◌};
ghost use Rattle.peer_commands.specs.Callers.{WaitsForCaller, caller_seen, status_of_no_caller};

use pool_network::{Came, Door};
use stream_commands::{IDLE_TURNS, Status};
use thiserror::Error;

/// Why nobody was let in.
#[derive(Clone, Copy, Debug, Error)]
pub enum NoCaller {
    #[error("nobody called for too long")]
    Idle,
    #[error("the door was closed before anybody called")]
    Closed,
    #[error("the door failed")]
    Failed,
    #[error("out of memory")]
    Memory,
}

impl NoCaller {
    /// The status of a feed to which nobody came.
    pub(crate) fn status(self) -> Status
        ensures { result ≡ status_of_no_caller self }
    {
        match self {
            NoCaller::Idle => Status::Limit,
            NoCaller::Closed => Status::Refused,
            NoCaller::Failed => Status::HostFault,
            NoCaller::Memory => Status::Memory,
        }
    }
}

/// Waits for the first caller. Nobody is waited for any more once the door was idle `IDLE_TURNS`
/// times.
pub(crate) fn first_caller<D: Door>(door: &mut D) -> Result<D::L, NoCaller>
    ensures { WaitsForCaller (D.seen door.old) (D.seen door.new) (caller_seen D.L.seen result) }
{
    for _turn in 0..IDLE_TURNS {
        match door.accept() {
            Came::Caller(link) => return Ok(link),
            Came::Idle => {}
            Came::Closed => return Err(NoCaller::Closed),
            Came::Failed => return Err(NoCaller::Failed),
            Came::Memory => return Err(NoCaller::Memory),
        }
    }
    Err(NoCaller::Idle)
}
