//! The script, from its file.

ghost use Rattle.std.specs.Prelude.{◌≡◌};
ghost use Rattle.peer_commands.specs.Opened.{OpensScript, status_of_no_script};

use pool_io::{Host, MOST_BYTES};
use std::alloc::Global;
use stream_commands::{FileError, Status, Unread, read_file, refusal_status};
use test_miner::{Script, ScriptError};
use thiserror::Error;

/// Why there is no script.
#[derive(Clone, Copy, Debug, Error)]
pub enum NoScript {
    /// Its file wasn't read.
    #[error("{0}")]
    File(FileError),
    /// What the file says is none.
    #[error("{0}")]
    Script(ScriptError),
}

impl NoScript {
    /// The status of a command that found no script.
    pub(crate) fn status(self) -> Status
        ensures { result ≡ status_of_no_script self }
    {
        match self {
            NoScript::File(FileError::Host(error)) => refusal_status(error),
            NoScript::File(FileError::Unread(Unread::TooLong | Unread::IdleOut)) => Status::Limit,
            NoScript::File(FileError::Unread(Unread::ReadFault)) => Status::ReadFault,
            NoScript::File(FileError::Unread(Unread::Memory)) => Status::Memory,
            NoScript::Script(ScriptError::Bad(_)) => Status::Refused,
            NoScript::Script(ScriptError::Memory) => Status::Memory,
        }
    }
}

/// The script of the file of this name.
pub(crate) fn open_script<H: Host>(
    alloc: Global,
    host: &mut H,
    name: &str,
) -> Result<Script, NoScript>
    ensures { OpensScript name.now (H.seen host.old) (H.seen host.new) result }
{
    match read_file(alloc, host, name, MOST_BYTES - 1) {
        Ok(contents) => match Script::read(alloc, contents.bytes()) {
            Ok(script) => Ok(script),
            Err(error) => Err(NoScript::Script(error)),
        },
        Err(error) => Err(NoScript::File(error)),
    }
}
