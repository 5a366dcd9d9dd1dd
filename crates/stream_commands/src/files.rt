//! A whole file of a host.

ghost use Rattle.std.specs.Prelude.{◌<◌, ◌^◌};
ghost use Rattle.stream_commands.specs.Files.{OpensFile};

use crate::reading::{Contents, Unread, read_whole};
use pool_io::{Host, HostError};
use std::alloc::Global;
use thiserror::Error;

/// Why a file wasn't read to its end.
#[derive(Clone, Copy, Debug, Error)]
pub enum FileError {
    /// The host didn't open it.
    #[error("{0}")]
    Host(HostError),
    /// It was opened, and not all of it was read.
    #[error("{0}")]
    Unread(Unread),
}

/// Reads the file of this name to its end, where it has at most so many bytes, and hands it back.
pub fn read_file<H: Host>(
    alloc: Global,
    host: &mut H,
    name: &str,
    most: u64,
) -> Result<Contents, FileError>
    requires { most < 2 ^ 40 }
    ensures { OpensFile most name.now (H.seen host.old) (H.seen host.new) result }
{
    let mut source = match host.open_source(name) {
        Ok(source) => source,
        Err(error) => return Err(FileError::Host(error)),
    };
    let read = read_whole(alloc, most, &mut source);
    host.done_source(source);
    match read {
        Ok(contents) => Ok(contents),
        Err(cause) => Err(FileError::Unread(cause)),
    }
}
