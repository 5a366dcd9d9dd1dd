//! A settings file, opened, read and handed back.

ghost use Rattle.std.specs.Prelude.{◌≡◌};
ghost use Rattle.pool_settings.specs.Opened.{OpensSettings, AnswersFile, status_of_no_settings};

use crate::{Settings, SettingsError, read_settings};
use pool_io::{Host, HostError};
use std::alloc::Global;
use stream_commands::{Contents, FileError, Status, Unread, read_file, refusal_status};
use thiserror::Error;

/// The most bytes of a settings file.
const MOST_BYTES: u64 = 65_536;

/// Why there are no settings.
#[derive(Clone, Copy, Debug, Error)]
pub enum NoSettings {
    /// The host didn't open the file.
    #[error("{0}")]
    Host(HostError),
    /// What the file says is no settings.
    #[error("the file is no settings")]
    Bad,
    /// No byte came for too long.
    #[error("no byte came for too long")]
    IdleOut,
    /// A read failed.
    #[error("a read failed")]
    ReadFault,
    /// There was no memory.
    #[error("out of memory")]
    Memory,
}

impl NoSettings {
    /// The status of a command that found no settings.
    pub fn status(self) -> Status
        ensures { result ≡ status_of_no_settings self }
    {
        match self {
            NoSettings::Host(error) => refusal_status(error),
            NoSettings::Bad => Status::BadSettings,
            NoSettings::IdleOut => Status::Limit,
            NoSettings::ReadFault => Status::ReadFault,
            NoSettings::Memory => Status::Memory,
        }
    }
}

/// The settings of the file of this name.
pub fn open_settings<H: Host>(
    alloc: Global,
    host: &mut H,
    name: &str,
) -> Result<Settings, NoSettings>
    ensures { OpensSettings name.now (H.seen host.old) (H.seen host.new) result }
{
    match read_file(alloc, host, name, MOST_BYTES) {
        Ok(contents) => settings_from(alloc, Ok(contents)),
        Err(FileError::Unread(cause)) => settings_from(alloc, Err(cause)),
        Err(FileError::Host(error)) => Err(NoSettings::Host(error)),
    }
}

/// What was read, as settings.
fn settings_from(alloc: Global, read: Result<Contents, Unread>) -> Result<Settings, NoSettings>
    ensures { AnswersFile read result }
{
    match read {
        Ok(contents) => match read_settings(alloc, contents.bytes()) {
            Ok(settings) => Ok(settings),
            Err(SettingsError::Bad) => Err(NoSettings::Bad),
            Err(SettingsError::Memory) => Err(NoSettings::Memory),
        },
        Err(Unread::TooLong) => Err(NoSettings::Bad),
        Err(Unread::IdleOut) => Err(NoSettings::IdleOut),
        Err(Unread::ReadFault) => Err(NoSettings::ReadFault),
        Err(Unread::Memory) => Err(NoSettings::Memory),
    }
}
