//! The command, over whatever host: its standard output is opened once there is a text, and handed
//! back.

ghost use Rattle.std.specs.Prelude.{◌≡◌, ◌==◌};
ghost use Rattle.pool_io.specs.Hosts.{IsHandedBack};
ghost use Rattle.pool_io.specs.Outside.{CountsFailure};
ghost use Rattle.stream_commands.specs.Statuses.{status_code};
ghost use Rattle.load_command.specs.Row.{LoadRow};

use crate::session::load_text;
use pool_io::Host;
use std::alloc::Global;
use stream_commands::{Status, print_text};

/// Serves the generated session of a number in memory, and puts what it left to standard output.
pub fn load<H: Host>(alloc: Global, host: &mut H, number: u64) -> Status
    ensures row { LoadRow number (H.seen host.old) (H.seen host.new) result }

    // Everything that the host gave has come back.
    ensures back { IsHandedBack (H.seen host.old) (H.seen host.new) }

    // The answer is a host's fault exactly where it was counted.
    ensures counts { CountsFailure (status_code result == 7) (H.seen host.old).streams.faults
        (H.seen host.new).streams.faults }
{
    match load_text(alloc, number) {
        Ok(text) => print_text(host, &text, Status::Done),
        Err(_) => Status::Memory,
    }
}
