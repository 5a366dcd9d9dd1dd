//! The whole command, over what a host gives.

ghost use Rattle.stream_commands.specs.Rows.{AsksForStreams, StreamRow};
ghost use Rattle.stream_programs.specs.Duty.{listing_duty};

use crate::lister::Lister;
use pool_io::Host;
use std::alloc::Global;
use stream_commands::{Status, run_on_host};

/// Lists the frames that standard input brings, and puts the lines to standard output.
pub fn list_frames<H: Host>(alloc: Global, host: &mut H) -> Status
    ensures row { StreamRow listing_duty (H.seen host.old).streams (H.seen host.new).streams result }
    ensures calls { AsksForStreams (H.seen host.old).openings (H.seen host.new).openings result }
{
    run_on_host::<Lister, H>(alloc, host, &())
}
