//! The whole command, over what a host gives.

ghost use Rattle.std.specs.Prelude.{◌≤◌};
ghost use Rattle.stream_commands.specs.Rows.{AsksForStreams, StreamRow};
ghost use Rattle.stream_programs.specs.FixedDuty.{share_duty};

use crate::judge::Job;
use crate::stream::{FixedJob, FixedTask};
use pool_io::Host;
use std::alloc::Global;
use stream_commands::{Status, run_on_host};

/// Judges the shares that standard input brings, and puts the answers to standard output. The class
/// is 0 to 60.
pub fn judge_shares<H: Host>(alloc: Global, host: &mut H, class: u8, job: &Job) -> Status
    requires { class ≤ 60 }
    ensures row { StreamRow (share_duty class job.now) (H.seen host.old).streams
        (H.seen host.new).streams result }
    ensures calls { AsksForStreams (H.seen host.old).openings (H.seen host.new).openings result }
{
    let task = FixedTask { class, job: *job };
    run_on_host::<FixedJob, H>(alloc, host, &task)
}
