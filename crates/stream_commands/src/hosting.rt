//! A command over a host's standard input and output.

ghost use Rattle.stream_commands.specs.Rows.{AsksForStreams, StreamRow};

use crate::status::refusal_status;
use crate::{Status, StreamCommand, drive};
use pool_io::Host;
use std::alloc::Global;

/// Runs a command from the host's standard input to its standard output, and hands both back.
pub fn run_on_host<C: StreamCommand, H: Host>(alloc: Global, host: &mut H, task: &C::Task) -> Status
    requires { C.can_run task.now }
    ensures row { StreamRow (C.duty task.now) (H.seen host.old).streams (H.seen host.new).streams
        result }
    ensures calls { AsksForStreams (H.seen host.old).openings (H.seen host.new).openings result }
{
    let mut source = match host.input() {
        Ok(source) => source,
        Err(error) => return refusal_status(error),
    };
    let mut sink = match host.output() {
        Ok(sink) => sink,
        Err(error) => {
            host.done_source(source);
            return refusal_status(error);
        }
    };
    let end = drive::<C, H::S, H::T>(alloc, task, &mut source, &mut sink);
    host.done_source(source);
    host.done_sink(sink);
    end.status()
}
