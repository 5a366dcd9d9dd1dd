//! A text on a host's standard output.

ghost use Rattle.stream_commands.specs.Printing.{PrintsText};

use crate::Status;
use crate::status::refusal_status;
use crate::text::put_text;
use pool_io::Host;

/// Prints a text, and answers this status if all of it was put.
pub fn print_text<H: Host>(host: &mut H, text: &[u8], wanted: Status) -> Status
    ensures { PrintsText text.now wanted (H.seen host.old) (H.seen host.new) result }
{
    let mut sink = match host.output() {
        Ok(sink) => sink,
        Err(error) => return refusal_status(error),
    };
    let answer = put_text(&mut sink, text, wanted);
    host.done_sink(sink);
    answer
}
