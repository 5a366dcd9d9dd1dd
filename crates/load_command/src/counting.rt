//! How many events are credits.

ghost use Rattle.std.specs.Prelude.{◌≡◌, false};
ghost use Rattle.std.specs.Option.{option_copied, option_map_or};
ghost use Rattle.load_command.specs.Loads.{accepted_in, is_credit};

use event_store::History;
use pool_history::Event;

/// How many events of a history are credits.
pub(crate) fn count_credits(history: &History) -> u64
    ensures { result ≡ accepted_in history.now.events }
{
    let mut count = 0;
    for at in 0..history.len() {
        if is_credit(history.event(at)) {
            count += 1;
        }
    }
    count
}

/// Whether there is an event, and it is a credit.
fn is_credit(event: Option<&Event>) -> bool
    ensures { result ≡ option_map_or is_credit (option_copied event.entry) false }
{
    match event {
        Some(Event::Credit { .. }) => true,
        _ => false,
    }
}
