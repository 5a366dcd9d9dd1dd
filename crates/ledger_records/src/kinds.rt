//! The kind of a record.

ghost use Rattle.std.specs.Prelude.{◌≡◌};
ghost use Rattle.pool_history.specs.Ledger as ledger;

use pool_history::Event;

/// The byte that a record of this event begins with.
pub fn record_kind(event: &Event) -> u8
    ensures { result ≡ ledger.record_kind event.now }
{
    match event {
        Event::Start(_) => 0,
        Event::Enter { .. } => 1,
        Event::Template { .. } => 2,
        Event::Tip { .. } => 3,
        Event::Open { .. } => 4,
        Event::Name { .. } => 5,
        Event::Class { .. } => 6,
        Event::Close { .. } => 7,
        Event::Leave { .. } => 8,
        Event::Credit { .. } => 9,
        Event::Grant { .. } => 10,
        Event::Custom { .. } => 11,
    }
}
