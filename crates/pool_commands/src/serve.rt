//! The command: settings, keeper, feed and doors are opened in this order, and the output when all
//! sessions are over; all that was given is handed back.

ghost use Rattle.std.specs.Prelude.{◌≡◌, ◌<◌, ◌-◌, None};
ghost use Rattle.pool_settings.specs.Reading.{AreInRange};
ghost use Rattle.pool_io.specs.Hosts.{IsHandedBack};
ghost use Rattle.share_ledger.specs.Books.{IsUnused};
ghost use Rattle.pool_commands.specs.Serving.{reached_seen};
ghost use Rattle.pool_commands.specs.ServeRow.{ServesOnBook, FinishesServing, ServesWithKeeper, ServeRow};

use crate::serve_pool::{Reached, serve_on_network};
use crate::serve_report::print_report;
use crate::serve_status::{served_status, start_status};
use pool_history::BookError;
use pool_io::Host;
use pool_network::{Door, Network};
use pool_settings::{Settings, open_settings};
use share_ledger::Book;
use std::alloc::Global;
use std::sync::Wait;
use std::thread::Threads;
use stream_commands::{Status, refusal_status};
use v1_translate::V1Terms;

/// Serves a feed and miners by the settings file of a name, and keeps their history in a new file of
/// the other name. Each session has a thread, where threads can be made.
pub fn serve_by_settings<R: Threads + Wait + Sync, H: Host, N: Network>(
    rt: &R,
    alloc: Global,
    host: &mut H,
    network: &mut N,
    settings_name: &str,
    ledger_name: &str,
) -> Status
where
    H::K: Send,
    N::D: Send,
    <N::D as Door>::L: Send,
    ensures row { ServeRow settings_name.now ledger_name.now
        (record { host = H.seen host.old; network = N.seen network.old })
        (record { host = H.seen host.new; network = N.seen network.new }) result }

    // Everything that the host and the network gave has come back.
    ensures back { IsHandedBack (H.seen host.old) (H.seen host.new) }
    ensures links { (N.seen network.new).links.lent ≡ (N.seen network.old).links.lent }
    ensures doors { (N.seen network.new).doors.lent ≡ (N.seen network.old).doors.lent }
{
    match open_settings(alloc, host, settings_name) {
        Ok(settings) => serve_with_keeper(rt, alloc, host, network, settings, ledger_name),
        Err(no_settings) => no_settings.status(),
    }
}

/// The same by these settings.
fn serve_with_keeper<R: Threads + Wait + Sync, H: Host, N: Network>(
    rt: &R,
    alloc: Global,
    host: &mut H,
    network: &mut N,
    settings: Settings,
    ledger_name: &str,
) -> Status
where
    H::K: Send,
    N::D: Send,
    <N::D as Door>::L: Send,
    requires ranges { AreInRange settings }
    ensures row { ServesWithKeeper settings ledger_name.now
        (record { host = H.seen host.old; network = N.seen network.old })
        (record { host = H.seen host.new; network = N.seen network.new }) result }
    ensures back { IsHandedBack (H.seen host.old) (H.seen host.new) }
    ensures links { (N.seen network.new).links.lent ≡ (N.seen network.old).links.lent }
    ensures doors { (N.seen network.new).doors.lent ≡ (N.seen network.old).doors.lent }
{
    match host.open_keeper(ledger_name) {
        Ok(keeper) => serve_book(rt, alloc, host, network, settings, keeper),
        Err(error) => refusal_status(error),
    }
}

/// The same on a book that this keeper keeps.
fn serve_book<R: Threads + Wait + Sync, H: Host, N: Network>(
    rt: &R,
    alloc: Global,
    host: &mut H,
    network: &mut N,
    settings: Settings,
    keeper: H::K,
) -> Status
where
    H::K: Send,
    N::D: Send,
    <N::D as Door>::L: Send,
    requires ranges { AreInRange settings }
    requires out { 0 < (H.seen host.old).openings.keepers.lent }
    requires unused { IsUnused (H.K.seen keeper).records }
    requires untold { (H.K.seen keeper).stored ≡ None }
    ensures row { ServesOnBook settings (H.K.seen keeper)
        (record { host = H.seen host.old; network = N.seen network.old })
        (record { host = H.seen host.new; network = N.seen network.new }) result }
    ensures sources { (H.seen host.new).streams.sources.lent ≡ (H.seen host.old).streams.sources.lent }
    ensures sinks { (H.seen host.new).streams.sinks.lent ≡ (H.seen host.old).streams.sinks.lent }
    ensures keepers { (H.seen host.new).openings.keepers.lent
        ≡ (H.seen host.old).openings.keepers.lent - 1 }
    ensures links { (N.seen network.new).links.lent ≡ (N.seen network.old).links.lent }
    ensures doors { (N.seen network.new).doors.lent ≡ (N.seen network.old).doors.lent }
{
    let Settings {
        rules,
        base,
        limits,
        workers,
        address,
        feed,
    } = settings;
    let Ok(terms) = V1Terms::of(alloc, &rules, base) else {
        host.done_keeper(keeper);
        return start_status(BookError::Memory);
    };
    match Book::new(alloc, rules, keeper) {
        Ok(book) => {
            let feed = feed.text();
            let address = address.text();
            let reached = serve_on_network(
                rt, alloc, network, book, feed, address, workers, &terms, limits,
            );
            finish(alloc, host, reached)
        }
        Err((keeper, cause)) => {
            host.done_keeper(keeper);
            start_status(cause)
        }
    }
}

/// Prints what there is to report, and hands the keeper back.
fn finish<H: Host>(alloc: Global, host: &mut H, reached: Reached<H::K>) -> Status
    requires out { 0 < (H.seen host.old).openings.keepers.lent }
    ensures row { FinishesServing (H.seen host.old) (H.seen host.new) (reached_seen reached) result }
    ensures sources { (H.seen host.new).streams.sources.lent ≡ (H.seen host.old).streams.sources.lent }
    ensures sinks { (H.seen host.new).streams.sinks.lent ≡ (H.seen host.old).streams.sinks.lent }
    ensures keepers { (H.seen host.new).openings.keepers.lent
        ≡ (H.seen host.old).openings.keepers.lent - 1 }
{
    match reached {
        Reached::Ran {
            book,
            feed_end,
            ledger_faults,
            door_faults,
            door_memory,
        } => {
            let printed = print_report(alloc, host, &book, feed_end);
            let (keeper, _history) = book.into_parts();
            host.done_keeper(keeper);
            served_status(ledger_faults, door_faults, door_memory, printed)
        }
        Reached::Unserved(book, error) => {
            let (keeper, _history) = book.into_parts();
            host.done_keeper(keeper);
            refusal_status(error)
        }
    }
}
