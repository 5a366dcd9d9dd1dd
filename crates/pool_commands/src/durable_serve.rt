//! `durable serve`, over whatever host, network and disks: the settings are read, then the disk is
//! opened, the feed and the doors, and the output when all sessions are over; all that was given is
//! handed back.

ghost use Rattle.std.specs.Prelude.{◌≡◌, ◌<◌, ◌-◌};
ghost use Rattle.pool_settings.specs.Reading.{AreInRange};
ghost use Rattle.pool_io.specs.Hosts.{IsHandedBack};
ghost use Rattle.pool_commands.specs.Serving.{reached_seen};
ghost use Rattle.ledger_resume.specs.Books.{IsJustOpened};
ghost use Rattle.pool_commands.specs.DurableServing.{DurableServeRow, FinishesOnDisk, GivesBookBack, ServesNetworkOnDisk, ServesWithDisk};
ghost use Rattle.pool_commands.specs.Surroundings.{IsAllBack, IsWorldBack, around};

use crate::durable_status::no_book_status;
use crate::{Reached, print_report, serve_on_network, served_status};
use ledger_disk::{DiskLedger, Disks};
use ledger_resume::ready_book;
use pool_io::Host;
use pool_network::{Door, Network};
use pool_settings::{Settings, open_settings};
use share_ledger::Book;
use std::alloc::Global;
use std::sync::Wait;
use std::thread::Threads;
use stream_commands::{Status, refusal_status};
use v1_translate::V1Terms;

/// Serves a feed and miners by the settings file of a name, and keeps their history on the disk of the
/// other name: it goes on with what is there. Each session has a thread, where threads can be made.
pub fn serve_on_disk<R: Threads + Wait + Sync, H: Host, N: Network, V: Disks>(
    rt: &R,
    alloc: Global,
    host: &mut H,
    network: &mut N,
    disks: &mut V,
    settings_name: &str,
    ledger_name: &str,
) -> Status
where
    N::D: Send,
    <N::D as Door>::L: Send,
    V::Z: Send,
    ensures row { DurableServeRow settings_name.now ledger_name.now
        (around (H.seen host.old) (N.seen network.old) (V.seen disks.old))
        (around (H.seen host.new) (N.seen network.new) (V.seen disks.new)) result }

    // Everything that was given has come back.
    ensures back { IsAllBack (around (H.seen host.old) (N.seen network.old) (V.seen disks.old))
        (around (H.seen host.new) (N.seen network.new) (V.seen disks.new)) }
{
    match open_settings(alloc, host, settings_name) {
        Ok(settings) => serve_with_disk(rt, alloc, host, network, disks, settings, ledger_name),
        Err(no_settings) => no_settings.status(),
    }
}

/// The same by these settings.
fn serve_with_disk<R: Threads + Wait + Sync, H: Host, N: Network, V: Disks>(
    rt: &R,
    alloc: Global,
    host: &mut H,
    network: &mut N,
    disks: &mut V,
    settings: Settings,
    ledger_name: &str,
) -> Status
where
    N::D: Send,
    <N::D as Door>::L: Send,
    V::Z: Send,
    requires ranges { AreInRange settings }
    ensures row { ServesWithDisk settings ledger_name.now
        (around (H.seen host.old) (N.seen network.old) (V.seen disks.old))
        (around (H.seen host.new) (N.seen network.new) (V.seen disks.new)) result }
    ensures back { IsAllBack (around (H.seen host.old) (N.seen network.old) (V.seen disks.old))
        (around (H.seen host.new) (N.seen network.new) (V.seen disks.new)) }
{
    match disks.open_disk(ledger_name) {
        Ok(disk) => serve_with_book(rt, alloc, host, network, disks, settings, disk),
        Err(error) => refusal_status(error),
    }
}

/// The same on the book of a disk that was given.
fn serve_with_book<R: Threads + Wait + Sync, H: Host, N: Network, V: Disks>(
    rt: &R,
    alloc: Global,
    host: &mut H,
    network: &mut N,
    disks: &mut V,
    settings: Settings,
    disk: V::Z,
) -> Status
where
    N::D: Send,
    <N::D as Door>::L: Send,
    V::Z: Send,
    requires ranges { AreInRange settings }
    requires out { 0 < (V.seen disks.old).disks.lent }
    requires opened { IsJustOpened (V.Z.seen disk) }
    ensures row { ServesNetworkOnDisk settings (V.Z.seen disk)
        (around (H.seen host.old) (N.seen network.old) (V.seen disks.old))
        (around (H.seen host.new) (N.seen network.new) (V.seen disks.new)) result }
    ensures back { IsWorldBack
        (record { host = H.seen host.old; network = N.seen network.old })
        (record { host = H.seen host.new; network = N.seen network.new }) }
    ensures disks { (V.seen disks.new).disks.lent ≡ (V.seen disks.old).disks.lent - 1 }
{
    let Settings {
        rules,
        base,
        limits,
        workers,
        address,
        feed,
    } = settings;
    let Ok(terms) = V1Terms::of(alloc, &rules, base) else {
        disks.done_disk(disk);
        return Status::Memory;
    };
    match ready_book(alloc, rules, disk) {
        Ok(book) => {
            let feed = feed.text();
            let address = address.text();
            let reached = serve_on_network(
                rt, alloc, network, book, feed, address, workers, &terms, limits,
            );
            finish(alloc, host, disks, reached)
        }
        Err((disk, cause)) => {
            disks.done_disk(disk);
            no_book_status(cause)
        }
    }
}

/// Prints what there is to report, and hands the disk back.
fn finish<H: Host, V: Disks>(
    alloc: Global,
    host: &mut H,
    disks: &mut V,
    reached: Reached<DiskLedger<V::Z>>,
) -> Status
    requires out { 0 < (V.seen disks.old).disks.lent }
    ensures row { FinishesOnDisk (H.seen host.old) (H.seen host.new) (V.seen disks.old)
        (V.seen disks.new) (reached_seen reached) result }
    ensures back { IsHandedBack (H.seen host.old) (H.seen host.new) }
    ensures disks { (V.seen disks.new).disks.lent ≡ (V.seen disks.old).disks.lent - 1 }
{
    match reached {
        Reached::Ran {
            book,
            feed_end,
            ledger_faults,
            door_faults,
            door_memory,
        } => {
            let printed = print_report(alloc, host, &book, feed_end);
            give_back(disks, book);
            served_status(ledger_faults, door_faults, door_memory, printed)
        }
        Reached::Unserved(book, error) => {
            give_back(disks, book);
            refusal_status(error)
        }
    }
}

/// Hands the disk of a book back.
fn give_back<V: Disks>(disks: &mut V, book: Book<DiskLedger<V::Z>>)
    requires out { 0 < (V.seen disks.old).disks.lent }
    ensures { GivesBookBack (V.seen disks.old) (V.seen disks.new) book }
{
    let (ledger, _history) = book.into_parts();
    disks.done_disk(ledger.into_disk());
}
