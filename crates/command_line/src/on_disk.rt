//! The commands over a disk, by the names among the words.

ghost use Rattle.std.specs.Prelude.{◌≡◌};
ghost use Rattle.pool_io.specs.Hosts.{IsHandedBack};
ghost use Rattle.pool_commands.specs.DurableAuditing.{DurableAuditRow};
ghost use Rattle.pool_commands.specs.DurableServing.{DurableServeRow};
ghost use Rattle.pool_commands.specs.DurableSoloing.{DurableSoloRow};
ghost use Rattle.pool_commands.specs.Surroundings.{IsAllBack, around};
ghost use Rattle.command_line.specs.Forms.{IsDurableAudit, IsDurableServe, IsDurableSolo};

use crate::words::{Word, durable_audit_name, durable_serve_names, durable_solo_names};
use ledger_disk::Disks;
use pool_commands::{audit_on_disk, serve_on_disk, solo_on_disk};
use pool_io::Host;
use pool_network::{Door, Network};
use std::alloc::Global;
use std::sync::Wait;
use std::thread::Threads;
use stream_commands::Status;

/// Serves a session by the file and over the disk that the words name.
pub(crate) fn durable_solo_named<H: Host, V: Disks>(
    alloc: Global,
    host: &mut H,
    disks: &mut V,
    words: &[Word],
) -> Status
    requires names { IsDurableSolo words.now }
    ensures row { (names : IsDurableSolo words.now) × DurableSoloRow names.settings names.ledger
        (record { host = H.seen host.old; disks = V.seen disks.old })
        (record { host = H.seen host.new; disks = V.seen disks.new }) result }
    ensures back { IsHandedBack (H.seen host.old) (H.seen host.new) }
    ensures disks { (V.seen disks.new).disks.lent ≡ (V.seen disks.old).disks.lent }
{
    match durable_solo_names(words) {
        Some((settings, ledger)) => {
            let settings_name = settings.text();
            let ledger_name = ledger.text();
            solo_on_disk(alloc, host, disks, settings_name, ledger_name)
        }
        None => unreachable!(),
    }
}

/// Serves a feed and miners by the file and over the disk that the words name.
pub(crate) fn durable_serve_named<R: Threads + Wait + Sync, H: Host, N: Network, V: Disks>(
    rt: &R,
    alloc: Global,
    host: &mut H,
    network: &mut N,
    disks: &mut V,
    words: &[Word],
) -> Status
where
    N::D: Send,
    <N::D as Door>::L: Send,
    V::Z: Send,
    requires names { IsDurableServe words.now }
    ensures row { (names : IsDurableServe words.now) × DurableServeRow names.settings names.ledger
        (around (H.seen host.old) (N.seen network.old) (V.seen disks.old))
        (around (H.seen host.new) (N.seen network.new) (V.seen disks.new)) result }
    ensures back { IsAllBack (around (H.seen host.old) (N.seen network.old) (V.seen disks.old))
        (around (H.seen host.new) (N.seen network.new) (V.seen disks.new)) }
{
    match durable_serve_names(words) {
        Some((settings, ledger)) => {
            let settings_name = settings.text();
            let ledger_name = ledger.text();
            serve_on_disk(rt, alloc, host, network, disks, settings_name, ledger_name)
        }
        None => unreachable!(),
    }
}

/// Audits the ledger on the disk that the words name.
pub(crate) fn durable_audit_named<H: Host, V: Disks>(
    alloc: Global,
    host: &mut H,
    disks: &mut V,
    words: &[Word],
) -> Status
    requires names { IsDurableAudit words.now }
    ensures row { (name : IsDurableAudit words.now) × DurableAuditRow name.ledger
        (record { host = H.seen host.old; disks = V.seen disks.old })
        (record { host = H.seen host.new; disks = V.seen disks.new }) result }
    ensures back { IsHandedBack (H.seen host.old) (H.seen host.new) }
    ensures disks { (V.seen disks.new).disks.lent ≡ (V.seen disks.old).disks.lent }
{
    match durable_audit_name(words) {
        Some(ledger) => {
            let ledger_name = ledger.text();
            audit_on_disk(alloc, host, disks, ledger_name)
        }
        None => unreachable!(),
    }
}
