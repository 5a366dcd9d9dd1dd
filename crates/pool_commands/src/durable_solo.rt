//! `durable solo`, over whatever host and disks: the settings are read, then the disk is opened, the
//! input and the output, in this order; all that was given is handed back.

ghost use Rattle.std.specs.Prelude.{◌≡◌, ◌<◌, ◌-◌};
ghost use Rattle.pool_settings.specs.Reading.{AreInRange};
ghost use Rattle.pool_io.specs.Hosts.{IsHandedBack};
ghost use Rattle.ledger_resume.specs.Books.{IsJustOpened};
ghost use Rattle.pool_commands.specs.DurableSoloing.{DiskRow, DurableSoloRow, DiskSessionRow};

use crate::durable_session::{ServedDisk, serve_disk};
use crate::durable_status::disk_status;
use ledger_disk::Disks;
use pool_io::Host;
use pool_settings::{Settings, open_settings};
use std::alloc::Global;
use stream_commands::{Status, refusal_status};

/// Serves one session of both roles over standard input and output, by the settings file of a name,
/// and keeps its history on the disk of the other name: it goes on with what is there.
pub fn solo_on_disk<H: Host, V: Disks>(
    alloc: Global,
    host: &mut H,
    disks: &mut V,
    settings_name: &str,
    ledger_name: &str,
) -> Status
    ensures row { DurableSoloRow settings_name.now ledger_name.now
        (record { host = H.seen host.old; disks = V.seen disks.old })
        (record { host = H.seen host.new; disks = V.seen disks.new }) result }

    // Everything that was given has come back.
    ensures back { IsHandedBack (H.seen host.old) (H.seen host.new) }
    ensures disks { (V.seen disks.new).disks.lent ≡ (V.seen disks.old).disks.lent }
{
    match open_settings(alloc, host, settings_name) {
        Ok(settings) => open_and_serve(alloc, host, disks, settings, ledger_name),
        Err(no_settings) => no_settings.status(),
    }
}

/// The same by these settings.
fn open_and_serve<H: Host, V: Disks>(
    alloc: Global,
    host: &mut H,
    disks: &mut V,
    settings: Settings,
    ledger_name: &str,
) -> Status
    requires ranges { AreInRange settings }
    ensures row { DiskRow settings ledger_name.now
        (record { host = H.seen host.old; disks = V.seen disks.old })
        (record { host = H.seen host.new; disks = V.seen disks.new }) result }
    ensures back { IsHandedBack (H.seen host.old) (H.seen host.new) }
    ensures disks { (V.seen disks.new).disks.lent ≡ (V.seen disks.old).disks.lent }
{
    match disks.open_disk(ledger_name) {
        Ok(disk) => serve_session(alloc, host, disks, settings, disk),
        Err(error) => refusal_status(error),
    }
}

/// The same over a disk that was given.
fn serve_session<H: Host, V: Disks>(
    alloc: Global,
    host: &mut H,
    disks: &mut V,
    settings: Settings,
    disk: V::Z,
) -> Status
    requires ranges { AreInRange settings }
    requires out { 0 < (V.seen disks.old).disks.lent }
    requires opened { IsJustOpened (V.Z.seen disk) }
    ensures row { DiskSessionRow settings (V.Z.seen disk)
        (record { host = H.seen host.old; disks = V.seen disks.old })
        (record { host = H.seen host.new; disks = V.seen disks.new }) result }
    ensures back { IsHandedBack (H.seen host.old) (H.seen host.new) }
    ensures disks { (V.seen disks.new).disks.lent ≡ (V.seen disks.old).disks.lent - 1 }
{
    let source = match host.input() {
        Ok(source) => source,
        Err(error) => {
            disks.done_disk(disk);
            return refusal_status(error);
        }
    };
    let sink = match host.output() {
        Ok(sink) => sink,
        Err(error) => {
            host.done_source(source);
            disks.done_disk(disk);
            return refusal_status(error);
        }
    };
    let Settings { rules, limits, .. } = settings;
    let ServedDisk {
        source,
        sink,
        disk,
        end,
    } = serve_disk(alloc, rules, disk, source, sink, limits);
    host.done_source(source);
    host.done_sink(sink);
    disks.done_disk(disk);
    disk_status(end)
}
