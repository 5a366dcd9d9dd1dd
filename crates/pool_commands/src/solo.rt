//! The command, over whatever host: settings, keeper, input and output are opened in this order, and
//! all that the host gave is handed back.

ghost use Rattle.std.specs.Prelude.{◌≡◌, ◌<◌, ◌==◌, ◌-◌, None};
ghost use Rattle.pool_io.specs.Outside.{CountsFailure};
ghost use Rattle.pool_settings.specs.Reading.{AreInRange};
ghost use Rattle.stream_commands.specs.Statuses.{status_code};
ghost use Rattle.pool_io.specs.Hosts.{IsHandedBack};
ghost use Rattle.share_ledger.specs.Books.{IsUnused};
ghost use Rattle.pool_commands.specs.SoloRow.{DeclareRow, KeeperRow, SessionCommandRow, SessionRow, SoloRow};

use crate::solo_status::solo_status;
use pool_io::Host;
use pool_sessions::{Solo, serve_solo};
use pool_settings::{Settings, open_settings};
use std::alloc::Global;
use stream_commands::{Status, refusal_status};

/// Serves one session of both roles over standard input and output, by the settings file of a name,
/// and keeps its history in a new file of the other name.
pub fn solo_by_settings<H: Host>(
    alloc: Global,
    host: &mut H,
    settings_name: &str,
    ledger_name: &str,
) -> Status
    ensures row { SoloRow settings_name.now ledger_name.now (H.seen host.old) (H.seen host.new)
        result }

    // Everything that the host gave has come back.
    ensures back { IsHandedBack (H.seen host.old) (H.seen host.new) }

    // The answer is a host's fault exactly where it was counted.
    ensures counts { CountsFailure (status_code result == 7) (H.seen host.old).streams.faults
        (H.seen host.new).streams.faults }
{
    keep_by_settings(alloc, host, settings_name, ledger_name, false)
}

/// The same, and takes declarations: so frames may be as long as the transactions that one lacks.
pub fn declare_by_settings<H: Host>(
    alloc: Global,
    host: &mut H,
    settings_name: &str,
    ledger_name: &str,
) -> Status
    ensures row { DeclareRow settings_name.now ledger_name.now (H.seen host.old) (H.seen host.new)
        result }
    ensures back { IsHandedBack (H.seen host.old) (H.seen host.new) }
    ensures counts { CountsFailure (status_code result == 7) (H.seen host.old).streams.faults
        (H.seen host.new).streams.faults }
{
    keep_by_settings(alloc, host, settings_name, ledger_name, true)
}

/// Serves one session by a settings file, which takes declarations where this is said.
fn keep_by_settings<H: Host>(
    alloc: Global,
    host: &mut H,
    settings_name: &str,
    ledger_name: &str,
    declares: bool,
) -> Status
    ensures row { SessionCommandRow declares settings_name.now ledger_name.now (H.seen host.old)
        (H.seen host.new) result }
    ensures back { IsHandedBack (H.seen host.old) (H.seen host.new) }
    ensures counts { CountsFailure (status_code result == 7) (H.seen host.old).streams.faults
        (H.seen host.new).streams.faults }
{
    match open_settings(alloc, host, settings_name) {
        Ok(settings) => keep_session(alloc, host, settings, ledger_name, declares),
        Err(no_settings) => no_settings.status(),
    }
}

/// The same by these settings.
fn keep_session<H: Host>(
    alloc: Global,
    host: &mut H,
    settings: Settings,
    ledger_name: &str,
    declares: bool,
) -> Status
    requires ranges { AreInRange settings }
    ensures row { KeeperRow declares settings ledger_name.now (H.seen host.old) (H.seen host.new) result }
    ensures back { IsHandedBack (H.seen host.old) (H.seen host.new) }
    ensures counts { CountsFailure (status_code result == 7) (H.seen host.old).streams.faults
        (H.seen host.new).streams.faults }
{
    match host.open_keeper(ledger_name) {
        Ok(keeper) => serve_session(alloc, host, settings, keeper, declares),
        Err(error) => refusal_status(error),
    }
}

/// The same by a keeper that the host gave.
fn serve_session<H: Host>(
    alloc: Global,
    host: &mut H,
    settings: Settings,
    keeper: H::K,
    declares: bool,
) -> Status
    requires ranges { AreInRange settings }
    requires out { 0 < (H.seen host.old).openings.keepers.lent }
    requires unused { IsUnused (H.K.seen keeper).records }
    requires untold { (H.K.seen keeper).stored ≡ None }
    ensures row { SessionRow declares settings (H.K.seen keeper) (H.seen host.old) (H.seen host.new)
        result }
    ensures sources { (H.seen host.new).streams.sources.lent ≡ (H.seen host.old).streams.sources.lent }
    ensures sinks { (H.seen host.new).streams.sinks.lent ≡ (H.seen host.old).streams.sinks.lent }
    ensures keepers { (H.seen host.new).openings.keepers.lent
        ≡ (H.seen host.old).openings.keepers.lent - 1 }
    ensures counts { CountsFailure (status_code result == 7) (H.seen host.old).streams.faults
        (H.seen host.new).streams.faults }
{
    let source = match host.input() {
        Ok(source) => source,
        Err(error) => {
            host.done_keeper(keeper);
            return refusal_status(error);
        }
    };
    let sink = match host.output() {
        Ok(sink) => sink,
        Err(error) => {
            host.done_source(source);
            host.done_keeper(keeper);
            return refusal_status(error);
        }
    };
    let Settings { rules, limits, .. } = settings;
    let Solo {
        source,
        sink,
        keeper,
        end,
    } = serve_solo(alloc, rules, keeper, source, sink, declares, limits);
    host.done_source(source);
    host.done_sink(sink);
    host.done_keeper(keeper);
    solo_status(end)
}
