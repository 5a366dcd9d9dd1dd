//! The top call: it picks the command that the words name, and hands everything back.

ghost use Rattle.std.specs.Prelude.{◌≡◌, ◌==◌, ◌↔◌, ◌⊎◌};
ghost use Rattle.pool_io.specs.Outside.{CountsFailure};
ghost use Rattle.stream_commands.specs.declared.status.Status.{Status as Answer};
ghost use Rattle.stream_commands.specs.Statuses.{status_code};
ghost use Rattle.ledger_audit.specs.AuditCommand.{AuditRow};
ghost use Rattle.ledger_audit.specs.Migrating.{MigrateRow};
ghost use Rattle.peer_commands.specs.FeedRow.{FeedRow};
ghost use Rattle.peer_commands.specs.Row.{MineRow};
ghost use Rattle.proxy_command.specs.Row.{ProxyRow};
ghost use Rattle.pool_commands.specs.ServeRow.{ServeRow};
ghost use Rattle.pool_io.specs.Hosts.{IsHandedBack};
ghost use Rattle.pool_commands.specs.Surroundings.{IsAllBack, IsWorldBack, around};
ghost use Rattle.pool_commands.specs.SoloRow.{DeclareRow, SoloRow};
ghost use Rattle.command_line.specs.declared.words.Form.{Form as Asked};
ghost use Rattle.command_line.specs.Forms.{AskAtAddress, AskForDisk, AskToServe, HasNoForm, IsAudit, IsDeclare, IsDurable, IsDurableAudit, IsDurableServe, IsDurableSolo, IsFeed, IsForm, IsMigrate, IsMine, IsProxy, IsServe, IsSolo};
ghost use Rattle.command_line.specs.Running.{DoesForm, IsAlone, IsOffDisk, IsWithinLimits, OwesDurableRow, OwesRow, WaitsForNobody};

use crate::on_disk::{durable_audit_named, durable_serve_named, durable_solo_named};
use crate::words::{
    Form, OnDisk, Word, audit_name, declare_names, feed_names, form_of, migrate_names, serve_names,
    solo_names,
};
use ledger_audit::{audit_ledger, migrate_ledger};
use ledger_disk::Disks;
use load_command::load;
use peer_commands::{feed, mine};
use pool_io::Host;
use pool_network::{Door, Network};
use proxy_command::proxy;
use std::alloc::Global;
use std::sync::Wait;
use std::thread::Threads;
use stream_commands::Status;
use stream_programs::{judge_shares, list_frames};

/// Does what the words ask for, and answers the status of the process.
pub fn run<R: Threads + Wait + Sync, H: Host, N: Network, V: Disks>(
    rt: &R,
    alloc: Global,
    host: &mut H,
    network: &mut N,
    disks: &mut V,
    words: &[Word],
) -> u8
where
    H::K: Send,
    N::D: Send,
    <N::D as Door>::L: Send,
    V::Z: Send,
    // 2 exactly where the words are none of the forms; then nothing was opened.
    ensures usage { result ≡ 2 ↔ HasNoForm words.now }
    ensures unopened { result ≡ 2 → H.seen host.new ≡ H.seen host.old }

    // What the words ask for was done: the answer is a status, and what the command owes at it
    // stands. Where the host, the network and what gives disks tell their opening calls, they are those
    // that the words ask for, in their order, up to the first that was refused or to the step at which
    // the command ended.
    ensures does { (form : Asked) → IsForm words.now form → DoesForm
        words.now form
        (around (H.seen host.old) (N.seen network.old) (V.seen disks.old))
        (around (H.seen host.new) (N.seen network.new) (V.seen disks.new)) result }

    // So for each words: 2, or a form that they have was done.
    ensures formed { (result ≡ 2) ⊎ ((form : Asked) × IsForm words.now form × DoesForm
        words.now form
        (around (H.seen host.old) (N.seen network.old) (V.seen disks.old))
        (around (H.seen host.new) (N.seen network.new) (V.seen disks.new)) result) }

    // Whatever the words: there are no other statuses, and everything that was given has come back.
    // Nothing but `serve`, durable or not, `mine`, `feed` and `proxy` asks for anything at an address,
    // and nothing but the durable commands for a disk; where the words are none of all these, 7 is
    // answered exactly where the host's count rose, by one.
    ensures statuses { (status : Answer) × (result ≡ status_code status) }
    ensures back { IsAllBack (around (H.seen host.old) (N.seen network.old) (V.seen disks.old))
        (around (H.seen host.new) (N.seen network.new) (V.seen disks.new)) }
    ensures alone { (AskAtAddress words.now → ⊥) → N.seen network.new ≡ N.seen network.old }
    ensures undisked { (AskForDisk words.now → ⊥) → V.seen disks.new ≡ V.seen disks.old }
    ensures counts { (AskAtAddress words.now → ⊥) → (AskForDisk words.now → ⊥)
        → CountsFailure (result == 7) (H.seen host.old).streams.faults
        (H.seen host.new).streams.faults }
{
    match form_of(words) {
        None => Status::Usage.code(),
        Some(form) => perform(rt, alloc, host, network, disks, words, form).code(),
    }
}

/// The same for words that ask for none of `serve`, `durable serve` and `proxy`: it waits for nobody, so it comes
/// back whatever the input is.
pub fn run_alone<H: Host, N: Network, V: Disks>(
    alloc: Global,
    host: &mut H,
    network: &mut N,
    disks: &mut V,
    words: &[Word],
) -> u8
    requires unserved { AskToServe words.now → ⊥ }
    ensures usage { result ≡ 2 ↔ HasNoForm words.now }
    ensures unopened { result ≡ 2 → H.seen host.new ≡ H.seen host.old }
    ensures does { (form : Asked) → IsForm words.now form → DoesForm
        words.now form
        (around (H.seen host.old) (N.seen network.old) (V.seen disks.old))
        (around (H.seen host.new) (N.seen network.new) (V.seen disks.new)) result }
    ensures formed { (result ≡ 2) ⊎ ((form : Asked) × IsForm words.now form × DoesForm
        words.now form
        (around (H.seen host.old) (N.seen network.old) (V.seen disks.old))
        (around (H.seen host.new) (N.seen network.new) (V.seen disks.new)) result) }
    ensures statuses { (status : Answer) × (result ≡ status_code status) }
    ensures back { IsAllBack (around (H.seen host.old) (N.seen network.old) (V.seen disks.old))
        (around (H.seen host.new) (N.seen network.new) (V.seen disks.new)) }
    ensures alone { (AskAtAddress words.now → ⊥) → N.seen network.new ≡ N.seen network.old }
    ensures undisked { (AskForDisk words.now → ⊥) → V.seen disks.new ≡ V.seen disks.old }
    ensures counts { (AskAtAddress words.now → ⊥) → (AskForDisk words.now → ⊥)
        → CountsFailure (result == 7) (H.seen host.old).streams.faults
        (H.seen host.new).streams.faults }
{
    match form_of(words) {
        None => Status::Usage.code(),
        Some(form) => perform_alone(alloc, host, network, disks, words, form).code(),
    }
}

/// Does what a form asks for.
fn perform<R: Threads + Wait + Sync, H: Host, N: Network, V: Disks>(
    rt: &R,
    alloc: Global,
    host: &mut H,
    network: &mut N,
    disks: &mut V,
    words: &[Word],
    form: Form,
) -> Status
where
    H::K: Send,
    N::D: Send,
    <N::D as Door>::L: Send,
    V::Z: Send,
    requires limits { IsWithinLimits form }
    requires names { IsForm words.now form }
    ensures row { OwesRow words.now form
        (around (H.seen host.old) (N.seen network.old) (V.seen disks.old))
        (around (H.seen host.new) (N.seen network.new) (V.seen disks.new)) result }
    ensures back { IsAllBack (around (H.seen host.old) (N.seen network.old) (V.seen disks.old))
        (around (H.seen host.new) (N.seen network.new) (V.seen disks.new)) }
    ensures alone { IsAlone form → N.seen network.new ≡ N.seen network.old }
    ensures undisked { IsOffDisk form → V.seen disks.new ≡ V.seen disks.old }
    ensures counts { IsAlone form → IsOffDisk form → CountsFailure (status_code result == 7)
        (H.seen host.old).streams.faults (H.seen host.new).streams.faults }
{
    match form {
        Form::Serve => serve_named(rt, alloc, host, network, words),
        Form::Proxy { count } => proxy_named(rt, alloc, host, network, words, count),
        Form::Durable {
            command: OnDisk::Serve,
        } => durable_serve_named(rt, alloc, host, network, disks, words),
        form => perform_alone(alloc, host, network, disks, words, form),
    }
}

/// Does what a form asks for that waits for nobody.
fn perform_alone<H: Host, N: Network, V: Disks>(
    alloc: Global,
    host: &mut H,
    network: &mut N,
    disks: &mut V,
    words: &[Word],
    form: Form,
) -> Status
    requires limits { IsWithinLimits form }
    requires names { IsForm words.now form }
    requires waits { WaitsForNobody form }
    ensures row { OwesRow words.now form
        (around (H.seen host.old) (N.seen network.old) (V.seen disks.old))
        (around (H.seen host.new) (N.seen network.new) (V.seen disks.new)) result }
    ensures back { IsAllBack (around (H.seen host.old) (N.seen network.old) (V.seen disks.old))
        (around (H.seen host.new) (N.seen network.new) (V.seen disks.new)) }
    ensures alone { IsAlone form → N.seen network.new ≡ N.seen network.old }
    ensures undisked { IsOffDisk form → V.seen disks.new ≡ V.seen disks.old }
    ensures counts { IsAlone form → IsOffDisk form → CountsFailure (status_code result == 7)
        (H.seen host.old).streams.faults (H.seen host.new).streams.faults }
{
    match form {
        Form::SoloFixed { class, job } => judge_shares(alloc, host, class, &job),
        Form::Frames => list_frames(alloc, host),
        Form::Solo => solo_named(alloc, host, words),
        Form::Declare => declare_named(alloc, host, words),
        Form::Audit => audit_named(alloc, host, words),
        Form::Migrate => migrate_named(alloc, host, words),
        Form::Load { number } => load(alloc, host, number),
        Form::Mine { class, count } => mine_named(alloc, host, network, words, class, count),
        Form::Feed => feed_named(alloc, host, network, words),
        Form::Durable {
            command: OnDisk::Solo,
        } => durable_solo_named(alloc, host, disks, words),
        Form::Durable {
            command: OnDisk::Audit,
        } => durable_audit_named(alloc, host, disks, words),
        Form::Serve
        | Form::Proxy { .. }
        | Form::Durable {
            command: OnDisk::Serve,
        } => unreachable!(),
    }
}

/// Serves a feed and miners by the files that the words name.
fn serve_named<R: Threads + Wait + Sync, H: Host, N: Network>(
    rt: &R,
    alloc: Global,
    host: &mut H,
    network: &mut N,
    words: &[Word],
) -> Status
where
    H::K: Send,
    N::D: Send,
    <N::D as Door>::L: Send,
    requires names { IsServe words.now }
    ensures row { (names : IsServe words.now) × ServeRow
        names.settings names.ledger
        (record { host = H.seen host.old; network = N.seen network.old })
        (record { host = H.seen host.new; network = N.seen network.new }) result }
    ensures back { IsWorldBack
        (record { host = H.seen host.old; network = N.seen network.old })
        (record { host = H.seen host.new; network = N.seen network.new }) }
{
    match serve_names(words) {
        Some((settings, ledger)) => {
            let settings_name = settings.text();
            let ledger_name = ledger.text();
            pool_commands::serve_by_settings(rt, alloc, host, network, settings_name, ledger_name)
        }
        None => unreachable!(),
    }
}

/// Mines for the user at the address that the words name.
fn mine_named<H: Host, N: Network>(
    alloc: Global,
    host: &mut H,
    network: &mut N,
    words: &[Word],
    class: u8,
    count: u32,
) -> Status
    requires names { IsMine words.now class count }
    ensures row { (names : IsMine words.now class count) × MineRow names.address
        (record { user = names.user; class = class; count = count })
        (record { host = H.seen host.old; network = N.seen network.old })
        (record { host = H.seen host.new; network = N.seen network.new }) result }
    ensures back { IsWorldBack
        (record { host = H.seen host.old; network = N.seen network.old })
        (record { host = H.seen host.new; network = N.seen network.new }) }
{
    match words {
        [_, address, user, _, _] => {
            let address_text = address.text();
            let user_text = user.text();
            mine(alloc, host, network, address_text, user_text, class, count)
        }
        _ => unreachable!(),
    }
}

/// Gives the script that the words name to the first who calls at their address.
fn feed_named<H: Host, N: Network>(
    alloc: Global,
    host: &mut H,
    network: &mut N,
    words: &[Word],
) -> Status
    requires names { IsFeed words.now }
    ensures row { (names : IsFeed words.now) × FeedRow names.script names.address
        (record { host = H.seen host.old; network = N.seen network.old })
        (record { host = H.seen host.new; network = N.seen network.new }) result }
    ensures back { IsWorldBack
        (record { host = H.seen host.old; network = N.seen network.old })
        (record { host = H.seen host.new; network = N.seen network.new }) }
{
    match feed_names(words) {
        Some((script, address)) => {
            let script_name = script.text();
            let address_text = address.text();
            feed(alloc, host, network, script_name, address_text)
        }
        None => unreachable!(),
    }
}

/// Lets the miners who call at the one address share a channel of the upstream at the other.
fn proxy_named<R: Threads + Wait + Sync, H: Host, N: Network>(
    rt: &R,
    alloc: Global,
    host: &mut H,
    network: &mut N,
    words: &[Word],
    count: u32,
) -> Status
where
    N::D: Send,
    <N::D as Door>::L: Send,
    requires names { IsProxy words.now count }
    ensures row { (names : IsProxy words.now count) × ProxyRow (record {
      user = names.user;
      places = record { peer = names.upstream; address = names.address; doors = count };
    })
        (record { host = H.seen host.old; network = N.seen network.old })
        (record { host = H.seen host.new; network = N.seen network.new }) result }
    ensures back { IsWorldBack
        (record { host = H.seen host.old; network = N.seen network.old })
        (record { host = H.seen host.new; network = N.seen network.new }) }
{
    match words {
        [_, upstream, user, address, _] => {
            let upstream_text = upstream.text();
            let user_text = user.text();
            let address_text = address.text();
            proxy(
                rt,
                alloc,
                host,
                network,
                upstream_text,
                user_text,
                address_text,
                count,
            )
        }
        _ => unreachable!(),
    }
}

/// Serves a session by the files that the words name.
fn solo_named<H: Host>(alloc: Global, host: &mut H, words: &[Word]) -> Status
    requires names { IsSolo words.now }
    ensures row { (names : IsSolo words.now) × SoloRow names.settings names.ledger (H.seen host.old)
        (H.seen host.new) result }
    ensures back { IsHandedBack (H.seen host.old) (H.seen host.new) }
    ensures counts { CountsFailure (status_code result == 7) (H.seen host.old).streams.faults
        (H.seen host.new).streams.faults }
{
    match solo_names(words) {
        Some((settings, ledger)) => {
            let settings_name = settings.text();
            let ledger_name = ledger.text();
            pool_commands::solo_by_settings(alloc, host, settings_name, ledger_name)
        }
        None => unreachable!(),
    }
}

/// The same, and takes declarations.
fn declare_named<H: Host>(alloc: Global, host: &mut H, words: &[Word]) -> Status
    requires names { IsDeclare words.now }
    ensures row { (names : IsDeclare words.now) × DeclareRow names.settings names.ledger
        (H.seen host.old) (H.seen host.new) result }
    ensures back { IsHandedBack (H.seen host.old) (H.seen host.new) }
    ensures counts { CountsFailure (status_code result == 7) (H.seen host.old).streams.faults
        (H.seen host.new).streams.faults }
{
    match declare_names(words) {
        Some((settings, ledger)) => {
            let settings_name = settings.text();
            let ledger_name = ledger.text();
            pool_commands::declare_by_settings(alloc, host, settings_name, ledger_name)
        }
        None => unreachable!(),
    }
}

/// Audits the ledger that the words name.
fn audit_named<H: Host>(alloc: Global, host: &mut H, words: &[Word]) -> Status
    requires names { IsAudit words.now }
    ensures row { (name : IsAudit words.now) × AuditRow name.ledger (H.seen host.old)
        (H.seen host.new) result }
    ensures back { IsHandedBack (H.seen host.old) (H.seen host.new) }
    ensures counts { CountsFailure (status_code result == 7) (H.seen host.old).streams.faults
        (H.seen host.new).streams.faults }
{
    match audit_name(words) {
        Some(ledger) => {
            let ledger_name = ledger.text();
            audit_ledger(alloc, host, ledger_name)
        }
        None => unreachable!(),
    }
}

/// Keeps the ledger that the words name first anew, in the file that they name second.
fn migrate_named<H: Host>(alloc: Global, host: &mut H, words: &[Word]) -> Status
    requires names { IsMigrate words.now }
    ensures row { (names : IsMigrate words.now) × MigrateRow
        names.old_ledger names.new_ledger (H.seen host.old)
        (H.seen host.new) result }
    ensures back { IsHandedBack (H.seen host.old) (H.seen host.new) }
    ensures counts { CountsFailure (status_code result == 7) (H.seen host.old).streams.faults
        (H.seen host.new).streams.faults }
{
    match migrate_names(words) {
        Some((old_ledger, new_ledger)) => {
            let old_name = old_ledger.text();
            let new_name = new_ledger.text();
            migrate_ledger(alloc, host, old_name, new_name)
        }
        None => unreachable!(),
    }
}
