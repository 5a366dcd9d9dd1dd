//! The command, over whatever host: the old ledger and the output are opened in this order, and the
//! new ledger once the old one was found legal; all that the host gave is handed back.

ghost use Rattle.std.specs.Prelude.{◌≡◌, ◌==◌, ◌<◌};
ghost use Rattle.pool_io.specs.Outside.{CountsFailure};
ghost use Rattle.stream_commands.specs.Statuses.{status_code};
ghost use Rattle.pool_io.specs.Hosts.{IsHandedBack};
ghost use Rattle.ledger_audit.specs.Migrating.{FinishRow, KeepRow, MigrateRow, PutsCount, status_of_keeper};

use crate::copying::{Copied, copy_ledger};
use crate::pieces::append_ledger;
use payouts::put_line;
use pool_io::{Host, KeeperFailed, Sink};
use std::alloc::Global;
use stream_commands::{End, Status, put_text, refusal_status};

/// Keeps the ledger in the file of a name again, in a new file of the other name, and puts how many
/// events it has to standard output.
pub fn migrate_ledger<H: Host>(
    alloc: Global,
    host: &mut H,
    old_name: &str,
    new_name: &str,
) -> Status
    ensures row { MigrateRow old_name.now new_name.now (H.seen host.old) (H.seen host.new) result }

    // Everything that the host gave has come back.
    ensures back { IsHandedBack (H.seen host.old) (H.seen host.new) }

    // The answer is a host's fault exactly where it was counted.
    ensures counts { CountsFailure (status_code result == 7) (H.seen host.old).streams.faults
        (H.seen host.new).streams.faults }
{
    let mut source = match host.open_source(old_name) {
        Ok(source) => source,
        Err(error) => return refusal_status(error),
    };
    let mut sink = match host.output() {
        Ok(sink) => sink,
        Err(error) => {
            host.done_source(source);
            return refusal_status(error);
        }
    };
    let copied = copy_ledger(alloc, &mut source);
    host.done_source(source);
    let status = finish(alloc, host, &copied, new_name, &mut sink);
    host.done_sink(sink);
    status
}

/// Keeps what was read again, or says what is wrong with it.
fn finish<H: Host>(
    alloc: Global,
    host: &mut H,
    copied: &Copied,
    new_name: &str,
    sink: &mut H::T,
) -> Status
    ensures row { FinishRow new_name.now copied.now (H.seen host.old) (H.seen host.new)
        (H.T.seen sink.old) (H.T.seen sink.new) result }
    ensures streams { (H.seen host.new).streams
        ≡ record (H.seen host.old).streams { faults = (H.seen host.new).streams.faults } }
    ensures keepers { (H.seen host.new).openings.keepers.lent
        ≡ (H.seen host.old).openings.keepers.lent }
    ensures counts { CountsFailure (status_code result == 7) (H.seen host.old).streams.faults
        (H.seen host.new).streams.faults }
{
    match copied.end {
        End::Done => keep_again(alloc, host, &copied.bytes, new_name, sink),
        End::Refused => put_text(sink, &copied.bytes, Status::Refused),
        other => other.status(),
    }
}

/// Keeps a legal ledger again.
fn keep_again<H: Host>(
    alloc: Global,
    host: &mut H,
    bytes: &[u8],
    new_name: &str,
    sink: &mut H::T,
) -> Status
    ensures row { KeepRow new_name.now bytes.now (H.seen host.old) (H.seen host.new)
        (H.T.seen sink.old) (H.T.seen sink.new) result }
    ensures streams { (H.seen host.new).streams
        ≡ record (H.seen host.old).streams { faults = (H.seen host.new).streams.faults } }
    ensures keepers { (H.seen host.new).openings.keepers.lent
        ≡ (H.seen host.old).openings.keepers.lent }
    ensures counts { CountsFailure (status_code result == 7) (H.seen host.old).streams.faults
        (H.seen host.new).streams.faults }
{
    let mut keeper = match host.open_keeper(new_name) {
        Ok(keeper) => keeper,
        Err(error) => return refusal_status(error),
    };
    let kept = append_ledger(alloc, bytes, &mut keeper);
    host.done_keeper(keeper);
    match kept {
        Ok(count) => put_count(alloc, sink, count),
        Err(error) => keeper_status(error),
    }
}

/// The status where a record wasn't kept.
fn keeper_status(error: KeeperFailed) -> Status
    ensures { result ≡ status_of_keeper error }
{
    match error {
        KeeperFailed::Failed => Status::KeeperFault,
        KeeperFailed::Memory => Status::Memory,
    }
}

/// Puts how many events were kept.
fn put_count<T: Sink>(alloc: Global, sink: &mut T, count: u64) -> Status
    ensures { PutsCount (T.seen sink.old) (T.seen sink.new) count result }
{
    let mut text = Vec::new(alloc);
    match put_line(&mut text, b"migrated", count) {
        Ok(()) => put_text(sink, &text, Status::Done),
        Err(_) => Status::Memory,
    }
}
