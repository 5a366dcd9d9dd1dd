//! The command, over whatever host: the ledger and the output are opened in this order, and both are
//! handed back.

ghost use Rattle.std.specs.Prelude.{◌≡◌, ◌==◌};
ghost use Rattle.pool_io.specs.Outside.{CountsFailure};
ghost use Rattle.stream_commands.specs.Statuses.{status_code};
ghost use Rattle.pool_io.specs.Hosts.{IsHandedBack};
ghost use Rattle.ledger_audit.specs.AuditCommand.{AuditRow};

use crate::audit;
use pool_io::Host;
use std::alloc::Global;
use stream_commands::{Status, refusal_status};

/// Audits the ledger in the file of a name, and puts what it finds to standard output.
pub fn audit_ledger<H: Host>(alloc: Global, host: &mut H, ledger_name: &str) -> Status
    ensures row { AuditRow ledger_name.now (H.seen host.old) (H.seen host.new) result }

    // Everything that the host gave has come back.
    ensures back { IsHandedBack (H.seen host.old) (H.seen host.new) }

    // The answer is a host's fault exactly where it was counted.
    ensures counts { CountsFailure (status_code result == 7) (H.seen host.old).streams.faults
        (H.seen host.new).streams.faults }
{
    let mut source = match host.open_source(ledger_name) {
        Ok(source) => source,
        Err(error) => return refusal_status(error),
    };
    let mut sink = match host.output() {
        Ok(sink) => sink,
        Err(error) => {
            host.done_source(source);
            return refusal_status(error);
        }
    };
    let end = audit(alloc, &mut source, &mut sink);
    host.done_source(source);
    host.done_sink(sink);
    end.status()
}
