//! The audit of a source.

ghost use Rattle.std.specs.Prelude.{◌≡◌, List, Some};
ghost use Rattle.pool_io.specs.declared.turn.Turn.{Turn as Coming};
ghost use Rattle.pool_io.specs.Outside.{CountsFailure};
ghost use Rattle.pool_io.specs.Steps.{steps_of};
ghost use Rattle.stream_commands.specs.Ending.{DecideEnd, EndsCommand, is_read_fault, is_write_fault};
ghost use Rattle.ledger_audit.specs.Duty.{audit_duty};

use crate::auditor::Auditor;
use pool_io::{Sink, Source};
use std::alloc::Global;
use stream_commands::{End, drive};

/// Reads a ledger to its end or to its first defect, and puts what it finds: `legal` and the
/// summary, at `Done`; the line of another verdict, at `Refused`; nothing at the other ends.
pub fn audit<S: Source, T: Sink>(alloc: Global, source: &mut S, sink: &mut T) -> End
    // What each end says of the bytes and of what was put.
    ensures ran { EndsCommand audit_duty (S.seen source.old).left (S.seen source.new).left
        (T.seen sink.old).held (T.seen sink.new).held result }

    // The other way round: the bytes that the source tells decide the end, but for a fault or want
    // of memory.
    ensures decided { (told : List Coming) → (S.seen source.old).left ≡ Some told
        → DecideEnd audit_duty (steps_of told) result }

    // A failure is the end exactly where it was counted, and is counted once.
    ensures reads { CountsFailure (is_read_fault (Some result)) (S.seen source.old).faults
        (S.seen source.new).faults }
    ensures writes { CountsFailure (is_write_fault (Some result)) (T.seen sink.old).faults
        (T.seen sink.new).faults }
{
    drive::<Auditor, S, T>(alloc, &(), source, sink)
}
