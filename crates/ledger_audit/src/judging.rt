//! The verdict on bytes that are all there, in pieces.

ghost use Rattle.std.specs.Prelude.{[], IfOk};
ghost use Rattle.ledger_audit.specs.Auditing.{HasReadBytes, IsBetweenRecords};
ghost use Rattle.ledger_audit.specs.Judging.{in_a_row};
ghost use Rattle.ledger_audit.specs.Verdicts.{IsVerdictOf};

use crate::auditor::Auditor;
use crate::records::Halt;
use crate::verdict::Verdict;
use std::alloc::{AllocError, Global};
use sv2_types::Blob;

/// What the bytes of these pieces are, one behind the other, wherever they are cut. It holds one
/// record at a time; over 2^40 bytes are answered by lack of memory.
pub fn verdict_of(alloc: Global, pieces: &[Blob]) -> Result<Verdict, AllocError>
    ensures { IfOk result (λ verdict. IsVerdictOf (in_a_row pieces.now) verdict) }
{
    let mut auditor = Auditor::begin(alloc);
    judge(&mut auditor, pieces)
}

/// The same by an auditor that has read nothing yet, which stays with the caller.
fn judge(auditor: &mut Auditor, pieces: &[Blob]) -> Result<Verdict, AllocError>
    requires between { IsBetweenRecords auditor.old }
    requires none { HasReadBytes auditor.old.records auditor.old.held.items [] }
    ensures { IfOk result (λ verdict. IsVerdictOf (in_a_row pieces.now) verdict) }
{
    for piece in pieces {
        match auditor.hear(piece.bytes()) {
            Ok(()) => {}
            Err(Halt::Defect(verdict)) => return Ok(verdict),
            Err(Halt::Memory) => return Err(AllocError),
        }
    }
    Ok(auditor.verdict())
}
