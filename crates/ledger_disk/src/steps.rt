//! Bytes that are written and synced.

ghost use Rattle.std.specs.Prelude.{◌≡◌, ◌≤◌, None, length};
ghost use Rattle.pool_io.specs.Outside.{CountsFailure};
ghost use Rattle.ledger_disk.specs.Calls.{WhereTold, is_failed_call};
ghost use Rattle.ledger_disk.specs.Moments.{last_content};
ghost use Rattle.ledger_disk.specs.Steps.{LogsPut, LogsTry, is_failed_put, put_failed_by};

use crate::{Disk, DiskFailed};

/// Why bytes weren't put, or not for sure.
#[derive(Clone, Copy)]
pub(crate) enum PutFailed {
    /// For lack of memory nothing was written.
    Unwritten,
    /// They may be written or not, and weren't synced.
    Unsure(DiskFailed),
}

/// Writes bytes, and syncs.
pub(crate) fn put<D: Disk>(disk: &mut D, at: u64, bytes: &[u8]) -> Result<(), PutFailed>
    requires { WhereTold (D.seen disk.old).log (λ log. at ≤ length (last_content log)) }
    ensures does { WhereTold (D.seen disk.old).log
        (λ log. LogsPut at bytes.now result log (D.seen disk.new).log) }
    ensures untold { (D.seen disk.old).log ≡ None → (D.seen disk.new).log ≡ None }
    ensures counts { CountsFailure (is_failed_put result) (D.seen disk.old).faults
        (D.seen disk.new).faults }
{
    match disk.write_at(at, bytes) {
        Ok(()) => match disk.sync() {
            Ok(()) => Ok(()),
            Err(unsynced) => Err(PutFailed::Unsure(unsynced)),
        },
        Err(error) => Err(write_failed(error)),
    }
}

/// The same, where it is all one what a failure leaves.
pub(crate) fn try_put<D: Disk>(disk: &mut D, at: u64, bytes: &[u8]) -> Result<(), DiskFailed>
    requires { WhereTold (D.seen disk.old).log (λ log. at ≤ length (last_content log)) }
    ensures does { WhereTold (D.seen disk.old).log
        (λ log. LogsTry at bytes.now result log (D.seen disk.new).log) }
    ensures untold { (D.seen disk.old).log ≡ None → (D.seen disk.new).log ≡ None }
    ensures counts { CountsFailure (is_failed_call result) (D.seen disk.old).faults
        (D.seen disk.new).faults }
{
    match put(disk, at, bytes) {
        Ok(()) => Ok(()),
        Err(PutFailed::Unwritten) => Err(DiskFailed::Memory),
        Err(PutFailed::Unsure(error)) => Err(error),
    }
}

/// What a write that failed leaves.
fn write_failed(error: DiskFailed) -> PutFailed
    ensures { result ≡ put_failed_by error }
{
    match error {
        DiskFailed::Memory => PutFailed::Unwritten,
        DiskFailed::Failed => PutFailed::Unsure(DiskFailed::Failed),
    }
}
