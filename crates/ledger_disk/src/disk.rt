//! A disk: bytes by their places, which a crash may change until they are synced.

ghost use Rattle.std.specs.Prelude.{◌≡◌, ◌≤◌, ◌+◌, None, length, take, drop, IfOk, OnOk};
ghost use Rattle.pool_io.specs.Outside.{CountsFailure};
ghost use Rattle.ledger_disk.specs.Moments.{last_content};
ghost use Rattle.ledger_disk.specs.Calls.{DiskSeen, LogsCut, LogsSync, LogsWrite, WhereTold, is_failed_call};

use thiserror::Error;

/// Why a disk did nothing, or not all.
#[derive(Clone, Copy, Debug, PartialEq, Eq, Error)]
pub enum DiskFailed {
    #[error("the disk failed")]
    Failed,
    #[error("no memory for the disk")]
    Memory,
}

/// A call that may change what a crash leaves.
#[derive(Clone, Copy, Debug, PartialEq, Eq)]
pub enum Doing {
    /// So many bytes were written from this place on.
    Wrote { at: u64, count: u64 },
    /// All bytes past so many were cut off.
    CutTo { length: u64 },
    /// What was there was made safe from crashes.
    Synced,
}

/// Holds bytes from place 0 on. What is written or cut is read at once, but until a sync a crash may
/// leave it done, not done or done in part. After lack of memory the disk is as it was.
pub trait Disk {
    /// How often the disk has failed (a counter stays at 2^64 - 1 once it is there), and what it did,
    /// where it tells: a write or a cut that failed may have been done in part.
    ghost seen: { Self → DiskSeen };

    /// The number of bytes.
    fn length(&mut self) -> Result<u64, DiskFailed>
        ensures told { IfOk result (λ count.
            WhereTold (seen self.old).log (λ log. count ≡ length (last_content log))) }
        ensures stays { (seen self.new).log ≡ (seen self.old).log }
        ensures counts { CountsFailure (is_failed_call result) (seen self.old).faults
            (seen self.new).faults };

    /// Reads the bytes from a place on, as many as the buffer is long.
    fn read_at(&mut self, at: u64, buffer: &mut [u8]) -> Result<(), DiskFailed>
        requires { WhereTold (seen self.old).log
            (λ log. at + length buffer.old ≤ length (last_content log)) }
        ensures told { OnOk result (WhereTold (seen self.old).log
            (λ log. buffer.new ≡ take (length buffer.old) (drop at (last_content log)))) }
        ensures stays { (seen self.new).log ≡ (seen self.old).log }
        ensures counts { CountsFailure (is_failed_call result) (seen self.old).faults
            (seen self.new).faults };

    /// Writes over what is there, and past the end.
    fn write_at(&mut self, at: u64, bytes: &[u8]) -> Result<(), DiskFailed>
        requires { WhereTold (seen self.old).log (λ log. at ≤ length (last_content log)) }
        ensures does { WhereTold (seen self.old).log
            (λ log. LogsWrite at bytes.now result log (seen self.new).log) }
        ensures untold { (seen self.old).log ≡ None → (seen self.new).log ≡ None }
        ensures counts { CountsFailure (is_failed_call result) (seen self.old).faults
            (seen self.new).faults };

    /// Cuts off all bytes past so many.
    fn cut(&mut self, count: u64) -> Result<(), DiskFailed>
        requires { WhereTold (seen self.old).log (λ log. count ≤ length (last_content log)) }
        ensures does { WhereTold (seen self.old).log
            (λ log. LogsCut count result log (seen self.new).log) }
        ensures untold { (seen self.old).log ≡ None → (seen self.new).log ≡ None }
        ensures counts { CountsFailure (is_failed_call result) (seen self.old).faults
            (seen self.new).faults };

    /// Makes what is there safe: after it a crash leaves what a read gives, until the next write or
    /// cut.
    fn sync(&mut self) -> Result<(), DiskFailed>
        ensures does { WhereTold (seen self.old).log
            (λ log. LogsSync result log (seen self.new).log) }
        ensures untold { (seen self.old).log ≡ None → (seen self.new).log ≡ None }
        ensures counts { CountsFailure (is_failed_call result) (seen self.old).faults
            (seen self.new).faults };
}
