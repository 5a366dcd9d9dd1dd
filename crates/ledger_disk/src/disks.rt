//! What gives disks.

ghost use Rattle.std.specs.Prelude.{◌≡◌, ◌<◌, IfOk, OnErr, OnOk};
ghost use Rattle.pool_io.specs.Lending.{lent_one, with_back};
ghost use Rattle.pool_io.specs.Outside.{CountsFailure, is_failed_gift};
ghost use Rattle.ledger_disk.specs.Disks.{DisksSeen, names_after, opened_disk};

use crate::Disk;
use pool_io::HostError;

/// Gives disks by their names, and takes them back. What it gave isn't `Drop`, so it can't be lost.
pub trait Disks {
    type Z: Disk;

    /// How often it has failed (a counter stays at 2^64 - 1 once it is there), which names it was
    /// asked for, what their disks hold, what is out, and what has come back.
    ghost seen: { Self → DisksSeen };

    /// The disk of this name, which is made where it isn't there. Nothing on it is pending: what it
    /// holds is there for good.
    fn open_disk(&mut self, name: &str) -> Result<Self::Z, HostError>
        ensures told { IfOk result (λ disk.
            Self.Z.seen disk ≡ opened_disk ((seen self.old).holds name.now)) }
        ensures lent { OnOk result ((seen self.new).disks ≡ lent_one (seen self.old).disks) }
        ensures stays { OnOk result (seen self.new ≡ record (seen self.old) {
          calls = (seen self.new).calls;
          disks = (seen self.new).disks;
        }) }
        ensures refused { OnErr result (seen self.new ≡ record (seen self.old) {
          faults = (seen self.new).faults;
          calls = (seen self.new).calls;
        }) }
        ensures counts { CountsFailure (is_failed_gift result) (seen self.old).faults
            (seen self.new).faults }
        ensures called { (seen self.new).calls
            ≡ names_after name.now result (seen self.old).calls };

    /// Takes a disk back, without memory.
    fn done_disk(&mut self, disk: Self::Z)
        requires { 0 < (seen self.old).disks.lent }
        ensures back { seen self.new ≡ record (seen self.old) {
          disks = with_back (seen self.old).disks (Self.Z.seen disk);
        } };
}
