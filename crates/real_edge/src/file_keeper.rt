//! A keeper over a file. The real one tells nothing of what it holds.

ghost use Rattle.std.specs.Prelude.{◌≡◌, ◌+◌, false, length, IfOk};

use pool_io::{Keeper, KeeperFailed};
use std::fs::OpenFile;
use std::io;
use std::io::{Error, ErrorKind};
use std::os::unix::fs::FileExt;

/// Keeps records in a file, one behind the other. What a failed append may have left behind them is
/// cut off before anything else is written.
#[derive(Drop)]
pub struct FileKeeper<F: OpenFile + FileExt + Drop> {
    file: F,
    /// How many bytes the records have that are kept.
    kept: u64,
    /// Whether something else may stand behind them.
    is_torn: bool,
    faults: u64,
}

impl<F: OpenFile + FileExt + Drop> FileKeeper<F> {
    /// A keeper over a file that is empty.
    pub fn new(file: F) -> FileKeeper<F>
        ensures { result ≡ record { file = file; kept = 0; is_torn = false; faults = 0 } }
    {
        FileKeeper {
            file,
            kept: 0,
            is_torn: false,
            faults: 0,
        }
    }

    /// Writes a record behind those that are kept, and answers how many bytes there are with it.
    fn write_behind(&self, bytes: &[u8]) -> io::Result<u64>
        ensures { IfOk result (λ kept. kept ≡ self.now.kept + length bytes.now) }
    {
        let Some(kept) = self.kept.checked_add(bytes.len() as u64) else {
            return Err(Error::from(ErrorKind::InvalidInput));
        };
        if self.is_torn {
            self.file.set_len(self.kept)?;
        }
        self.file.write_all_at(bytes, self.kept)?;
        Ok(kept)
    }
}

impl<F: OpenFile + FileExt + Drop> Keeper for FileKeeper<F> {
    ghost use Rattle.std.specs.Prelude.{true, ◌≤◌, OnOk, OnErr};
    ghost use Rattle.pool_io.specs.Outside.{CountsFailure, is_failed_append};
    ghost use Rattle.real_edge.specs.Edges.{untold_keeper};

    ghost seen = { λ k. untold_keeper k.faults };

    fn append(&mut self, bytes: &[u8]) -> Result<(), KeeperFailed>
        requires { length bytes.now ≤ 300100 }
        ensures counts { CountsFailure (is_failed_append result) self.old.faults self.new.faults }

        // The next record goes behind all that were kept, once what isn't is cut off.
        ensures kept { OnOk result (self.new ≡ record self.old {
          kept = self.old.kept + length bytes.now;
          is_torn = false;
        }) }
        ensures refused { OnErr result (self.new ≡ record self.old {
          is_torn = true;
          faults = self.new.faults;
        }) }
    {
        match self.write_behind(bytes) {
            Ok(kept) => {
                self.kept = kept;
                self.is_torn = false;
                Ok(())
            }
            Err(_) => {
                self.is_torn = true;
                self.faults = self.faults.saturating_add(1);
                Err(KeeperFailed::Failed)
            }
        }
    }
}
