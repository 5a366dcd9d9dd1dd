//! A disk over a file, and what gives such disks. The real ones tell nothing of what they hold.

ghost use Rattle.std.specs.Prelude.{◌≡◌, [], false};
ghost use Rattle.pool_io.specs.Outside.{CountsFailure, next_count};
ghost use Rattle.ledger_disk.specs.declared.disk.DiskFailed.TheVariants as disk;
ghost use Rattle.ledger_disk.specs.Calls.{is_failed_call};

#[cfg(test)]
mod tests;

use ledger_disk::{Disk, DiskFailed, Disks};
use pool_io::{HostError, Shelf};
use std::alloc::Global;
use std::fs::{File, OpenFile};
use std::io;
use std::io::{Error, ErrorKind};
use std::os::unix::fs::FileExt;
use std::path::{Path, PathBuf};
use std::rt::Files;

/// A disk over a file. A read or a write that a signal interrupts goes on; so do the system's own cuts
/// and syncs.
#[derive(Drop)]
pub struct FileDisk<F: OpenFile + FileExt + Drop> {
    file: F,
    /// Whether a sync has failed. What was written before it may then never be there for good, and
    /// a later sync of the system wouldn't tell: so each one fails.
    is_lost: bool,
    faults: u64,
}

impl<F: OpenFile + FileExt + Drop> FileDisk<F> {
    /// A disk over a file, of which nothing is pending.
    pub fn new(file: F) -> FileDisk<F>
        ensures { result ≡ record { file = file; is_lost = false; faults = 0 } }
    {
        FileDisk {
            file,
            is_lost: false,
            faults: 0,
        }
    }

    /// One more failure.
    fn fail(&mut self) -> DiskFailed
        ensures failed { result ≡ disk.Failed }
        ensures counts { self.new ≡ record self.old { faults = next_count self.old.faults } }
    {
        self.faults = self.faults.saturating_add(1);
        DiskFailed::Failed
    }
}

impl<F: OpenFile + FileExt + Drop> Disk for FileDisk<F> {
    ghost use Rattle.real_edge.specs.Edges.{untold_disk};
    ghost use Rattle.std.specs.Prelude.{IsTrue, OnErr, OnOk, true};

    ghost seen = { λ d. untold_disk d.faults };

    fn length(&mut self) -> Result<u64, DiskFailed> {
        match self.file.metadata() {
            Ok(found) => Ok(found.len()),
            Err(_) => Err(self.fail()),
        }
    }

    fn read_at(&mut self, at: u64, buffer: &mut [u8]) -> Result<(), DiskFailed> {
        match self.file.read_exact_at(buffer, at) {
            Ok(()) => Ok(()),
            Err(_) => Err(self.fail()),
        }
    }

    fn write_at(&mut self, at: u64, bytes: &[u8]) -> Result<(), DiskFailed> {
        match self.file.write_all_at(bytes, at) {
            Ok(()) => Ok(()),
            Err(_) => Err(self.fail()),
        }
    }

    fn cut(&mut self, length: u64) -> Result<(), DiskFailed> {
        match self.file.set_len(length) {
            Ok(()) => Ok(()),
            Err(_) => Err(self.fail()),
        }
    }

    fn sync(&mut self) -> Result<(), DiskFailed>
        ensures counts { CountsFailure (is_failed_call result) self.old.faults self.new.faults }

        // After one that failed each fails.
        ensures lost { IsTrue self.old.is_lost → result ≡ Err disk.Failed }
        ensures marks { OnErr result (self.new.is_lost ≡ true) }
        ensures goes_on { OnOk result (self.new ≡ self.old) }
    {
        if self.is_lost {
            return Err(self.fail());
        }
        match self.file.sync_all() {
            Ok(()) => Ok(()),
            Err(_) => {
                self.is_lost = true;
                Err(self.fail())
            }
        }
    }
}

/// Where the file of this name stands, whichever links lead to it. It is made where it isn't there,
/// but only under its own name.
fn place_of<F: Files>(files: &F, alloc: Global, name: &str) -> io::Result<PathBuf> {
    match files.canonicalize(alloc, name) {
        Err(error) if error.kind() == ErrorKind::NotFound => {
            File::create_new(files, name)?;
            files.canonicalize(alloc, name)
        }
        found => found,
    }
}

/// Syncs the folder in which a file stands.
fn sync_folder<F: Files>(files: &F, place: Path<'_>) -> io::Result<()> {
    match place.parent() {
        Some(folder) => File::open(files, folder)?.sync_all(),
        None => Err(Error::from(ErrorKind::NotFound)),
    }
}

/// The file of this name, which is made where it isn't there. Nobody else has opened it so, and
/// neither its bytes nor its name are lost by a crash.
fn open_alone<F: Files<File = File>>(files: &F, alloc: Global, name: &str) -> io::Result<File> {
    let place = place_of(files, alloc, name)?;
    let file = File::options()
        .read(true)
        .write(true)
        .open(files, place.as_path())?;
    file.try_lock()?;
    file.sync_all()?;
    sync_folder(files, place.as_path())?;
    Ok(file)
}

/// Gives disks over files. It tells neither the names nor what the files hold.
#[derive(Drop)]
pub struct FileDisks<F: Files<File = File> + Drop> {
    alloc: Global,
    files: F,
    faults: u64,
    /// Of the disks that came back, whose files are closed, how often each failed.
    disks: Shelf<u64>,
}

impl<F: Files<File = File> + Drop> FileDisks<F> {
    /// One that has given nothing.
    pub fn new(alloc: Global, files: F) -> FileDisks<F>
        ensures fresh { result.faults ≡ 0 }
        ensures disks { result.disks ≡ record { lent = 0; back = [] } }
    {
        FileDisks {
            alloc,
            files,
            faults: 0,
            disks: Shelf::new(alloc),
        }
    }
}

impl<F: Files<File = File> + Drop> Disks for FileDisks<F> {
    ghost use Rattle.std.specs.Prelude.{None};
    ghost use Rattle.pool_io.specs.Lending.{lending_seen};
    ghost use Rattle.real_edge.specs.Edges.{untold_disk};

    type Z = FileDisk<File>;

    ghost seen = { λ d. record {
      faults = d.faults;
      calls = None;
      holds = λ _. None;
      disks = lending_seen untold_disk d.disks;
    } };

    fn open_disk(&mut self, name: &str) -> Result<FileDisk<File>, HostError> {
        if self.disks.lend().is_err() {
            return Err(HostError::Memory);
        }
        match open_alone(&self.files, self.alloc, name) {
            Ok(file) => Ok(FileDisk::new(file)),
            Err(_) => {
                self.disks.unlend();
                self.faults = self.faults.saturating_add(1);
                Err(HostError::Failed)
            }
        }
    }

    fn done_disk(&mut self, disk: FileDisk<File>) {
        self.disks.take_back(disk.faults);
    }
}
