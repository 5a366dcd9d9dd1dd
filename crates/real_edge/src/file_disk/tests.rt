//! What no clause says of disks over files: that they read, write and cut just where they are asked
//! to, what a later opening finds, which names are opened, and which failures are counted.

ghost use Rattle.std.specs.Prelude.{◌≡◌};
ghost use Rattle.pool_io.specs.Lending.{lent_one};

use super::{FileDisk, FileDisks};
use crate::edge_tests::{pattern, remove_folder, stand_in_new_folder};
use ledger_disk::{Disk, DiskFailed, Disks};
use pool_io::HostError;
use std::alloc::{AllocGlobal, Allocator};
use std::cell::Cell;
use std::fs::{File, Metadata, OpenFile, OpenOptions};
use std::io::ErrorKind;
use std::os::unix::fs::{FileExt, symlink};
use std::path::PathBuf;
use std::process::Abort;
use std::rt::Files;
use std::test::Fail;
use std::{env, fs, io};

/// A disk and its file have just these bytes.
fn holds<R: Abort + Files + AllocGlobal, F: OpenFile + FileExt + Drop>(
    rt: &R,
    disk: &mut FileDisk<F>,
    name: &str,
    wanted: &[u8],
) {
    assert!(rt;
        fs::read(rt, name).is_ok_and(|bytes| bytes.as_slice() == wanted),
        "{name}"
    );
    assert_eq!(rt; disk.length(), Ok(wanted.len() as u64), "{name}");
    let mut room = [0; 65_537];
    for at in [0, 1, 4_095, 4_096, 65_537, wanted.len()] {
        let there = wanted.get(at..).unwrap_or(b"");
        let size = there.len().min(room.len());
        assert_eq!(rt; disk.read_at(at as u64, &mut room[..size]), Ok(()), "{at}");
        assert!(rt; there.starts_with(&room[..size]), "{at}");
    }
}

/// The disk of a name, which is opened.
fn opened<D: Disks>(rt: &impl Abort, disks: &mut D, name: &str) -> D::Z
    ensures { (D.seen disks.new).disks ≡ lent_one (D.seen disks.old).disks }
{
    match disks.open_disk(name) {
        Ok(disk) => disk,
        Err(_) => panic!(rt; "{name} is not opened"),
    }
}

/// Writes over an empty disk, and cuts all of it off again.
fn write_and_cut<R: Abort + Files + AllocGlobal>(rt: &R, disk: &mut FileDisk<File>, name: &str) {
    for (at, bytes, written) in [
        (0, "", ""),
        (0, "abcdef", "abcdef"),
        (2, "XY", "abXYef"),
        (5, "12345", "abXYe12345"),
        (10, ".", "abXYe12345."),
        (11, "", "abXYe12345."),
        (0, "-", "-bXYe12345."),
    ] {
        assert_eq!(rt; disk.write_at(at, bytes.as_bytes()), Ok(()), "{written}");
        holds(rt, disk, name, written.as_bytes());
    }
    for (count, left) in [(11, "-bXYe12345."), (7, "-bXYe12"), (1, "-"), (0, "")] {
        assert_eq!(rt; disk.cut(count), Ok(()), "{left}");
        holds(rt, disk, name, left.as_bytes());
    }
}

#[test]
fn what_a_disk_has_done_is_found_by_a_later_opening(rt: HostRuntime) -> Result<(), Fail> {
    stand_in_new_folder(&rt, "disk")?;
    let bytes = pattern(rt.alloc(), 1_000_003)?;
    let mut disks = FileDisks::new(rt.alloc(), rt);
    let mut disk = opened(&rt, &mut disks, "disk");
    write_and_cut(&rt, &mut disk, "disk");
    assert_eq!(rt; disk.write_at(0, &bytes), Ok(()));
    assert_eq!(rt; disk.cut(1_000_001), Ok(()));
    assert_eq!(rt; disk.sync(), Ok(()));
    disks.done_disk(disk);
    let mut disk = opened(&rt, &mut disks, "disk");
    holds(
        &rt,
        &mut disk,
        "disk",
        bytes.get(..1_000_001).unwrap_or(b""),
    );
    disks.done_disk(disk);
    assert_eq!(rt; disks.disks.items(), [0, 0].as_slice());
    remove_folder(&rt)
}

/// Whether a name is refused, which is counted.
fn is_refused<F: Files<File = File> + Drop>(disks: &mut FileDisks<F>, name: &str) -> bool {
    let before = disks.faults;
    match disks.open_disk(name) {
        Ok(disk) => {
            disks.done_disk(disk);
            false
        }
        Err(error) => error == HostError::Failed && disks.faults == before.saturating_add(1),
    }
}

/// A name is opened by one at a time, and its disk holds these bytes.
fn opens_alone<R: Abort + Files<File = File> + AllocGlobal + Copy + Drop>(
    rt: R,
    name: &str,
    held: &[u8],
) {
    let mut disks = FileDisks::new(rt.alloc(), rt);
    let mut others = FileDisks::new(rt.alloc(), rt);
    let mut disk = opened(&rt, &mut disks, name);
    holds(&rt, &mut disk, name, held);
    assert!(rt; is_refused(&mut others, name), "{name}");
    disks.done_disk(disk);
    assert!(rt; !is_refused(&mut others, name), "{name}");
}

#[test]
fn a_file_is_opened_by_one_alone_and_made_where_none_is(rt: HostRuntime) -> Result<(), Fail> {
    stand_in_new_folder(&rt, "openings")?;
    fs::create_dir(&rt, "folder")?;
    fs::write(&rt, "there", "abc")?;
    symlink(&rt, "there", "link")?;
    symlink(&rt, "nowhere", "astray")?;
    let mut disks = FileDisks::new(rt.alloc(), rt);
    for name in [
        "",
        "folder",
        "folder/",
        "there/",
        "missing/name",
        "\0",
        "astray",
        "/dev/null",
    ] {
        assert!(rt; is_refused(&mut disks, name), "{name}");
    }
    // What a link that leads nowhere leads to isn't made.
    assert!(rt; fs::read(&rt, "nowhere").is_err());
    for (name, held) in [
        ("there", "abc"),
        ("link", "abc"),
        ("./there", "abc"),
        ("new", ""),
        ("folder/new", ""),
        ("folder/../other", ""),
    ] {
        opens_alone(rt, name, held.as_bytes());
    }
    remove_folder(&rt)
}

/// The system, where one path is opened, to be written or not, as another is, or refused.
#[derive(Clone, Copy)]
struct Instead<'a, R: Copy> {
    system: R,
    path: &'a str,
    is_written: bool,
    other: Option<&'a str>,
}

impl<R: Files<File = File> + Copy> Files for Instead<'_, R> {
    type File = File;

    type Dir = R::Dir;

    fn open_file(&self, how: &OpenOptions, path: &str) -> io::Result<File> {
        if path != self.path || how.asks_write() != self.is_written {
            return self.system.open_file(how, path);
        }
        match self.other {
            Some(other) => self.system.open_file(how, other),
            None => Err(io::Error::from(ErrorKind::PermissionDenied)),
        }
    }

    fn open_dir(&self, path: &str) -> io::Result<R::Dir> {
        self.system.open_dir(path)
    }

    fn metadata(&self, path: &str) -> io::Result<Metadata> {
        self.system.metadata(path)
    }

    fn symlink_metadata(&self, path: &str) -> io::Result<Metadata> {
        self.system.symlink_metadata(path)
    }

    fn copy(&self, from: &str, to: &str) -> io::Result<u64> {
        self.system.copy(from, to)
    }

    fn rename(&self, from: &str, to: &str) -> io::Result<()> {
        self.system.rename(from, to)
    }

    fn remove_file(&self, path: &str) -> io::Result<()> {
        self.system.remove_file(path)
    }

    fn create_dir(&self, path: &str) -> io::Result<()> {
        self.system.create_dir(path)
    }

    fn remove_dir(&self, path: &str) -> io::Result<()> {
        self.system.remove_dir(path)
    }

    fn remove_dir_all<B: Allocator>(&self, alloc: B, path: &str) -> io::Result<()> {
        self.system.remove_dir_all(alloc, path)
    }

    fn canonicalize<B: Allocator>(&self, alloc: B, path: &str) -> io::Result<PathBuf<B>> {
        self.system.canonicalize(alloc, path)
    }
}

/// A regular file that is opened and locked as others are, and can't be synced.
const UNSYNCED: &str = "/proc/self/comm";

/// Whether a name is refused, twice, where this path is opened otherwise.
fn is_refused_where<R: Files<File = File> + AllocGlobal + Copy + Drop>(
    system: R,
    path: &str,
    is_written: bool,
    other: Option<&str>,
    name: &str,
) -> bool {
    let mut disks = FileDisks::new(
        system.alloc(),
        Instead {
            system,
            path,
            is_written,
            other,
        },
    );
    // Where the file is made, and where it is there.
    is_refused(&mut disks, name) && is_refused(&mut disks, name) && disks.faults == 2
}

#[test]
fn what_cannot_be_synced_or_written_is_no_disk(rt: HostRuntime) -> Result<(), Fail> {
    stand_in_new_folder(&rt, "folders")?;
    fs::create_dir(&rt, "folder")?;
    symlink(&rt, "folder/disk", "link")?;
    let here = env::current_dir(&rt)?;
    let folder = here.join(rt.alloc(), "folder")?;
    let disk = here.join(rt.alloc(), "disk")?;
    for (path, is_written, other, name) in [
        (here.as_str(), false, None, "disk"),
        (here.as_str(), false, Some(UNSYNCED), "disk"),
        (here.as_str(), false, None, "folder/../disk"),
        (folder.as_str(), false, None, "folder/disk"),
        (folder.as_str(), false, Some(UNSYNCED), "folder/disk"),
        // The folder of what a link leads to is that of the file.
        (folder.as_str(), false, None, "link"),
        (folder.as_str(), false, Some(UNSYNCED), "link"),
        (disk.as_str(), true, Some(UNSYNCED), "disk"),
        // It may be read alone.
        (disk.as_str(), true, None, "disk"),
    ] {
        assert!(rt;
            is_refused_where(rt, path, is_written, other, name),
            "{name} {other:?}"
        );
    }
    // The link's own folder isn't asked for.
    assert!(rt; !is_refused_where(rt, here.as_str(), false, None, "link"));
    remove_folder(&rt)
}

/// A file that reads and writes three bytes at a time. It fails at so many calls to come, a write
/// having taken one byte, and counts its syncs.
#[derive(Drop)]
struct Troubled<'a> {
    file: File,
    syncs: &'a Cell<u32>,
    failing: &'a Cell<u32>,
    kind: &'a Cell<ErrorKind>,
}

impl Troubled<'_> {
    fn next(&self) -> io::Result<()> {
        let failing = self.failing.get();
        if failing == 0 {
            return Ok(());
        }
        self.failing.set(failing - 1);
        Err(io::Error::from(self.kind.get()))
    }
}

impl FileExt for Troubled<'_> {
    fn read_at(&self, buffer: &mut [u8], offset: u64) -> io::Result<usize> {
        self.next()?;
        let room = buffer.len().min(3);
        self.file.read_at(&mut buffer[..room], offset)
    }

    fn write_at(&self, piece: &[u8], offset: u64) -> io::Result<usize> {
        if let Err(error) = self.next() {
            if error.kind() != ErrorKind::Interrupted {
                self.file.write_at(&piece[..piece.len().min(1)], offset)?;
            }
            return Err(error);
        }
        self.file.write_at(&piece[..piece.len().min(3)], offset)
    }
}

impl OpenFile for Troubled<'_> {
    fn metadata(&self) -> io::Result<Metadata> {
        self.next()?;
        self.file.metadata()
    }

    fn set_len(&self, size: u64) -> io::Result<()> {
        self.next()?;
        self.file.set_len(size)
    }

    fn sync_all(&self) -> io::Result<()> {
        self.syncs.set(self.syncs.get().saturating_add(1));
        self.next()?;
        self.file.sync_all()
    }

    fn sync_data(&self) -> io::Result<()> {
        self.next()?;
        self.file.sync_data()
    }
}

/// One of a disk's calls, by which a file of six bytes that begins with `ab` becomes `abcdef`.
fn call<F: OpenFile + FileExt + Drop>(
    disk: &mut FileDisk<F>,
    number: u32,
) -> Result<(), DiskFailed> {
    match number {
        0 => disk.length().map(|_| ()),
        1 => disk.read_at(1, &mut [0; 5]),
        2 => disk.write_at(2, b"cdef"),
        3 => disk.cut(6),
        _ => disk.sync(),
    }
}

/// Each of the first calls fails once, which is counted, and is done the next time.
fn fail_once<F: OpenFile + FileExt + Drop>(
    rt: &impl Abort,
    disk: &mut FileDisk<F>,
    failing: &Cell<u32>,
) {
    for number in 0..4 {
        let before = disk.faults;
        failing.set(1);
        assert_eq!(rt; call(disk, number), Err(DiskFailed::Failed), "{number}");
        assert_eq!(rt; disk.faults, before.saturating_add(1), "{number}");
        assert_eq!(rt; call(disk, number), Ok(()), "{number}");
        assert_eq!(rt; disk.faults, before.saturating_add(1), "{number}");
    }
}

/// Reads and writes that are interrupted are done all the same; what isn't there is not read.
fn go_on<F: OpenFile + FileExt + Drop>(
    rt: &impl Abort,
    disk: &mut FileDisk<F>,
    failing: &Cell<u32>,
) {
    for number in [1, 2, 4] {
        failing.set(if number < 4 { 9 } else { 0 });
        assert_eq!(rt; call(disk, number), Ok(()), "{number}");
    }
    for at in [5, 6, 7, u64::MAX >> 1, u64::MAX] {
        let before = disk.faults;
        assert_eq!(rt;
            disk.read_at(at, &mut [0; 2]),
            Err(DiskFailed::Failed),
            "{at}"
        );
        assert_eq!(rt; disk.faults, before.saturating_add(1), "{at}");
    }
}

/// Once a sync has failed each later one does, whatever was done meanwhile, and the system isn't
/// asked.
fn lose<F: OpenFile + FileExt + Drop>(
    rt: &impl Abort,
    disk: &mut FileDisk<F>,
    failing: &Cell<u32>,
    syncs: &Cell<u32>,
) {
    let (faults, asked) = (disk.faults, syncs.get());
    failing.set(1);
    for number in [4, 0, 4, 1, 4, 2, 4, 3, 4] {
        let is_done = call(disk, number).is_ok();
        assert_eq!(rt; is_done, number < 4, "{number}");
    }
    assert_eq!(rt; disk.faults, faults.saturating_add(5));
    assert_eq!(rt; syncs.get(), asked.saturating_add(1));
}

#[test]
fn each_failure_is_counted_and_no_sync_goes_behind_a_failed_one(
    rt: HostRuntime,
) -> Result<(), Fail> {
    stand_in_new_folder(&rt, "troubled")?;
    fs::write(&rt, "disk", "ab----")?;
    let syncs = Cell::new(0);
    let failing = Cell::new(0);
    let kind = Cell::new(ErrorKind::Other);
    let mut disk = FileDisk::new(Troubled {
        file: File::options().read(true).write(true).open(&rt, "disk")?,
        syncs: &syncs,
        failing: &failing,
        kind: &kind,
    });
    for error in [
        ErrorKind::Other,
        ErrorKind::WouldBlock,
        ErrorKind::StorageFull,
    ] {
        kind.set(error);
        fail_once(&rt, &mut disk, &failing);
    }
    kind.set(ErrorKind::Interrupted);
    go_on(&rt, &mut disk, &failing);
    kind.set(ErrorKind::Other);
    lose(&rt, &mut disk, &failing, &syncs);
    holds(&rt, &mut disk, "disk", b"abcdef");
    remove_folder(&rt)
}
