//! What no clause says of the adapters of streams and files: that each asks the system once, but for
//! a write that is broken off, that every byte comes and stays as it is, that an existing file isn't taken for a new one, and that
//! what a failed append left behind is cut off.

ghost use Rattle.std.specs.Prelude.{◌<◌, ◌≤◌, IfOk, length};

use crate::edge::{Waiting, WriteSink};
use crate::file_keeper::FileKeeper;
use crate::stream_host::StreamHost;
use pool_io::{Host, HostError, Keeper, KeeperFailed, Sink, SinkFailed, Source, Took};
use std::alloc::{AllocGlobal, Global};
use std::cell::Cell;
use std::fs::{File, Metadata, OpenFile, Permissions};
use std::io::{ErrorKind, Read, Write};
use std::os::unix::fs::{FileExt, PermissionsExt, symlink};
use std::process::Abort;
use std::rt::Files;
use std::test::Fail;
use std::time::{Clock, Duration};
use std::{env, fs, io, process};

/// Makes a folder of this test's own, and stands in it, so that names may be short.
pub fn stand_in_new_folder(rt: &HostRuntime, name: &str) -> Result<(), Fail> {
    let process = process::id(rt.process());
    let name = format!(in rt.alloc(); "maqefwi-{process}-{name}")?;
    let path = env::temp_dir(rt)?.join(rt.alloc(), name.as_str())?;
    // One that a process of the same number left behind.
    let _ = fs::remove_dir_all(rt, path.as_path());
    fs::create_dir(rt, path.as_path())?;
    env::set_current_dir(rt, path.as_path())?;
    Ok(())
}

/// Removes the folder in which the test stands.
pub fn remove_folder(rt: &HostRuntime) -> Result<(), Fail> {
    let path = env::current_dir(rt)?;
    fs::remove_dir_all(rt, path.as_path())?;
    Ok(())
}

/// Bytes of which no two places near one another look alike.
pub fn pattern(alloc: Global, length: usize) -> Result<Vec<u8>, Fail> {
    let mut bytes = Vec::new(alloc);
    for at in 0..length as u64 {
        bytes.push((at % 251 ^ at / 251 % 256) as u8)?;
    }
    Ok(bytes)
}

/// What an append of a short record answers.
fn append<K: Keeper>(rt: &impl Abort, keeper: &mut K, record: &[u8]) -> Result<(), KeeperFailed> {
    assert!(rt; record.len() <= 300_100);
    keeper.append(record)
}

/// A stream that counts its calls and answers them with what the cell says. An error holds for so many
/// calls, and then three bytes go.
#[derive(Clone, Copy)]
struct Told<'a> {
    answer: &'a Cell<Result<usize, ErrorKind>>,
    times: &'a Cell<u32>,
    calls: &'a Cell<u32>,
}

impl Told<'_> {
    /// The next calls are answered so.
    fn answer_so(self, answer: Result<usize, ErrorKind>, times: u32) {
        self.answer.set(answer);
        self.times.set(times);
        self.calls.set(0);
    }

    fn count(self, room: usize) -> io::Result<usize>
        ensures { IfOk result (λ count. count ≤ room) }
    {
        let call = self.calls.get();
        self.calls.set(call.saturating_add(1));
        match self.answer.get() {
            Ok(count) => Ok(count.min(room)),
            Err(kind) if call < self.times.get() => Err(io::Error::from(kind)),
            Err(_) => Ok(room.min(3)),
        }
    }
}

impl Read for Told<'_> {
    fn read(&mut self, buffer: &mut [u8]) -> io::Result<usize> {
        self.count(buffer.len())
    }
}

impl Write for Told<'_> {
    fn write(&mut self, piece: &[u8]) -> io::Result<usize> {
        self.count(piece.len())
    }

    fn flush(&mut self) -> io::Result<()> {
        Ok(())
    }
}

/// Takes and puts where the stream answers by a table, once where it answers an error.
fn take_and_put<S: Source, T: Sink>(rt: &impl Abort, source: &mut S, sink: &mut T, told: Told<'_>) {
    let failed = Err(SinkFailed::Failed);
    for (answer, took, put, writes) in [
        (Ok(4), Took::Bytes(4), Ok(4), 1),
        (Ok(1), Took::Bytes(1), Ok(1), 1),
        (Err(ErrorKind::Interrupted), Took::Idle, Ok(3), 2),
        (Err(ErrorKind::WouldBlock), Took::Idle, Ok(3), 2),
        (Err(ErrorKind::BrokenPipe), Took::Failed, failed, 1),
        (Ok(2), Took::Bytes(2), Ok(2), 1),
        // A write that takes nothing is a failure, and not the end of a loop.
        (Ok(0), Took::End, failed, 1),
        (Ok(0), Took::End, failed, 1),
        (Err(ErrorKind::ConnectionReset), Took::Failed, failed, 1),
        (Err(ErrorKind::TimedOut), Took::Failed, failed, 1),
        (Err(ErrorKind::NotConnected), Took::Failed, failed, 1),
        (Err(ErrorKind::PermissionDenied), Took::Failed, failed, 1),
        (Err(ErrorKind::UnexpectedEof), Took::Failed, failed, 1),
        (Err(ErrorKind::Other), Took::Failed, failed, 1),
        (Ok(3), Took::Bytes(3), Ok(3), 1),
    ] {
        told.answer_so(answer, 1);
        assert_eq!(rt; source.take(&mut [0; 4]), took, "{answer:?}");
        assert_eq!(rt; told.calls.get(), 1, "{answer:?}");
        told.answer_so(answer, 1);
        assert_eq!(rt; sink.put(b"abcd"), put, "{answer:?}");
        assert_eq!(rt; told.calls.get(), writes, "{answer:?}");
    }
}

#[test]
fn each_take_is_one_read_and_each_put_one_write(rt: HostRuntime) -> Result<(), Fail> {
    let answer = Cell::new(Ok(0));
    let times = Cell::new(0);
    let calls = Cell::new(0);
    let told = Told {
        answer: &answer,
        times: &times,
        calls: &calls,
    };
    let mut host = StreamHost::new(rt.alloc(), told, told, rt);
    let mut source = host.input()?;
    let mut sink = host.output()?;
    assert_eq!(rt; calls.get(), 0);
    take_and_put(&rt, &mut source, &mut sink, told);
    host.done_sink(sink);
    host.done_source(source);
    assert_eq!(rt; calls.get(), 1);
    Ok(())
}

/// A clock that counts how long was slept, and doesn't wait.
#[derive(Clone, Copy)]
pub struct Counting<'a>(pub &'a Cell<Duration>);

impl Clock for Counting<'_> {
    fn monotonic(&self) -> io::Result<Duration> {
        Ok(self.0.get())
    }

    fn since_1970(&self) -> io::Result<Duration> {
        Ok(self.0.get())
    }

    fn sleep(&self, duration: Duration) {
        self.0.set(self.0.get().saturating_add(duration));
    }
}

#[test]
fn a_write_that_is_broken_off_is_tried_again(rt: HostRuntime) {
    let answer = Cell::new(Ok(0));
    let times = Cell::new(0);
    let calls = Cell::new(0);
    let slept = Cell::new(Duration::ZERO);
    let told = Told {
        answer: &answer,
        times: &times,
        calls: &calls,
    };
    let mut sink = WriteSink::new(Waiting::new(told, Counting(&slept)));
    let failed = Err(SinkFailed::Failed);
    // Tried 50 times; what has no room, each time a tenth of a second later.
    for (kind, broken, put, writes, millis) in [
        (ErrorKind::Interrupted, 1, Ok(3), 2, 0),
        (ErrorKind::Interrupted, 49, Ok(3), 50, 0),
        (ErrorKind::Interrupted, 50, failed, 50, 0),
        (ErrorKind::WouldBlock, 1, Ok(3), 2, 100),
        (ErrorKind::WouldBlock, 49, Ok(3), 50, 4_900),
        (ErrorKind::WouldBlock, 50, failed, 50, 4_900),
        (ErrorKind::TimedOut, 1, failed, 1, 0),
    ] {
        told.answer_so(Err(kind), broken);
        slept.set(Duration::ZERO);
        assert_eq!(rt; sink.put(b"abcd"), put, "{kind:?} {broken}");
        assert_eq!(rt; calls.get(), writes, "{kind:?} {broken}");
        assert_eq!(rt;
            slept.get(),
            Duration::from_millis(millis),
            "{kind:?} {broken}"
        );
    }
}

/// Takes what a source brings, which has to be these bytes and then the end, twice.
fn take_all<S: Source>(rt: &impl Abort, source: &mut S, buffer: &mut [u8], wanted: &[u8])
    requires { 0 < length buffer.old }
{
    let mut rest = wanted;
    for _ in 0..wanted.len() {
        if rest.is_empty() {
            break;
        }
        let Took::Bytes(count) = source.take(buffer) else {
            panic!(rt; "nothing came before {} bytes", rest.len())
        };
        let Some((front, behind)) = rest.split_at_checked(count) else {
            panic!(rt; "too much came")
        };
        assert!(rt; buffer.starts_with(front), "before {} bytes", rest.len());
        rest = behind;
    }
    assert!(rt; rest.is_empty());
    assert_eq!(rt; source.take(buffer), Took::End);
    assert_eq!(rt; source.take(buffer), Took::End);
}

/// Reads a file whole, in takes of so much room.
fn read_file<H: Host>(rt: &impl Abort, host: &mut H, room: &mut [u8], name: &str, wanted: &[u8]) {
    assert!(rt; !room.is_empty());
    match host.open_source(name) {
        Ok(mut source) => {
            take_all(rt, &mut source, room, wanted);
            host.done_source(source);
        }
        Err(_) => panic!(rt; "{name} is not there"),
    }
}

/// Keeps records of many sizes, which are all of these bytes, each behind those before it.
fn keep_records<R: Abort + Files + AllocGlobal, K: Keeper>(
    rt: &R,
    keeper: &mut K,
    name: &str,
    wanted: &[u8],
) -> Result<(), Fail> {
    let mut rest = wanted;
    for size in [
        0, 1, 4_095, 4_096, 4_097, 100_000, 300_100, 99_999, 300_100, 0, 300_099, 2,
    ] {
        let Some((record, behind)) = rest.split_at_checked(size) else {
            panic!(rt; "no record")
        };
        rest = behind;
        assert_eq!(rt; append(rt, keeper, record), Ok(()), "{size}");
        let held = fs::read(rt, name)?;
        assert!(rt; wanted.starts_with(&held), "{size}");
        assert_eq!(rt; held.len().saturating_add(rest.len()), wanted.len());
    }
    assert!(rt; rest.is_empty());
    Ok(())
}

#[test]
fn records_of_any_size_are_the_file_and_are_read_again(rt: HostRuntime) -> Result<(), Fail> {
    stand_in_new_folder(&rt, "records")?;
    let wanted = pattern(rt.alloc(), 1_112_589)?;
    let mut host = StreamHost::new(rt.alloc(), rt.stdin(), rt.stdout(), rt);
    let mut keeper = host.open_keeper("ledger")?;
    keep_records(&rt, &mut keeper, "ledger", &wanted)?;
    host.done_keeper(keeper);
    let mut room = [0; 65_536];
    for size in [1, 999, 1_000, 1_001, 65_536] {
        let Some(front) = room.get_mut(..size) else {
            panic!(rt; "no room")
        };
        read_file(&rt, &mut host, front, "ledger", &wanted);
    }
    remove_folder(&rt)
}

/// Keeps a record in a file that isn't there before.
fn keep_in<H: Host>(rt: &impl Abort, host: &mut H, name: &str, record: &[u8]) {
    match host.open_keeper(name) {
        Ok(mut keeper) => {
            assert_eq!(rt; append(rt, &mut keeper, record), Ok(()), "{name}");
            host.done_keeper(keeper);
        }
        Err(_) => panic!(rt; "{name} is there"),
    }
}

/// Whether a name is refused for a keeper.
fn is_refused<H: Host>(host: &mut H, name: &str) -> bool {
    match host.open_keeper(name) {
        Ok(keeper) => {
            host.done_keeper(keeper);
            false
        }
        Err(error) => error == HostError::Failed,
    }
}

/// Whether a name is refused for a source, or a take of it fails.
fn brings_nothing<H: Host>(host: &mut H, name: &str) -> bool {
    match host.open_source(name) {
        Ok(mut source) => {
            let took = source.take(&mut [0; 2]);
            host.done_source(source);
            took == Took::Failed
        }
        Err(error) => error == HostError::Failed,
    }
}

/// Keeps once in a file of a free name, and reads it again.
fn keep_once<H: Host>(rt: &impl Abort, host: &mut H, name: &str) {
    assert!(rt; brings_nothing(host, name), "{name}");
    keep_in(rt, host, name, b"kept");
    assert!(rt; is_refused(host, name), "{name}");
    assert!(rt; is_refused(host, name), "{name}");
    read_file(rt, host, &mut [0; 9], name, b"kept");
}

#[test]
fn only_a_free_name_is_opened_for_a_keeper(rt: HostRuntime) -> Result<(), Fail> {
    stand_in_new_folder(&rt, "names")?;
    fs::create_dir(&rt, "folder")?;
    symlink(&rt, "nowhere", "link")?;
    let longest = "n".repeat(rt.alloc(), 255)?;
    let here = env::current_dir(&rt)?.join(rt.alloc(), "absolute")?;
    let mut host = StreamHost::new(rt.alloc(), rt.stdin(), rt.stdout(), rt);
    for length in 1..256 {
        keep_once(&rt, &mut host, longest.get(..length).unwrap_or(""));
    }
    for name in [
        "folder/ledger",
        "./A-b.1 é",
        " n ",
        "folder/../UP.ledger",
        "-",
        here.as_str(),
    ] {
        keep_once(&rt, &mut host, name);
    }
    // What a name that leads nowhere leads to isn't made.
    assert!(rt; is_refused(&mut host, "link"));
    assert!(rt; fs::read(&rt, "nowhere").is_err());
    remove_folder(&rt)
}

#[test]
fn what_is_no_file_is_no_source(rt: HostRuntime) -> Result<(), Fail> {
    stand_in_new_folder(&rt, "sources")?;
    fs::create_dir(&rt, "folder")?;
    let mut host = StreamHost::new(rt.alloc(), rt.stdin(), rt.stdout(), rt);
    for name in ["", "folder", "missing/name", "\0"] {
        assert!(rt; brings_nothing(&mut host, name), "{name}");
        assert!(rt; is_refused(&mut host, name), "{name}");
    }
    assert!(rt; brings_nothing(&mut host, "missing"));
    read_file(&rt, &mut host, &mut [0; 9], "/dev/null", b"");
    fs::write(&rt, "read-only", b"settings")?;
    fs::set_permissions(&rt, "read-only", Permissions::from_mode(0o400))?;
    read_file(&rt, &mut host, &mut [0; 9], "read-only", b"settings");
    remove_folder(&rt)
}

/// A file whose writes take five units at most. Its calls of some numbers fail, from `first` on and
/// before `behind`; such a write has taken two.
#[derive(Drop)]
struct Failing<'a> {
    file: File,
    unit: usize,
    calls: &'a Cell<u32>,
    first: u32,
    behind: u32,
}

impl Failing<'_> {
    fn fails(&self) -> bool {
        let call = self.calls.get();
        self.calls.set(call.saturating_add(1));
        self.first <= call && call < self.behind
    }
}

impl FileExt for Failing<'_> {
    fn read_at(&self, buffer: &mut [u8], offset: u64) -> io::Result<usize> {
        self.file.read_at(buffer, offset)
    }

    fn write_at(&self, piece: &[u8], offset: u64) -> io::Result<usize> {
        if self.fails() {
            let torn = piece.len().min(self.unit.saturating_mul(2));
            self.file.write_at(&piece[..torn], offset)?;
            return Err(io::Error::from(ErrorKind::BrokenPipe));
        }
        let taken = piece.len().min(self.unit.saturating_mul(5));
        self.file.write_at(&piece[..taken], offset)
    }
}

impl OpenFile for Failing<'_> {
    fn metadata(&self) -> io::Result<Metadata> {
        self.file.metadata()
    }

    fn set_len(&self, size: u64) -> io::Result<()> {
        if self.fails() {
            return Err(io::Error::from(ErrorKind::BrokenPipe));
        }
        self.file.set_len(size)
    }

    fn sync_all(&self) -> io::Result<()> {
        self.file.sync_all()
    }

    fn sync_data(&self) -> io::Result<()> {
        self.file.sync_data()
    }
}

/// Appends records over a file that fails so, one of so many units behind the first that may be torn.
/// Each is kept whole behind those before it or answered by a failure, once for each failing call.
fn keeps_what_it_says<R: Abort + Files<File = File> + AllocGlobal>(
    rt: &R,
    text: &[u8],
    (first, failing, size): (u32, u32, usize),
) -> Result<(), Fail> {
    let calls = Cell::new(0);
    let unit = text.len() / 36;
    let mut keeper = FileKeeper::new(Failing {
        file: File::create(rt, "torn")?,
        unit,
        calls: &calls,
        first,
        behind: first.saturating_add(failing),
    });
    let mut kept = Vec::new(rt.alloc());
    let mut failed = 0u32;
    let mut rest = text;
    for size in [3, 12, size, 1, 1, 6] {
        let Some((record, behind)) = rest.split_at_checked(unit.saturating_mul(size)) else {
            panic!(rt; "no record")
        };
        rest = behind;
        let answer = append(rt, &mut keeper, record);
        let held = fs::read(rt, "torn")?;
        if answer.is_ok() {
            kept.extend_from_slice(record)?;
            assert!(rt; held == kept, "{first} {failing} {size}");
        } else {
            failed = failed.saturating_add(1);
            assert!(rt; held.starts_with(&kept), "{first} {failing} {size}");
        }
    }
    assert_eq!(rt; failed, failing, "{first} {size}");
    Ok(())
}

#[test]
fn what_a_failed_append_left_is_cut_off(rt: HostRuntime) -> Result<(), Fail> {
    stand_in_new_folder(&rt, "torn")?;
    let short = pattern(rt.alloc(), 36)?;
    let long = pattern(rt.alloc(), 36 * 5_000)?;
    // The second record's calls are those from 1 to 3.
    for first in 0..4 {
        for failing in 0..6 {
            for size in 0..14 {
                keeps_what_it_says(&rt, &short, (first, failing, size))?;
            }
            keeps_what_it_says(&rt, &long, (first, failing, 1))?;
            keeps_what_it_says(&rt, &long, (first, failing, 13))?;
        }
    }
    remove_folder(&rt)
}

/// A file that keeps nothing but its length, and takes writes at its end alone. Where it fails, a
/// write has taken ten bytes.
#[derive(Drop)]
struct Length<'a> {
    length: &'a Cell<u64>,
    fails: &'a Cell<bool>,
}

impl FileExt for Length<'_> {
    fn read_at(&self, _: &mut [u8], _: u64) -> io::Result<usize> {
        Ok(0)
    }

    fn write_at(&self, piece: &[u8], offset: u64) -> io::Result<usize> {
        if offset != self.length.get() {
            return Err(io::Error::from(ErrorKind::InvalidInput));
        }
        let fails = self.fails.get();
        let taken = if fails {
            piece.len().min(10)
        } else {
            piece.len()
        };
        self.length.set(offset.saturating_add(taken as u64));
        if fails {
            return Err(io::Error::from(ErrorKind::BrokenPipe));
        }
        Ok(taken)
    }
}

impl OpenFile for Length<'_> {
    fn metadata(&self) -> io::Result<Metadata> {
        Err(io::Error::from(ErrorKind::Unsupported))
    }

    fn set_len(&self, size: u64) -> io::Result<()> {
        self.length.set(size);
        Ok(())
    }

    fn sync_all(&self) -> io::Result<()> {
        Ok(())
    }

    fn sync_data(&self) -> io::Result<()> {
        Ok(())
    }
}

#[test]
fn a_ledger_of_more_than_4_gibibytes_is_kept_on(rt: HostRuntime) -> Result<(), Fail> {
    let record = pattern(rt.alloc(), 300_100)?;
    let length = Cell::new(0);
    let fails = Cell::new(false);
    let mut keeper = FileKeeper::new(Length {
        length: &length,
        fails: &fails,
    });
    for number in 1..15_001_u64 {
        assert_eq!(rt; append(&rt, &mut keeper, &record), Ok(()), "{number}");
        assert_eq!(rt; length.get(), number.saturating_mul(300_100));
    }
    for _ in 0..20 {
        fails.set(true);
        let failed = Err(KeeperFailed::Failed);
        assert_eq!(rt; append(&rt, &mut keeper, &record), failed);
        fails.set(false);
        assert_eq!(rt; append(&rt, &mut keeper, b""), Ok(()));
        assert_eq!(rt; length.get(), 4_501_500_000);
    }
    assert_eq!(rt; append(&rt, &mut keeper, &record), Ok(()));
    Ok(())
}
