//! The edge: readers and writers as sources and sinks. The real ones tell nothing of what they bring
//! or hold.

ghost use Rattle.std.specs.Prelude.{◌≡◌, ◌<◌, ◌≤◌, length, IfOk};
ghost use Rattle.std.specs.Io.{WritesAtMost};
ghost use Rattle.std.specs.Io.KnownBytes.{WriteAppends};
ghost use Rattle.pool_io.specs.Outside.{CountsFailure, IsWithinRoom, is_failed_put, is_failed_take};
ghost use Rattle.real_edge.specs.Edges.{ReadsOn};

use pool_io::{Sink, SinkFailed, Source, Took};
use std::io::{ErrorKind, Read, Write};
use std::time::{Clock, Duration};
use std::{io, thread};

/// What finds nothing, or has no room, is asked again so much later.
pub(crate) const TURN_MILLIS: u64 = 100;

/// A write is tried so often, which with a turn before each but the first is as long as one to a link
/// may take.
const TRIES: u32 = 50;

/// What a host reads: standard input, or a file.
#[derive(Drop)]
pub enum Incoming<R: Read + Drop, F: Read + Drop> {
    Standard(R),
    File(F),
}

impl<R: Read + Drop, F: Read + Drop> Read for Incoming<R, F> {
    ghost use Rattle.real_edge.specs.Incoming.{remaining_of};

    ghost remaining = { remaining_of R.remaining F.remaining };

    fn read(&mut self, buffer: &mut [u8]) -> io::Result<usize> {
        match self {
            Incoming::Standard(reader) => reader.read(buffer),
            Incoming::File(file) => file.read(buffer),
        }
    }
}

/// Reads once. A read that was interrupted or would block is Idle; any other error is counted.
pub(crate) fn take_from<R: Read>(reader: &mut R, faults: &mut u64, buffer: &mut [u8]) -> Took
    requires { 0 < length buffer.old }
    ensures bound { IsWithinRoom result (length buffer.new) }
    ensures reads { ReadsOn (R.remaining reader.old) (R.remaining reader.new) result buffer.new }
    ensures counts { CountsFailure (is_failed_take result) faults.old faults.new }
{
    match reader.read(buffer) {
        Ok(0) => Took::End,
        Ok(count) => Took::Bytes(count),
        Err(error) => match error.kind() {
            ErrorKind::Interrupted | ErrorKind::WouldBlock => Took::Idle,
            _ => {
                *faults = faults.saturating_add(1);
                Took::Failed
            }
        },
    }
}

/// A reader as a source, which tells no turns.
#[derive(Drop)]
pub struct ReadSource<R: Read + Drop> {
    reader: R,
    faults: u64,
}

impl<R: Read + Drop> ReadSource<R> {
    pub fn new(reader: R) -> ReadSource<R>
        ensures fresh { result.faults ≡ 0 }
        ensures reader { result.reader ≡ reader }
    {
        ReadSource { reader, faults: 0 }
    }
}

impl<R: Read + Drop> Source for ReadSource<R> {
    ghost use Rattle.std.specs.Prelude.{None};
    ghost use Rattle.pool_io.specs.Outside.{TakesTurn};
    ghost use Rattle.real_edge.specs.Edges.{untold_source};

    ghost seen = { λ s. untold_source s.faults };

    fn take(&mut self, buffer: &mut [u8]) -> Took
        requires { 0 < length buffer.old }
        ensures bound { IsWithinRoom result (length buffer.new) }
        ensures turns { TakesTurn None None result buffer.new }
        ensures counts { CountsFailure (is_failed_take result) self.old.faults self.new.faults }

        // Where the reader tells its bytes, they are those that come.
        ensures reads { ReadsOn (R.remaining self.old.reader) (R.remaining self.new.reader) result
            buffer.new }
    {
        take_from(&mut self.reader, &mut self.faults, buffer)
    }
}

/// Writes once, but tries again what a signal breaks off.
fn write_again<W: Write>(writer: &mut W, piece: &[u8]) -> io::Result<usize>
    ensures bound { WritesAtMost result piece.now }
    ensures bytes { WriteAppends (W.contents writer.old) (W.contents writer.new) result piece.now }
{
    for _ in 1..TRIES {
        match writer.write(piece) {
            Err(error) if error.kind() == ErrorKind::Interrupted => {}
            answer => return answer,
        }
    }
    writer.write(piece)
}

/// Writes, and again what a signal breaks off. Each other error is counted, and so is a write that
/// takes nothing.
pub(crate) fn put_into<W: Write>(
    writer: &mut W,
    faults: &mut u64,
    piece: &[u8],
) -> Result<usize, SinkFailed>
    ensures some { IfOk result (λ n. 0 < n) }
    ensures bound { IfOk result (λ n. n ≤ length piece.now) }
    ensures writes { WriteAppends (W.contents writer.old) (W.contents writer.new) result piece.now }
    ensures counts { CountsFailure (is_failed_put result) faults.old faults.new }
{
    match write_again(writer, piece) {
        Ok(count) if count > 0 => Ok(count),
        _ => {
            *faults = faults.saturating_add(1);
            Err(SinkFailed::Failed)
        }
    }
}

/// A writer that is waited for, a turn before each further try, where it has no room and doesn't wait
/// itself.
#[derive(Drop)]
pub struct Waiting<W: Write + Drop, C: Clock + Drop> {
    writer: W,
    clock: C,
}

impl<W: Write + Drop, C: Clock + Drop> Waiting<W, C> {
    pub fn new(writer: W, clock: C) -> Waiting<W, C>
        ensures { result ≡ record { writer = writer; clock = clock } }
    {
        Waiting { writer, clock }
    }
}

impl<W: Write + Drop, C: Clock + Drop> Write for Waiting<W, C> {
    ghost contents = { λ w. W.contents w.writer };

    fn write(&mut self, piece: &[u8]) -> io::Result<usize> {
        for _ in 1..TRIES {
            match self.writer.write(piece) {
                Err(error) if error.kind() == ErrorKind::WouldBlock => {
                    thread::sleep(&self.clock, Duration::from_millis(TURN_MILLIS));
                }
                answer => return answer,
            }
        }
        self.writer.write(piece)
    }

    fn flush(&mut self) -> io::Result<()> {
        self.writer.flush()
    }
}

/// A writer as a sink.
#[derive(Drop)]
pub struct WriteSink<W: Write + Drop> {
    writer: W,
    faults: u64,
}

impl<W: Write + Drop> WriteSink<W> {
    pub fn new(writer: W) -> WriteSink<W>
        ensures fresh { result.faults ≡ 0 }
        ensures writer { result.writer ≡ writer }
    {
        WriteSink { writer, faults: 0 }
    }
}

impl<W: Write + Drop> Sink for WriteSink<W> {
    ghost use Rattle.std.specs.Prelude.{None, take, OnErr};
    ghost use Rattle.std.specs.Io.KnownBytes.{Appends, Keeps};
    ghost use Rattle.pool_io.specs.Outside.{AddsBytes};
    ghost use Rattle.real_edge.specs.Edges.{untold_sink};

    ghost seen = { λ s. untold_sink s.faults };

    fn put(&mut self, piece: &[u8]) -> Result<usize, SinkFailed>
        requires { 0 < length piece.now }
        ensures some { IfOk result (λ n. 0 < n) }
        ensures bound { IfOk result (λ n. n ≤ length piece.now) }
        ensures taken { IfOk result (λ n. AddsBytes None None (take n piece.now)) }
        ensures counts { CountsFailure (is_failed_put result) self.old.faults self.new.faults }

        // Where the writer tells its bytes, it has those that were taken, and after a failure no
        // more.
        ensures unwritten { OnErr result (Keeps (W.contents self.old.writer)
            (W.contents self.new.writer)) }
        ensures writes { IfOk result (λ n. Appends (W.contents self.old.writer)
            (W.contents self.new.writer) (take n piece.now)) }
    {
        put_into(&mut self.writer, &mut self.faults, piece)
    }
}
