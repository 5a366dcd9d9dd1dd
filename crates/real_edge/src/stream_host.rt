//! The host of the real system.

ghost use Rattle.std.specs.Prelude.{◌≡◌, []};

use crate::edge::{Incoming, ReadSource, Waiting, WriteSink};
use crate::file_keeper::FileKeeper;
use pool_io::{Host, HostError, Shelf};
use std::alloc::Global;
use std::fs::File;
use std::io::{Read, Write};
use std::rt::Files;
use std::time::Clock;

/// The host of a program that reads `R`, writes `W`, and opens files and waits by `F`. It tells
/// neither its calls nor what its files bring.
#[derive(Drop)]
pub struct StreamHost<
    R: Read + Copy + Drop,
    W: Write + Copy + Drop,
    F: Files<File = File> + Clock + Copy + Drop,
> {
    input: R,
    output: W,
    files: F,
    faults: u64,
    sources: Shelf<ReadSource<Incoming<R, File>>>,
    sinks: Shelf<WriteSink<Waiting<W, F>>>,
    keepers: Shelf<FileKeeper<File>>,
}

impl<
    R: Read + Copy + Drop,
    W: Write + Copy + Drop,
    F: Files<File = File> + Clock + Copy + Drop,
> StreamHost<R, W, F> {
    /// A host that has given nothing.
    pub fn new(alloc: Global, input: R, output: W, files: F) -> StreamHost<R, W, F>
        ensures input { result.input ≡ input }
        ensures output { result.output ≡ output }
        ensures fresh { result.faults ≡ 0 }
        ensures sources { result.sources ≡ record { lent = 0; back = [] } }
        ensures sinks { result.sinks ≡ record { lent = 0; back = [] } }
        ensures keepers { result.keepers ≡ record { lent = 0; back = [] } }
    {
        StreamHost {
            input,
            output,
            files,
            faults: 0,
            sources: Shelf::new(alloc),
            sinks: Shelf::new(alloc),
            keepers: Shelf::new(alloc),
        }
    }
}

impl<
    R: Read + Copy + Drop,
    W: Write + Copy + Drop,
    F: Files<File = File> + Clock + Copy + Drop,
> Host for StreamHost<R, W, F> {
    ghost use Rattle.std.specs.Prelude.{None, ◌≢◌, ◌<◌, IfOk, OnOk, OnErr};
    ghost use Rattle.pool_io.specs.Lending.{lending_seen, lent_one, with_back};
    ghost use Rattle.pool_io.specs.Outside.{CountsFailure, is_failed_gift};
    ghost use Rattle.real_edge.specs.Edges.{untold_keeper, untold_sink, untold_source};
    ghost use Rattle.real_edge.specs.declared.edge.Incoming.TheVariants as incoming;

    type S = ReadSource<Incoming<R, File>>;

    type T = WriteSink<Waiting<W, F>>;

    type K = FileKeeper<File>;

    ghost seen = { λ h. record {
      streams = record {
        faults = h.faults;
        input = None;
        output = None;
        sources = lending_seen (λ source. untold_source source.faults) h.sources;
        sinks = lending_seen (λ sink. untold_sink sink.faults) h.sinks;
      };
      openings = record {
        calls = None;
        brings = λ _. None;
        keepers = lending_seen (λ keeper. untold_keeper keeper.faults) h.keepers;
      };
    } };

    fn input(&mut self) -> Result<ReadSource<Incoming<R, File>>, HostError>
        ensures fresh { IfOk result (λ given. given.faults ≡ 0) }
        ensures given { OnOk result (self.new ≡ record
            self.old { sources = lent_one self.old.sources }) }
        ensures refused { OnErr result (self.new ≡ self.old) }
        ensures counts { result ≢ Err HostError.Failed }

        // It was not used before it was given.
        ensures unused { IfOk result (λ given. given.reader ≡ incoming.Standard self.old.input) }
    {
        if self.sources.lend().is_err() {
            return Err(HostError::Memory);
        }
        Ok(ReadSource::new(Incoming::Standard(self.input)))
    }

    fn output(&mut self) -> Result<WriteSink<Waiting<W, F>>, HostError>
        ensures fresh { IfOk result (λ given. given.faults ≡ 0) }
        ensures given { OnOk result (self.new ≡ record
            self.old { sinks = lent_one self.old.sinks }) }
        ensures refused { OnErr result (self.new ≡ self.old) }
        ensures counts { result ≢ Err HostError.Failed }

        // It was not used before it was given.
        ensures unused { IfOk result (λ given. given.writer.writer ≡ self.old.output) }
    {
        if self.sinks.lend().is_err() {
            return Err(HostError::Memory);
        }
        Ok(WriteSink::new(Waiting::new(self.output, self.files)))
    }

    fn open_source(&mut self, name: &str) -> Result<ReadSource<Incoming<R, File>>, HostError>
        ensures fresh { IfOk result (λ given. given.faults ≡ 0) }
        ensures given { OnOk result (self.new ≡ record
            self.old { sources = lent_one self.old.sources }) }
        ensures refused { OnErr result (self.new ≡ record self.old { faults = self.new.faults }) }
        ensures counts { CountsFailure (is_failed_gift result) self.old.faults self.new.faults }
    {
        if self.sources.lend().is_err() {
            return Err(HostError::Memory);
        }
        match File::open(&self.files, name) {
            Ok(file) => Ok(ReadSource::new(Incoming::File(file))),
            Err(_) => {
                self.sources.unlend();
                self.faults = self.faults.saturating_add(1);
                Err(HostError::Failed)
            }
        }
    }

    fn open_keeper(&mut self, name: &str) -> Result<FileKeeper<File>, HostError>
        ensures fresh { IfOk result (λ given. given.faults ≡ 0) }
        ensures given { OnOk result (self.new ≡ record
            self.old { keepers = lent_one self.old.keepers }) }
        ensures refused { OnErr result (self.new ≡ record self.old { faults = self.new.faults }) }
        ensures counts { CountsFailure (is_failed_gift result) self.old.faults self.new.faults }
    {
        if self.keepers.lend().is_err() {
            return Err(HostError::Memory);
        }
        match File::create_new(&self.files, name) {
            Ok(file) => Ok(FileKeeper::new(file)),
            Err(_) => {
                self.keepers.unlend();
                self.faults = self.faults.saturating_add(1);
                Err(HostError::Failed)
            }
        }
    }

    // What was used isn't kept for the next.
    fn done_source(&mut self, source: ReadSource<Incoming<R, File>>)
        requires { 0 < self.old.sources.lent }
        ensures { self.new ≡ record self.old { sources = with_back self.old.sources source } }
    {
        self.sources.take_back(source);
    }

    fn done_sink(&mut self, sink: WriteSink<Waiting<W, F>>)
        requires { 0 < self.old.sinks.lent }
        ensures { self.new ≡ record self.old { sinks = with_back self.old.sinks sink } }
    {
        self.sinks.take_back(sink);
    }

    fn done_keeper(&mut self, keeper: FileKeeper<File>)
        requires { 0 < self.old.keepers.lent }
        ensures { self.new ≡ record self.old { keepers = with_back self.old.keepers keeper } }
    {
        self.keepers.take_back(keeper);
    }
}
