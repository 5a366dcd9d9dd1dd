//! A host in memory.

ghost use Rattle.std.specs.Prelude.{◌≡◌, ◌<◌, ◌++◌, [], ◌∷◌, Some, IfOk, map, vec_len, vec_capacity};
ghost use Rattle.std.specs.Option.{option_map};
ghost use Rattle.pool_io.specs.declared.turn.Turn.{Turn as Coming};
ghost use Rattle.pool_io.specs.Memory.{keeper_seen, sink_seen, source_seen};
ghost use Rattle.pool_io.specs.MemoryHost.{turns_named};

use super::failing::FailingCalls;
use crate::{Host, HostError, MemKeeper, MemSink, MemSource, Name, Opening, Piece, Shelf, Turn};
use std::alloc::{AllocError, Global};
use std::mem;

/// How an input or an output of a host in memory behaves.
#[derive(Drop)]
pub struct Script<T> {
    /// What the object starts with: the turns of an input, the bytes of an output.
    pub contents: Vec<T>,
    /// The numbers of its calls that are to fail, the first call being number 0.
    pub failing: Vec<u64>,
}

/// A file of a host in memory, which brings the same whenever it is opened.
#[derive(Drop)]
pub struct MemFile {
    pub name: Name,
    pub script: Script<Turn>,
}

/// Gives one input and one output as their scripts say, and empty ones after them; the files that it
/// has; and keepers, whatever their names, but for those of its files. It fails at the opening calls
/// whose numbers are listed, the first being number 0, and where it has no file of the name.
#[derive(Drop)]
pub struct MemHost {
    alloc: Global,
    input: Script<Turn>,
    output: Script<u8>,
    files: Vec<MemFile>,
    /// The numbers of the calls of the first keeper that are to fail.
    failing_appends: Vec<u64>,
    failing: FailingCalls,
    calls: Vec<Opening>,
    sources: Shelf<MemSource>,
    sinks: Shelf<MemSink>,
    keepers: Shelf<MemKeeper>,
}

impl MemHost {
    ghost use Rattle.std.specs.Prelude.{None};
    ghost use Rattle.pool_io.specs.MemoryHost.{host_seen};

    /// A host without files.
    pub fn new(alloc: Global, input: Script<Turn>, output: Script<u8>, failing: Vec<u64>) -> MemHost
        ensures streams { (host_seen result).streams ≡ record {
          faults = 0;
          input = Some input.contents.items;
          output = Some output.contents.items;
          sources = record { lent = 0; back = [] };
          sinks = record { lent = 0; back = [] };
        } }
        ensures openings { (host_seen result).openings ≡ record {
          calls = Some [];
          brings = λ _. None;
          keepers = record { lent = 0; back = [] };
        } }
    {
        MemHost {
            alloc,
            input,
            output,
            files: Vec::new(alloc),
            failing_appends: Vec::new(alloc),
            failing: FailingCalls::of(failing),
            calls: Vec::new(alloc),
            sources: Shelf::new(alloc),
            sinks: Shelf::new(alloc),
            keepers: Shelf::new(alloc),
        }
    }

    /// The same host with these files, whose first keeper fails at the appends whose numbers are
    /// listed.
    pub fn with_files(self, files: Vec<MemFile>, failing_appends: Vec<u64>) -> MemHost
        ensures streams { (host_seen result).streams ≡ (host_seen self).streams }
        ensures openings { (host_seen result).openings ≡ record (host_seen self).openings {
          brings = λ name. turns_named files.items name;
        } }
    {
        let mut host = self;
        host.files = files;
        host.failing_appends = failing_appends;
        host
    }

    /// The opening calls so far, in their order.
    pub fn calls(&self) -> &[Opening]
        ensures { Some result.now ≡ (host_seen self.now).openings.calls }
    {
        &self.calls
    }

    /// The sinks that came back, in their order.
    pub fn sinks(&self) -> &[MemSink]
        ensures { map sink_seen result.now ≡ (host_seen self.now).streams.sinks.back }
    {
        self.sinks.items()
    }

    /// The sources that came back, in their order.
    pub fn sources(&self) -> &[MemSource]
        ensures { map source_seen result.now ≡ (host_seen self.now).streams.sources.back }
    {
        self.sources.items()
    }

    /// The keepers that came back, in their order.
    pub fn keepers(&self) -> &[MemKeeper]
        ensures { map keeper_seen result.now ≡ (host_seen self.now).openings.keepers.back }
    {
        self.keepers.items()
    }
}

/// Tells one more call, for which there is room.
fn tell(calls: &mut Vec<Opening>, call: Opening)
    requires { vec_len calls.old < vec_capacity calls.old }
    ensures { calls.new.items ≡ calls.old.items ++ call ∷ [] }
{
    calls.push(call).unwrap();
}

/// The script of the first file of this name.
fn script_named<'a>(files: &'a [MemFile], name: &str) -> Option<&'a Script<Turn>>
    ensures { option_map (λ script. script.now.contents.items) result
        ≡ turns_named files.now name.now }
{
    match files {
        [] => None,
        [file, rest @ ..] => {
            if file.name.text() == name {
                Some(&file.script)
            } else {
                script_named(rest, name)
            }
        }
    }
}

/// The same turn.
fn copy_of(alloc: Global, turn: &Turn) -> Result<Turn, AllocError>
    ensures { IfOk result (λ copied. copied ≡ turn.now) }
{
    match turn {
        Turn::Piece(piece) => Ok(Turn::Piece(Piece::of(Vec::from_slice(alloc, piece.bytes())?))),
        Turn::Idle => Ok(Turn::Idle),
        Turn::End => Ok(Turn::End),
    }
}

/// A source that brings these turns, and fails at the calls whose numbers are listed.
fn source_of(alloc: Global, script: &Script<Turn>) -> Result<MemSource, AllocError>
    ensures { IfOk result (λ source.
        source_seen source ≡ record { faults = 0; left = Some script.now.contents.items }) }
{
    let mut turns = Vec::new(alloc);
    for turn in &script.contents {
        turns.push(copy_of(alloc, turn)?)?;
    }
    let failing = Vec::from_slice(alloc, script.failing.as_slice())?;
    Ok(MemSource::new(turns, failing))
}

impl Host for MemHost {
    ghost use Rattle.pool_io.specs.MemoryHost.{host_seen};

    type S = MemSource;

    type T = MemSink;

    type K = MemKeeper;

    ghost seen = { host_seen };

    fn input(&mut self) -> Result<MemSource, HostError> {
        if self.calls.reserve(1).is_err() {
            return Err(HostError::Memory);
        }
        if self.failing.next_fails() {
            tell(&mut self.calls, Opening::Input);
            return Err(HostError::Failed);
        }
        if self.sources.lend().is_err() {
            return Err(HostError::Memory);
        }
        tell(&mut self.calls, Opening::Input);
        let turns = mem::replace(&mut self.input.contents, Vec::new(self.alloc));
        let failing = mem::replace(&mut self.input.failing, Vec::new(self.alloc));
        Ok(MemSource::new(turns, failing))
    }

    fn output(&mut self) -> Result<MemSink, HostError> {
        if self.calls.reserve(1).is_err() {
            return Err(HostError::Memory);
        }
        if self.failing.next_fails() {
            tell(&mut self.calls, Opening::Output);
            return Err(HostError::Failed);
        }
        if self.sinks.lend().is_err() {
            return Err(HostError::Memory);
        }
        tell(&mut self.calls, Opening::Output);
        let bytes = mem::replace(&mut self.output.contents, Vec::new(self.alloc));
        let failing = mem::replace(&mut self.output.failing, Vec::new(self.alloc));
        Ok(MemSink::new(bytes, failing))
    }

    fn open_source(&mut self, name: &str) -> Result<MemSource, HostError> {
        let Ok(named) = Name::of(self.alloc, name) else {
            return Err(HostError::Memory);
        };
        if self.calls.reserve(1).is_err() {
            return Err(HostError::Memory);
        }
        if self.failing.next_fails() {
            tell(&mut self.calls, Opening::Source(named));
            return Err(HostError::Failed);
        }
        let Some(script) = script_named(&self.files, name) else {
            self.failing.fail();
            tell(&mut self.calls, Opening::Source(named));
            return Err(HostError::Failed);
        };
        let Ok(source) = source_of(self.alloc, script) else {
            return Err(HostError::Memory);
        };
        if self.sources.lend().is_err() {
            return Err(HostError::Memory);
        }
        tell(&mut self.calls, Opening::Source(named));
        Ok(source)
    }

    fn open_keeper(&mut self, name: &str) -> Result<MemKeeper, HostError> {
        let Ok(named) = Name::of(self.alloc, name) else {
            return Err(HostError::Memory);
        };
        if self.calls.reserve(1).is_err() {
            return Err(HostError::Memory);
        }
        if self.failing.next_fails() {
            tell(&mut self.calls, Opening::Keeper(named));
            return Err(HostError::Failed);
        }
        if script_named(&self.files, name).is_some() {
            self.failing.fail();
            tell(&mut self.calls, Opening::Keeper(named));
            return Err(HostError::Failed);
        }
        if self.keepers.lend().is_err() {
            return Err(HostError::Memory);
        }
        tell(&mut self.calls, Opening::Keeper(named));
        let failing = mem::replace(&mut self.failing_appends, Vec::new(self.alloc));
        Ok(MemKeeper::new(self.alloc, failing))
    }

    fn done_source(&mut self, source: MemSource) {
        self.sources.take_back(source);
    }

    fn done_sink(&mut self, sink: MemSink) {
        self.sinks.take_back(sink);
    }

    fn done_keeper(&mut self, keeper: MemKeeper) {
        self.keepers.take_back(keeper);
    }
}
