//! What a program gets from the system that runs it.

ghost use Rattle.std.specs.Prelude.{◌≡◌, ◌<◌, [], None, OnOk, OnErr, IfOk, IfSome};
ghost use Rattle.pool_io.specs.declared.opening.Opening.TheVariants as opening;
ghost use Rattle.pool_io.specs.Hosts.{HostSeen};
ghost use Rattle.pool_io.specs.Lending.{lent_one, with_back, nothing_left};
ghost use Rattle.pool_io.specs.Openings.{openings_after, openings_after_keeper, with_keeper_back};
ghost use Rattle.pool_io.specs.Outside.{CountsFailure, is_failed_gift};

use crate::{Keeper, Sink, Source};
use thiserror::Error;

/// Why a host gave nothing.
#[derive(Clone, Copy, Debug, PartialEq, Eq, Error)]
pub enum HostError {
    #[error("the host failed")]
    Failed,
    #[error("no memory for what the host gives")]
    Memory,
}

/// Gives out sources, sinks and keepers, and takes them back. What it gave isn't `Drop`, so it can't
/// be lost.
pub trait Host {
    type S: Source;

    type T: Sink;

    type K: Keeper;

    /// How often the host has failed (a counter stays at 2^64 - 1 once it is there), what it gives,
    /// what is out, and what has come back.
    ghost seen: { Self → HostSeen };

    /// Standard input.
    fn input(&mut self) -> Result<Self::S, HostError>
        ensures told { IfOk result (λ source.
            Self.S.seen source ≡ record { faults = 0; left = (seen self.old).streams.input }) }
        ensures given { OnOk result ((seen self.new).streams ≡ record (seen self.old).streams {
          input = nothing_left (seen self.old).streams.input;
          sources = lent_one (seen self.old).streams.sources;
        }) }
        ensures refused { OnErr result ((seen self.new).streams
            ≡ record (seen self.old).streams { faults = (seen self.new).streams.faults }) }
        ensures counts { CountsFailure (is_failed_gift result) (seen self.old).streams.faults
            (seen self.new).streams.faults }
        ensures called { (seen self.new).openings
            ≡ openings_after opening.Input result (seen self.old).openings };

    /// Standard output.
    fn output(&mut self) -> Result<Self::T, HostError>
        ensures told { IfOk result (λ sink.
            Self.T.seen sink ≡ record { faults = 0; held = (seen self.old).streams.output }) }
        ensures given { OnOk result ((seen self.new).streams ≡ record (seen self.old).streams {
          output = nothing_left (seen self.old).streams.output;
          sinks = lent_one (seen self.old).streams.sinks;
        }) }
        ensures refused { OnErr result ((seen self.new).streams
            ≡ record (seen self.old).streams { faults = (seen self.new).streams.faults }) }
        ensures counts { CountsFailure (is_failed_gift result) (seen self.old).streams.faults
            (seen self.new).streams.faults }
        ensures called { (seen self.new).openings
            ≡ openings_after opening.Output result (seen self.old).openings };

    /// The bytes of the file of this name.
    fn open_source(&mut self, name: &str) -> Result<Self::S, HostError>
        ensures told { IfOk result (λ source. Self.S.seen source
            ≡ record { faults = 0; left = (seen self.old).openings.brings name.now }) }
        ensures given { OnOk result ((seen self.new).streams ≡ record (seen self.old).streams {
          sources = lent_one (seen self.old).streams.sources;
        }) }
        ensures refused { OnErr result ((seen self.new).streams
            ≡ record (seen self.old).streams { faults = (seen self.new).streams.faults }) }
        ensures counts { CountsFailure (is_failed_gift result) (seen self.old).streams.faults
            (seen self.new).streams.faults }
        ensures called { (seen self.new).openings
            ≡ openings_after (opening.Source name.now) result (seen self.old).openings };

    /// A keeper over a new file of this name, which keeps no record yet and doesn't tell what is
    /// there for good. It fails where the name exists.
    fn open_keeper(&mut self, name: &str) -> Result<Self::K, HostError>
        ensures fresh { IfOk result (λ keeper. (Self.K.seen keeper).faults ≡ 0) }
        ensures empty { IfOk result (λ keeper. IfSome (Self.K.seen keeper).records
            (λ records. records ≡ [])) }
        ensures untold { IfOk result (λ keeper. (Self.K.seen keeper).stored ≡ None) }
        ensures new { OnOk result ((seen self.old).openings.brings name.now ≡ None) }
        ensures stays { (seen self.new).streams
            ≡ record (seen self.old).streams { faults = (seen self.new).streams.faults } }
        ensures counts { CountsFailure (is_failed_gift result) (seen self.old).streams.faults
            (seen self.new).streams.faults }
        ensures called { (seen self.new).openings
            ≡ openings_after_keeper (opening.Keeper name.now) result (seen self.old).openings };

    /// Takes a source back, without memory.
    fn done_source(&mut self, source: Self::S)
        requires { 0 < (seen self.old).streams.sources.lent }
        ensures back { (seen self.new).streams ≡ record (seen self.old).streams {
          sources = with_back (seen self.old).streams.sources (Self.S.seen source);
        } }
        ensures openings { (seen self.new).openings ≡ (seen self.old).openings };

    /// Takes a sink back, without memory.
    fn done_sink(&mut self, sink: Self::T)
        requires { 0 < (seen self.old).streams.sinks.lent }
        ensures back { (seen self.new).streams ≡ record (seen self.old).streams {
          sinks = with_back (seen self.old).streams.sinks (Self.T.seen sink);
        } }
        ensures openings { (seen self.new).openings ≡ (seen self.old).openings };

    /// Takes a keeper back, without memory.
    fn done_keeper(&mut self, keeper: Self::K)
        requires { 0 < (seen self.old).openings.keepers.lent }
        ensures back { (seen self.new).openings
            ≡ with_keeper_back (seen self.old).openings (Self.K.seen keeper) }
        ensures streams { (seen self.new).streams ≡ (seen self.old).streams };
}
