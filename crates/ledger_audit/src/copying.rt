//! A ledger that is audited while its bytes are kept.

ghost use Rattle.std.specs.Prelude.{◌≡◌, List, [], Some, false};
ghost use Rattle.pool_io.specs.declared.turn.Turn.{Turn as Coming};
ghost use Rattle.pool_io.specs.Outside.{CountsFailure};
ghost use Rattle.pool_io.specs.Steps.{steps_of};
ghost use Rattle.stream_commands.specs.Ending.{DecideEnd, EndsCommand, is_read_fault, is_write_fault};
ghost use Rattle.ledger_audit.specs.Copying.{copying_duty};

use crate::Auditor;
use pool_io::{Source, SureSink};
use std::alloc::{AllocError, Global};
use stream_commands::{End, Stop, StreamCommand, drive};

/// An auditor that keeps what it reads.
#[derive(Drop)]
pub struct Copier {
    pub auditor: Auditor,
    pub bytes: Vec<u8>,
}

impl StreamCommand for Copier {
    ghost use Rattle.std.specs.Prelude.{◌≡◌};
    ghost use Rattle.ledger_audit.specs.Auditing.{HasAudited, IsBetweenRecords};
    ghost use Rattle.ledger_audit.specs.Copying.{HasCopied, copying_duty};
    ghost use Rattle.ledger_audit.specs.SoundCommand.{copying_duty_is_sound, copying_owes_so_far};

    type Task = ();

    ghost can_run = { λ _. Unit {0} };

    ghost duty = { λ _. copying_duty };

    ghost asked = { λ _. tt };

    ghost is_ready = { λ copier. IsBetweenRecords copier.auditor };

    ghost has_read = { λ copier bytes text. HasCopied copier bytes text };

    fn start(alloc: Global, task: &()) -> Result<Copier, AllocError> {
        Ok(Copier {
            auditor: Auditor::start(alloc, task)?,
            bytes: Vec::new(alloc),
        })
    }

    fn read(&mut self, piece: &[u8], text: &mut Vec<u8>) -> Result<(), Stop> {
        self.auditor.read(piece, text)?;
        self.bytes.extend_from_slice(piece)?;
        Ok(())
    }

    fn end(&mut self, text: &mut Vec<u8>) -> Result<(), Stop> {
        let start = text.len();
        self.auditor.end(text)?;
        text.truncate(start);
        text.extend_from_slice(&self.bytes)?;
        Ok(())
    }

    ghost owes_so_far = { copying_owes_so_far };

    ghost is_sound = { λ _. copying_duty_is_sound };
}

/// How the reading of a ledger ended.
#[derive(Drop)]
pub struct Copied {
    pub end: End,
    /// With `Done`, the bytes of the ledger; with `Refused`, the line of an audit; else nothing.
    pub bytes: Vec<u8>,
}

/// Reads a ledger to its end or to its first defect.
pub fn copy_ledger<S: Source>(alloc: Global, source: &mut S) -> Copied
    ensures ran { EndsCommand copying_duty (S.seen source.old).left (S.seen source.new).left
        (Some []) (Some result.bytes.items) result.end }
    ensures decided { (told : List Coming) → (S.seen source.old).left ≡ Some told
        → DecideEnd copying_duty (steps_of told) result.end }
    ensures reads { CountsFailure (is_read_fault (Some result.end)) (S.seen source.old).faults
        (S.seen source.new).faults }

    // Nothing is put to the outside here, so no put fails.
    ensures unfailed { is_write_fault (Some result.end) ≡ false }
{
    let mut sink = SureSink::of(Vec::new(alloc));
    let end = drive::<Copier, S, SureSink>(alloc, &(), source, &mut sink);
    Copied {
        end,
        bytes: sink.into_bytes(),
    }
}
