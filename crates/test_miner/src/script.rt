//! A script: what a feed gives its caller.

ghost use Rattle.std.specs.Prelude.{◌≡◌, ◌==◌, ◌↔◌, [], ◌∷◌, ◌++◌, None, true, IfOk, IsTrue, OnOk, find, reverse};
ghost use Rattle.std.specs.Option.{option_copied};
ghost use Rattle.block_header.specs.Hash.{dsha};
ghost use Rattle.block_header.specs.Target.{is_at_most};
ghost use Rattle.coinbase.specs.Reading.{tx_of};
ghost use Rattle.template_msgs.specs.Seen.{template_message};
ghost use Rattle.test_miner.specs.Scripts.{ReadsScript, entry_of, entry_spelled, is_entry, with_entry};
ghost use Rattle.test_miner.specs.ScriptReading.{ReadsFrame};
ghost use Rattle.test_miner.specs.Solutions.{is_solved, is_valid, solution_value, solved_header, template_with};

use crate::notice::CHANNEL_BIT;
use block_header::{Header, dsha, meets_target, root_of};
use coinbase::{Tx, TxError};
use std::alloc::{AllocError, Global};
use std::marker::Model;
use sv2_frames::{Frame, RunEnd, Splitter, TakeFrames};
use sv2_types::{Blob, Hashes};
use template_msgs::{NewTemplate, SetNewPrevHash, SubmitSolution, Template, read};
use thiserror::Error;

/// The greatest length that a frame's header can say.
const MOST_LEN: usize = 0xff_ffff;

/// Why bytes are no script.
#[derive(Clone, Copy, Debug, Error)]
pub enum ScriptError {
    /// The frame of this number, from 0, is no whole frame of a template or a tip.
    #[error("frame {0} of the script is no template and no tip")]
    Bad(u64),
    #[error("out of memory")]
    Memory,
}

impl From<AllocError> for ScriptError {
    ghost use Rattle.std.specs.Prelude.{◌≡◌};
    ghost use Rattle.test_miner.specs.declared.script.ScriptError.TheVariants.{Memory};

    ghost from_gives = { λ _ e. e ≡ Memory };

    fn from(_: AllocError) -> ScriptError {
        ScriptError::Memory
    }
}

/// What a solution needs of a template.
#[derive(Drop)]
pub struct ScriptTemplate {
    pub id: u64,
    /// The hashes beside the coinbase's on the way to the root.
    pub path: Hashes,
}

/// A script: its bytes, its templates in their order, and its last tip.
#[derive(Drop)]
pub struct Script {
    alloc: Global,
    bytes: Blob,
    templates: Vec<ScriptTemplate>,
    tip: Option<SetNewPrevHash>,
}

impl Model for Script {
    ghost use Rattle.test_miner.specs.ScriptValues.{ScriptValue};

    ghost Value = { ScriptValue };

    ghost view = { λ s. record { bytes = s.bytes; templates = s.templates.items; tip = s.tip } };
}

impl Script {
    /// Reads a script: frames of templates and tips, and nothing else.
    pub fn read(alloc: Global, bytes: &[u8]) -> Result<Script, ScriptError>
        ensures { ReadsScript bytes.now result }
    {
        let copy = Blob::of(alloc, bytes)?;
        let limit = bytes.len().min(MOST_LEN) as u32;
        let mut splitter = Splitter::new(alloc, limit)?;
        let mut reader = ScriptReader {
            script: Script::new(alloc, copy),
            count: 0,
            lacks_memory: false,
        };
        let end = splitter.run(&[bytes], &mut reader);
        if reader.lacks_memory {
            return Err(ScriptError::Memory);
        }
        match end {
            RunEnd::Done => {
                if splitter.held() == 0 {
                    Ok(reader.script)
                } else {
                    Err(ScriptError::Bad(reader.count))
                }
            }
            RunEnd::Stopped => Err(ScriptError::Bad(reader.count)),
            RunEnd::TooLong(_) => Err(ScriptError::Bad(reader.count)),
        }
    }

    fn new(alloc: Global, bytes: Blob) -> Script
        ensures { result ≡ record { bytes = bytes; templates = []; tip = None } }
    {
        Script {
            alloc,
            bytes,
            templates: Vec::new(alloc),
            tip: None,
        }
    }

    /// Its bytes, as they were read.
    pub fn bytes(&self) -> &[u8]
        ensures { result.now ≡ self.now.bytes }
    {
        self.bytes.bytes()
    }

    /// Takes what a payload brings, and says whether it brings anything.
    fn take_payload(&mut self, kind: u8, payload: &[u8]) -> Result<bool, AllocError>
        ensures brings { IfOk result
            (λ brings. brings ≡ is_entry (entry_spelled kind payload.now)) }
        ensures script { OnOk result
            (self.new ≡ with_entry (entry_spelled kind payload.now) self.old) }
    {
        let read = read(kind, payload);
        match &read {
            Ok(message) => self.take_message(message),
            Err(_) => Ok(false),
        }
    }

    fn take_message(&mut self, message: &Template<'_>) -> Result<bool, AllocError>
        ensures brings { let seen = template_message message.now in IfOk result
            (λ brings. brings ≡ is_entry (entry_of seen.kind seen.fields)) }
        ensures script { let seen = template_message message.now in OnOk result
            (self.new ≡ with_entry (entry_of seen.kind seen.fields) self.old) }
    {
        match message {
            Template::NewTemplate(template) => self.add(template),
            Template::SetNewPrevHash(tip) => {
                self.tip = Some(*tip);
                Ok(true)
            }
            Template::CoinbaseOutputConstraints(_)
            | Template::RequestTransactionData(_)
            | Template::RequestTransactionDataSuccess(_)
            | Template::RequestTransactionDataError(_)
            | Template::SubmitSolution(_) => Ok(false),
        }
    }

    fn add(&mut self, template: &NewTemplate<'_>) -> Result<bool, AllocError>
        ensures brings { IfOk result (λ brings. brings ≡ true) }
        ensures script { OnOk result (self.new ≡ record self.old {
          templates
              = self.old.templates ++ record {
                id = template.now.template_id;
                path = template.now.merkle_path.items.now;
              } ∷ [];
        }) }
    {
        let path = Hashes::of(self.alloc, template.merkle_path.items())?;
        let id = template.template_id;
        self.templates.push(ScriptTemplate { id, path })?;
        Ok(true)
    }

    /// The path of the last template with this id.
    fn path_of(&self, id: u64) -> Option<&ScriptTemplate>
        ensures { option_copied result ≡ template_with id self.now.templates }
    {
        last_with(&self.templates, id)
    }

    /// Whether a solution is valid by this script.
    pub fn accepts(&self, solution: &SubmitSolution<'_>) -> Result<bool, AllocError>
        ensures { IfOk result
            (λ valid. valid ≡ is_valid self.now (solution_value solution.now)) }
    {
        let Some(template) = self.path_of(solution.template_id) else {
            return Ok(false);
        };
        let Some(tip) = self.tip else {
            return Ok(false);
        };
        is_solved(self.alloc, template.path.items(), &tip, solution)
    }
}

/// The last template with this id.
fn last_with(templates: &[ScriptTemplate], id: u64) -> Option<&ScriptTemplate>
    ensures { option_copied result
        ≡ find (λ template. template.id == id) (reverse templates.now) }
{
    templates.iter().rev().find(|template| template.id == id)
}

/// Whether a solution is valid with this path and this tip.
fn is_solved(
    alloc: Global,
    path: &[[u8; 32]],
    tip: &SetNewPrevHash,
    solution: &SubmitSolution<'_>,
) -> Result<bool, AllocError>
    ensures { IfOk result (λ valid. valid ≡ is_solved path.now tip.now
        (tx_of solution.now.coinbase_tx.now) (solution_value solution.now)) }
{
    match Tx::read(alloc, solution.coinbase_tx) {
        Ok(tx) => {
            let id = tx.txid()?;
            Ok(is_block(&id, path, tip, solution))
        }
        Err(TxError::Memory) => Err(AllocError),
        Err(TxError::Short(_)) => Ok(false),
        Err(TxError::LongSize(_)) => Ok(false),
        Err(TxError::BadMarker) => Ok(false),
        Err(TxError::EmptyWitness) => Ok(false),
        Err(TxError::Trailing(_)) => Ok(false),
    }
}

/// Whether the header of a solution, whose coinbase has this id, is at most the tip's target.
fn is_block(
    id: &[u8; 32],
    path: &[[u8; 32]],
    tip: &SetNewPrevHash,
    solution: &SubmitSolution<'_>,
) -> bool
    ensures { IsTrue result ↔ IsTrue (is_at_most (dsha (solved_header path.now tip.now id.now
        (solution_value solution.now))) tip.now.target) }
{
    let header = Header {
        version: solution.version,
        prev_hash: *tip.prev_hash.bytes(),
        root: root_of(id, path),
        ntime: solution.header_timestamp,
        nbits: tip.nbits,
        nonce: solution.header_nonce,
    };
    meets_target(&dsha(&header.bytes()), &tip.target)
}

/// Takes the frames of a script, up to the first that brings nothing.
#[derive(Drop)]
struct ScriptReader {
    script: Script,
    count: u64,
    lacks_memory: bool,
}

impl ScriptReader {
    fn read(&mut self, frame: Frame<'_>) -> Result<bool, AllocError>
        ensures lacks { self.new.lacks_memory ≡ self.old.lacks_memory }
        ensures brings { IfOk result (λ brings. ReadsFrame self.old (record {
          ext = frame.entry.ext;
          kind = frame.entry.kind;
          payload = frame.entry.payload.now;
        }) brings self.new) }
    {
        if frame.ext % CHANNEL_BIT != 0 {
            return Ok(false);
        }
        let brings = self.script.take_payload(frame.kind, frame.payload)?;
        if brings {
            self.count = self.count.saturating_add(1);
        }
        Ok(brings)
    }
}

impl TakeFrames for ScriptReader {
    ghost use Rattle.test_miner.specs.ScriptReading.{TakesScriptFrame};

    ghost takes = { TakesScriptFrame };

    fn take_frame(&mut self, frame: Frame<'_>) -> bool {
        match self.read(frame) {
            Ok(brings) => brings,
            Err(AllocError) => {
                self.lacks_memory = true;
                false
            }
        }
    }
}
