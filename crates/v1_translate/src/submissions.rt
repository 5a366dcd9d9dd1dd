//! Submissions that are sent on, and why others aren't.

ghost use Rattle.std.specs.Prelude.{◌≡◌, ◌++◌, IfOk, option_map};
ghost use Rattle.v1_translate.specs.Submitting as submitting;
ghost use Rattle.v1_translate.specs.Saying.{line_of};
ghost use Rattle.v1_translate.specs.Shares.{why_by};

use crate::ids::LineId;
use crate::sayings::{say_code, say_refusal};
use crate::{SentShare, share_message};
use pool_history::account_in;
use std::alloc::{AllocError, Global};
use std::marker::Model;
use sv2_types::Str255;
use v1_lines::V1Error;

/// A submission that may be sent on, with at most 32 bytes of extranonce.
#[derive(Drop)]
pub struct CheckedShare {
    pub(crate) channel: u32,
    pub(crate) sequence: u32,
    pub(crate) job: u32,
    pub(crate) nonce: u32,
    pub(crate) ntime: u32,
    pub(crate) version: u32,
    /// At most 32 bytes.
    pub(crate) extranonce: Vec<u8>,
}

impl Model for CheckedShare {
    ghost use Rattle.std.specs.Prelude.{◌≤◌, length};
    ghost use Rattle.v1_translate.specs.State as state;

    ghost Value = { state.SentShare };

    ghost view = { λ share. record {
      channel = share.channel;
      sequence = share.sequence;
      job = share.job;
      nonce = share.nonce;
      ntime = share.ntime;
      version = share.version;
      extranonce = share.extranonce.items;
    } };

    ghost invariant = { λ share. length share.extranonce.items ≤ 32 };
}

impl CheckedShare {
    ghost use Rattle.std.specs.Prelude.{◌≡◌, ◌++◌, ◌≤◌, IfOk, length};
    ghost use Rattle.v1_translate.specs.Asked as asked;
    ghost use Rattle.v1_translate.specs.Submitting.{share_of};
    ghost use Rattle.v1_translate.specs.Saying.{frame_of_message};
    ghost use Rattle.v1_translate.specs.Small.{IsSmall};

    /// The number that its answer names.
    pub fn sequence(&self) -> u32
        ensures { result ≡ self.now.sequence }
    {
        self.sequence
    }

    /// What was rolled: at most 32 bytes.
    pub fn extranonce(&self) -> &[u8]
        ensures same { result.now ≡ self.now.extranonce }
        ensures short { length result.now ≤ 32 }
    {
        self.extranonce.as_slice()
    }

    /// The same work on another channel, under another number and with another extranonce.
    pub fn passed_on(&self, channel: u32, sequence: u32, extranonce: Vec<u8>) -> CheckedShare
        requires short { length extranonce.items ≤ 32 }
        ensures { result ≡ record self.now {
          channel = channel;
          sequence = sequence;
          extranonce = extranonce.items;
        } }
    {
        CheckedShare {
            channel,
            sequence,
            job: self.job,
            nonce: self.nonce,
            ntime: self.ntime,
            version: self.version,
            extranonce,
        }
    }

    /// Appends its frame.
    #[tactic(auto, using(crate::proofs::Fitting::share_fits), unfolding(crate::specs::Saying::frame_of_message))]
    pub fn put(&self, out: &mut Vec<u8>) -> Result<(), AllocError>
        ensures { IfOk result (λ done. out.new.items
            ≡ out.old.items ++ frame_of_message (asked.share_message self.now)) }
    {
        let sent = self.as_sent();
        // In a tuple, since no proof covers a local of an enum whose structs borrow.
        let message = (share_message(&sent),);
        message.0.frame(out)
    }

    /// The share itself, which takes no memory.
    pub fn as_sent(&self) -> SentShare<'_>
        ensures same { share_of result ≡ self.now }
        ensures small { IsSmall self.now }
    {
        let CheckedShare {
            channel,
            sequence,
            job,
            nonce,
            ntime,
            version,
            extranonce,
        } = self;
        SentShare {
            channel: *channel,
            sequence: *sequence,
            job: *job,
            nonce: *nonce,
            ntime: *ntime,
            version: *version,
            extranonce: extranonce.as_slice(),
        }
    }
}

/// Why a submission isn't sent on: an error of Stratum V1, or a code of Stratum V2.
#[derive(Drop)]
pub(crate) enum NotSent {
    ByError(V1Error),
    ByCode(&'static str),
}

/// Appends the error that a submission is refused by.
pub(crate) fn say_not_sent(
    alloc: Global,
    id: LineId,
    why: NotSent,
    out: &mut Vec<u8>,
) -> Result<(), AllocError>
    ensures { IfOk result (λ done. out.new.items
        ≡ out.old.items ++ line_of (submitting.not_sent id (why_by why))) }
{
    match why {
        NotSent::ByError(error) => say_refusal(alloc, id, error, out),
        NotSent::ByCode(code) => say_code(alloc, id, code, out),
    }
}

/// Whether a channel has an account, and it is the worker's.
pub(crate) fn works_for(account: Option<&Str255>, worker: &str) -> bool
    ensures { result ≡ submitting.works_for (option_map (λ account. account.now) account.entry)
        worker.now }
{
    match account {
        Some(account) => account_in(worker) == account.text(),
        None => false,
    }
}
