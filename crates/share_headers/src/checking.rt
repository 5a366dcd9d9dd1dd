//! A submission with its header, which is computed before the history is asked.

ghost use Rattle.std.specs.Prelude.{◌≡◌};
ghost use Rattle.block_header.specs.Hash.{dsha};
ghost use Rattle.pool_history.specs.Headers.{rolled_length};
ghost use Rattle.share_headers.specs.Submitted.{submitted_header};

use crate::briefs::{is_brief_of, parts_of};
use crate::hashing::header_of;
use crate::parts::Parts;
use pool_history::{Brief, Checked, Submission};

/// Moves both into the answer, with the header that the submission stands for by the brief, and
/// that header's double hash. It takes no memory.
pub fn check(brief: Brief, sub: Submission) -> Checked
    requires { sub.extranonce_len ≡ rolled_length brief.kind brief.lead }
    ensures brief { result.brief ≡ brief }
    ensures sub { result.sub ≡ sub }
    ensures header { result.header ≡ submitted_header brief sub }
    ensures hash { result.hash ≡ dsha result.header }
{
    let (header, hash) = header_of(&parts_of(&brief), &sub);
    Checked {
        brief,
        sub,
        header,
        hash,
    }
}

/// What `header_of` gives for the submission by these parts. Nothing is hashed where the brief that
/// it was checked by has them. It takes no memory.
pub fn header_by_parts(checked: &Checked, parts: &Parts<'_>) -> ([u8; 80], [u8; 32])
    requires { checked.now.sub.extranonce_len ≡ rolled_length parts.now.kind parts.now.lead }
    ensures header { result.0 ≡ submitted_header parts.now checked.now.sub }
    ensures hash { result.1 ≡ dsha result.0 }
{
    if is_brief_of(&checked.brief, parts) {
        (checked.header, checked.hash)
    } else {
        header_of(parts, &checked.sub)
    }
}
