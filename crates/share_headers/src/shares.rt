//! The shares of one job.

ghost use Rattle.std.specs.Prelude.{◌≡◌, ◌↔◌, ◌+◌, ◌%◌, ◌≤◌, IsTrue, IfNone, IfOk, IfSome, length, map};
ghost use Rattle.block_header.specs.Hash.{dsha};
ghost use Rattle.pool_history.specs.Headers.{rolled_length};
ghost use Rattle.share_headers.specs.Submitted.{submitted_header};
ghost use Rattle.share_headers.specs.Foreseeing.{HasRolledLength, HaveRolledLength, HaveHeaders, share_extranonce, share_header, share_root};

use crate::four::{Candidate, Four};
use crate::roots::roots_of;
use crate::{Parts, brief_of, header_of, is_brief_of, parts_of, rolled_length, whole_extranonce};
use block_header::Header;
use pool_history::{Brief, Checked, Kind, Submission};
use sha256_lanes::{CommonText, double_80};
use std::alloc::{AllocError, Global};
use std::marker::Model;

/// Shares of one job whose headers were worked out before they are asked for. Contracts see a brief
/// of that job.
#[derive(Drop)]
pub struct ForeseenShares {
    brief: Brief,
    // The coinbase but for its extranonce.
    coinbase: CommonText,
    four: Option<Four>,
}

impl Model for ForeseenShares {
    ghost use Rattle.std.specs.Prelude.{IfSome};
    ghost use Rattle.pool_history.specs.Headers.{Briefing};
    ghost use Rattle.sha256_lanes.specs.CommonTexts.{IsAround};
    ghost use Rattle.share_headers.specs.Foreseeing.{HaveHeaders};

    ghost Value = { Briefing };

    ghost view = { λ foreseen. foreseen.brief };

    ghost invariant = { λ foreseen. IsAround foreseen.brief.prefix foreseen.brief.suffix foreseen.coinbase
        × IfSome foreseen.four
        (λ four. HaveHeaders foreseen.brief four.candidates four.headers four.hashes) };
}

impl ForeseenShares {
    /// None is foreseen yet. There is no table where there is no `CommonText` of such coinbases.
    pub fn by(alloc: Global, parts: &Parts<'_>) -> Result<Option<ForeseenShares>, AllocError>
        ensures some { IfOk result (λ made. IfSome made (λ foreseen. foreseen ≡ parts.now)) }
        ensures none { IfOk result (λ made. IfNone made
            (length parts.now.prefix % 64 + length parts.now.suffix + 21 ≤ 64)) }
    {
        let root = &**parts.root;
        let coinbase = CommonText::of(alloc, root.coinbase.prefix(), root.coinbase.suffix())?;
        match coinbase {
            Some(coinbase) => Ok(Some(ForeseenShares {
                brief: brief_of(parts)?,
                coinbase,
                four: None,
            })),
            None => Ok(None),
        }
    }

    /// Whether they are shares of this job. What a channel gives isn't looked at.
    pub fn is_by(&self, parts: &Parts<'_>) -> bool
        ensures { IsTrue result
            ↔ (record self.now { lead = parts.now.lead; kind = parts.now.kind } ≡ parts.now) }
    {
        is_brief_of(&self.brief, &self.on_own_channel(parts))
    }

    /// The parts, but for the channel of the brief that is kept.
    fn on_own_channel<'a>(&self, parts: &Parts<'a>) -> Parts<'a>
        ensures { result
            ≡ record parts.now { lead = self.now.lead; kind = self.now.kind } }
    {
        Parts {
            root: parts.root,
            prev_hash: parts.prev_hash,
            nbits: parts.nbits,
            lead: self.brief.lead,
            kind: self.brief.kind,
        }
    }

    /// Works out the headers of four shares, and forgets those before; of shares that can't be those
    /// of their channels, none.
    pub fn foresee(&mut self, candidates: &[Candidate; 4])
        ensures { self.new ≡ self.old }
    {
        self.four = if have_rolled_length(candidates) {
            Some(self.four_of(candidates))
        } else {
            None
        };
    }

    /// What `header_of` of `share_check` gives. Nothing is hashed where it was foreseen.
    pub fn header_of(&self, parts: &Parts<'_>, sub: &Submission) -> ([u8; 80], [u8; 32])
        requires { sub.now.extranonce_len ≡ rolled_length parts.now.kind parts.now.lead }
        ensures header { result.0 ≡ submitted_header parts.now sub.now }
        ensures hash { result.1 ≡ dsha result.0 }
    {
        match self.find(parts, sub) {
            Some(found) => found,
            None => header_of(parts, sub),
        }
    }

    /// What `check` of `share_check` gives. Nothing is hashed where it was foreseen.
    pub fn check(&self, brief: Brief, sub: Submission) -> Checked
        requires { sub.extranonce_len ≡ rolled_length brief.kind brief.lead }
        ensures brief { result.brief ≡ brief }
        ensures sub { result.sub ≡ sub }
        ensures header { result.header ≡ submitted_header brief sub }
        ensures hash { result.hash ≡ dsha result.header }
    {
        let (header, hash) = self.header_of(&parts_of(&brief), &sub);
        Checked {
            brief,
            sub,
            header,
            hash,
        }
    }

    fn find(&self, parts: &Parts<'_>, sub: &Submission) -> Option<([u8; 80], [u8; 32])>
        ensures { IfSome result (λ found. (found.0 ≡ submitted_header parts.now sub.now)
            × (found.1 ≡ dsha found.0)) }
    {
        match &self.four {
            Some(four) if self.is_by(parts) => four.find(&candidate_of(parts, sub)),
            _ => None,
        }
    }

    fn four_of(&self, candidates: &[Candidate; 4]) -> Four
        requires { HaveRolledLength candidates.now }
        ensures { HaveHeaders self.now result.candidates result.headers result.hashes }
    {
        let headers = headers_of(&self.brief, candidates, &self.roots_of(candidates));
        Four {
            candidates: [candidates[0], candidates[1], candidates[2], candidates[3]],
            headers,
            hashes: double_80(&headers),
        }
    }

    fn roots_of(&self, candidates: &[Candidate; 4]) -> [[u8; 32]; 4]
        requires { HaveRolledLength candidates.now }
        ensures { result ≡ map (share_root self.now) candidates.now }
    {
        let ids = self.coinbase.double(&extranonces_of(candidates));
        roots_of(&ids, path_of(&self.brief))
    }
}

fn path_of(brief: &Brief) -> &[[u8; 32]]
    ensures { result.now ≡ brief.now.path }
{
    brief.root.path.items()
}

/// A share by what its channel gives.
fn candidate_of(parts: &Parts<'_>, sub: &Submission) -> Candidate
    ensures { result ≡ record { sub = sub.now; lead = parts.now.lead; kind = parts.now.kind } }
{
    Candidate {
        sub: *sub,
        lead: parts.lead,
        kind: parts.kind,
    }
}

fn have_rolled_length(candidates: &[Candidate; 4]) -> bool
    ensures { IsTrue result → HaveRolledLength candidates.now }
{
    candidates.iter().all(has_rolled_length)
}

fn has_rolled_length(candidate: &Candidate) -> bool
    ensures { IsTrue result → HasRolledLength candidate.now }
{
    candidate.sub.extranonce_len == rolled_length(candidate.kind, &candidate.lead)
        && (candidate.kind != Kind::Standard || candidate.lead.len() == 4)
}

fn extranonces_of(candidates: &[Candidate; 4]) -> [[u8; 12]; 4]
    requires { HaveRolledLength candidates.now }
    ensures { result ≡ map share_extranonce candidates.now }
{
    [
        extranonce_of(&candidates[0]),
        extranonce_of(&candidates[1]),
        extranonce_of(&candidates[2]),
        extranonce_of(&candidates[3]),
    ]
}

fn extranonce_of(candidate: &Candidate) -> [u8; 12]
    requires { HasRolledLength candidate.now }
    ensures { result ≡ share_extranonce candidate.now }
{
    let sent = &candidate.sub.extranonce[..usize::from(candidate.sub.extranonce_len)];
    whole_extranonce(candidate.kind, &candidate.lead, sent)
}

fn headers_of(brief: &Brief, candidates: &[Candidate; 4], roots: &[[u8; 32]; 4]) -> [[u8; 80]; 4]
    requires { roots.now ≡ map (share_root brief.now) candidates.now }
    ensures { result ≡ map (share_header brief.now) candidates.now }
{
    [
        header_with(brief, &candidates[0], &roots[0]),
        header_with(brief, &candidates[1], &roots[1]),
        header_with(brief, &candidates[2], &roots[2]),
        header_with(brief, &candidates[3], &roots[3]),
    ]
}

fn header_with(brief: &Brief, candidate: &Candidate, root: &[u8; 32]) -> [u8; 80]
    ensures { root.now ≡ share_root brief.now candidate.now
        → result ≡ share_header brief.now candidate.now }
{
    Header {
        version: candidate.sub.version,
        prev_hash: brief.prev_hash,
        root: *root,
        ntime: candidate.sub.ntime,
        nbits: brief.nbits,
        nonce: candidate.sub.nonce,
    }
    .bytes()
}
