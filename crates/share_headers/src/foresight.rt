//! Shares that stand behind one another, and what was worked out of them.

ghost use Rattle.std.specs.Prelude.{◌≡◌, ◌++◌, ◌∷◌, [], IsFalse, IsTrue, take};
ghost use Rattle.block_header.specs.Hash.{dsha};
ghost use Rattle.pool_history.specs.Headers.{rolled_length};
ghost use Rattle.share_headers.specs.Submitted.{submitted_header};
ghost use Rattle.share_headers.specs.Ahead.{goes_on};

use crate::four::Candidate;
use crate::shares::ForeseenShares;
use crate::{Parts, check, header_of};
use pool_history::{Brief, Checked, Submission};
use std::alloc::{AllocError, Global};
use std::marker::Model;

/// Up to four shares of one job that stand behind one another. Contracts see them as a list.
#[derive(Drop)]
pub struct SharesAhead {
    // The places behind the last are filled with the first.
    candidates: [Candidate; 4],
    // How many there are beside the first.
    others: usize,
}

impl Model for SharesAhead {
    ghost use Rattle.std.specs.Prelude.{◌+◌, ◌≤◌, List, take};
    ghost use Rattle.share_headers.specs.declared.four.Candidate.{Candidate};

    ghost Value = { List Candidate };

    ghost view = { λ ahead. take (ahead.others + 1) ahead.candidates };

    ghost invariant = { λ ahead. ahead.others ≤ 3 };
}

impl SharesAhead {
    pub fn of(first: Candidate) -> SharesAhead
        ensures { result ≡ first ∷ [] }
    {
        SharesAhead {
            candidates: [first; 4],
            others: 0,
        }
    }

    /// One share more, which is taken where there is room and it is of the same job.
    pub fn push(&mut self, candidate: Candidate) -> bool
        ensures taken { result ≡ goes_on self.old candidate }
        ensures one { IsTrue result → self.new ≡ self.old ++ candidate ∷ [] }
        ensures same { IsFalse result → self.new ≡ self.old }
    {
        let is_taken = self.others < 3 && candidate.sub.job == self.candidates[0].sub.job;
        if is_taken {
            self.others += 1;
            self.candidates[self.others] = candidate;
        }
        is_taken
    }

    /// The first of them, of which there is one at least.
    pub fn first(&self) -> Candidate
        ensures { take 1 self.now ≡ result ∷ [] }
    {
        self.candidates[0]
    }

    /// All of them, in their order.
    pub fn shares(&self) -> &[Candidate]
        ensures { result.now ≡ self.now }
    {
        &self.candidates[..self.others + 1]
    }
}

/// What is known of the shares that come next. Contracts see nothing of it, since nothing that is
/// promised rests on it.
#[derive(Drop)]
pub struct Foresight {
    shares: Option<ForeseenShares>,
    // How many are still to come of those that were foreseen.
    still_to_come: usize,
}

impl Model for Foresight {
    ghost Value = { Unit {0} };

    ghost view = { λ _. tt };
}

impl Foresight {
    /// Nothing is foreseen.
    pub fn none() -> Foresight {
        Foresight {
            shares: None,
            still_to_come: 0,
        }
    }

    /// Whether what comes next was foreseen as a share. It is to be asked once before all that comes
    /// whole, and counts that.
    pub fn count_down(&mut self) -> bool {
        if self.still_to_come == 0 {
            return false;
        }
        self.still_to_come -= 1;
        true
    }

    /// Works out the headers of the shares that come next, where there are two or more, by what
    /// their job gives, and a channel of which nothing is taken. Without memory none is foreseen.
    pub fn foresee(
        &mut self,
        alloc: Global,
        parts: &Parts<'_>,
        ahead: &SharesAhead,
    ) -> Result<(), AllocError> {
        if ahead.others == 0 {
            return Ok(());
        }
        self.turn_to(alloc, parts)?;
        if let Some(shares) = &mut self.shares {
            shares.foresee(&ahead.candidates);
        }
        self.still_to_come = ahead.others;
        Ok(())
    }

    /// What `check` of `share_check` gives. Nothing is hashed where it was foreseen.
    pub fn check(&self, brief: Brief, sub: Submission) -> Checked
        requires { sub.extranonce_len ≡ rolled_length brief.kind brief.lead }
        ensures brief { result.brief ≡ brief }
        ensures sub { result.sub ≡ sub }
        ensures header { result.header ≡ submitted_header brief sub }
        ensures hash { result.hash ≡ dsha result.header }
    {
        match &self.shares {
            Some(shares) => shares.check(brief, sub),
            None => check(brief, sub),
        }
    }

    /// What `header_of` of `share_check` gives. Nothing is hashed where it was foreseen.
    pub fn header_of(&self, parts: &Parts<'_>, sub: &Submission) -> ([u8; 80], [u8; 32])
        requires { sub.now.extranonce_len ≡ rolled_length parts.now.kind parts.now.lead }
        ensures header { result.0 ≡ submitted_header parts.now sub.now }
        ensures hash { result.1 ≡ dsha result.0 }
    {
        match &self.shares {
            Some(shares) => shares.header_of(parts, sub),
            None => header_of(parts, sub),
        }
    }

    /// Has a table for what a job gives.
    fn turn_to(&mut self, alloc: Global, parts: &Parts<'_>) -> Result<(), AllocError> {
        let is_there = match &self.shares {
            Some(shares) => shares.is_by(parts),
            None => false,
        };
        if !is_there {
            self.shares = None;
            self.shares = ForeseenShares::by(alloc, parts)?;
        }
        Ok(())
    }
}
