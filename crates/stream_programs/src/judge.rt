//! Which share of the job is credited, and which is refused.
ghost use Rattle.std.specs.Prelude.{◌≡◌, ◌≤◌, ℕ, List, [], ◌∷◌, ◌++◌, length, IfOk, OnOk, IsSome, None};
ghost use Rattle.std.specs.List.{list_any};
ghost use Rattle.block_header.specs.Layout.{header_bytes};
ghost use Rattle.stream_programs.specs.Rolling.{rolled_of, is_same};

use crate::Foreseen;
use crate::front::Front;
use crate::submission::{Rolled, rolled_of};
use block_header::{Header, meets_class};
use mining_msgs::SubmitSharesStandard;
use std::alloc::{AllocError, Global};

/// What a header has of the job: the hashes as they stand in the header.
#[derive(Clone, Copy)]
pub struct Job {
    /// The hash of the block before.
    pub prev_hash: [u8; 32],
    /// The merkle root.
    pub root: [u8; 32],
    /// The compact target.
    pub nbits: u32,
}

impl Job {
    /// The header that a share makes of the job.
    pub fn header(&self, rolled: &Rolled) -> [u8; 80]
        ensures { result ≡ header_bytes rolled.now.version self.now.prev_hash self.now.root
            rolled.now.ntime self.now.nbits rolled.now.nonce }
    {
        Header {
            version: rolled.version,
            prev_hash: self.prev_hash,
            root: self.root,
            ntime: rolled.ntime,
            nbits: self.nbits,
            nonce: rolled.nonce,
        }
        .bytes()
    }
}

/// Why a share isn't credited, by the first condition that fails.
#[derive(Clone, Copy)]
pub enum Refusal {
    /// The channel isn't 1.
    InvalidChannelId,
    /// The job isn't 1.
    InvalidJobId,
    /// The header's hash misses the class.
    DifficultyTooLow,
    /// An earlier submission has the same header.
    DuplicateShare,
}

impl Refusal {
    ghost use Rattle.stream_programs.specs.Answers.{error_code};

    /// The error code of SubmitShares.Error.
    pub fn code(self) -> &'static str
        ensures code { result.now ≡ error_code self }
        ensures short { length result.now ≤ 255 }
    {
        match self {
            Refusal::InvalidChannelId => "invalid-channel-id",
            Refusal::InvalidJobId => "invalid-job-id",
            Refusal::DifficultyTooLow => "difficulty-too-low",
            Refusal::DuplicateShare => "duplicate-share",
        }
    }
}

/// The job, its class, and what was credited so far. It doesn't grow with refused shares.
#[derive(Drop)]
pub struct Judge {
    pub class: u8,
    pub job: Job,
    pub credited: Vec<Rolled>,
    /// The front of the headers of the version that came last.
    pub front: Front,
    ghost in_range: { class ≤ 60 },
    ghost of_job: { front.job ≡ job },
}

impl Judge {
    ghost use Rattle.stream_programs.specs.Answers.{first_refusal, hash_of};
    ghost use Rattle.stream_programs.specs.Judging.{RemembersCredits};

    pub fn new(alloc: Global, class: u8, job: &Job) -> Judge
        requires { class ≤ 60 }
        ensures class { result.class ≡ class }
        ensures job { result.job ≡ job.now }
        ensures remembers { RemembersCredits result [] }
    {
        Judge {
            class,
            job: *job,
            credited: Vec::new(alloc),
            front: Front::new(0, job),
        }
    }

    /// Has the front of this version's headers in hand.
    fn turn_to(&mut self, version: u32)
        ensures class { self.new.class ≡ self.old.class }
        ensures job { self.new.job ≡ self.old.job }
        ensures credited { self.new.credited ≡ self.old.credited }
        ensures remembers { (earlier : List _) → RemembersCredits self.old earlier
            → RemembersCredits self.new earlier }
        ensures version { self.new.front.version ≡ version }
    {
        if self.front.version() != version {
            self.front = Front::new(version, &self.job);
        }
    }

    /// The hash of the header with what a share rolls.
    fn hash(&mut self, rolled: &Rolled, foreseen: &Foreseen) -> [u8; 32]
        ensures hash { result ≡ hash_of self.old.job rolled.now }
        ensures class { self.new.class ≡ self.old.class }
        ensures job { self.new.job ≡ self.old.job }
        ensures credited { self.new.credited ≡ self.old.credited }
        ensures remembers { (earlier : List _) → RemembersCredits self.old earlier
            → RemembersCredits self.new earlier }
    {
        match foreseen.find(&self.job.header(rolled)) {
            Some(hash) => hash,
            None => {
                self.turn_to(rolled.version);
                self.front.hash(rolled.ntime, rolled.nonce)
            }
        }
    }

    fn first_refusal(
        &mut self,
        share: &SubmitSharesStandard,
        foreseen: &Foreseen,
    ) -> Option<Refusal>
        ensures verdict { (earlier : List _) → RemembersCredits self.old earlier
            → result ≡ first_refusal self.old.class self.old.job earlier share.now }
        ensures class { self.new.class ≡ self.old.class }
        ensures job { self.new.job ≡ self.old.job }
        ensures credited { self.new.credited ≡ self.old.credited }
        ensures remembers { (earlier : List _) → RemembersCredits self.old earlier
            → RemembersCredits self.new earlier }
    {
        let rolled = rolled_of(share);
        if share.channel_id != 1 {
            Some(Refusal::InvalidChannelId)
        } else if share.job_id != 1 {
            Some(Refusal::InvalidJobId)
        } else if !meets_class(&self.hash(&rolled, foreseen), self.class) {
            Some(Refusal::DifficultyTooLow)
        } else if is_among(&self.credited, &rolled) {
            Some(Refusal::DuplicateShare)
        } else {
            None
        }
    }

    /// The first condition that fails; where none does, the share is credited.
    pub fn judge(
        &mut self,
        share: &SubmitSharesStandard,
        foreseen: &Foreseen,
    ) -> Result<Option<Refusal>, AllocError>
        ensures verdict { (earlier : List _) → RemembersCredits self.old earlier
            → IfOk result (λ refusal. refusal ≡ first_refusal self.old.class self.old.job earlier
            share.now) }
        ensures remembers { (earlier : List _) → RemembersCredits self.old earlier
            → OnOk result (RemembersCredits self.new (earlier ++ share.now ∷ [])) }
        // A refused share isn't kept, and a credited one is kept once.
        ensures refused { IfOk result (λ refusal. IsSome refusal
            → self.new.credited.items ≡ self.old.credited.items) }
        ensures credited { IfOk result (λ refusal. refusal ≡ None
            → self.new.credited.items ≡ self.old.credited.items ++ rolled_of share.now ∷ []) }
        ensures class { self.new.class ≡ self.old.class }
        ensures job { self.new.job ≡ self.old.job }
    {
        let refusal = self.first_refusal(share, foreseen);
        if refusal.is_none() {
            self.credited.push(rolled_of(share))?;
        }
        Ok(refusal)
    }
}

fn is_among(credited: &[Rolled], rolled: &Rolled) -> bool
    ensures { result ≡ list_any (is_same rolled.now) credited.now }
{
    credited.iter().any(|other| {
        rolled.version == other.version
            && rolled.ntime == other.ntime
            && rolled.nonce == other.nonce
    })
}
