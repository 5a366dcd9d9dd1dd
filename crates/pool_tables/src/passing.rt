//! What is booked of a share.

use crate::admission::Admission;
use crate::headers::Headers;
use crate::late::late_refusal;
use block_header::meets_target;
use pool_history::{Class, Failed, Rules};
use sv2_types::U256;

/// What is booked of a share that meets the nine conditions.
#[derive(Clone, Copy)]
pub struct Passed {
    pub header: [u8; 80],
    /// Whether its hash is at most the last tip's target.
    pub is_block: bool,
    pub work: u64,
    /// Of its job, in satoshis.
    pub reward: u64,
}

impl Passed {
    ghost use Rattle.std.specs.Prelude.{◌≡◌, ℕ, Option, None, Some, if◌then◌else◌};

    /// The reward and the fee of its block, where it is one.
    pub fn block(&self, fee: u16) -> Option<(u64, u16)>
        ensures { result ≡ (if self.now.is_block then Some (self.now.reward, fee) else None) }
    {
        if self.is_block {
            Some((self.reward, fee))
        } else {
            None
        }
    }
}

impl<'a> Admission<'a> {
    ghost use Rattle.std.specs.Prelude.{◌≡◌, ◌<◌, IfOk, OnOk};
    ghost use Rattle.block_header.specs.Hash.{dsha};
    ghost use Rattle.pool_tables.specs.Passing.{IsPayable, PassesByAll};

    /// What is booked of the share, whose header and double hash these are after so many credits,
    /// or the first of the last three conditions that fails. It takes no memory.
    pub fn pass(
        &self,
        rules: &Rules,
        header: [u8; 80],
        hash: &[u8; 32],
        headers: &Headers,
        credits: u32,
    ) -> Result<Passed, Failed>
        requires { hash.now ≡ dsha header }
        ensures passes { PassesByAll rules.now self.now.channel.now self.now.job.now
            self.now.live_at self.now.tip.now self.now.class headers.now credits header result }
        ensures payable { IfOk result (λ passed. IsPayable passed.work passed.reward) }
        ensures few { OnOk result (credits < rules.now.credit_limit) }
    {
        match late_refusal(rules, self.class, &header, hash, headers, credits) {
            Some(code) => Err(code),
            None => Ok(Passed {
                header,
                is_block: is_at_most_target(hash, &self.tip.target),
                work: work_of(self.class),
                reward: self.job.reward(),
            }),
        }
    }
}

ghost use Rattle.std.specs.Prelude.{◌≡◌, ◌≤◌, ◌^◌};
ghost use Rattle.block_header.specs.Target.{is_at_most};

/// Whether a hash, as a number, is at most a target.
fn is_at_most_target(hash: &[u8; 32], target: &U256) -> bool
    ensures { result ≡ is_at_most hash.now target.now }
{
    meets_target(hash, target)
}

/// The work of a share of a class.
fn work_of(class: Class) -> u64
    ensures value { result ≡ 2 ^ class }
    ensures some { 1 ≤ result }
    ensures small { result ≤ 2 ^ 60 }
{
    1 << class.value()
}
