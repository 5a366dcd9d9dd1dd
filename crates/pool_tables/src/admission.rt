//! What is found of a share.

ghost use Rattle.std.specs.Prelude.{◌≡◌, ◌++◌, List, ℕ, Ok, Err, IfErr, IfOk};
ghost use Rattle.pool_history.specs.declared.events.Event.{Event};
ghost use Rattle.pool_history.specs.Channels.{OpenChannel, channel_in};
ghost use Rattle.pool_history.specs.Headers.{rolled_length};
ghost use Rattle.pool_history.specs.Judging.{Admitted, admission, share_of};
ghost use Rattle.pool_history.specs.Sessions.{script_of};
ghost use Rattle.channels.specs.Tables.{kept_channel, kept_of};
ghost use Rattle.pool_tables.specs.Admission.{IsAdmittedAs, ShowsShares, channel_for};

use crate::conditions::serves;
use crate::mined::{mined_job, rolled_too_far};
use channels::{Channel, Channels};
use pool_history::{Class, Failed, Rules, Submission, TipData};
use share_headers::{Parts, rolled_length};
use template_jobs::{Job, Jobs};

/// What a share is judged with, once the first six conditions hold: its channel, its live job, since
/// when that is live, the last tip, and the channel's class at the job.
#[derive(Clone, Copy)]
pub struct Admission<'a> {
    pub channel: &'a Channel,
    pub job: &'a Job,
    /// A place of the history.
    pub live_at: u64,
    pub tip: &'a TipData,
    pub class: Class,
}

impl<'a> Admission<'a> {
    ghost use Rattle.std.specs.Prelude.{◌≡◌, List, ℕ};
    ghost use Rattle.pool_history.specs.Judging.{Admitted, briefing_of};
    ghost use Rattle.pool_tables.specs.Admission.{IsAdmittedAs};

    /// What its channel, its job and the tip give to a header.
    pub fn parts(&self) -> Parts<'_>
        ensures given { (script : List ℕ) (with : Admitted)
            → IsAdmittedAs script self.now.channel.now self.now.job.now self.now.live_at
            self.now.tip.now self.now.class with
            → result ≡ briefing_of script with.channel with.job.source with.tip }
        ensures kind { result.kind ≡ self.now.channel.now.kind }
        ensures lead { result.lead ≡ self.now.channel.now.lead }
    {
        Parts {
            root: self.job.root(),
            prev_hash: *self.tip.prev_hash.bytes(),
            nbits: self.tip.nbits,
            lead: self.channel.lead,
            kind: self.channel.kind,
        }
    }
}

/// What a share of a session is judged with, or the first of the first six conditions that fails.
/// It takes no memory.
pub fn admit<'a>(
    rules: &Rules,
    channels: &'a Channels,
    jobs: &'a Jobs,
    session: u32,
    sub: &Submission,
) -> Result<Admission<'a>, Failed>
    ensures admitted { (past : List Event) → ShowsShares channels.now jobs.now past
        → IfOk result (λ found. (with : Admitted)
        × (admission rules.now past session (share_of sub.now) ≡ Ok with)
        × IsAdmittedAs (script_of past) found.channel.now found.job.now found.live_at found.tip.now
        found.class with) }
    ensures rolls { IfOk result (λ found. sub.now.extranonce_len
        ≡ rolled_length found.channel.now.kind found.channel.now.lead) }
    ensures refused { (past : List Event) → ShowsShares channels.now jobs.now past
        → IfErr result (λ code.
        admission rules.now past session (share_of sub.now) ≡ Err code) }
{
    let channel = match channel_of(channels, session, sub) {
        Ok(channel) => channel,
        Err(code) => return Err(code),
    };
    let mined = match mined_job(jobs, sub) {
        Ok(mined) => mined,
        Err(code) => return Err(code),
    };
    if let Some(code) = rolled_too_far(rules, sub, mined) {
        return Err(code);
    }
    let Some(class) = channels.class_at(sub.channel, mined.live_at) else {
        return Err(Failed::Channel);
    };
    Ok(Admission {
        channel,
        job: mined.job,
        live_at: mined.live_at,
        tip: mined.tip,
        class,
    })
}

/// The channel of a share: the first and the second condition.
fn channel_of<'a>(
    channels: &'a Channels,
    session: u32,
    sub: &Submission,
) -> Result<&'a Channel, Failed>
    ensures found { IfOk result (λ channel. (shown : OpenChannel)
        × (channel_for session (share_of sub.now)
        (channel_in channels.now.open_channels sub.now.channel) ≡ Ok shown)
        × (kept_of channel.now ≡ kept_channel shown)) }
    ensures rolls { IfOk result (λ channel. sub.now.extranonce_len
        ≡ rolled_length channel.now.kind channel.now.lead) }
    ensures refused { IfErr result (λ code. channel_for session (share_of sub.now)
        (channel_in channels.now.open_channels sub.now.channel) ≡ Err code) }
{
    let Some(channel) = channels.channel(sub.channel) else {
        return Err(Failed::Channel);
    };
    if !serves(session, sub.kind, channel) {
        return Err(Failed::Channel);
    }
    if sub.extranonce_len != rolled_length(channel.kind, &channel.lead) {
        return Err(Failed::ExtranonceSize);
    }
    Ok(channel)
}
