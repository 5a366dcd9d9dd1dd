//! A job that is kept whole.

use crate::content::JobContent;
use pool_history::RootSource;
use std::alloc::Global;
use std::marker::Model;
use std::sync::Arc;

/// A job that is future or live.
#[derive(Drop)]
pub struct Job {
    number: u32,
    session: u32,
    at: u64,
    live_at: Option<u64>,
    content: JobContent,
}

impl Model for Job {
    ghost use Rattle.template_jobs.specs.HeldJobs.{HeldJob};

    ghost Value = { HeldJob };

    ghost view = { λ job. record {
      number = job.number;
      session = job.session;
      at = job.at;
      live_at = job.live_at;
      source = job.content.source;
      coinbase = job.content.coinbase;
    } };
}

impl Job {
    ghost use Rattle.std.specs.Prelude.{◌≡◌, ◌^◌, ◌<◌};
    ghost use Rattle.pool_history.specs.Jobs.{has_template, is_own};
    ghost use Rattle.pool_history.specs.Crediting.{reward_of};
    ghost use Rattle.pool_history.specs.Judging.{path_of, version_of};
    ghost use Rattle.template_jobs.specs.HeldJobs.{channel_of, own_min_ntime, template_id_of};

    /// A job of an event at a place, which is live since then or future.
    pub(crate) fn of(
        number: u32,
        session: u32,
        at: u64,
        live_at: Option<u64>,
        content: JobContent,
    ) -> Job
        ensures { result ≡ record {
          number = number;
          session = session;
          at = at;
          live_at = live_at;
          source = content.source;
          coinbase = content.coinbase;
        } }
    {
        Job {
            number,
            session,
            at,
            live_at,
            content,
        }
    }

    /// A tip at a place makes it live.
    pub(crate) fn turn_live(&mut self, at: u64)
        ensures { self.new ≡ record self.old { live_at = Some at } }
    {
        self.live_at = Some(at);
    }

    /// Whether it is of the template with this id.
    pub(crate) fn has_template(&self, id: u64) -> bool
        ensures { result ≡ has_template id self.now.source }
    {
        self.content.has_template(id)
    }

    /// Whether it is this channel's own.
    pub(crate) fn is_own(&self, channel: u32) -> bool
        ensures { result ≡ is_own channel self.now.source }
    {
        self.content.channel() == Some(channel)
    }

    /// The job's number.
    pub fn number(&self) -> u32
        ensures { result ≡ self.now.number }
    {
        self.number
    }

    /// The session that sent its template, 0 for a miner's own.
    pub fn session(&self) -> u32
        ensures { result ≡ self.now.session }
    {
        self.session
    }

    /// The id of its template, 0 for a miner's own.
    pub fn template_id(&self) -> u64
        ensures { result ≡ template_id_of self.now.source }
    {
        self.content.template_id()
    }

    /// The place since when it is live, in events of the history.
    pub fn live_at(&self) -> Option<u64>
        ensures { result ≡ self.now.live_at }
    {
        self.live_at
    }

    /// The block header's version.
    pub fn version(&self) -> u32
        ensures { result ≡ version_of self.now.source }
    {
        self.content.version()
    }

    /// In satoshis.
    pub fn reward(&self) -> u64
        ensures value { result ≡ reward_of self.now.source }
        ensures small { result < 2 ^ 40 }
    {
        self.content.reward()
    }

    /// What it gives to the root of a header: its coinbase, and the hashes beside that on the way up,
    /// each 32 bytes as they stand in a block header. Who keeps it shares it with the job.
    pub fn root(&self) -> &Arc<RootSource, Global>
        ensures coinbase { result.now.value.coinbase ≡ self.now.coinbase }
        ensures path { result.now.value.path ≡ path_of self.now.source }
    {
        self.content.root()
    }

    /// The channel that it is for, where it is a miner's own.
    pub fn channel(&self) -> Option<u32>
        ensures { result ≡ channel_of self.now.source }
    {
        self.content.channel()
    }

    /// The least time of its shares, in seconds since 1970, where it is a miner's own.
    pub fn min_ntime(&self) -> Option<u32>
        ensures { result ≡ own_min_ntime self.now.source }
    {
        self.content.min_ntime()
    }
}
