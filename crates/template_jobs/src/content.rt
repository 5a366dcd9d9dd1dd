//! What a job is made from, with its coinbase.

use crate::making::{copy_custom, copy_template, custom_coinbase, shared_root};
use crate::origin::{Origin, Shelf};
use coinbase::OutputsError;
use pool_history::{CustomData, JobError, RootSource, TemplateData, template_coinbase};
use std::alloc::Global;
use std::marker::Model;
use std::sync::Arc;

/// What a job is made from, what it gives to a root, and its reward.
#[derive(Drop)]
pub(crate) struct JobContent {
    origin: Origin,
    /// The coinbase and the merkle path, which the briefs of the job share.
    root: Arc<RootSource, Global>,
    reward: u64,
}

impl Model for JobContent {
    ghost use Rattle.std.specs.Prelude.{◌≡◌, ◌^◌, ◌<◌};
    ghost use Rattle.pool_history.specs.Crediting.{reward_of};
    ghost use Rattle.pool_history.specs.Judging.{path_of};
    ghost use Rattle.template_jobs.specs.HeldJobs as held;

    ghost Value = { held.JobContent };

    ghost view = { λ content. record {
      source = held.source_of content.origin;
      coinbase = content.root.value.coinbase;
    } };

    ghost invariant = { λ content.
        (content.root.value.path ≡ path_of (held.source_of content.origin))
        × (content.reward ≡ reward_of (held.source_of content.origin)) × (content.reward < 2 ^ 40) };
}

impl JobContent {
    ghost use Rattle.std.specs.Prelude.{◌≡◌, ◌^◌, ◌<◌, ◌≤◌, length, IfOk};
    ghost use Rattle.coinbase.specs.Custom.{custom_assembly};
    ghost use Rattle.coinbase.specs.Coin.{template_assembly};
    ghost use Rattle.pool_history.specs.Crediting.{reward_of};
    ghost use Rattle.pool_history.specs.Jobs.{FromMiner, FromTemplate, has_template};
    ghost use Rattle.pool_history.specs.Judging.{custom_terms, path_of, template_terms, version_of};
    ghost use Rattle.pool_history.specs.Refusing.{coinbase_refusal};
    ghost use Rattle.template_jobs.specs.HeldJobs.{IsContentOf, channel_of, own_min_ntime, shelf_of, template_id_of};
    ghost use Rattle.pool_history.specs.JobRefusals.{RefusesAsTold};
    ghost use Rattle.template_jobs.specs.Refusals.{RefusesAsMade};

    /// Of a template, with the pool's script.
    pub(crate) fn of_template(
        alloc: Global,
        template: &TemplateData,
        script: &[u8],
    ) -> Result<JobContent, JobError>
        requires some { 1 ≤ length script.now }
        requires short { length script.now ≤ 100 }
        ensures made { IfOk result (IsContentOf (FromTemplate template.now) script.now) }
        ensures refusal { RefusesAsTold result
            (coinbase_refusal (template_assembly (template_terms template.now) script.now)) }
    {
        let coinbase = template_coinbase(alloc, template, script)?;
        let Ok(copy) = copy_template(alloc, template) else {
            return Err(JobError::Memory);
        };
        let Ok(root) = shared_root(alloc, coinbase, template.merkle_path.items()) else {
            return Err(JobError::Memory);
        };
        Ok(JobContent {
            origin: Origin::Template(copy),
            root,
            reward: template.coinbase_tx_value_remaining,
        })
    }

    /// Of what a miner brings, with the pool's script.
    pub(crate) fn of_custom(
        alloc: Global,
        custom: &CustomData,
        script: &[u8],
    ) -> Result<JobContent, OutputsError>
        requires some { 1 ≤ length script.now }
        requires short { length script.now ≤ 100 }
        ensures made { IfOk result (IsContentOf (FromMiner custom.now) script.now) }
        ensures refusal { RefusesAsMade result
            (custom_assembly (custom_terms custom.now) script.now) }
    {
        let (coinbase, reward) = custom_coinbase(alloc, custom, script)?;
        let Ok(copy) = copy_custom(alloc, custom) else {
            return Err(OutputsError::Memory);
        };
        let Ok(root) = shared_root(alloc, coinbase, custom.merkle_path.items()) else {
            return Err(OutputsError::Memory);
        };
        Ok(JobContent {
            origin: Origin::Miner(copy),
            root,
            reward,
        })
    }

    /// The list that a job of this joins.
    pub(crate) fn shelf(&self) -> Shelf
        ensures { result ≡ shelf_of self.now.source }
    {
        match &self.origin {
            Origin::Template(template) => {
                if template.future_template {
                    Shelf::Future
                } else {
                    Shelf::Live
                }
            }
            Origin::Miner(custom) => Shelf::Own(custom.channel_id),
        }
    }

    /// Whether it is of the template with this id.
    pub(crate) fn has_template(&self, id: u64) -> bool
        ensures { result ≡ has_template id self.now.source }
    {
        match &self.origin {
            Origin::Template(template) => template.template_id == id,
            Origin::Miner(_) => false,
        }
    }

    pub(crate) fn template_id(&self) -> u64
        ensures { result ≡ template_id_of self.now.source }
    {
        match &self.origin {
            Origin::Template(template) => template.template_id,
            Origin::Miner(_) => 0,
        }
    }

    pub(crate) fn version(&self) -> u32
        ensures { result ≡ version_of self.now.source }
    {
        match &self.origin {
            Origin::Template(template) => template.version,
            Origin::Miner(custom) => custom.version,
        }
    }

    pub(crate) fn reward(&self) -> u64
        ensures value { result ≡ reward_of self.now.source }
        ensures small { result < 2 ^ 40 }
    {
        self.reward
    }

    pub(crate) fn root(&self) -> &Arc<RootSource, Global>
        ensures coinbase { result.now.value.coinbase ≡ self.now.coinbase }
        ensures path { result.now.value.path ≡ path_of self.now.source }
    {
        &self.root
    }

    pub(crate) fn channel(&self) -> Option<u32>
        ensures { result ≡ channel_of self.now.source }
    {
        match &self.origin {
            Origin::Template(_) => None,
            Origin::Miner(custom) => Some(custom.channel_id),
        }
    }

    pub(crate) fn min_ntime(&self) -> Option<u32>
        ensures { result ≡ own_min_ntime self.now.source }
    {
        match &self.origin {
            Origin::Template(_) => None,
            Origin::Miner(custom) => Some(custom.min_ntime),
        }
    }
}
