//! Coinbases of miners' own jobs, and copies of what they are made from.

ghost use Rattle.std.specs.Prelude.{◌≡◌, ◌^◌, ◌<◌, ◌≤◌, length, IfOk};
ghost use Rattle.coinbase.specs.Custom.{custom_assembly};
ghost use Rattle.pool_history.specs.Crediting.{reward_of};
ghost use Rattle.pool_history.specs.Jobs.{FromMiner, FromTemplate};
ghost use Rattle.pool_history.specs.Judging.{custom_terms, job_parts};
ghost use Rattle.template_jobs.specs.Refusals.{RefusesAsMade};

use coinbase::{Assembly, CustomRecipe, OutputsError};
use pool_history::{CustomData, RootSource, TemplateData};
use std::alloc::{AllocError, Global};
use std::sync::Arc;
use sv2_types::{Blob, Hashes};

/// The coinbase of a miner's own job, with the pool's script, and its reward in satoshis.
pub(crate) fn custom_coinbase(
    alloc: Global,
    custom: &CustomData,
    script: &[u8],
) -> Result<(Assembly, u64), OutputsError>
    requires some { 1 ≤ length script.now }
    requires short { length script.now ≤ 100 }
    ensures made { IfOk result (λ made. made.0 ≡ job_parts (FromMiner custom.now) script.now) }
    ensures reward { IfOk result (λ made. made.1 ≡ reward_of (FromMiner custom.now)) }
    ensures small { IfOk result (λ made. made.1 < 2 ^ 40) }
    ensures refusal { RefusesAsMade result
        (custom_assembly (custom_terms custom.now) script.now) }
{
    let recipe = CustomRecipe {
        tx_version: custom.coinbase_tx_version,
        prefix: custom.coinbase_prefix.bytes(),
        sequence: custom.coinbase_tx_input_sequence,
        outputs: custom.coinbase_tx_outputs.bytes(),
        lock_time: custom.coinbase_tx_locktime,
    };
    Assembly::of_outputs(alloc, &recipe, script)
}

/// What a job gives to a root, to be shared with its briefs.
pub(crate) fn shared_root(
    alloc: Global,
    coinbase: Assembly,
    path: &[[u8; 32]],
) -> Result<Arc<RootSource, Global>, AllocError>
    ensures coinbase { IfOk result (λ root. root.value.coinbase ≡ coinbase) }
    ensures path { IfOk result (λ root. root.value.path ≡ path.now) }
{
    let path = Hashes::of(alloc, path)?;
    Ok(Arc::new(alloc, RootSource { coinbase, path })?)
}

/// A template once more.
pub(crate) fn copy_template(
    alloc: Global,
    template: &TemplateData,
) -> Result<TemplateData, AllocError>
    ensures { IfOk result (λ copy. copy ≡ template.now) }
{
    Ok(TemplateData {
        template_id: template.template_id,
        future_template: template.future_template,
        version: template.version,
        coinbase_tx_version: template.coinbase_tx_version,
        coinbase_prefix: Blob::of(alloc, template.coinbase_prefix.bytes())?,
        coinbase_tx_input_sequence: template.coinbase_tx_input_sequence,
        coinbase_tx_value_remaining: template.coinbase_tx_value_remaining,
        coinbase_tx_outputs_count: template.coinbase_tx_outputs_count,
        coinbase_tx_outputs: Blob::of(alloc, template.coinbase_tx_outputs.bytes())?,
        coinbase_tx_locktime: template.coinbase_tx_locktime,
        merkle_path: Hashes::of(alloc, template.merkle_path.items())?,
    })
}

/// What a miner brings once more.
pub(crate) fn copy_custom(alloc: Global, custom: &CustomData) -> Result<CustomData, AllocError>
    ensures { IfOk result (λ copy. copy ≡ custom.now) }
{
    Ok(CustomData {
        channel_id: custom.channel_id,
        token: Blob::of(alloc, custom.token.bytes())?,
        version: custom.version,
        prev_hash: custom.prev_hash,
        min_ntime: custom.min_ntime,
        nbits: custom.nbits,
        coinbase_tx_version: custom.coinbase_tx_version,
        coinbase_prefix: Blob::of(alloc, custom.coinbase_prefix.bytes())?,
        coinbase_tx_input_sequence: custom.coinbase_tx_input_sequence,
        coinbase_tx_outputs: Blob::of(alloc, custom.coinbase_tx_outputs.bytes())?,
        coinbase_tx_locktime: custom.coinbase_tx_locktime,
        merkle_path: Hashes::of(alloc, custom.merkle_path.items())?,
    })
}
