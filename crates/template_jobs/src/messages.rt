//! Owned copies of the messages that jobs are made of.

ghost use Rattle.std.specs.Prelude.{◌≡◌, ◌≤◌, length, IfOk};
ghost use Rattle.mining_msgs.specs.Seen.{set_custom_mining_job};
ghost use Rattle.pool_history.specs.OwnedFields.{custom_fields, template_fields, tip_fields};
ghost use Rattle.template_msgs.specs.Seen.{new_template, template_set_new_prev_hash};

use mining_msgs::SetCustomMiningJob;
use pool_history::{CustomData, TemplateData, TipData};
use std::alloc::{AllocError, Global};
use sv2_types::{Blob, Hashes};
use template_msgs::{NewTemplate, SetNewPrevHash};

/// A copy of a template, whose path has no more hashes than the message can.
pub fn template_of(alloc: Global, message: &NewTemplate<'_>) -> Result<TemplateData, AllocError>
    requires { length message.now.merkle_path.items.now ≤ 255 }
    ensures { IfOk result (λ template. template_fields template ≡ new_template message.now) }
{
    Ok(TemplateData {
        template_id: message.template_id,
        future_template: message.future_template,
        version: message.version,
        coinbase_tx_version: message.coinbase_tx_version,
        coinbase_prefix: Blob::of(alloc, message.coinbase_prefix)?,
        coinbase_tx_input_sequence: message.coinbase_tx_input_sequence,
        coinbase_tx_value_remaining: message.coinbase_tx_value_remaining,
        coinbase_tx_outputs_count: message.coinbase_tx_outputs_count,
        coinbase_tx_outputs: Blob::of(alloc, message.coinbase_tx_outputs)?,
        coinbase_tx_locktime: message.coinbase_tx_locktime,
        merkle_path: Hashes::of(alloc, message.merkle_path.items())?,
    })
}

/// A copy of a tip.
pub fn tip_of(message: &SetNewPrevHash) -> TipData
    ensures { tip_fields result ≡ template_set_new_prev_hash message.now }
{
    TipData {
        template_id: message.template_id,
        prev_hash: message.prev_hash,
        header_timestamp: message.header_timestamp,
        nbits: message.nbits,
        target: message.target,
    }
}

/// A copy of a miner's own job, whose path has no more hashes than the message can.
pub fn custom_of(alloc: Global, message: &SetCustomMiningJob<'_>) -> Result<CustomData, AllocError>
    requires { length message.now.merkle_path.items.now ≤ 255 }
    ensures { IfOk result (λ custom. custom_fields message.now.request_id custom
        ≡ set_custom_mining_job message.now) }
{
    Ok(CustomData {
        channel_id: message.channel_id,
        token: Blob::of(alloc, message.token)?,
        version: message.version,
        prev_hash: message.prev_hash,
        min_ntime: message.min_ntime,
        nbits: message.nbits,
        coinbase_tx_version: message.coinbase_tx_version,
        coinbase_prefix: Blob::of(alloc, message.coinbase_prefix)?,
        coinbase_tx_input_sequence: message.coinbase_tx_input_sequence,
        coinbase_tx_outputs: Blob::of(alloc, message.coinbase_tx_outputs)?,
        coinbase_tx_locktime: message.coinbase_tx_locktime,
        merkle_path: Hashes::of(alloc, message.merkle_path.items())?,
    })
}
