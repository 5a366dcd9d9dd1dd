//! Coinbases of templates.

ghost use Rattle.std.specs.Prelude.{◌≡◌, ◌^◌, ◌<◌, ◌≤◌, length, IfOk};
ghost use Rattle.coinbase.specs.Coin.{template_assembly, template_parts};
ghost use Rattle.pool_history.specs.Judging.{template_terms};
ghost use Rattle.pool_history.specs.Refusing.{coinbase_refusal};
ghost use Rattle.pool_history.specs.JobRefusals.{RefusesAsTold};

use crate::{JobError, TemplateData};
use coinbase::{Assembly, AssemblyError, Recipe};
use std::alloc::Global;

/// The coinbase of a template's job, with the pool's script. The job of a table has its own; this
/// puts it together again from the template alone.
pub fn template_coinbase(
    alloc: Global,
    template: &TemplateData,
    script: &[u8],
) -> Result<Assembly, JobError>
    requires some { 1 ≤ length script.now }
    requires short { length script.now ≤ 100 }
    ensures made { IfOk result (λ parts. parts
        ≡ template_parts (template_terms template.now) script.now) }
    ensures small { IfOk result (λ parts. template.now.coinbase_tx_value_remaining < 2 ^ 40) }
    ensures refusal { RefusesAsTold result
        (coinbase_refusal (template_assembly (template_terms template.now) script.now)) }
{
    let recipe = Recipe {
        tx_version: template.coinbase_tx_version,
        prefix: template.coinbase_prefix.bytes(),
        sequence: template.coinbase_tx_input_sequence,
        reward: template.coinbase_tx_value_remaining,
        outputs_count: template.coinbase_tx_outputs_count,
        outputs: template.coinbase_tx_outputs.bytes(),
        lock_time: template.coinbase_tx_locktime,
    };
    match Assembly::of(alloc, &recipe, script) {
        Ok(coinbase) => Ok(coinbase),
        Err(AssemblyError::Memory) => Err(JobError::Memory),
        Err(error) => Err(JobError::Coinbase(error)),
    }
}
