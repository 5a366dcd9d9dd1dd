//! The coinbase of a job, which lacks its twelve bytes of extranonce.

ghost use Rattle.std.specs.Prelude.{◌≡◌, ◌≤◌, ◌++◌, length, position, Ok, IfOk, MatchResult};
ghost use Rattle.coinbase.specs.Form.{output_bytes};
ghost use Rattle.std.specs.List.{list_any};
ghost use Rattle.coinbase.specs.Coin as coin;
ghost use Rattle.coinbase.specs.Custom as custom;
ghost use Rattle.coinbase.specs.CustomRecipes.{custom_terms_of, RefusesOutputs};
ghost use Rattle.coinbase.specs.Outputs.{outputs_of, commits};
ghost use Rattle.coinbase.specs.Parts as parts;
ghost use Rattle.coinbase.specs.Recipes.{terms_of, Refuses};

use crate::error::{AssemblyError, OutputsError};
use crate::outputs::{self, Broken};
use crate::tx::TxOut;
use crate::writing::{put_compact, put_sized};
use sha2::{Digest, Sha256};
use std::alloc::{AllocError, Global};
use std::marker::Model;

/// What a template says of its coinbase (Stratum V2, "NewTemplate").
#[derive(Clone, Copy)]
pub struct Recipe<'a> {
    pub tx_version: u32,
    /// What the input's script begins with.
    pub prefix: &'a [u8],
    pub sequence: u32,
    /// In satoshis.
    pub reward: u64,
    pub outputs_count: u32,
    /// The outputs behind the pool's own, one after the other.
    pub outputs: &'a [u8],
    pub lock_time: u32,
}

/// What a miner says of the coinbase of its own job (Stratum V2, "SetCustomMiningJob").
#[derive(Clone, Copy)]
pub struct CustomRecipe<'a> {
    pub tx_version: u32,
    /// What the input's script begins with.
    pub prefix: &'a [u8],
    pub sequence: u32,
    /// All outputs, one after the other.
    pub outputs: &'a [u8],
    pub lock_time: u32,
}

/// A coinbase that lacks its extranonce, which contracts see as its parts.
#[derive(Drop)]
pub struct Assembly {
    prefix: Vec<u8>,
    suffix: Vec<u8>,
    // Whether the whole form has a witness.
    witness: bool,
    // The hash of a coinbase as far as the prefix.
    state: Sha256,
}

impl Model for Assembly {
    ghost use Rattle.coinbase.specs.Parts.{Parts};

    ghost Value = { Parts };

    ghost use Rattle.coinbase.specs.States.{IsAssembled};

    ghost view = { λ a. record {
      prefix = a.prefix.items;
      suffix = a.suffix.items;
      witness = a.witness;
    } };

    ghost invariant = { λ a. IsAssembled a.prefix.items a.suffix.items a.state };
}

impl Assembly {
    ghost use Rattle.std.specs.Prelude.{◌≡◌, ◌+◌, ◌^◌, ◌<◌, ◌≤◌, length, IfOk};
    ghost use Rattle.block_header.specs.Hash as hash;
    ghost use Rattle.coinbase.specs.Coin.{template_assembly};
    ghost use Rattle.coinbase.specs.Custom.{custom_assembly};
    ghost use Rattle.coinbase.specs.CustomRecipes.{custom_terms_of, AssemblesOutputs};
    ghost use Rattle.coinbase.specs.Parts as parts;
    ghost use Rattle.coinbase.specs.Recipes.{terms_of, Assembles};

    /// The coinbase that a template asks for, with the pool's output before the template's own.
    pub fn of(alloc: Global, recipe: &Recipe<'_>, script: &[u8]) -> Result<Assembly, AssemblyError>
        requires some { 1 ≤ length script.now }
        requires short { length script.now ≤ 100 }
        ensures { Assembles result (template_assembly (terms_of recipe.now) script.now) }
    {
        if recipe.prefix.len() > 88 {
            return Err(AssemblyError::ScriptTooLong(recipe.prefix.len()));
        }
        let outputs = said_outputs(alloc, recipe)?;
        if recipe.reward >= 1 << 40 {
            return Err(AssemblyError::RewardTooLarge(recipe.reward));
        }
        let prefix = prefix_of(alloc, recipe.tx_version, recipe.prefix)?;
        let paid = paid_outputs(alloc, recipe, script)?;
        let count = 1 + recipe.outputs_count as usize;
        let suffix = suffix_of(alloc, recipe.sequence, count, &paid, recipe.lock_time)?;
        let assembly = Assembly::of_parts(prefix, suffix, has_commitment(&outputs));
        let length = assembly.whole_len();
        if length > 65_535 {
            return Err(AssemblyError::TooLong(length));
        }
        Ok(assembly)
    }

    /// The coinbase that a miner asks for, and its reward in satoshis, all of which is the pool's.
    pub fn of_outputs(
        alloc: Global,
        recipe: &CustomRecipe<'_>,
        script: &[u8],
    ) -> Result<(Assembly, u64), OutputsError>
        requires some { 1 ≤ length script.now }
        requires short { length script.now ≤ 100 }
        ensures { AssemblesOutputs result
            (custom_assembly (custom_terms_of recipe.now) script.now) }
    {
        if recipe.prefix.len() > 88 {
            return Err(OutputsError::ScriptTooLong(recipe.prefix.len()));
        }
        let outputs = paying_outputs(alloc, recipe, script)?;
        let reward = total(&outputs);
        if reward >= 1 << 40 {
            return Err(OutputsError::RewardTooLarge(reward));
        }
        let prefix = prefix_of(alloc, recipe.tx_version, recipe.prefix)?;
        let count = outputs.len();
        let suffix = suffix_of(
            alloc,
            recipe.sequence,
            count,
            recipe.outputs,
            recipe.lock_time,
        )?;
        let assembly = Assembly::of_parts(prefix, suffix, has_commitment(&outputs));
        Ok((assembly, reward as u64))
    }

    /// A coinbase that is cut round its extranonce: `prefix` begins with the version, and `suffix`
    /// ends with the lock time. `witness` says whether its whole form has a witness.
    pub fn of_parts(prefix: Vec<u8>, suffix: Vec<u8>, witness: bool) -> Assembly
        requires version { 4 ≤ length prefix.items }
        requires lock_time { 4 ≤ length suffix.items }
        ensures { result
            ≡ record { prefix = prefix.items; suffix = suffix.items; witness = witness } }
    {
        let state = Sha256::new_with_prefix(&prefix);
        Assembly {
            prefix,
            suffix,
            witness,
            state,
        }
    }

    /// What stands before the extranonce.
    pub fn prefix(&self) -> &[u8]
        ensures { result.now ≡ self.now.prefix }
    {
        &self.prefix
    }

    /// What stands after the extranonce.
    pub fn suffix(&self) -> &[u8]
        ensures { result.now ≡ self.now.suffix }
    {
        &self.suffix
    }

    /// The id of the coinbase with this extranonce, in the order of its bytes. It hashes no more
    /// than the extranonce and what stands after it, and takes no memory.
    pub fn txid_with(&self, extranonce: &[u8; 12]) -> [u8; 32]
        ensures { result ≡ hash.dsha (parts.coin self.now extranonce.now) }
    {
        let Ok(mut hasher) = self.state.clone() else {
            unreachable!();
        };
        hasher.update(extranonce);
        hasher.update(&self.suffix);
        Sha256::digest(hasher.finalize())
    }

    /// The coinbase with this extranonce as it is sent in a block, with its witness where it has
    /// one.
    pub fn whole(&self, extranonce: &[u8; 12]) -> Result<Vec<u8>, AllocError>
        ensures { IfOk result (λ v. v.items ≡ parts.whole self.now extranonce.now) }
    {
        let mut whole = Vec::new(*self.prefix.allocator());
        if !self.witness {
            whole.extend_from_slice(&self.prefix)?;
            whole.extend_from_slice(extranonce)?;
            whole.extend_from_slice(&self.suffix)?;
            return Ok(whole);
        }
        let (version, input) = self.prefix.split_at(4);
        let (outputs, lock_time) = self.suffix.split_at(self.suffix.len() - 4);
        whole.extend_from_slice(version)?;
        whole.extend_from_slice(&[0, 1])?;
        whole.extend_from_slice(input)?;
        whole.extend_from_slice(extranonce)?;
        whole.extend_from_slice(outputs)?;
        whole.extend_from_slice(&[1, 32])?;
        whole.extend_from_slice(&[0; 32])?;
        whole.extend_from_slice(lock_time)?;
        Ok(whole)
    }

    // How many bytes the whole form has.
    fn whole_len(&self) -> usize
        requires { length self.now.prefix + length self.now.suffix + 48 < 2 ^ 64 }
        ensures { result ≡ parts.whole_len self.now }
    {
        let witness = if self.witness { 36 } else { 0 };
        self.prefix.len() + 12 + self.suffix.len() + witness
    }
}

// What stands before the extranonce.
fn prefix_of(alloc: Global, version: u32, prefix: &[u8]) -> Result<Vec<u8>, AllocError>
    requires { length prefix.now ≤ 88 }
    ensures { IfOk result (λ v. v.items ≡ parts.prefix_of version prefix.now) }
{
    let mut text = Vec::new(alloc);
    text.extend_from_slice(&version.to_le_bytes())?;
    text.push(1)?;
    text.extend_from_slice(&[0; 32])?;
    text.extend_from_slice(&[0xff; 4])?;
    text.push(12 + prefix.len() as u8)?;
    text.extend_from_slice(prefix)?;
    Ok(text)
}

// What stands after the extranonce.
fn suffix_of(
    alloc: Global,
    sequence: u32,
    count: usize,
    outputs: &[u8],
    lock_time: u32,
) -> Result<Vec<u8>, AllocError>
    ensures { IfOk result (λ v. v.items ≡ parts.suffix_of sequence count outputs.now lock_time) }
{
    let mut text = Vec::new(alloc);
    text.extend_from_slice(&sequence.to_le_bytes())?;
    put_compact(&mut text, count)?;
    text.extend_from_slice(outputs)?;
    text.extend_from_slice(&lock_time.to_le_bytes())?;
    Ok(text)
}

// The pool's output, and then the template's.
fn paid_outputs(alloc: Global, recipe: &Recipe, script: &[u8]) -> Result<Vec<u8>, AllocError>
    ensures { IfOk result (λ v. v.items ≡
        output_bytes (coin.pool_output recipe.now.reward script.now) ++ recipe.now.outputs.now) }
{
    let mut text = Vec::new(alloc);
    text.extend_from_slice(&recipe.reward.to_le_bytes())?;
    put_sized(&mut text, script)?;
    text.extend_from_slice(recipe.outputs)?;
    Ok(text)
}

// A template's outputs, which are as many as it says.
fn said_outputs(alloc: Global, recipe: &Recipe) -> Result<Vec<TxOut>, AssemblyError>
    ensures said { MatchResult result (λ v. coin.outputs_said (terms_of recipe.now) ≡ Ok v.items)
        (λ e. Refuses e (coin.outputs_said (terms_of recipe.now))) }
    ensures read { IfOk result (λ v. outputs_of recipe.now.outputs.now ≡ Ok v.items) }
{
    let outputs = match outputs::outputs_of(alloc, recipe.outputs) {
        Ok(outputs) => outputs,
        Err(Broken::At(at)) => return Err(AssemblyError::BadOutputs(at)),
        Err(Broken::Memory) => return Err(AssemblyError::Memory),
    };
    if outputs.len() != recipe.outputs_count as usize {
        return Err(AssemblyError::CountDiffers(recipe.outputs_count, outputs.len()));
    }
    Ok(outputs)
}

// Whether one of the outputs has a witness commitment.
fn has_commitment(outputs: &[TxOut]) -> bool
    ensures { result ≡ list_any commits outputs.now }
{
    outputs.iter().any(is_commitment)
}

fn is_commitment(output: &TxOut) -> bool
    ensures { result ≡ commits output.now }
{
    output
        .script
        .bytes()
        .starts_with(&[0x6a, 0x24, 0xaa, 0x21, 0xa9, 0xed])
}

// A miner's outputs, all of which pay to the pool's script.
fn paying_outputs(
    alloc: Global,
    recipe: &CustomRecipe,
    script: &[u8],
) -> Result<Vec<TxOut>, OutputsError>
    ensures paying { MatchResult result
        (λ v. custom.paying_outputs (custom_terms_of recipe.now) script.now ≡ Ok v.items)
        (λ e. RefusesOutputs e (custom.paying_outputs (custom_terms_of recipe.now) script.now)) }
    ensures read { IfOk result (λ v. outputs_of recipe.now.outputs.now ≡ Ok v.items) }
{
    if recipe.outputs.len() > 1024 {
        return Err(OutputsError::TooLong(recipe.outputs.len()));
    }
    let outputs = match outputs::outputs_of(alloc, recipe.outputs) {
        Ok(outputs) => outputs,
        Err(Broken::At(at)) => return Err(OutputsError::BadOutputs(at)),
        Err(Broken::Memory) => return Err(OutputsError::Memory),
    };
    if outputs.is_empty() {
        return Err(OutputsError::NoOutputs);
    }
    if let Some(index) = first_foreign(&outputs, script) {
        return Err(OutputsError::ForeignOutput(index));
    }
    Ok(outputs)
}

// The first output that pays to another script than the pool's.
fn first_foreign(outputs: &[TxOut], script: &[u8]) -> Option<usize>
    ensures { result ≡ position (custom.is_foreign script.now) outputs.now }
{
    outputs.iter().position(|output| is_foreign(output, script))
}

fn is_foreign(output: &TxOut, script: &[u8]) -> bool
    ensures { result ≡ custom.is_foreign script.now output.now }
{
    output.value > 0 && output.script.bytes() != script
}

// What outputs pay together.
fn total(outputs: &[TxOut]) -> u128
    ensures { result ≡ custom.total outputs.now }
{
    let mut total = 0;
    for output in outputs {
        total += u128::from(output.value);
    }
    total
}
