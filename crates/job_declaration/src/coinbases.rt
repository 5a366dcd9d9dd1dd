//! The coinbase of a declaration.

ghost use Rattle.std.specs.Prelude.{◌≡◌, IfOk};
ghost use Rattle.coinbase.specs.Reading.{tx_of};
ghost use Rattle.job_declaration.specs.Declaring as rules;
ghost use Rattle.job_declaration.specs.Declaring.{declared_coinbase};

use coinbase::{Tx, TxError, TxIn};
use std::alloc::{AllocError, Global};

/// Whether the two parts are a coinbase round twelve bytes of extranonce.
pub(crate) fn is_coinbase(alloc: Global, prefix: &[u8], suffix: &[u8]) -> Result<bool, AllocError>
    ensures { IfOk result (λ good. good
        ≡ rules.is_coinbase (tx_of (declared_coinbase prefix.now suffix.now))) }
{
    let mut text = Vec::new(alloc);
    text.extend_from_slice(prefix)?;
    text.extend_from_slice(&[0; 12])?;
    text.extend_from_slice(suffix)?;
    match Tx::read(alloc, &text) {
        Ok(tx) => Ok(are_coinbase_inputs(tx.inputs.items())),
        Err(TxError::Memory) => Err(AllocError),
        Err(_) => Ok(false),
    }
}

fn are_coinbase_inputs(inputs: &[TxIn]) -> bool
    ensures { result ≡ rules.are_coinbase_inputs inputs.now }
{
    match inputs {
        [input] => is_coinbase_input(input),
        _ => false,
    }
}

fn is_coinbase_input(input: &TxIn) -> bool
    ensures { result ≡ rules.is_coinbase_input input.now }
{
    let length = input.script.bytes().len();
    input.previous == [0; 32] && input.index == 0xffff_ffff && 14 <= length && length <= 100
}
