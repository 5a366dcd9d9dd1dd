//! The outputs that a coinbase is to have.

ghost use Rattle.std.specs.Prelude.{◌≡◌, ◌<◌, length, Ok, IfOk, MatchResult};
ghost use Rattle.coinbase.specs.Broken.{ReadsNoOutput, EndsOutputs};
ghost use Rattle.coinbase.specs.Cursors.{place_of};
ghost use Rattle.coinbase.specs.Outputs as outputs;
ghost use Rattle.coinbase.specs.Reading as reading;
ghost use Rattle.coinbase.specs.declared.outputs.Broken.TheVariants as broken;

use crate::cursor::Cursor;
use crate::error::TxError;
use crate::reading::output_at;
use crate::tx::TxOut;
use std::alloc::{AllocFailed, Global};

// Why bytes are no outputs.
#[derive(Drop)]
pub(crate) enum Broken {
    // The place at which the first that isn't whole begins.
    At(usize),
    Memory,
}

impl<T: Drop> From<AllocFailed<T>> for Broken {
    ghost from_gives = { λ _ e. e ≡ broken.Memory };

    fn from(_error: AllocFailed<T>) -> Broken {
        Broken::Memory
    }
}

// One output.
fn next_output(alloc: Global, cursor: Cursor) -> Result<(TxOut, Cursor), Broken>
    ensures read { MatchResult result
        (λ x. reading.output_at (place_of cursor.entry) ≡ Ok (x.0, place_of x.1))
        (λ e. ReadsNoOutput e (place_of cursor.entry)) }
    ensures shorter { IfOk result (λ x. length x.1.left.now < length cursor.entry.left.now) }
{
    match output_at(alloc, cursor) {
        Ok(read) => Ok(read),
        Err(TxError::Memory) => Err(Broken::Memory),
        Err(_) => Err(Broken::At(cursor.at)),
    }
}

// The outputs that the bytes are.
pub(crate) fn outputs_of(alloc: Global, bytes: &[u8]) -> Result<Vec<TxOut>, Broken>
    ensures { MatchResult result (λ v. outputs.outputs_of bytes.now ≡ Ok v.items)
        (λ e. EndsOutputs e (outputs.outputs_of bytes.now)) }
{
    let mut outputs = Vec::new(alloc);
    let mut cursor = Cursor::new(bytes);
    while !cursor.is_at_end() {
        let (output, after) = next_output(alloc, cursor)?;
        outputs.push(output)?;
        cursor = after;
    }
    Ok(outputs)
}
