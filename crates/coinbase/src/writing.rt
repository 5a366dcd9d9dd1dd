//! Transactions as bytes.

ghost use Rattle.std.specs.Prelude.{◌≡◌, ℕ, List, ◌++◌, OnOk};
ghost use Rattle.coinbase.specs.Compact.{compact, sized_bytes};
ghost use Rattle.coinbase.specs.Form.{input_bytes, output_bytes, stack_bytes, counted_bytes, body_bytes, tx_bytes, with_witness, without_witness};
ghost use Rattle.std.specs.List.{flat_map};

use crate::tx::{Stack, Tx, TxIn, TxOut};
use std::alloc::AllocError;
use sv2_types::Blob;

// Appends a compact size in its shortest spelling.
#[tactic(auto, unfolding(crate::specs::Compact::compact))]
pub(crate) fn put_compact(out: &mut Vec<u8>, size: usize) -> Result<(), AllocError>
    ensures { OnOk result (out.new.items ≡ out.old.items ++ compact size) }
{
    if size < 253 {
        out.push(size as u8)?;
    } else if size < 0x1_0000 {
        out.push(253)?;
        out.extend_from_slice(&(size as u16).to_le_bytes())?;
    } else if size < 0x1_0000_0000 {
        out.push(254)?;
        out.extend_from_slice(&(size as u32).to_le_bytes())?;
    } else {
        out.push(255)?;
        out.extend_from_slice(&(size as u64).to_le_bytes())?;
    }
    Ok(())
}

// Appends bytes behind their number.
pub(crate) fn put_sized(out: &mut Vec<u8>, bytes: &[u8]) -> Result<(), AllocError>
    ensures { OnOk result (out.new.items ≡ out.old.items ++ sized_bytes bytes.now) }
{
    put_compact(out, bytes.len())?;
    out.extend_from_slice(bytes)?;
    Ok(())
}

// What a transaction has many of, as it is written.
trait Written {
    ghost text_of: { Self → List ℕ };

    fn put(&self, out: &mut Vec<u8>) -> Result<(), AllocError>
        ensures { OnOk result (out.new.items ≡ out.old.items ++ text_of self.now) };
}

impl Written for TxIn {
    ghost text_of = { input_bytes };

    fn put(&self, out: &mut Vec<u8>) -> Result<(), AllocError> {
        out.extend_from_slice(&self.previous)?;
        out.extend_from_slice(&self.index.to_le_bytes())?;
        put_sized(out, self.script.bytes())?;
        out.extend_from_slice(&self.sequence.to_le_bytes())?;
        Ok(())
    }
}

impl Written for TxOut {
    ghost text_of = { output_bytes };

    fn put(&self, out: &mut Vec<u8>) -> Result<(), AllocError> {
        out.extend_from_slice(&self.value.to_le_bytes())?;
        put_sized(out, self.script.bytes())?;
        Ok(())
    }
}

impl Written for Blob {
    ghost text_of = { sized_bytes };

    fn put(&self, out: &mut Vec<u8>) -> Result<(), AllocError> {
        put_sized(out, self.bytes())
    }
}

impl Written for Stack {
    ghost text_of = { stack_bytes };

    fn put(&self, out: &mut Vec<u8>) -> Result<(), AllocError> {
        put_counted(out, self.items())
    }
}

// Appends one after the other.
fn put_all<T: Written>(out: &mut Vec<u8>, parts: &[T]) -> Result<(), AllocError>
    ensures { OnOk result (out.new.items ≡ out.old.items ++ flat_map T.text_of parts.now) }
{
    for part in parts {
        part.put(out)?;
    }
    Ok(())
}

// Appends how many there are, and each.
fn put_counted<T: Written>(out: &mut Vec<u8>, parts: &[T]) -> Result<(), AllocError>
    ensures { OnOk result (out.new.items ≡ out.old.items ++ counted_bytes T.text_of parts.now) }
{
    put_compact(out, parts.len())?;
    put_all(out, parts)?;
    Ok(())
}

// Appends inputs and outputs.
fn put_body(out: &mut Vec<u8>, tx: &Tx) -> Result<(), AllocError>
    ensures { OnOk result (out.new.items ≡ out.old.items ++ body_bytes tx.now) }
{
    put_counted(out, tx.inputs.items())?;
    put_counted(out, tx.outputs.items())?;
    Ok(())
}

// Appends the form without marker, flag and witnesses.
pub(crate) fn put_without_witness(out: &mut Vec<u8>, tx: &Tx) -> Result<(), AllocError>
    ensures { OnOk result (out.new.items ≡ out.old.items ++ without_witness tx.now) }
{
    out.extend_from_slice(&tx.version.to_le_bytes())?;
    put_body(out, tx)?;
    out.extend_from_slice(&tx.lock_time.to_le_bytes())?;
    Ok(())
}

// Appends the form with them.
fn put_with_witness(out: &mut Vec<u8>, tx: &Tx) -> Result<(), AllocError>
    ensures { OnOk result (out.new.items ≡ out.old.items ++ with_witness tx.now) }
{
    out.extend_from_slice(&tx.version.to_le_bytes())?;
    out.extend_from_slice(&[0, 1])?;
    put_body(out, tx)?;
    put_all(out, tx.witnesses.items())?;
    out.extend_from_slice(&tx.lock_time.to_le_bytes())?;
    Ok(())
}

// Appends the form that the transaction is written in.
pub(crate) fn put_tx(out: &mut Vec<u8>, tx: &Tx) -> Result<(), AllocError>
    ensures { OnOk result (out.new.items ≡ out.old.items ++ tx_bytes tx.now) }
{
    if tx.witnesses.items().is_empty() {
        put_without_witness(out, tx)
    } else {
        put_with_witness(out, tx)
    }
}
