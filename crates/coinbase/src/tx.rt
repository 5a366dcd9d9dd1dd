//! A transaction and its parts.

ghost use Rattle.std.specs.Prelude.{◌≡◌};

use crate::error::TxError;
use crate::{reading, writing};
use block_header::dsha;
use std::alloc::{AllocError, Global};
use std::marker::Model;
use sv2_types::Blob;

/// An input: which output it spends, and how.
#[derive(Drop)]
pub struct TxIn {
    /// The id of the transaction whose output it spends, in the order of its bytes.
    pub previous: [u8; 32],
    pub index: u32,
    pub script: Blob,
    pub sequence: u32,
}

/// An output.
#[derive(Drop)]
pub struct TxOut {
    /// In satoshis.
    pub value: u64,
    pub script: Blob,
}

/// The inputs of a transaction, which contracts see as a list.
#[derive(Drop)]
pub struct TxIns {
    items: Vec<TxIn>,
}

/// The outputs of a transaction, which contracts see as a list.
#[derive(Drop)]
pub struct TxOuts {
    items: Vec<TxOut>,
}

/// The witness of one input: its items, which contracts see as a list.
#[derive(Drop)]
pub struct Stack {
    items: Vec<Blob>,
}

/// The witnesses of a transaction, one for each input, which contracts see as a list.
#[derive(Drop)]
pub struct Witnesses {
    items: Vec<Stack>,
}

/// A transaction. It has no witnesses where it is written without marker and flag (BIP 144).
#[derive(Drop)]
pub struct Tx {
    pub version: u32,
    pub inputs: TxIns,
    pub outputs: TxOuts,
    pub witnesses: Witnesses,
    pub lock_time: u32,
}

impl Model for TxIns {
    ghost use Rattle.std.specs.Prelude.{List};
    ghost use Rattle.coinbase.specs.declared.tx.TxIn.{TxIn};

    ghost Value = { List TxIn };

    ghost view = { λ owned. owned.items.items };
}

impl Model for TxOuts {
    ghost use Rattle.std.specs.Prelude.{List};
    ghost use Rattle.coinbase.specs.declared.tx.TxOut.{TxOut};

    ghost Value = { List TxOut };

    ghost view = { λ owned. owned.items.items };
}

impl Model for Stack {
    ghost use Rattle.std.specs.Prelude.{List, ℕ};

    ghost Value = { List (List ℕ) };

    ghost view = { λ owned. owned.items.items };
}

impl Model for Witnesses {
    ghost use Rattle.std.specs.Prelude.{List, ℕ};

    ghost Value = { List (List (List ℕ)) };

    ghost view = { λ owned. owned.items.items };
}

impl TxIns {
    /// The inputs themselves, which takes no memory.
    pub fn from_vec(items: Vec<TxIn>) -> TxIns
        ensures { result ≡ items.items }
    {
        TxIns { items }
    }

    pub fn items(&self) -> &[TxIn]
        ensures { result.now ≡ self.now }
    {
        self.items.as_slice()
    }

    pub fn into_vec(self) -> Vec<TxIn>
        ensures { result.items ≡ self }
    {
        self.items
    }

    pub(crate) fn allocator(&self) -> Global {
        *self.items.allocator()
    }
}

impl TxOuts {
    /// The outputs themselves, which takes no memory.
    pub fn from_vec(items: Vec<TxOut>) -> TxOuts
        ensures { result ≡ items.items }
    {
        TxOuts { items }
    }

    pub fn items(&self) -> &[TxOut]
        ensures { result.now ≡ self.now }
    {
        self.items.as_slice()
    }

    pub fn into_vec(self) -> Vec<TxOut>
        ensures { result.items ≡ self }
    {
        self.items
    }
}

impl Stack {
    /// The items themselves, which takes no memory.
    pub fn from_vec(items: Vec<Blob>) -> Stack
        ensures { result ≡ items.items }
    {
        Stack { items }
    }

    pub fn items(&self) -> &[Blob]
        ensures { result.now ≡ self.now }
    {
        self.items.as_slice()
    }

    pub fn into_vec(self) -> Vec<Blob>
        ensures { result.items ≡ self }
    {
        self.items
    }
}

impl Witnesses {
    /// The witnesses themselves, which takes no memory.
    pub fn from_vec(items: Vec<Stack>) -> Witnesses
        ensures { result ≡ items.items }
    {
        Witnesses { items }
    }

    pub fn items(&self) -> &[Stack]
        ensures { result.now ≡ self.now }
    {
        self.items.as_slice()
    }

    pub fn into_vec(self) -> Vec<Stack>
        ensures { result.items ≡ self }
    {
        self.items
    }
}

impl Tx {
    ghost use Rattle.std.specs.Prelude.{◌≡◌, ◌++◌, IfOk, OnOk, OnErr, Ok};
    ghost use Rattle.coinbase.specs.declared.tx.Tx.{Tx};
    ghost use Rattle.coinbase.specs.Form as form;
    ghost use Rattle.coinbase.specs.Form.{TxOf, tx_bytes};
    ghost use Rattle.coinbase.specs.Reading.{ReadsTx, tx_of};

    /// Reads a whole transaction. An error says the first defect, and where its field begins.
    pub fn read(alloc: Global, bytes: &[u8]) -> Result<Tx, TxError>
        // What is read is written so.
        ensures found { IfOk result (λ tx. TxOf tx bytes.now) }
        // What is written so is read, unless memory runs out.
        ensures only { (tx : Tx) → TxOf tx bytes.now → ReadsTx result (Ok tx) }
        // Which defect it is.
        ensures exact { ReadsTx result (tx_of bytes.now) }
    {
        reading::tx_of(alloc, bytes)
    }

    /// Appends the transaction, with its witnesses where it has some.
    pub fn write(&self, out: &mut Vec<u8>) -> Result<(), AllocError>
        ensures ok { OnOk result (out.new.items ≡ out.old.items ++ tx_bytes self.now) }
        ensures err { OnErr result (out.new.items ≡ out.old.items) }
    {
        let mut text = Vec::new(self.inputs.allocator());
        writing::put_tx(&mut text, self)?;
        out.extend_from_slice(&text)
    }

    /// The transaction's id, in the order of its bytes. Witnesses don't change it (BIP 141).
    pub fn txid(&self) -> Result<[u8; 32], AllocError>
        ensures { IfOk result (λ id. id ≡ form.txid self.now) }
    {
        let mut text = Vec::new(self.inputs.allocator());
        writing::put_without_witness(&mut text, self)?;
        Ok(dsha(&text))
    }

    /// The transaction's witness id, in the order of its bytes (BIP 141).
    pub fn wtxid(&self) -> Result<[u8; 32], AllocError>
        ensures { IfOk result (λ id. id ≡ form.wtxid self.now) }
    {
        let mut text = Vec::new(self.inputs.allocator());
        writing::put_tx(&mut text, self)?;
        Ok(dsha(&text))
    }
}
