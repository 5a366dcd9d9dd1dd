//! What follows from the definitions alone.

ghost use Rattle.std.specs.Prelude.{◌≡◌, ◌<◌, ◌≤◌, ◌↔◌, List, ◌++◌, ℕ, length, Ok, Err};
ghost use Rattle.coinbase.specs.declared.tx.Tx.{Tx};
ghost use Rattle.coinbase.specs.declared.tx.TxOut.{TxOut};
ghost use Rattle.block_header.specs.Hash.{dsha};
ghost use Rattle.coinbase.specs.Coin.{Terms, template_assembly};
ghost use Rattle.coinbase.specs.CoinTx.{AreTerms, AreCustomTerms, template_tx, custom_tx};
ghost use Rattle.coinbase.specs.Custom.{CustomTerms, custom_assembly, total};
ghost use Rattle.coinbase.specs.Form.{IsTx, TxOf, tx_bytes, txid};
ghost use Rattle.coinbase.specs.Outputs.{AreBytes, AreOutputs, FirstBroken, outputs_of};
ghost use Rattle.coinbase.specs.Parts.{Parts, whole, coin};
ghost use Rattle.coinbase.specs.Reading.{tx_of};

use crate::error::TxError;

/// Bytes are one transaction at most.
pub fn bytes_are_one_transaction()
    ensures { (a b : Tx) (bytes : List ℕ) → TxOf a bytes → TxOf b bytes → a ≡ b }
{}

/// What was read is written as it was, and what is written is read again.
pub fn reading_and_writing_agree()
    ensures written { (tx : Tx) (bytes : List ℕ) → AreBytes bytes → tx_of bytes ≡ Ok tx →
        tx_bytes tx ≡ bytes }
    ensures read { (tx : Tx) → IsTx tx → tx_of (tx_bytes tx) ≡ Ok tx }
{}

/// Bytes that follow a transaction are counted, so no transaction begins another.
pub fn trailing_bytes_are_counted()
    ensures { (tx : Tx) (front rest : List ℕ) → TxOf tx front → 0 < length rest →
        tx_of (front ++ rest) ≡ Err (TxError.Trailing (length rest)) }
{}

/// Outputs are read exactly where the bytes are whole outputs.
pub fn outputs_are_read_where_whole()
    ensures { (bytes : List ℕ) (outputs : List TxOut) → AreBytes bytes →
        ((outputs_of bytes ≡ Ok outputs) ↔ AreOutputs outputs bytes) }
{}

/// Otherwise the place is told at which the first that isn't whole begins.
pub fn outputs_are_broken_where_told()
    ensures { (bytes : List ℕ) (at : ℕ) → AreBytes bytes →
        ((outputs_of bytes ≡ Err at) ↔ FirstBroken bytes at) }
{}

/// A template's coinbase is the transaction that it stands for, the pool's output first, and its id
/// is the double hash of the form without witness.
pub fn templates_make_transactions()
    ensures { (terms : Terms) (script extranonce : List ℕ) (parts : Parts) (outputs : List TxOut) →
        AreTerms terms → length script ≤ 100 → length extranonce ≡ 12 →
        template_assembly terms script ≡ Ok parts → outputs_of terms.outputs ≡ Ok outputs →
        TxOf (template_tx terms script extranonce outputs) (whole parts extranonce)
        × (txid (template_tx terms script extranonce outputs) ≡ dsha (coin parts extranonce)) }
{}

/// So is the coinbase of a miner's job, and the reward is what its outputs pay together.
pub fn custom_jobs_make_transactions()
    ensures { (terms : CustomTerms) (script extranonce : List ℕ) (made : Parts × ℕ)
        (outputs : List TxOut) → AreCustomTerms terms → length extranonce ≡ 12 →
        custom_assembly terms script ≡ Ok made → outputs_of terms.outputs ≡ Ok outputs →
        TxOf (custom_tx terms extranonce outputs) (whole made.0 extranonce)
        × (txid (custom_tx terms extranonce outputs) ≡ dsha (coin made.0 extranonce))
        × (made.1 ≡ total outputs) }
{}
