//! Owned copies of the messages that jobs are made of.

ghost use Rattle.std.specs.Prelude.{◌≤◌, length};

use sv2_types::{Blob, Hashes, U256};

/// A template (Stratum V2, "NewTemplate").
#[derive(Drop)]
pub struct TemplateData {
    pub template_id: u64,
    pub future_template: bool,
    pub version: u32,
    pub coinbase_tx_version: u32,
    pub coinbase_prefix: Blob,
    pub coinbase_tx_input_sequence: u32,
    /// In satoshis.
    pub coinbase_tx_value_remaining: u64,
    pub coinbase_tx_outputs_count: u32,
    pub coinbase_tx_outputs: Blob,
    pub coinbase_tx_locktime: u32,
    pub merkle_path: Hashes,
    ghost path_fits: { length merkle_path ≤ 255 },
}

/// A tip (Stratum V2, "SetNewPrevHash" of the template distribution protocol).
#[derive(Clone, Copy)]
pub struct TipData {
    pub template_id: u64,
    pub prev_hash: U256,
    /// In seconds since 1970.
    pub header_timestamp: u32,
    pub nbits: u32,
    pub target: U256,
}

/// A miner's own job (this project's form of Stratum V2, "SetCustomMiningJob"), without the number
/// of its request.
#[derive(Drop)]
pub struct CustomData {
    pub channel_id: u32,
    pub token: Blob,
    pub version: u32,
    pub prev_hash: U256,
    /// In seconds since 1970.
    pub min_ntime: u32,
    pub nbits: u32,
    pub coinbase_tx_version: u32,
    pub coinbase_prefix: Blob,
    pub coinbase_tx_input_sequence: u32,
    pub coinbase_tx_outputs: Blob,
    pub coinbase_tx_locktime: u32,
    pub merkle_path: Hashes,
    ghost path_fits: { length merkle_path ≤ 255 },
}
