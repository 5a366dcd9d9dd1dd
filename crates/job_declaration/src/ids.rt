//! The ids of transactions.

/// A transaction by both of its ids, in the order of their bytes.
#[derive(Clone, Copy)]
pub struct TxIds {
    pub wtxid: [u8; 32],
    pub txid: [u8; 32],
}

/// A transaction that a declaration lists, by its witness id; and its id, where it is known.
#[derive(Clone, Copy)]
pub struct Listed {
    pub wtxid: [u8; 32],
    pub txid: Option<[u8; 32]>,
}
