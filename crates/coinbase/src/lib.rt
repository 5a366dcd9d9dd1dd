//! Bitcoin's transactions, read and written, and the coinbases that the pool makes. It never looks
//! at blocks.
#![tactic(auto)]

mod assembly;
mod cursor;
mod error;
mod laws;
mod outputs;
mod reading;
mod tx;
mod writing;

pub use assembly::{Assembly, CustomRecipe, Recipe};
pub use error::{AssemblyError, OutputsError, TxError};
pub use laws::{
    bytes_are_one_transaction, custom_jobs_make_transactions, outputs_are_broken_where_told,
    outputs_are_read_where_whole, reading_and_writing_agree, templates_make_transactions,
    trailing_bytes_are_counted,
};
pub use tx::{Stack, Tx, TxIn, TxIns, TxOut, TxOuts, Witnesses};
