//! The merkle tree of a block, from the ids of its transactions: the path beside the way from the
//! first of them up to the root. It sees no block and no transaction, and checks no id.
//!
//! What a session that declares jobs makes of what it hears: declarations, the transactions that they
//! lack, and replies of the pool. It holds no session: it is definitions and laws over them.
//!
//! Job declaration, beside the rest of a session: declarations of jobs and the transactions that they
//! lack come in, and answers and requests go out. It reaches no stream, and holds no transaction.
#![tactic(auto)]

mod asked;
mod brought;
mod coinbases;
mod declarer;
mod filling;
mod frames;
mod grants;
mod ids;
mod lacking;
mod laws;
mod paths;
mod refusals;
mod rule_laws;
mod transaction_ids;
mod waiting;

pub use asked::{Asked, Given};
pub use declarer::{Declared, Declarer};
pub use frames::{put_error, put_success};
pub use ids::{Listed, TxIds};
pub use laws::{paths_are_short, paths_lead_to_the_root};
pub use paths::merkle_path;
pub use refusals::DeclareError;
pub use rule_laws::{
    asked_paths_are_of_transactions, given_tokens_were_granted, lists_wait_for_missing,
};
