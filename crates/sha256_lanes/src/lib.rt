//! SHA-256 (FIPS 180-4) of four messages at once, by vectors of four words: word l of each vector
//! belongs to message l. It hashes nothing whose length it isn't told, and takes memory for what
//! messages have in common alone.
#![tactic(auto)]

mod blocks;
mod common_text;
mod constants;
mod digests;
mod functions;
mod kept;
mod padding;
mod rounds;

pub use common_text::CommonText;
pub use digests::{
    digests_of, double_32, double_64, double_80, initial_hash, pair_of, sha256_32, sha256_64,
    sha256_80,
};
pub use kept::Kept;
pub use rounds::compress;
