//! Bitcoin's block header: its bytes, its hash and the tests on the hash. It takes no memory.
#![tactic(auto)]

mod hash;
mod header;
mod merkle;
mod target;

pub use hash::{dsha, meets_class};
pub use header::Header;
pub use merkle::root_of;
pub use target::{
    class_of_target, class_of_target_of_class, meets_class_is_meets_target, meets_target, target_of,
};
