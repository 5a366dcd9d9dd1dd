//! What a session may ask for.

ghost use Rattle.std.specs.Prelude.{◌≡◌};
ghost use Rattle.pool_history.specs.declared.events.Kind.TheVariants.{Standard};

use crate::events::{Kind, Role};
use crate::shares::{Checked, Submission};
use crate::templates::{CustomData, TemplateData, TipData};
use sv2_types::{Hashes, Str255, U256};

/// An opening of a channel (Stratum V2, "OpenStandardMiningChannel" and
/// "OpenExtendedMiningChannel").
#[derive(Drop)]
pub struct OpenAsk {
    pub kind: Kind,
    /// The user; its account is the part before the first point.
    pub identity: Str255,
    pub max_target: U256,
    /// How many bytes the miner wants to roll, 0 for a standard channel.
    pub min_size: u16,
    ghost standard_rolls_none: { kind ≡ Standard → min_size ≡ 0 },
}

/// One request of a worker.
#[derive(Drop)]
pub enum Request {
    /// A session begins, with the flags of its setup.
    Enter(Role, u32),
    Leave,
    Template(TemplateData),
    Tip(TipData),
    Open(OpenAsk),
    /// The user of a channel.
    Name(u32, Str255),
    /// A channel's maximum target.
    Update(u32, U256),
    Close(u32),
    /// What is needed to compute the header of this submission.
    Brief(Submission),
    /// A submission with its header is to be booked.
    Commit(Checked),
    /// What is owed since this place of the history.
    Poll(u64),
    /// A token for a user's own jobs, and the merkle path that they have to have, if any.
    Grant(Str255, Option<Hashes>),
    Custom(CustomData),
}
