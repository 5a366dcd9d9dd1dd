//! The common messages and those of the mining protocol, from their payloads and as frames. It
//! takes no memory to read, and it knows no order in which messages come.
#![tactic(auto)]

mod channels;
mod custom_jobs;
mod jobs;
mod message;
mod plain_setup;
mod reading;
mod setup;
mod shares;

pub use channels::{
    CloseChannel, OpenExtendedMiningChannel, OpenExtendedMiningChannelSuccess,
    OpenMiningChannelError, OpenStandardMiningChannel, OpenStandardMiningChannelSuccess,
    SetExtranoncePrefix, SetTarget, UpdateChannel, UpdateChannelError,
};
pub use custom_jobs::{SetCustomMiningJob, SetCustomMiningJobError, SetCustomMiningJobSuccess};
pub use jobs::{NewExtendedMiningJob, NewMiningJob, SetNewPrevHash};
pub use message::Mining;
pub use plain_setup::put_plain_setup;
pub use reading::read;
pub use setup::{SetupConnection, SetupConnectionError, SetupConnectionSuccess};
pub use shares::{
    SubmitSharesError, SubmitSharesExtended, SubmitSharesStandard, SubmitSharesSuccess,
};
pub use sv2_messages::MsgError;
