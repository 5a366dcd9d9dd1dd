//! What a session asked about last.

use pool_history::{Kind, Submission};

/// What an answer needs of the message that it answers.
#[derive(Clone, Copy)]
pub enum About {
    /// No answer needs anything.
    Nothing,
    /// An opening's request id, and the kind of its channel.
    Opening(u32, Kind),
    /// The channel of an update.
    Channel(u32),
    Share(Submission),
    /// The request id of a token.
    Token(u32),
    /// The channel and the request id of a miner's own job.
    OwnJob(u32, u32),
    /// The request id of an accepted declaration.
    Declared(u32),
}
