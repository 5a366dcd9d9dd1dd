//! What a session's caller is to do.

use sv2_types::Str255;

/// What a session makes of a line, beside the lines that it says.
#[derive(Drop)]
pub enum V1Step {
    /// Nothing is asked of the pool.
    Said,
    /// The frame of a message for the pool was appended.
    Sent,
    /// The pool is asked to give this account to the channel; `V1Session::on_named` takes its
    /// answer.
    Name(Str255),
}
