//! Tokens, and what was asked of the pool.

use sv2_types::Str255;

/// A token that the session was given.
#[derive(Drop)]
pub struct Given {
    /// The number of its Grant, which is the token.
    pub number: u64,
    /// Whose it is.
    pub identity: Str255,
}

/// What was asked of the pool last that is answered with a token.
#[derive(Drop)]
pub enum Asked {
    Nothing,
    /// A token for this user.
    Token(Str255),
    /// The token of a declaration, by its request id.
    Declared(u32),
}
