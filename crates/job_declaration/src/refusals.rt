//! Why a declaration is refused.

ghost use Rattle.std.specs.Prelude.{◌≡◌, ◌≤◌, length};
ghost use Rattle.job_declaration.specs.Codes.{declare_code};

/// Why a declaration is refused. Where several reasons hold, the first in this order is told.
#[derive(Clone, Copy)]
pub enum DeclareError {
    /// No token that the session was given when it asked for one.
    Token,
    /// No coinbase round twelve bytes of extranonce.
    Coinbase,
    /// Not the transactions that it was asked for.
    Transactions,
    /// The pool grants no more tokens.
    TooManyGrants,
}

impl DeclareError {
    /// The code that is sent.
    pub fn code(self) -> &'static str
        ensures code { result.now ≡ declare_code self }
        ensures short { length result.now ≤ 255 }
    {
        match self {
            DeclareError::Token => "invalid-mining-job-token",
            DeclareError::Coinbase => "invalid-coinbase",
            DeclareError::Transactions => "invalid-transactions",
            DeclareError::TooManyGrants => "too-many-grants",
        }
    }
}
