//! The errors of Stratum V1.

ghost use Rattle.std.specs.Prelude.{◌≡◌};
ghost use Rattle.v1_lines.specs.Errors.{error_for_code, error_number, error_text};

/// Why a request is refused.
#[derive(Clone, Copy)]
pub enum V1Error {
    MalformedRequest,
    UnknownMethod,
    AlreadySubscribed,
    JobNotFound,
    DuplicateShare,
    LowDifficultyShare,
    UnauthorizedWorker,
    NotSubscribed,
}

impl V1Error {
    /// The number of the error: 21 to 25, or 20 for what has none of its own.
    pub fn number(self) -> u64
        ensures { result ≡ error_number self }
    {
        match self {
            V1Error::MalformedRequest | V1Error::UnknownMethod | V1Error::AlreadySubscribed => 20,
            V1Error::JobNotFound => 21,
            V1Error::DuplicateShare => 22,
            V1Error::LowDifficultyShare => 23,
            V1Error::UnauthorizedWorker => 24,
            V1Error::NotSubscribed => 25,
        }
    }

    /// What the error says.
    pub fn text(self) -> &'static str
        ensures { result.now ≡ error_text self }
    {
        match self {
            V1Error::MalformedRequest => "malformed request",
            V1Error::UnknownMethod => "unknown method",
            V1Error::AlreadySubscribed => "already subscribed",
            V1Error::JobNotFound => "job not found",
            V1Error::DuplicateShare => "duplicate share",
            V1Error::LowDifficultyShare => "low difficulty share",
            V1Error::UnauthorizedWorker => "unauthorized worker",
            V1Error::NotSubscribed => "not subscribed",
        }
    }

    /// The error that an error code of Stratum V2 becomes, where there is one with a number of its
    /// own.
    #[tactic(auto, unfolding(crate::specs::Errors::error_for_code))]
    pub fn for_code(code: &str) -> Option<V1Error>
        ensures { result ≡ error_for_code code.now }
    {
        match code {
            "invalid-job-id" | "stale-share" => Some(V1Error::JobNotFound),
            "duplicate-share" => Some(V1Error::DuplicateShare),
            "difficulty-too-low" => Some(V1Error::LowDifficultyShare),
            "invalid-channel-id" => Some(V1Error::NotSubscribed),
            _ => None,
        }
    }
}
