//! Why a miner is refused.

ghost use Rattle.std.specs.Prelude.{◌≡◌};
ghost use Rattle.proxy_rules.specs.Refusals.{code_of};

/// Why a proxy refuses a subscribe or a submission.
#[derive(Clone, Copy)]
pub enum ProxyRefusal {
    /// No channel is open that serves, or it is no more.
    NoUpstream,
    /// Each lead is held.
    NoSpace,
    /// The extranonce has not the bytes that are rolled.
    WrongSize,
    UpstreamLost,
    /// The sequence numbers are used up.
    TooManyShares,
}

impl ProxyRefusal {
    /// The code that the miner is told.
    pub fn code(self) -> &'static str
        ensures { result.now ≡ code_of self }
    {
        match self {
            ProxyRefusal::NoUpstream => "no upstream",
            ProxyRefusal::NoSpace => "no-extranonce-space",
            ProxyRefusal::WrongSize => "invalid-extranonce-size",
            ProxyRefusal::UpstreamLost => "upstream lost",
            ProxyRefusal::TooManyShares => "too many shares",
        }
    }
}
