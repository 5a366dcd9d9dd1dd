//! The methods of Stratum V1 that a miner calls.

ghost use Rattle.std.specs.Prelude.{◌≡◌};
ghost use Rattle.v1_translate.specs.Lines.{method_of};

/// What a request asks.
#[derive(Clone, Copy)]
pub enum Method {
    Configure,
    Subscribe,
    Authorize,
    SuggestDifficulty,
    SubscribeExtranonce,
    Submit,
    /// Any other.
    Unknown,
}

impl Method {
    /// The method of this name.
    #[tactic(auto, unfolding(crate::specs::Lines::method_of))]
    pub fn of(name: &str) -> Method
        ensures { result ≡ method_of name.now }
    {
        match name {
            "mining.configure" => Method::Configure,
            "mining.subscribe" => Method::Subscribe,
            "mining.authorize" => Method::Authorize,
            "mining.suggest_difficulty" => Method::SuggestDifficulty,
            "mining.extranonce.subscribe" => Method::SubscribeExtranonce,
            "mining.submit" => Method::Submit,
            _ => Method::Unknown,
        }
    }
}
