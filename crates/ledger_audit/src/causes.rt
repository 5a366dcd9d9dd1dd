//! The words of causes.

ghost use Rattle.std.specs.Prelude.{◌≡◌};
ghost use Rattle.ledger_audit.specs.Lines.{cause_text};

use pool_history::Cause;

/// The word that a cause is printed as; that of a share's condition is its code.
pub fn cause_words(cause: Cause) -> &'static str
    ensures { result.now ≡ cause_text cause }
{
    match cause {
        Cause::BadStart => "bad-start",
        Cause::PoolFull => "pool-full",
        Cause::BadFlags => "bad-flags",
        Cause::NoSession => "no-session",
        Cause::BadRole => "bad-role",
        Cause::BadTemplate => "bad-template",
        Cause::BadTip => "bad-tip",
        Cause::UnknownUser => "unknown-user",
        Cause::BadClass => "bad-class",
        Cause::TooManyChannels => "too-many-channels",
        Cause::BadLead => "bad-lead",
        Cause::BadName => "bad-name",
        Cause::NotOpen => "not-open",
        Cause::Share(failed) => failed.code(),
        Cause::TooManyGrants => "too-many-grants",
        Cause::BadPath => "bad-path",
        Cause::BadToken => "bad-token",
        Cause::StalePrevHash => "stale-prev-hash",
        Cause::BadNtime => "bad-ntime",
        Cause::BadCoinbase => "bad-coinbase",
    }
}
