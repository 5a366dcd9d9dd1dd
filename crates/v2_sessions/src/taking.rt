//! Which kinds of frame a session takes.

ghost use Rattle.std.specs.Prelude.{◌≡◌};
ghost use Rattle.pool_history.specs.Sessions.{feeds, mines};
ghost use Rattle.pool_history.specs.Legal.{selects_work};
ghost use Rattle.session_steps.specs.Taken.{brings_own_jobs, is_declared_kind, is_feeds_kind, is_miners_kind, is_own_jobs_kind, is_setup_kind, is_work_kind, takes_kind};

use pool_history::Role;
use sv2_messages::kinds;

/// The bit of REQUIRES_WORK_SELECTION.
const WORK_SELECTION: u32 = 1;

/// Whether a session of this role, with the flags of its setup, takes frames of this kind.
pub(crate) fn takes_kind(role: Role, flags: Option<u32>, kind: u8) -> bool
    ensures { result ≡ takes_kind role flags kind }
{
    is_work_kind(role, kind)
        || flags.is_none() && is_setup_kind(role, kind)
        || is_own_jobs_kind(kind) && brings_own_jobs(role, flags)
}

fn mines(role: Role) -> bool
    ensures { result ≡ mines role }
{
    match role {
        Role::Miner | Role::Solo => true,
        Role::Feed => false,
    }
}

fn feeds(role: Role) -> bool
    ensures { result ≡ feeds role }
{
    match role {
        Role::Feed | Role::Solo => true,
        Role::Miner => false,
    }
}

fn is_miners_kind(kind: u8) -> bool
    ensures { result ≡ is_miners_kind kind }
{
    kind == kinds::OPEN_STANDARD_MINING_CHANNEL
        || kind == kinds::OPEN_EXTENDED_MINING_CHANNEL
        || kind == kinds::UPDATE_CHANNEL
        || kind == kinds::CLOSE_CHANNEL
        || kind == kinds::SUBMIT_SHARES_STANDARD
        || kind == kinds::SUBMIT_SHARES_EXTENDED
}

pub(crate) fn is_feeds_kind(kind: u8) -> bool
    ensures { result ≡ is_feeds_kind kind }
{
    kind == kinds::NEW_TEMPLATE || kind == kinds::TEMPLATE_SET_NEW_PREV_HASH
}

/// Declarations, and the transactions that they lack.
pub(crate) fn is_declared_kind(kind: u8) -> bool
    ensures { result ≡ is_declared_kind kind }
{
    kind == kinds::DECLARE_MINING_JOB || kind == kinds::PROVIDE_MISSING_TRANSACTIONS_SUCCESS
}

fn is_own_jobs_kind(kind: u8) -> bool
    ensures { result ≡ is_own_jobs_kind kind }
{
    kind == kinds::SET_CUSTOM_MINING_JOB || kind == kinds::ALLOCATE_MINING_JOB_TOKEN
}

fn is_work_kind(role: Role, kind: u8) -> bool
    ensures { result ≡ is_work_kind role kind }
{
    is_miners_kind(kind) && mines(role) || is_feeds_kind(kind) && feeds(role)
}

fn is_setup_kind(role: Role, kind: u8) -> bool
    ensures { result ≡ is_setup_kind role kind }
{
    let is_answer = kind == kinds::SETUP_CONNECTION_SUCCESS
        || kind == kinds::SETUP_CONNECTION_ERROR;
    kind == kinds::SETUP_CONNECTION && mines(role) || is_answer && !mines(role)
}

#[tactic(auto, using(std::proofs::lemmas::Nat::Bits::shr_and_one))]
pub(crate) fn brings_own_jobs(role: Role, flags: Option<u32>) -> bool
    ensures { result ≡ brings_own_jobs role flags }
{
    match flags {
        Some(flags) => mines(role) && flags >> WORK_SELECTION & 1 == 1,
        None => false,
    }
}
