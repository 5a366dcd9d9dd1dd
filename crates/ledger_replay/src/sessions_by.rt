//! Whether a session may have an event.

ghost use Rattle.std.specs.Prelude.{◌≡◌, List, None};
ghost use Rattle.pool_history.specs.declared.events.Event.{Event};
ghost use Rattle.pool_history.specs.Legal.{within};
ghost use Rattle.pool_history.specs.Sessions.{is_number};
ghost use Rattle.pool_tables.specs.Tables.{ShowsSessions, present_in};
ghost use Rattle.ledger_replay.specs.Rights.{right_test};

use pool_history::Cause;
use pool_tables::{Entered, Sessions};

/// What a session has to be entered with.
#[derive(Clone, Copy)]
pub(crate) enum Right {
    /// Anything.
    Present,
    /// A role that sends templates.
    Feed,
    /// A role that submits shares.
    Mine,
    /// The same, and a setup that asks for jobs of its own.
    SelectWork,
}

/// Why a session may not have an event that wants this right: it isn't present, or it was entered
/// otherwise.
pub(crate) fn session_cause(sessions: &Sessions, right: Right, session: u32) -> Option<Cause>
    ensures { (past : List Event) → ShowsSessions sessions.now past
        → result ≡ within (right_test right) past session None }
{
    let Some(entered) = sessions.entrance(session) else {
        return Some(Cause::NoSession);
    };
    if !is_present_session(sessions, entered.worker, session) {
        return Some(Cause::NoSession);
    }
    if !has_right(entered, right) {
        return Some(Cause::BadRole);
    }
    None
}

/// Whether a session is the worker's present one.
fn is_present_session(sessions: &Sessions, worker: u32, session: u32) -> bool
    ensures { result ≡ is_number session (present_in sessions.now worker) }
{
    match sessions.present(worker) {
        Some(present) => present == session,
        None => false,
    }
}

/// Whether a session was entered with a right.
fn has_right(entered: Entered, right: Right) -> bool
    ensures { result ≡ right_test right entered }
{
    match right {
        Right::Present => true,
        Right::Feed => entered.may_feed(),
        Right::Mine => entered.may_mine(),
        Right::SelectWork => entered.may_select_work(),
    }
}
