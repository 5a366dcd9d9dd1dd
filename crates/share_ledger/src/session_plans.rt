//! Sessions that begin, leave and ask for news.

use crate::planning::{Change, Planned, Step};
use crate::tables::Tables;
use pool_history::{Event, Reply, Request, Role, SessionNumber};
use pool_tables::Entered;
use std::alloc::AllocError;

/// The most Enter events of a history.
const MOST_ENTERS: u32 = 1 << 22;

impl Tables {
    ghost use Rattle.std.specs.Prelude.{◌≡◌, None, Some, IfOk, IfSome};
    ghost use Rattle.pool_history.specs.declared.asking.Request.TheVariants as request;
    ghost use Rattle.pool_history.specs.declared.replies.Reply.TheVariants as reply;
    ghost use Rattle.pool_history.specs.Answering.{without_event};
    ghost use Rattle.pool_history.specs.Sessions.{present, rules_of};
    ghost use Rattle.share_ledger.specs.Planning.{IsStep, IsStepWithin, step_within, past_in};
    ghost use Rattle.share_ledger.specs.Asking.{step_entering, step_present};

    /// A session that begins.
    pub(crate) fn plan_enter(
        &mut self,
        worker: u32,
        role: Role,
        flags: u32,
    ) -> Result<Step, AllocError>
        ensures same { self.new.history ≡ self.old.history }
        ensures step { IfOk result (IsStep self.new
            (step_entering (rules_of (past_in self.old)) (past_in self.old) worker role flags)) }
    {
        let count = self.sessions.count();
        if count >= MOST_ENTERS {
            return Ok(Step::Answer(Reply::PoolFull(MOST_ENTERS)));
        }
        self.sessions.reserve()?;
        let flags = flags & allowed_flags(self.history.rules().version_rolling);
        Ok(Step::Move(Planned {
            event: Event::Enter {
                worker,
                role,
                flags,
            },
            change: Change::Enter {
                worker,
                role,
                flags,
            },
            reply: Reply::Entered(SessionNumber::of(count)),
        }))
    }

    /// The present session of a worker that may ask this.
    pub(crate) fn session_for(&self, worker: u32, request: &Request) -> Option<u32>
        ensures some { IfSome result (λ session.
            step_present (rules_of (past_in self.now)) (past_in self.now) worker request.now
            ≡ step_within (rules_of (past_in self.now)) (past_in self.now) session request.now) }
        ensures none { result ≡ None
            → step_present (rules_of (past_in self.now)) (past_in self.now) worker request.now
            ≡ without_event reply.NoSession }
    {
        let Some(session) = self.sessions.present(worker) else {
            return None;
        };
        let Some(entered) = self.sessions.entrance(session) else {
            return None;
        };
        if may_ask(request, entered) {
            Some(session)
        } else {
            None
        }
    }

    /// A session that leaves.
    pub(crate) fn plan_leave(&self, session: u32) -> Step
        ensures { IsStepWithin self.now self.now session request.Leave result }
    {
        let _ = &self.history;
        Step::Move(Planned {
            event: Event::Leave { session },
            change: Change::Leave { session },
            reply: Reply::Left,
        })
    }

    /// The news of a session since a place.
    pub(crate) fn poll(&self, session: u32, from: u64) -> Result<Step, AllocError>
        ensures { IfOk result (IsStepWithin self.now self.now session (request.Poll from)) }
    {
        let len = self.history.len();
        let notes = self.history.news(from.min(len), session)?;
        Ok(Step::Answer(Reply::News(len, notes)))
    }
}

ghost use Rattle.std.specs.Prelude.{◌≡◌, if◌then◌else◌};
ghost use Rattle.pool_history.specs.Answering.{permits};

/// The flags of a setup that are acceptable (Stratum V2, "SetupConnection").
fn allowed_flags(version_rolling: bool) -> u32
    ensures { result ≡ (if version_rolling then 7 else 3) }
{
    if version_rolling { 7 } else { 3 }
}

/// Whether a session that was entered so may ask this.
fn may_ask(request: &Request, entered: Entered) -> bool
    ensures { result ≡ permits request.now entered }
{
    match request {
        Request::Enter(..) | Request::Leave | Request::Poll(_) => true,
        Request::Template(_) | Request::Tip(_) => entered.may_feed(),
        Request::Open(_)
        | Request::Name(..)
        | Request::Update(..)
        | Request::Close(_)
        | Request::Brief(_)
        | Request::Commit(_) => entered.may_mine(),
        Request::Grant(..) | Request::Custom(_) => entered.may_select_work(),
    }
}
