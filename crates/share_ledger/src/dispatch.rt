//! Requests by their kinds.

use crate::planning::Step;
use crate::tables::Tables;
use ledger_records::{answers_can_be_kept, request_fits};
use pool_history::{Reply, Request};
use std::alloc::{AllocError, Global};

impl Tables {
    ghost use Rattle.std.specs.Prelude.{◌≡◌, IfOk};
    ghost use Rattle.pool_history.specs.Answering.{step};
    ghost use Rattle.share_ledger.specs.Planning.{IsReady, IsStep, IsStepWithin, past_in};

    /// How a worker's request is answered, with all the memory that its event takes: all that may
    /// fail, but for keeping it.
    pub(crate) fn prepare(
        &mut self,
        alloc: Global,
        worker: u32,
        request: Request,
    ) -> Result<Step, AllocError>
        ensures same { self.new.history.events ≡ self.old.history.events }
        ensures step { IfOk result (IsStep self.new (step (past_in self.old) worker request)) }
        ensures ready { IfOk result (IsReady self.new) }
    {
        request_fits(&request);
        answers_can_be_kept();
        self.are_kept();
        self.reserve()?;
        self.plan(alloc, worker, request)
    }

    /// How it is answered where there is room for one event.
    fn plan(&mut self, alloc: Global, worker: u32, request: Request) -> Result<Step, AllocError>
        ensures same { self.new.history ≡ self.old.history }
        ensures step { IfOk result (IsStep self.new (step (past_in self.old) worker request)) }
    {
        if let Request::Enter(role, flags) = request {
            return self.plan_enter(worker, role, flags);
        }
        match self.session_for(worker, &request) {
            Some(session) => self.plan_within(alloc, session, request),
            None => Ok(Step::Answer(Reply::NoSession)),
        }
    }

    /// How a request of a session is answered.
    fn plan_within(
        &mut self,
        alloc: Global,
        session: u32,
        request: Request,
    ) -> Result<Step, AllocError>
        ensures same { self.new.history ≡ self.old.history }
        ensures step { IfOk result (IsStepWithin self.old self.new session request) }
    {
        match request {
            Request::Enter(..) => Ok(Step::Answer(Reply::NoSession)),
            Request::Leave => Ok(self.plan_leave(session)),
            Request::Template(template) => self.plan_template(alloc, session, template),
            Request::Tip(tip) => self.plan_tip(alloc, session, tip),
            Request::Open(ask) => self.plan_open(alloc, session, ask),
            Request::Name(channel, identity) => self.plan_name(alloc, session, channel, identity),
            Request::Update(channel, target) => self.plan_update(session, channel, target),
            Request::Close(channel) => Ok(self.plan_close(session, channel)),
            Request::Brief(sub) => self.brief(session, sub),
            Request::Commit(checked) => self.plan_commit(alloc, session, checked),
            Request::Poll(from) => self.poll(session, from),
            Request::Grant(identity, path) => self.plan_grant(alloc, session, identity, path),
            Request::Custom(custom) => self.plan_custom(alloc, session, custom),
        }
    }
}
