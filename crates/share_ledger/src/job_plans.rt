//! Templates and tips.

use crate::planning::{Change, Planned, Step};
use crate::tables::Tables;
use pool_history::{Boxed, Event, JobError, Reply, TemplateData, TipData};
use std::alloc::{AllocError, Global};
use template_jobs::histories_are_read;

impl Tables {
    ghost use Rattle.std.specs.Prelude.{◌≡◌, IfOk};
    ghost use Rattle.pool_history.specs.declared.asking.Request.TheVariants as request;
    ghost use Rattle.share_ledger.specs.Planning.{IsStepWithin};

    /// A template that comes.
    pub(crate) fn plan_template(
        &mut self,
        alloc: Global,
        session: u32,
        template: TemplateData,
    ) -> Result<Step, AllocError>
        ensures same { self.new.history ≡ self.old.history }
        ensures step { IfOk result
            (IsStepWithin self.old self.new session (request.Template template)) }
    {
        histories_are_read();
        let at = self.history.len();
        let number = self.jobs.count() + 1;
        let script = self.history.rules().pool_script.bytes();
        match self.jobs.plan_template(session, at, &template, script) {
            Ok(plan) => Ok(Step::Move(Planned {
                event: Event::Template {
                    session,
                    template: Boxed::new(alloc, template)?,
                },
                change: Change::Template(plan),
                reply: Reply::Job(number),
            })),
            Err(JobError::Memory) => Err(AllocError),
            Err(refusal) => Ok(Step::Answer(Reply::TemplateRefused(refusal))),
        }
    }

    /// A tip that comes.
    pub(crate) fn plan_tip(
        &self,
        alloc: Global,
        session: u32,
        tip: TipData,
    ) -> Result<Step, AllocError>
        ensures { IfOk result (IsStepWithin self.now self.now session (request.Tip tip)) }
    {
        match self.jobs.future_of(tip.template_id) {
            Some(number) => Ok(Step::Move(Planned {
                event: Event::Tip {
                    session,
                    tip: Boxed::new(alloc, copy_of(&tip))?,
                },
                change: Change::Tip(tip),
                reply: Reply::Job(number),
            })),
            None => Ok(Step::Answer(Reply::TemplateRefused(JobError::UnknownTemplate(
                tip.template_id,
            )))),
        }
    }
}

ghost use Rattle.std.specs.Prelude.{◌≡◌};

/// A tip once more.
fn copy_of(tip: &TipData) -> TipData
    ensures { result ≡ tip.now }
{
    *tip
}
