//! Tokens, and the jobs of miners' own that spend them.

use crate::planning::{Change, Planned, Step};
use crate::tables::Tables;
use channels::tables_show_histories;
use coinbase::OutputsError;
use pool_history::{Boxed, CustomData, CustomError, Event, Reply, Script, account_in};
use pool_tables::{grant_refusal_of, own_job_refusal};
use std::alloc::{AllocError, Global};
use sv2_types::{Blob, Hashes, Str255};
use template_jobs::histories_are_read;

impl Tables {
    ghost use Rattle.std.specs.Prelude.{◌≡◌, IfOk};
    ghost use Rattle.pool_history.specs.declared.asking.Request.TheVariants as request;
    ghost use Rattle.share_ledger.specs.Planning.{IsStepWithin};

    /// A token that is asked for.
    pub(crate) fn plan_grant(
        &mut self,
        alloc: Global,
        session: u32,
        identity: Str255,
        path: Option<Hashes>,
    ) -> Result<Step, AllocError>
        ensures same { self.new.history ≡ self.old.history }
        ensures step { IfOk result
            (IsStepWithin self.old self.new session (request.Grant identity path)) }
    {
        let account = account_in(identity.text());
        let (fixed, path) = fixed_path(alloc, path);
        let rules = self.history.rules();
        let count = self.grants.count();
        if let Some(refusal) = grant_refusal_of(rules, count, account, path.items().len()) {
            return Ok(Step::Answer(Reply::GrantRefused(refusal)));
        }
        self.grants.reserve()?;
        let script = Script::of(Blob::of(alloc, rules.pool_script.bytes())?);
        Ok(Step::Move(Planned {
            event: Event::Grant {
                session,
                account: Str255::of(alloc, account)?,
                fixed,
                path: Hashes::of(alloc, path.items())?,
            },
            change: Change::Grant {
                account: Str255::of(alloc, account)?,
                fixed,
                path,
            },
            reply: Reply::Granted(u64::from(count) + 1, script),
        }))
    }

    /// A miner's own job that comes.
    pub(crate) fn plan_custom(
        &mut self,
        alloc: Global,
        session: u32,
        custom: CustomData,
    ) -> Result<Step, AllocError>
        ensures same { self.new.history ≡ self.old.history }
        ensures step { IfOk result
            (IsStepWithin self.old self.new session (request.Custom custom)) }
    {
        tables_show_histories();
        histories_are_read();
        let there = self.channels.own(session, custom.channel_id);
        if let Some(refusal) = own_job_refusal(there, &self.grants, self.jobs.tip(), &custom) {
            return Ok(Step::Answer(Reply::CustomRefused(refusal)));
        }
        let at = self.history.len();
        let number = self.jobs.count() + 1;
        let token = Blob::of(alloc, custom.token.bytes())?;
        let script = self.history.rules().pool_script.bytes();
        match self.jobs.plan_custom(at, &custom, script) {
            Ok(plan) => Ok(Step::Move(Planned {
                event: Event::Custom {
                    session,
                    custom: Boxed::new(alloc, custom)?,
                },
                change: Change::Custom { plan, token },
                reply: Reply::CustomJob(number),
            })),
            Err(OutputsError::Memory) => Err(AllocError),
            Err(error) => Ok(Step::Answer(Reply::CustomRefused(CustomError::Coinbase(error)))),
        }
    }
}

ghost use Rattle.std.specs.Prelude.{◌≡◌};
ghost use Rattle.share_ledger.specs.Tokens.{IsFixedPath};

/// A path that is fixed, or none.
fn fixed_path(alloc: Global, path: Option<Hashes>) -> (bool, Hashes)
    ensures { IsFixedPath path result.0 result.1 }
{
    match path {
        Some(path) => (true, path),
        None => (false, Hashes::from_vec(Vec::new(alloc))),
    }
}
