//! Events that take effect, each on the tables that it changes. None of this takes memory.

use crate::planning::{Change, Crediting};
use crate::tables::Tables;
use channels::ChannelPlan;
use pool_history::{Event, Role, TipData};
use pool_tables::{other_events_leave_grants, other_events_leave_sessions};
use sv2_types::{Blob, Hashes, Str255};
use template_jobs::{JobPlan, moves_are_told};

impl Tables {
    ghost use Rattle.std.specs.Prelude.{◌≡◌, [], ◌∷◌, ◌++◌};
    ghost use Rattle.share_ledger.specs.Planning.{Changes, EntersNext, IsNext, ClosesOwn, IsLeaving, MovesChannels, OffersJob, TipsJob, CreditsShare, GrantsNext, BringsJob};

    /// A planned event takes effect.
    pub(crate) fn apply(&mut self, event: Event, change: Change)
        requires next { IsNext self.old event }
        requires changes { Changes self.old event change }
        ensures { self.new.history.events ≡ self.old.history.events ++ event ∷ [] }
    {
        match change {
            Change::Enter {
                worker,
                role,
                flags,
            } => self.enter(event, worker, role, flags),
            Change::Leave { session } => self.leave(event, session),
            Change::Template(plan) => self.add_template(event, plan),
            Change::Tip(tip) => self.set_tip(event, tip),
            Change::Channel(plan) => self.change_channel(event, plan),
            Change::Close { session, channel } => self.close(event, session, channel),
            Change::Credit(crediting) => self.credit(event, crediting),
            Change::Grant {
                account,
                fixed,
                path,
            } => self.grant(event, account, fixed, path),
            Change::Custom { plan, token } => self.add_custom(event, plan, token),
        }
    }

    fn enter(&mut self, event: Event, worker: u32, role: Role, flags: u32)
        requires next { IsNext self.old event }
        requires enters { EntersNext self.old event worker role flags }
        ensures { self.new.history.events ≡ self.old.history.events ++ event ∷ [] }
    {
        other_events_leave_grants();
        self.sessions.enter(worker, role, flags);
        self.history.push(event, false);
    }

    fn leave(&mut self, event: Event, session: u32)
        requires next { IsNext self.old event }
        requires leaves { IsLeaving event session }
        ensures { self.new.history.events ≡ self.old.history.events ++ event ∷ [] }
    {
        other_events_leave_grants();
        self.sessions.leave(session);
        self.channels.leave(session);
        self.history.push(event, false);
    }

    fn add_template(&mut self, event: Event, plan: JobPlan)
        requires next { IsNext self.old event }
        requires offers { OffersJob self.old event plan }
        ensures { self.new.history.events ≡ self.old.history.events ++ event ∷ [] }
    {
        other_events_leave_sessions();
        other_events_leave_grants();
        moves_are_told();
        self.jobs.apply(plan);
        self.history.push(event, false);
    }

    fn set_tip(&mut self, event: Event, tip: TipData)
        requires next { IsNext self.old event }
        requires tips { TipsJob self.old event tip }
        ensures { self.new.history.events ≡ self.old.history.events ++ event ∷ [] }
    {
        other_events_leave_sessions();
        other_events_leave_grants();
        moves_are_told();
        let _number = self.jobs.set_tip(self.history.len(), &tip);
        self.history.push(event, false);
    }

    fn change_channel(&mut self, event: Event, plan: ChannelPlan)
        requires next { IsNext self.old event }
        requires moves { MovesChannels self.old event plan }
        ensures { self.new.history.events ≡ self.old.history.events ++ event ∷ [] }
    {
        other_events_leave_sessions();
        other_events_leave_grants();
        self.channels.apply(plan);
        self.history.push(event, false);
    }

    fn close(&mut self, event: Event, session: u32, channel: u32)
        requires next { IsNext self.old event }
        requires closes { ClosesOwn self.old event session channel }
        ensures { self.new.history.events ≡ self.old.history.events ++ event ∷ [] }
    {
        other_events_leave_sessions();
        other_events_leave_grants();
        let _done = self.channels.close(session, channel);
        self.history.push(event, false);
    }

    fn credit(&mut self, event: Event, crediting: Crediting)
        requires next { IsNext self.old event }
        requires credits { CreditsShare self.old event crediting }
        ensures { self.new.history.events ≡ self.old.history.events ++ event ∷ [] }
    {
        other_events_leave_sessions();
        other_events_leave_grants();
        let Crediting {
            plan,
            header,
            is_block,
        } = crediting;
        self.tally.apply(plan);
        self.headers.insert(header);
        self.history.push(event, is_block);
    }

    fn grant(&mut self, event: Event, account: Str255, fixed: bool, path: Hashes)
        requires next { IsNext self.old event }
        requires grants { GrantsNext self.old event account fixed path }
        ensures { self.new.history.events ≡ self.old.history.events ++ event ∷ [] }
    {
        other_events_leave_sessions();
        self.grants.grant(account, fixed, path);
        self.history.push(event, false);
    }

    fn add_custom(&mut self, event: Event, plan: JobPlan, token: Blob)
        requires next { IsNext self.old event }
        requires brings { BringsJob self.old event plan token }
        ensures { self.new.history.events ≡ self.old.history.events ++ event ∷ [] }
    {
        other_events_leave_sessions();
        moves_are_told();
        self.jobs.apply(plan);
        self.grants.spend(token.bytes());
        self.history.push(event, false);
    }
}
