//! Events of any kind.

use crate::error::ReplayError;
use crate::replay::Replay;
use crate::share_events::Credited;
use pool_history::{Cause, Event};

impl Replay {
    ghost use Rattle.std.specs.Prelude.{◌≡◌, ◌+◌, ◌<◌, ◌-◌, ◌^◌, OnOk};
    ghost use Rattle.pool_history.specs.Ledger.{EventFits};
    ghost use Rattle.ledger_replay.specs.Replays.{Judges, event_count};

    /// One event more, whose lists fit their types.
    pub fn take(&mut self, event: Event) -> Result<(), ReplayError>
        requires count { event_count self.old < 2 ^ 64 - 1 }
        requires fits { EventFits event }
        ensures judged { Judges self.old event result self.new }
        ensures counts { OnOk result (event_count self.new ≡ event_count self.old + 1) }
    {
        match event {
            Event::Start(_) => Err(ReplayError::Illegal(Cause::BadStart)),
            Event::Enter {
                worker,
                role,
                flags,
            } => self.enter(worker, role, flags),
            Event::Template { session, template } => self.add_template(session, template.get()),
            Event::Tip { session, tip } => self.set_tip(session, tip.get()),
            Event::Open {
                session,
                kind,
                account,
                class,
                lead,
            } => self.open(session, kind, account, class, lead.bytes()),
            Event::Name {
                session,
                channel,
                account,
            } => self.name(session, channel, account),
            Event::Class {
                session,
                channel,
                class,
            } => self.set_class(session, channel, class),
            Event::Close { session, channel } => self.close(session, channel),
            Event::Leave { session } => self.leave(session),
            Event::Credit {
                session,
                channel,
                job,
                nonce,
                ntime,
                version,
                extranonce,
            } => self.credit(
                session,
                &Credited {
                    channel,
                    job,
                    nonce,
                    ntime,
                    version,
                    extranonce: extranonce.bytes(),
                },
            ),
            Event::Grant {
                session,
                account,
                fixed,
                path,
            } => self.grant(session, account, fixed, path),
            Event::Custom { session, custom } => self.custom(session, custom.get()),
        }
    }
}
