//! The miners: each a session of Stratum V1 while it is joined, and what was written to it.

ghost use Rattle.std.specs.Prelude.{◌≡◌, ◌==◌, position};

use crate::channel::Seat;
use mining_msgs::Mining;
use serde_json::Value;
use std::alloc::{AllocError, Global};
use std::marker::Model;
use v1_translate::{LineId, V1Ask, V1Session, V1Terms, say_answer, say_code};

/// A miner that is joined.
#[derive(Drop)]
pub(crate) struct MinerSession {
    seat: Option<Seat>,
    v1: V1Session,
}

impl Model for MinerSession {
    ghost use Rattle.proxy_core.specs.Codes.{session_code};
    ghost use Rattle.proxy_rules.specs.State.{Session};

    ghost Value = { Session };

    ghost coded = { session_code };

    ghost view = { λ s. record { seat = s.seat; v1 = s.v1 } };
}

impl MinerSession {
    ghost use Rattle.std.specs.Prelude.{◌≡◌, IfOk, Some, option_map};
    ghost use Rattle.proxy_core.specs.Telling.{Hears};
    ghost use Rattle.proxy_rules.specs.Miners as miners;
    ghost use Rattle.proxy_rules.specs.Steps.{may_take};
    ghost use Rattle.v1_translate.specs.Heard.{told_by};
    ghost use Rattle.v1_translate.specs.Lines.{line_reaction};
    ghost use Rattle.v1_translate.specs.Messages as messages;
    ghost use Rattle.v1_translate.specs.Saying.{asking_of};

    pub(crate) fn new(alloc: Global) -> MinerSession
        ensures { result ≡ miners.new_session }
    {
        MinerSession {
            seat: None,
            v1: V1Session::new(alloc),
        }
    }

    pub(crate) fn seat(&self) -> Option<&Seat>
        ensures { option_map (λ seat. seat.now) result ≡ self.now.seat }
    {
        self.seat.as_ref()
    }

    pub(crate) fn holds(&self, lead: u16) -> bool
        ensures { result ≡ miners.seat_holds lead self.now.seat }
    {
        match &self.seat {
            Some(seat) => seat.holds(lead),
            None => false,
        }
    }

    pub(crate) fn take_seat(&mut self, seat: Seat)
        ensures { self.new ≡ record self.old { seat = Some seat } }
    {
        self.seat = Some(seat);
    }

    /// Hears a message of its pool.
    pub(crate) fn hear(
        &mut self,
        alloc: Global,
        terms: &V1Terms,
        message: &Mining<'_>,
        out: &mut Vec<u8>,
    ) -> Result<(), AllocError>
        ensures { IfOk result (λ done. Hears
            (messages.message_reaction terms.now self.old.v1 (told_by message.now))
            self.old self.new out.old.items out.new.items) }
    {
        self.v1.on_message(alloc, terms, message, out)
    }

    /// Hears a line, and answers what it asks of its pool.
    pub(crate) fn hear_line(
        &mut self,
        alloc: Global,
        terms: &V1Terms,
        line: &[u8],
        out: &mut Vec<u8>,
    ) -> Result<V1Ask, AllocError>
        ensures hears { IfOk result (λ ask. Hears
            (line_reaction terms.now self.old.v1 line.now)
            self.old self.new out.old.items out.new.items) }
        ensures asks { IfOk result (λ ask. asking_of ask
            ≡ (line_reaction terms.now self.old.v1 line.now).asks) }
    {
        self.v1.hear_line(alloc, terms, line, out)
    }

    /// Takes an account that was asked for, where it has no other.
    pub(crate) fn take_name(
        &mut self,
        alloc: Global,
        account: &str,
        out: &mut Vec<u8>,
    ) -> Result<(), AllocError>
        ensures { IfOk result (λ done. Hears
            (messages.name_reaction self.old.v1 (may_take self.old.v1.account account.now))
            self.old self.new out.old.items out.new.items) }
    {
        let may_take = self.may_take(account);
        self.v1.on_named(alloc, may_take, out)
    }

    fn may_take(&self, account: &str) -> bool
        ensures { result ≡ may_take self.now.v1.account account.now }
    {
        match self.v1.account() {
            Some(own) => own.text() == account,
            None => true,
        }
    }

    /// Takes over a share that waits: its line is the caller's to answer.
    pub(crate) fn take_share(&mut self, sequence: u32) -> Option<LineId>
        ensures id { result ≡ messages.answered sequence self.old.v1.waiting }
        ensures rest { self.new ≡ record self.old {
          v1 = record self.old.v1 {
            waiting = messages.still_waiting sequence self.old.v1.waiting;
          };
        } }
    {
        self.v1.take_share(sequence)
    }
}

/// A caller that has joined.
#[derive(Drop)]
pub(crate) struct Miner {
    caller: u32,
    output: Vec<u8>,
    session: Option<MinerSession>,
}

impl Model for Miner {
    ghost use Rattle.proxy_core.specs.Codes.{miner_code};
    ghost use Rattle.proxy_rules.specs.State as state;

    ghost Value = { state.Miner };

    ghost coded = { miner_code };

    ghost view = { λ m. record {
      caller = m.caller;
      output = m.output.items;
      session = m.session;
    } };
}

impl Miner {
    ghost use Rattle.std.specs.Prelude.{◌≡◌, ◌==◌, IfOk, is_some, option_map};
    ghost use Rattle.proxy_rules.specs.Miners as miners;
    ghost use Rattle.proxy_rules.specs.Steps as steps;
    ghost use Rattle.v1_translate.specs.Heard.{told_by};
    ghost use Rattle.v1_translate.specs.Lines.{yes};
    ghost use Rattle.v1_translate.specs.State.{Answer, CodeRefusal};
    ghost use Rattle.v1_translate.specs.Saying.{asking_of};

    /// A caller that joins, to whom nothing was written.
    pub(crate) fn new(alloc: Global, caller: u32) -> Miner
        ensures { result ≡ miners.new_miner caller }
    {
        Miner {
            caller,
            output: Vec::new(alloc),
            session: Some(MinerSession::new(alloc)),
        }
    }

    pub(crate) fn caller(&self) -> u32
        ensures { result ≡ self.now.caller }
    {
        self.caller
    }

    pub(crate) fn is_joined(&self) -> bool
        ensures { result ≡ is_some self.now.session }
    {
        self.session.is_some()
    }

    pub(crate) fn seat(&self) -> Option<&Seat>
        ensures { option_map (λ seat. seat.now) result ≡ miners.seat_in self.now.session }
    {
        match &self.session {
            Some(session) => session.seat(),
            None => None,
        }
    }

    pub(crate) fn output(&self) -> &[u8]
        ensures { result.now ≡ self.now.output }
    {
        self.output.as_slice()
    }

    pub(crate) fn holds(&self, lead: u16) -> bool
        ensures { result ≡ miners.holds_lead lead self.now }
    {
        match &self.session {
            Some(session) => session.holds(lead),
            None => false,
        }
    }

    /// Joins anew: what was written before is gone.
    pub(crate) fn rejoin(&mut self, alloc: Global)
        ensures { self.new ≡ miners.rejoined self.old }
    {
        self.output.clear();
        self.session = Some(MinerSession::new(alloc));
    }

    pub(crate) fn leave(&mut self)
        ensures { self.new ≡ miners.left self.old }
    {
        self.session = None;
    }

    pub(crate) fn take_seat(&mut self, seat: Seat)
        ensures { self.new ≡ steps.seated seat self.old }
    {
        if let Some(session) = &mut self.session {
            session.take_seat(seat);
        }
    }

    /// Tells a joined miner a message.
    pub(crate) fn tell(
        &mut self,
        alloc: Global,
        terms: &V1Terms,
        message: &Mining<'_>,
    ) -> Result<(), AllocError>
        ensures { IfOk result (λ done. self.new
            ≡ miners.told_to terms.now (told_by message.now) self.old) }
    {
        match &mut self.session {
            Some(session) => session.hear(alloc, terms, message, &mut self.output),
            None => Ok(()),
        }
    }

    /// Tells a subscribed miner a message.
    pub(crate) fn relay(
        &mut self,
        alloc: Global,
        terms: &V1Terms,
        message: &Mining<'_>,
    ) -> Result<(), AllocError>
        ensures { IfOk result (λ done. self.new
            ≡ miners.relayed_to terms.now (told_by message.now) self.old) }
    {
        match &mut self.session {
            Some(session) if session.seat().is_some() => {
                session.hear(alloc, terms, message, &mut self.output)
            }
            _ => Ok(()),
        }
    }

    /// Hears a line of a joined miner, and answers what it asks of its pool.
    pub(crate) fn hear_line(
        &mut self,
        alloc: Global,
        terms: &V1Terms,
        line: &[u8],
    ) -> Result<V1Ask, AllocError>
        ensures hears { IfOk result (λ ask. self.new
            ≡ steps.line_said terms.now line.now self.old) }
        ensures asks { IfOk result (λ ask. asking_of ask
            ≡ steps.asks_by terms.now line.now self.old.session) }
    {
        match &mut self.session {
            Some(session) => session.hear_line(alloc, terms, line, &mut self.output),
            None => Ok(V1Ask::Nothing),
        }
    }

    /// Takes an account that was asked for, where it has no other.
    pub(crate) fn take_name(&mut self, alloc: Global, account: &str) -> Result<(), AllocError>
        ensures { IfOk result (λ done. self.new ≡ steps.named account.now self.old) }
    {
        match &mut self.session {
            Some(session) => session.take_name(alloc, account, &mut self.output),
            None => Ok(()),
        }
    }

    /// Takes over a share that waits: its line is the caller's to answer.
    pub(crate) fn take_share(&mut self, sequence: u32) -> Option<LineId>
        ensures id { result ≡ steps.share_id sequence self.old.session }
        ensures rest { self.new ≡ steps.handed_over sequence self.old }
    {
        match &mut self.session {
            Some(session) => session.take_share(sequence),
            None => None,
        }
    }

    /// Answers a line by true.
    pub(crate) fn say_yes(&mut self, alloc: Global, id: LineId) -> Result<(), AllocError>
        ensures { IfOk result (λ done. self.new ≡ miners.with_line (Answer id yes) self.old) }
    {
        say_answer(alloc, id, Value::Bool(true), &mut self.output)
    }

    /// Answers a line by the error that a code becomes.
    pub(crate) fn say_code(
        &mut self,
        alloc: Global,
        id: LineId,
        code: &str,
    ) -> Result<(), AllocError>
        ensures { IfOk result (λ done. self.new
            ≡ miners.with_line (CodeRefusal id code.now) self.old) }
    {
        say_code(alloc, id, code, &mut self.output)
    }
}

/// The place of a caller.
pub(crate) fn place_of(miners: &[Miner], caller: u32) -> Option<usize>
    ensures { result ≡ position (λ miner. miner.caller == caller) miners.now }
{
    miners.iter().position(|miner| miner.caller() == caller)
}
