//! The proxy: its events, and what it knows by them.

ghost use Rattle.std.specs.Prelude.{◌≡◌};

use crate::relay::Relay;
use proxy_rules::{ProxyEvent, ProxyReply, ProxyRequest};
use std::alloc::{AllocError, Global};
use std::marker::Model;
use sv2_types::{Blob, Str255};

/// How many events there are at most.
const MOST_EVENTS: usize = (1 << 62) - 1;

/// A proxy, which contracts see as its events: a start, and what it was brought. Where memory ran out
/// while an event was told, it takes no more: all it is asked is then refused so.
#[derive(Drop)]
pub struct Proxy {
    alloc: Global,
    relay: Relay,
    events: Vec<ProxyEvent>,
    /// Whether the events were told to the end.
    is_whole: bool,
}

impl Model for Proxy {
    ghost use Rattle.std.specs.Prelude.{◌≡◌, ◌≤◌, ◌<◌, ◌^◌, List, length, true};
    ghost use Rattle.proxy_rules.specs.declared.events.ProxyEvent.{ProxyEvent};
    ghost use Rattle.proxy_rules.specs.Steps.{relay_of};

    ghost Value = { List ProxyEvent };

    ghost view = { λ p. p.events.items };

    ghost invariant = { λ p. (1 ≤ length p.events.items) × (length p.events.items < 2 ^ 62)
        × (p.is_whole ≡ true → p.relay ≡ relay_of p.events.items) };
}

impl Proxy {
    ghost use Rattle.std.specs.Prelude.{◌≡◌, ◌++◌, ◌≤◌, ◌<◌, ◌^◌, [], ◌∷◌, true, IfOk, OnErr, drop, length};
    ghost use Rattle.desk.specs.Machines.{MakesTurn};
    ghost use Rattle.proxy_rules.specs.declared.events.ProxyEvent.TheVariants as event;
    ghost use Rattle.proxy_rules.specs.declared.requests.ProxyReply.TheVariants as reply;
    ghost use Rattle.proxy_rules.specs.Answering.{ProxyAnswers, has_joined};
    ghost use Rattle.proxy_rules.specs.Outputs.{output_for};
    ghost use Rattle.proxy_rules.specs.Steps.{relay_of};

    /// A proxy that opens its channel for this user, and shows the difficulty of the class `base` as
    /// 1.
    pub fn new(alloc: Global, user: Str255, base: u8) -> Result<Proxy, AllocError>
        requires { base ≤ 60 }
        ensures { IfOk result (λ proxy. proxy ≡ event.Start user base ∷ []) }
    {
        let own = Str255::of(alloc, user.text())?;
        let relay = Relay::new(alloc, own, base)?;
        let mut events = Vec::new(alloc);
        events.push(ProxyEvent::Start(user, base))?;
        Ok(Proxy {
            alloc,
            relay,
            events,
            is_whole: true,
        })
    }

    /// How many events there are.
    pub fn len(&self) -> u64
        ensures count { result ≡ length self.now }
        ensures few { result < 2 ^ 62 }
    {
        self.events.len() as u64
    }

    /// How many submissions went upstream. Where memory ran out while an event was told, it isn't known.
    pub fn sent(&self) -> Result<u32, AllocError>
        ensures { IfOk result (λ count. count ≡ (relay_of self.now).sent) }
    {
        if !self.is_whole {
            return Err(AllocError);
        }
        Ok(self.relay.sent())
    }

    /// Answers a caller's request. Where memory runs out, no event is added.
    pub fn act(&mut self, caller: u32, request: ProxyRequest) -> Result<ProxyReply, AllocError>
        ensures { MakesTurn ProxyAnswers (λ fault. true) self.old 0 caller request self.new 0
            result }
    {
        match request {
            ProxyRequest::Up(bytes) => self.take(ProxyEvent::Up(bytes)),
            ProxyRequest::UpEnd => self.take(ProxyEvent::UpEnd),
            ProxyRequest::Join => {
                if self.is_joined(caller)? {
                    return Ok(ProxyReply::Again);
                }
                self.take(ProxyEvent::Join(caller))
            }
            ProxyRequest::Line(line) => {
                if !self.is_joined(caller)? {
                    return Ok(ProxyReply::NotJoined);
                }
                self.take(ProxyEvent::Line(caller, line))
            }
            ProxyRequest::Leave => {
                if !self.is_joined(caller)? {
                    return Ok(ProxyReply::NotJoined);
                }
                self.take(ProxyEvent::Leave(caller))
            }
            ProxyRequest::Poll(from) => self.poll(caller, from),
        }
    }

    /// Whether a caller is joined.
    fn is_joined(&self, caller: u32) -> Result<bool, AllocError>
        ensures { IfOk result (λ joined. joined ≡ has_joined self.now caller) }
    {
        if !self.is_whole {
            return Err(AllocError);
        }
        Ok(self.relay.is_joined(caller))
    }

    /// A caller's output from a place on.
    fn poll(&self, caller: u32, from: u64) -> Result<ProxyReply, AllocError>
        ensures { IfOk result (λ answer. answer
            ≡ reply.Bytes (drop from (output_for self.now caller))) }
    {
        if !self.is_whole {
            return Err(AllocError);
        }
        let output = if caller == 0 {
            self.relay.output()
        } else {
            self.relay.output_of(caller)
        };
        let start = (from as usize).min(output.len());
        Ok(ProxyReply::Bytes(Blob::of(self.alloc, &output[start..])?))
    }

    /// Takes an event: it is told, then kept.
    #[tactic(auto, using(crate::proofs::Runs::one_more_event))]
    fn take(&mut self, event: ProxyEvent) -> Result<ProxyReply, AllocError>
        ensures reply { IfOk result (λ answer. answer ≡ reply.Taken) }
        ensures events { IfOk result (λ answer. self.new ≡ self.old ++ event ∷ []) }
        ensures refused { OnErr result (self.new ≡ self.old) }
    {
        if !self.is_whole || self.events.len() >= MOST_EVENTS {
            return Err(AllocError);
        }
        self.events.reserve(1)?;
        self.is_whole = false;
        self.relay.step(&event)?;
        self.events.push(event)?;
        self.is_whole = true;
        Ok(ProxyReply::Taken)
    }
}
