//! The proxy as the machine of a desk, which many threads call.

use crate::proxy::Proxy;
use desk::Machine;
use proxy_rules::{ProxyEvent, ProxyReply, ProxyRequest};
use std::alloc::AllocError;

impl Machine for Proxy {
    ghost use Rattle.std.specs.Prelude.{true};
    ghost use Rattle.desk.specs.Machines.{tells_nothing};
    ghost use Rattle.proxy_rules.specs.Answering.{ProxyAnswers};

    type Event = ProxyEvent;

    type Request = ProxyRequest;

    type Reply = ProxyReply;

    type Fault = AllocError;

    ghost events = { λ proxy. proxy };

    // Nothing is kept outside of it.
    ghost health = { λ proxy. record { faults = 0; tells = tells_nothing } };

    // It fails for want of memory alone.
    ghost wants_memory = { λ fault. true };

    ghost answers = { ProxyAnswers };

    fn length(&self) -> u64 {
        self.len()
    }

    fn act(&mut self, caller: u32, request: ProxyRequest) -> Result<ProxyReply, AllocError> {
        Proxy::act(self, caller, request)
    }
}
