//! A pass at a proxy's desk, as who answers for one caller.

use crate::ProxyAsking;
use desk::{Desk, Pass, ask};
use proxy_core::Proxy;
use proxy_rules::{ProxyReply, ProxyRequest};
use std::alloc::AllocError;
use std::sync::Wait;

/// A pass of a desk, which asks the desk's proxy.
pub struct ProxyCaller<'a, R: Wait> {
    pub rt: &'a R,
    pub desk: &'a Desk<Proxy>,
    pub pass: &'a mut Pass<Proxy>,
}

impl<R: Wait> ProxyAsking for ProxyCaller<'_, R> {
    ghost use Rattle.std.specs.Prelude.{◌≡◌};
    ghost use Rattle.proxy_server.specs.Calling.{CallsProxy};

    ghost ready = { λ caller. caller.pass.now.table ≡ caller.desk.now.table };

    ghost does = { λ old call new. (new.pass.ghost_name ≡ old.pass.ghost_name)
        × CallsProxy old.pass.now call new.pass.now };

    fn ask(&mut self, request: ProxyRequest) -> Result<ProxyReply, AllocError> {
        ask(self.rt, self.desk, self.pass, request)
    }
}
