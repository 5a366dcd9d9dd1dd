//! Who answers what a proxy is asked.

ghost use Rattle.proxy_server.specs.Calls.{MakesCall, ProxyCall, RepliesTo};

use proxy_rules::{ProxyReply, ProxyRequest};
use std::alloc::AllocError;

/// Answers what a proxy is asked by one caller, one request after the other.
pub trait ProxyAsking {
    /// Whether it can be asked.
    ghost ready: { Self → Type 0 };

    /// What one call does: who answers before it, the call, and who answers after it.
    ghost does: { Self → ProxyCall → Self → Type 0 };

    fn ask(&mut self, request: ProxyRequest) -> Result<ProxyReply, AllocError>
        requires { ready self.old }
        ensures ready { ready self.new }
        ensures call { MakesCall does self.old request result self.new }
        ensures reply { RepliesTo request result };
}
