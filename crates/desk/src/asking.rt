//! One call.

ghost use Rattle.std.specs.Prelude.{◌≡◌};
ghost use Rattle.desk.specs.Calling.{IsAsked};

use crate::{Desk, Machine, Pass};
use std::sync::Wait;

/// Has the desk's machine answer a request, by a pass. Waits until no other pass has the turn.
pub fn ask<R: Wait, M: Machine>(
    rt: &R,
    desk: &Desk<M>,
    pass: &mut Pass<M>,
    request: M::Request,
) -> Result<M::Reply, M::Fault>
    requires { pass.old.table ≡ desk.now.table }
    ensures { IsAsked M.answers M.wants_memory pass.old request result pass.new }
{
    match desk.act(rt, pass, request) {
        Ok((_front, reply)) => Ok(reply),
        Err((_front, fault)) => Err(fault),
    }
}
