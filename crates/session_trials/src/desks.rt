//! A desk for two, over any machine: no proof looks into what is behind it.

ghost use Rattle.std.specs.Prelude.{◌≡◌};

use desk::{Desk, Machine, Pass};
use std::alloc::Global;
use std::mem;
use std::sync::Wait;

/// A desk and its two passes.
pub(crate) struct Pair<M: Machine> {
    pub(crate) desk: Desk<M>,
    pub(crate) passes: (Pass<M>, Pass<M>),
    ghost dealt: { (passes.0.table ≡ desk.table) × (passes.1.table ≡ desk.table) },
}

impl<M: Machine + Drop> Pair<M> {
    /// Opens a desk over a machine; none where there is no memory.
    pub(crate) fn open(alloc: Global, machine: M) -> Option<Pair<M>> {
        let (desk, mut dealt) = match Desk::new(alloc, machine, 2) {
            Ok(opened) => opened,
            Err((machine, _)) => {
                mem::forget(machine);
                return None;
            }
        };
        if let (Some(second), Some(first)) = (dealt.pop(), dealt.pop()) {
            let passes = (first, second);
            Some(Pair { desk, passes })
        } else {
            mem::forget(desk);
            None
        }
    }

    /// Asks by a pass.
    pub(crate) fn act(
        &mut self,
        rt: &impl Wait,
        is_second: bool,
        request: M::Request,
    ) -> Result<(u64, M::Reply), (u64, M::Fault)> {
        if is_second {
            self.desk.act(rt, &mut self.passes.1, request)
        } else {
            self.desk.act(rt, &mut self.passes.0, request)
        }
    }

    /// Closes the desk, and gives the machine.
    pub(crate) fn close(self, alloc: Global) -> Option<M> {
        let Pair { desk, passes } = self;
        match Vec::from_array(alloc, [passes.0, passes.1]) {
            Ok(passes) => match desk.close(passes) {
                Ok(machine) => return Some(machine),
                Err(refused) => mem::forget(refused),
            },
            Err(_) => mem::forget(desk),
        }
        None
    }
}
