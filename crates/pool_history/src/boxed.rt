//! Large parts of events, on the heap.

use std::alloc::{AllocError, Global};
use std::marker::Model;

/// A value on the heap, which contracts see as the value. An event has its large parts behind one,
/// so that a list of events doesn't carry the room of the largest kind for each.
#[derive(Drop)]
pub struct Boxed<T> {
    inner: Box<T>,
}

impl<T> Model for Boxed<T> {
    ghost Value = { T };

    ghost coded = { T.code };

    ghost view = { λ boxed. boxed.inner.value };
}

impl<T> Boxed<T> {
    ghost use Rattle.std.specs.Prelude.{◌≡◌};

    pub fn get(&self) -> &T
        ensures { result.now ≡ self.now }
    {
        &self.inner
    }

    pub fn into_inner(self) -> T
        ensures { result ≡ self }
    {
        let Boxed { inner } = self;
        Box::into_inner(inner)
    }
}

impl<T: Drop> Boxed<T> {
    ghost use Rattle.std.specs.Prelude.{◌≡◌, IfOk};

    pub fn new(alloc: Global, value: T) -> Result<Boxed<T>, AllocError>
        ensures { IfOk result (λ boxed. boxed ≡ value) }
    {
        Ok(Boxed {
            inner: Box::new(alloc, value)?,
        })
    }
}
