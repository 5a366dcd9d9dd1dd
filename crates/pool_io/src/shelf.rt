//! The place to which what was given out comes back.

ghost use Rattle.std.specs.Prelude.{◌≡◌, ◌<◌, OnOk, OnErr, []};
ghost use Rattle.pool_io.specs.Lending.{lent_one, with_back};

use std::alloc::{AllocError, Global};
use std::marker::Model;

/// Has room for all that is out, so that taking one back needs no memory.
#[derive(Drop)]
pub struct Shelf<T> {
    items: Vec<T>,
    lent: usize,
}

impl<T> Model for Shelf<T> {
    ghost use Rattle.std.specs.Prelude.{◌+◌, ◌≤◌, vec_len, vec_capacity};
    ghost use Rattle.pool_io.specs.Lending.{Lending};

    ghost Value = { Lending T };

    ghost view = { λ s. record { lent = s.lent; back = s.items.items } };

    ghost invariant = { λ s. vec_len s.items + s.lent ≤ vec_capacity s.items };
}

impl<T> Shelf<T> {
    pub fn new(alloc: Global) -> Shelf<T>
        ensures { result ≡ record { lent = 0; back = [] } }
    {
        Shelf {
            items: Vec::new(alloc),
            lent: 0,
        }
    }

    /// Makes room for one more that goes out.
    pub fn lend(&mut self) -> Result<(), AllocError>
        ensures ok { OnOk result (self.new ≡ lent_one self.old) }
        ensures err { OnErr result (self.new ≡ self.old) }
    {
        self.items.reserve(self.lent + 1)?;
        self.lent += 1;
        Ok(())
    }

    /// One that was to go out doesn't.
    pub fn unlend(&mut self)
        requires { 0 < self.old.lent }
        ensures { self.old ≡ lent_one self.new }
    {
        self.lent -= 1;
    }

    /// Takes one back.
    pub fn take_back(&mut self, item: T)
        requires { 0 < self.old.lent }
        ensures { self.new ≡ with_back self.old item }
    {
        self.items.push(item).unwrap();
        self.lent -= 1;
    }

    /// Those that came back, in their order.
    pub fn items(&self) -> &[T]
        ensures { result.now ≡ self.now.back }
    {
        &self.items
    }
}
