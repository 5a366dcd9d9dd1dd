//! The headers that were credited.

use crate::keys::HeaderKey;
use indexmap::IndexSet;
use std::alloc::{AllocError, Global};
use std::marker::Model;

/// The headers of all credits. Contracts see them, and for how many more there is room.
#[derive(Drop)]
pub struct Headers {
    set: IndexSet<HeaderKey>,
}

impl Model for Headers {
    ghost use Rattle.indexmap.specs.IndexSet.{spare};
    ghost use Rattle.pool_tables.specs.Headers.{HeaderSet};

    ghost Value = { HeaderSet };

    ghost view = { λ headers. record { kept = headers.set.keys; room = spare headers.set } };
}

impl Headers {
    ghost use Rattle.std.specs.Prelude.{◌≡◌, ◌≤◌, ℕ, List, [], ◌∷◌, IfOk, OnOk, IsTrue};
    ghost use Rattle.std.specs.List.{list_any};
    ghost use Rattle.std.specs.Str.{bytes_eq};
    ghost use Rattle.pool_tables.specs.Headers.{ShowsHeaders};

    /// No header.
    pub fn new(alloc: Global) -> Headers
        ensures { ShowsHeaders result [] }
    {
        Headers {
            set: IndexSet::new(alloc),
        }
    }

    /// Whether a header was credited.
    pub fn contains(&self, header: &[u8; 80]) -> bool
        ensures { result ≡ list_any (bytes_eq header.now) self.now.kept }
    {
        self.set.contains(&HeaderKey::of(*header))
    }

    /// Room for one more.
    pub fn reserve(&mut self) -> Result<(), AllocError>
        ensures same { self.new.kept ≡ self.old.kept }
        ensures room { OnOk result (1 ≤ self.new.room) }
    {
        self.set.reserve(1)
    }

    /// Takes in a header, for which there is room.
    pub fn insert(&mut self, header: [u8; 80])
        requires { 1 ≤ self.old.room }
        ensures { (headers : List (List ℕ)) → ShowsHeaders self.old headers
            → ShowsHeaders self.new (header ∷ headers) }
    {
        let _done = self.set.insert(HeaderKey::of(header));
    }
}
