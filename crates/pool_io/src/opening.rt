//! The calls by which a host opens things.

ghost use Rattle.std.specs.Prelude.{◌≡◌, ◌↔◌, IfOk, IsTrue};

use std::alloc::{AllocError, Global};
use std::marker::Model;

/// A name by which something is opened. Contracts see its bytes.
#[derive(Debug, Drop)]
pub struct Name {
    text: String,
}

impl Model for Name {
    ghost use Rattle.std.specs.Prelude.{ℕ, List, string_bytes};

    ghost Value = { List ℕ };

    ghost view = { λ n. string_bytes n.text };
}

impl Name {
    pub fn of(alloc: Global, text: &str) -> Result<Name, AllocError>
        ensures { IfOk result (λ name. name ≡ text.now) }
    {
        Ok(Name {
            text: String::from_str(alloc, text)?,
        })
    }

    pub fn text(&self) -> &str
        ensures { result.now ≡ self.now }
    {
        self.text.as_str()
    }
}

/// A call that asked a host for something.
#[derive(Debug, Drop)]
pub enum Opening {
    /// For standard input.
    Input,
    /// For standard output.
    Output,
    /// For the bytes of the file of this name.
    Source(Name),
    /// For a keeper over a new file of this name.
    Keeper(Name),
}
