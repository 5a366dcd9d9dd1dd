//! Owned texts, bytes and hashes, which contracts see as lists.

ghost use Rattle.std.specs.Prelude.{◌≡◌, ◌≤◌, length, IfOk};
ghost use Rattle.std.specs.List.{AllByRecursion};
ghost use Rattle.std.specs.String.{string_bytes};

use crate::sequences::whole_hashes;
use std::alloc::{AllocError, Global};
use std::marker::Model;

/// An owned text of at most 255 bytes.
#[derive(Debug, Drop)]
pub struct Str255 {
    text: String,
}

impl Model for Str255 {
    ghost use Rattle.std.specs.Prelude.{ℕ, ◌≤◌, List, length};
    ghost use Rattle.std.specs.String.{string_bytes};

    ghost Value = { List ℕ };

    ghost view = { λ owned. string_bytes owned.text };

    ghost invariant = { λ owned. length (string_bytes owned.text) ≤ 255 };
}

impl Str255 {
    /// A copy of the text.
    pub fn of(alloc: Global, text: &str) -> Result<Str255, AllocError>
        requires { length text.now ≤ 255 }
        ensures { IfOk result (λ owned. owned ≡ text.now) }
    {
        let text = String::from_str(alloc, text)?;
        Ok(Str255 { text })
    }

    /// The text itself, which takes no memory.
    pub fn from_text(text: String) -> Str255
        requires { length (string_bytes text) ≤ 255 }
        ensures { result ≡ string_bytes text }
    {
        Str255 { text }
    }

    /// The text, borrowed.
    pub fn text(&self) -> &str
        ensures value { result.now ≡ self.now }
        ensures fits { length self.now ≤ 255 }
    {
        self.text.as_str()
    }

    /// The text, given back.
    pub fn into_text(self) -> String
        ensures value { string_bytes result ≡ self }
        ensures fits { length self ≤ 255 }
    {
        self.text
    }
}

/// Owned bytes.
#[derive(Debug, Drop)]
pub struct Blob {
    bytes: Vec<u8>,
}

impl Model for Blob {
    ghost use Rattle.std.specs.Prelude.{ℕ, List};

    ghost Value = { List ℕ };

    ghost view = { λ owned. owned.bytes.items };
}

impl Blob {
    /// A copy of the bytes.
    pub fn of(alloc: Global, bytes: &[u8]) -> Result<Blob, AllocError>
        ensures { IfOk result (λ owned. owned ≡ bytes.now) }
    {
        let bytes = Vec::from_slice(alloc, bytes)?;
        Ok(Blob { bytes })
    }

    /// The bytes themselves, which takes no memory.
    pub fn from_vec(bytes: Vec<u8>) -> Blob
        ensures { result ≡ bytes.items }
    {
        Blob { bytes }
    }

    /// The bytes, borrowed.
    pub fn bytes(&self) -> &[u8]
        ensures { result.now ≡ self.now }
    {
        self.bytes.as_slice()
    }

    /// The bytes, given back.
    pub fn into_vec(self) -> Vec<u8>
        ensures { result.items ≡ self }
    {
        self.bytes
    }
}

/// Owned hashes of 32 bytes each.
#[derive(Debug, Drop)]
pub struct Hashes {
    items: Vec<[u8; 32]>,
}

impl Model for Hashes {
    ghost use Rattle.std.specs.Prelude.{ℕ, List};

    ghost Value = { List (List ℕ) };

    ghost view = { λ owned. owned.items.items };
}

impl Hashes {
    /// A copy of the hashes.
    pub fn of(alloc: Global, items: &[[u8; 32]]) -> Result<Hashes, AllocError>
        ensures { IfOk result (λ owned. owned ≡ items.now) }
    {
        let items = Vec::from_slice(alloc, items)?;
        Ok(Hashes { items })
    }

    /// The hashes themselves, which takes no memory.
    pub fn from_vec(items: Vec<[u8; 32]>) -> Hashes
        ensures { result ≡ items.items }
    {
        Hashes { items }
    }

    /// The hashes, borrowed.
    pub fn items(&self) -> &[[u8; 32]]
        ensures value { result.now ≡ self.now }
        ensures fits { AllByRecursion (λ item. length item ≡ 32) self.now }
    {
        whole_hashes(self.items.as_slice())
    }

    /// The hashes, given back.
    pub fn into_vec(self) -> Vec<[u8; 32]>
        ensures { result.items ≡ self }
    {
        self.items
    }
}
