//! What a source brings, turn by turn.

ghost use Rattle.std.specs.Prelude.{◌≡◌, ◌<◌, length};

use std::marker::Model;

/// Bytes that come together. A piece isn't empty.
#[derive(Drop)]
pub struct Piece {
    bytes: Vec<u8>,
}

impl Model for Piece {
    ghost use Rattle.std.specs.Prelude.{ℕ, List, length, ◌<◌};

    ghost Value = { List ℕ };

    ghost view = { λ p. p.bytes.items };

    ghost invariant = { λ p. 0 < length p.bytes.items };
}

impl Piece {
    pub fn of(bytes: Vec<u8>) -> Piece
        requires { 0 < length bytes.items }
        ensures { result ≡ bytes.items }
    {
        Piece { bytes }
    }

    pub fn bytes(&self) -> &[u8]
        ensures value { result.now ≡ self.now }
        ensures some { 0 < length result.now }
    {
        &self.bytes
    }
}

/// One answer of a source that is still to come.
#[derive(Drop)]
pub enum Turn {
    /// Bytes come together. Where they are longer than the buffer, they are taken in parts.
    Piece(Piece),
    /// No byte comes for now.
    Idle,
    /// No byte comes any more.
    End,
}
