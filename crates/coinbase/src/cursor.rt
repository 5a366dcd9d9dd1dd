//! How far reading has come.

ghost use Rattle.std.specs.Prelude.{◌≡◌, ◌+◌, ◌^◌, ◌<◌, ◌↔◌, IsTrue, length};

#[derive(Clone, Copy)]
pub(crate) struct Cursor<'a> {
    /// The place of the next byte.
    pub at: usize,
    /// The bytes from there on.
    pub left: &'a [u8],
    ghost fits: { at + length left.now < 2 ^ 64 },
}

impl<'a> Cursor<'a> {
    pub(crate) fn new(bytes: &'a [u8]) -> Cursor<'a>
        ensures at { result.at ≡ 0 }
        ensures left { result.left.now ≡ bytes.now }
    {
        Cursor { at: 0, left: bytes }
    }

    pub(crate) fn is_at_end(self) -> bool
        ensures { IsTrue result ↔ (length self.entry.left.now ≡ 0) }
    {
        self.left.is_empty()
    }
}
