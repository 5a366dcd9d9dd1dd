//! The 80 bytes of a header.

ghost use Rattle.std.specs.Prelude.{◌≡◌, ◌+◌, ◌≤◌, ◌++◌, length, take};
ghost use Rattle.block_header.specs.Layout.{header_bytes};

/// A block header (Bitcoin's "Block Headers"). The two hashes stand as they do in its bytes, which
/// is the reverse of how they are displayed.
#[derive(Clone, Copy, Debug, PartialEq, Eq, PartialOrd, Ord, Hash)]
pub struct Header {
    pub version: u32,
    pub prev_hash: [u8; 32],
    pub root: [u8; 32],
    pub ntime: u32,
    pub nbits: u32,
    pub nonce: u32,
}

impl Header {
    /// The 80 bytes whose double hash is the block's hash.
    pub fn bytes(&self) -> [u8; 80]
        ensures { result ≡ header_bytes self.now.version self.now.prev_hash self.now.root
            self.now.ntime self.now.nbits self.now.nonce }
    {
        let mut bytes = [0; 80];
        place(&mut bytes, 0, &self.version.to_le_bytes());
        place(&mut bytes, 4, &self.prev_hash);
        place(&mut bytes, 36, &self.root);
        place(&mut bytes, 68, &self.ntime.to_le_bytes());
        place(&mut bytes, 72, &self.nbits.to_le_bytes());
        place(&mut bytes, 76, &self.nonce.to_le_bytes());
        bytes
    }
}

// Writes a part at its place.
fn place<const N: usize>(bytes: &mut [u8; 80], at: usize, part: &[u8; N])
    requires { at + N ≤ 80 }
    ensures { take (at + N) bytes.new ≡ take at bytes.old ++ part.now }
{
    bytes[at..at + N].copy_from_slice(part);
}
