//! Up to seven bytes that lie where they are kept.
ghost use Rattle.std.specs.Prelude.{◌≡◌, ◌<◌, ◌≤◌, ◌++◌, ◌∷◌, [], length};

use std::marker::Model;

/// How many bytes are kept so.
pub(crate) const MOST: usize = 7;

/// Bytes, seen by contracts as their list.
#[derive(Drop)]
pub(crate) struct ShortBytes {
    len: u8,
    bytes: [u8; 7],
}

impl Model for ShortBytes {
    ghost use Rattle.std.specs.Prelude.{ℕ, List, ◌≤◌, take};

    ghost Value = { List ℕ };

    ghost view = { λ s. take s.len s.bytes };

    ghost invariant = { λ s. s.len ≤ 7 };
}

impl ShortBytes {
    fn new() -> ShortBytes
        ensures { result ≡ [] }
    {
        ShortBytes {
            len: 0,
            bytes: [0; 7],
        }
    }

    fn push(&mut self, byte: u8)
        requires { length self.old < 7 }
        ensures { self.new ≡ self.old ++ byte ∷ [] }
    {
        self.bytes[usize::from(self.len)] = byte;
        self.len += 1;
    }

    /// A copy of these bytes.
    pub(crate) fn copied(bytes: &[u8]) -> ShortBytes
        requires { length bytes.now ≤ 7 }
        ensures { result ≡ bytes.now }
    {
        let mut copy = ShortBytes::new();
        let mut rest = bytes;
        while let [byte, after @ ..] = rest {
            copy.push(*byte);
            rest = after;
        }
        copy
    }

    /// The bytes, in order.
    pub(crate) fn as_slice(&self) -> &[u8]
        ensures { result.now ≡ self.now }
    {
        &self.bytes[..usize::from(self.len)]
    }
}
