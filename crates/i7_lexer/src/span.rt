//! Bytes that are lent: to a lexeme by the source, or to who asks by a token.
ghost use Rattle.std.specs.Prelude.{◌≡◌};

use std::marker::Model;

/// Bytes that are lent, seen by contracts as their list.
#[derive(Drop)]
pub struct Span<'a> {
    bytes: &'a [u8],
}

impl<'a> Model for Span<'a> {
    ghost use Rattle.std.specs.Prelude.{ℕ, List};

    ghost Value = { List ℕ };

    ghost view = { λ s. s.bytes.now };
}

impl<'a> Span<'a> {
    pub(crate) fn new(bytes: &'a [u8]) -> Span<'a>
        ensures { result ≡ bytes.now }
    {
        Span { bytes }
    }

    /// The bytes, in order.
    pub fn as_slice(&self) -> &'a [u8]
        ensures { result.now ≡ self.now }
    {
        self.bytes
    }
}
