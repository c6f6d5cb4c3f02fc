//! A text of a sentence, lent to what is said of it.
ghost use Rattle.std.specs.Prelude.{◌≡◌};

use std::marker::Model;

/// Bytes of a sentence's text, seen by contracts as their list.
#[derive(Drop)]
pub struct LentText<'a> {
    bytes: &'a [u8],
}

impl<'a> Model for LentText<'a> {
    ghost use Rattle.std.specs.Prelude.{ℕ, List};

    ghost Value = { List ℕ };

    ghost view = { λ t. t.bytes.now };
}

impl<'a> LentText<'a> {
    pub fn new(bytes: &'a [u8]) -> LentText<'a>
        ensures { result ≡ bytes.now }
    {
        LentText { bytes }
    }

    pub fn as_slice(&self) -> &'a [u8]
        ensures { result.now ≡ self.now }
    {
        self.bytes
    }
}
