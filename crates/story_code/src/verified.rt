//! Code that has been found sound.
ghost use Rattle.std.specs.Prelude.{◌≡◌, MatchOption};
ghost use Rattle.story_code.specs.Soundness.{IsSoundCode};

use crate::sizes::Sizes;
use crate::verifying::verify;
use std::marker::Model;

/// Bytes that are a sound code, and what they were judged by.
#[derive(Drop)]
pub struct Verified {
    pub(crate) bytes: Vec<u8>,
    sizes: Sizes,
}

impl Model for Verified {
    ghost use Rattle.story_code.specs.Soundness.{IsSoundCode, Judged};

    ghost Value = { Judged };

    ghost view = { λ v. record { sizes = v.sizes; bytes = v.bytes.items } };

    ghost invariant = { λ v. IsSoundCode v.sizes v.bytes.items };
}

impl Verified {
    /// These bytes, if they are a sound code.
    pub fn new(bytes: Vec<u8>, sizes: Sizes) -> Option<Verified>
        ensures { MatchOption result (IsSoundCode sizes bytes.items → ⊥) (λ v. v ≡ record { sizes = sizes; bytes = bytes.items }) }
    {
        if !verify(bytes.as_slice(), &sizes) {
            return None;
        }
        Some(Verified { bytes, sizes })
    }

    /// The code's bytes.
    pub fn bytes(&self) -> &[u8]
        ensures { result.now ≡ self.now.bytes }
    {
        self.bytes.as_slice()
    }

    /// What the code was judged by.
    pub fn sizes(&self) -> Sizes
        ensures { result ≡ self.now.sizes }
    {
        self.sizes
    }
}
