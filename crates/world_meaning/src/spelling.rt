//! Words are compared without the case of ASCII letters.
ghost use Rattle.std.specs.Prelude.{◌≡◌, IfOk};
ghost use Rattle.world_meaning.specs.Spelling.{is_spelled, lowered};

use std::alloc::{AllocError, Global};

/// Whether the word is spelled so, the case of ASCII letters aside.
#[inline(always)]
pub fn is_spelled(word: &[u8], spelling: &[u8]) -> bool
    ensures { result ≡ is_spelled word.now spelling.now }
{
    word.eq_ignore_ascii_case(spelling)
}

/// The text in small ASCII letters.
#[inline(always)]
pub fn lowered(alloc: Global, text: &[u8]) -> Result<Vec<u8>, AllocError>
    ensures { IfOk result (λ small. small.items ≡ lowered text.now) }
{
    text.to_ascii_lowercase(alloc)
}
