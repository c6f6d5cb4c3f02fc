//! What sentences declare besides objects, wherever they stand; the values of a second list aren't looked at.
ghost use Rattle.std.specs.Prelude.{◌≡◌, ◌++◌, [], IfOk, OnOk};
ghost use Rattle.i7_claims.specs.Claims.{declared_once, declares_from, is_listed, with_listed};

use crate::claim::Claim;
use crate::claiming::{add_declares, key_text};
use i7_sentences::{Assertion, Sentence};
use object_words::Strings;
use std::alloc::{AllocError, Global};

/// Whether a sentence lists the values of one of these kinds of value.
fn is_listed(alloc: Global, kinds: &Strings, said: &Assertion) -> Result<bool, AllocError>
    ensures { IfOk result (λ is. is ≡ is_listed kinds.now said.now) }
{
    match said {
        Assertion::Values { kind, .. } => {
            let key = key_text(alloc, kind)?;
            Ok(kinds.contains(key.as_slice()))
        }
        _ => Ok(false),
    }
}

/// Keeps the kind of value whose values a sentence lists.
fn keep_listed(alloc: Global, kinds: &mut Strings, said: &Assertion) -> Result<(), AllocError>
    ensures { OnOk result (kinds.new ≡ with_listed kinds.old said.now) }
{
    match said {
        Assertion::Values { kind, .. } => {
            let key = key_text(alloc, kind)?;
            kinds.mention(alloc, key.as_slice())
        }
        _ => Ok(()),
    }
}

/// Adds what a sentence declares, unless it lists the values of one of these kinds of value.
fn add_once(
    alloc: Global,
    kinds: &Strings,
    claims: &mut Vec<Claim>,
    sentence: &Sentence,
) -> Result<(), AllocError>
    ensures { OnOk result (claims.new.items ≡ claims.old.items ++ declared_once kinds.now sentence.now) }
{
    if is_listed(alloc, kinds, &sentence.said)? {
        Ok(())
    } else {
        add_declares(alloc, claims, &sentence.said, sentence.line)
    }
}

/// What the sentences declare besides objects.
pub fn declares_of(alloc: Global, sentences: &[Sentence]) -> Result<Vec<Claim>, AllocError>
    ensures { IfOk result (λ claims. claims.items ≡ declares_from [] sentences.now) }
{
    let mut claims = Vec::new(alloc);
    let mut kinds = Strings::new(alloc);
    let mut rest = sentences;
    while let [sentence, after @ ..] = rest {
        add_once(alloc, &kinds, &mut claims, sentence)?;
        keep_listed(alloc, &mut kinds, &sentence.said)?;
        rest = after;
    }
    Ok(claims)
}
