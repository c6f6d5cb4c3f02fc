//! Nouns by their words: `taking` has one in `taking the ball`.
ghost use Rattle.std.specs.Prelude.{◌≡◌, ◌≤◌, length, IfOk};
ghost use Rattle.i7_actions.specs.NounForms.{is_opening, may_open, noun_said};
ghost use Rattle.i7_conditions.specs.Objects.{found_meant};
ghost use Rattle.i7_conditions.specs.Scopes.{scope_of};

use i7_conditions::{Found, Scope, object_said};
use play_meaning::tree::Referent;
use std::alloc::{AllocError, Global};
use world_meaning::{TextBytes, is_spelled};

/// The most words of an object that is no place beyond another: an article and a name.
const MOST_WORDS: usize = 33;

/// Whether the word is `room` or `door`.
#[tactic(auto, unfolding(crate::specs::NounForms::is_opening))]
fn is_opening(word: &TextBytes) -> bool
    ensures { result ≡ is_opening word.now }
{
    is_spelled(word.as_slice(), b"room") || is_spelled(word.as_slice(), b"door")
}

/// Whether `room` or `door` is one of the first two words.
fn may_open(words: &[TextBytes]) -> bool
    ensures { result ≡ may_open words.now }
{
    match words {
        [first, second, ..] => is_opening(first) || is_opening(second),
        _ => false,
    }
}

/// The object that at least one word means. Too many words are refused before they are looked at.
#[tactic(auto, using(crate::proofs::Refused::long_refused))]
pub fn noun_said(
    alloc: Global,
    scope: &Scope<'_>,
    words: &[TextBytes],
) -> Result<Found<Referent>, AllocError>
    requires few { length (scope_of scope.now).repeats ≤ 255 }
    ensures { IfOk result (λ found. found_meant found ≡ noun_said (scope_of scope.now) words.now) }
{
    if words.is_empty() || (words.len() > MOST_WORDS && !may_open(words)) {
        return Ok(Found::Unread);
    }
    object_said(alloc, scope, words)
}
