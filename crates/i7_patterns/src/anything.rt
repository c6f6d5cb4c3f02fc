//! `doing anything`, whatever the action and its nouns are.
ghost use Rattle.std.specs.Prelude.{◌≡◌, ◌≤◌, length, None, option_map, IfOk};
ghost use Rattle.i7_conditions.specs.Scopes.{scope_of};
ghost use Rattle.i7_patterns.specs.PatternForms.{anything_by};
ghost use Rattle.play_meaning.specs.Patterns.{aspect_meant, pattern_meant};
ghost use Rattle.i7_patterns.specs.Patterns.{any_in, behind_anything, is_doing_anything, pattern_of};

use crate::aspects::place_asked;
use i7_conditions::Scope;
use play_meaning::tree::{Aspect, Pattern};
use std::alloc::{AllocError, Global};
use world_meaning::{TextBytes, is_spelled};

/// Whether two words are `doing anything`.
#[tactic(auto, unfolding(crate::specs::Patterns::is_doing_anything))]
fn is_doing_anything(first: &TextBytes, second: &TextBytes) -> bool
    ensures { result ≡ is_doing_anything first.now second.now }
{
    is_spelled(first.as_slice(), b"doing") && is_spelled(second.as_slice(), b"anything")
}

/// The words behind `doing anything`.
fn behind_anything(words: &[TextBytes]) -> Option<&[TextBytes]>
    ensures { option_map (λ rest. rest.now) result ≡ behind_anything words.now }
{
    match words {
        [first, second, rest @ ..] => {
            if is_doing_anything(first, second) {
                Some(rest)
            } else {
                None
            }
        }
        _ => None,
    }
}

/// The pattern that asks nothing but the place.
fn any_in(place: Option<Aspect>) -> Option<Pattern>
    ensures { option_map pattern_meant result ≡ option_map (λ place. pattern_of None (any_in place)) (option_map aspect_meant place) }
{
    match place {
        None => None,
        Some(place) => Some(Pattern {
            action: None,
            noun: Aspect::Anything,
            second: Aspect::Anything,
            place,
            scene: None,
        }),
    }
}

/// The pattern of words that begin with `doing anything`.
pub fn anything_asked(
    alloc: Global,
    scope: &Scope<'_>,
    words: &[TextBytes],
) -> Result<Option<Pattern>, AllocError>
    requires few { length (scope_of scope.now).repeats ≤ 255 }
    ensures { IfOk result (λ pattern. option_map pattern_meant pattern ≡ anything_by (scope_of scope.now) (behind_anything words.now)) }
{
    match behind_anything(words) {
        None => Ok(None),
        Some(rest) => {
            let place = place_asked(alloc, scope, rest)?;
            Ok(any_in(place))
        }
    }
}
