//! What words ask of an action's nouns and of the place: `taking the ball in the Hall`.
ghost use Rattle.std.specs.Prelude.{◌≡◌, ◌≤◌, length, option_map, IfOk};
ghost use Rattle.i7_actions.specs.Parts.{first_part};
ghost use Rattle.i7_conditions.specs.Scopes.{scope_of};
ghost use Rattle.i7_patterns.specs.ActionForms.{aspects_around, aspects_asked, aspects_at, aspects_meant, begins, in_place, nouns_asked, nouns_meant, place_asked};
ghost use Rattle.i7_patterns.specs.Actions.{is_in};
ghost use Rattle.i7_patterns.specs.Lowest.{lowest_from};
ghost use Rattle.play_meaning.specs.Patterns.{aspect_meant};

use crate::aspect::one_asked;
use crate::nouns::{Nouns, nouns_asked};
use i7_actions::{Action, behind, parts_of};
use i7_conditions::Scope;
use play_meaning::tree::Aspect;
use std::alloc::{AllocError, Global};
use world_meaning::{TextBytes, is_spelled};

/// What is asked of an action's nouns and of the place.
#[derive(Drop)]
pub struct Aspects {
    pub nouns: Nouns,
    pub place: Aspect,
}

/// Whether the word is `in`.
#[tactic(auto, unfolding(crate::specs::Actions::is_in))]
fn is_in(word: &TextBytes) -> bool
    ensures { result ≡ is_in word.now }
{
    is_spelled(word.as_slice(), b"in")
}

/// What words behind an action ask of the place: nothing, where there are none.
pub fn place_asked(
    alloc: Global,
    scope: &Scope<'_>,
    words: &[TextBytes],
) -> Result<Option<Aspect>, AllocError>
    requires few { length (scope_of scope.now).repeats ≤ 255 }
    ensures { IfOk result (λ place. option_map aspect_meant place ≡ place_asked (scope_of scope.now) words.now) }
{
    match words {
        [] => Ok(Some(Aspect::Anything)),
        [word, rest @ ..] => {
            if is_in(word) {
                Ok(one_asked(alloc, scope, rest)?)
            } else {
                Ok(None)
            }
        }
    }
}

/// The place, and the nouns.
fn in_place(place: Aspect, nouns: Option<Nouns>) -> Option<Aspects>
    ensures { option_map aspects_meant result ≡ option_map (in_place (aspect_meant place)) (option_map nouns_meant nouns) }
{
    match nouns {
        None => None,
        Some(nouns) => Some(Aspects { nouns, place }),
    }
}

/// What words in front of `in` ask, and those behind it.
fn aspects_around(
    alloc: Global,
    scope: &Scope<'_>,
    action: &Action,
    front: &[TextBytes],
    place: &[TextBytes],
) -> Result<Option<Aspects>, AllocError>
    requires few { length (scope_of scope.now).repeats ≤ 255 }
    ensures { IfOk result (λ aspects. option_map aspects_meant aspects ≡ aspects_around (scope_of scope.now) action.now front.now place.now) }
{
    match one_asked(alloc, scope, place)? {
        None => Ok(None),
        Some(place) => {
            let nouns = nouns_asked(alloc, scope, action, front)?;
            Ok(in_place(place, nouns))
        }
    }
}

/// What words ask of which the action has so many, and the place the rest.
fn aspects_at(
    alloc: Global,
    scope: &Scope<'_>,
    action: &Action,
    words: &[TextBytes],
    len: usize,
    rest: &[TextBytes],
) -> Result<Option<Aspects>, AllocError>
    requires few { length (scope_of scope.now).repeats ≤ 255 }
    requires within { len ≤ length words.now }
    ensures { IfOk result (λ aspects. option_map aspects_meant aspects ≡ aspects_at (scope_of scope.now) action.now words.now len rest.now) }
{
    let (front, _) = words.split_at(len);
    match rest {
        [] => {
            let nouns = nouns_asked(alloc, scope, action, front)?;
            Ok(in_place(Aspect::Anything, nouns))
        }
        [word, place @ ..] => {
            if is_in(word) {
                Ok(aspects_around(alloc, scope, action, front, place)?)
            } else {
                Ok(None)
            }
        }
    }
}

/// What words ask where the place begins as early as can be.
fn aspects_in(
    alloc: Global,
    scope: &Scope<'_>,
    action: &Action,
    words: &[TextBytes],
) -> Result<Option<Aspects>, AllocError>
    requires few { length (scope_of scope.now).repeats ≤ 255 }
    ensures { IfOk result (λ aspects. option_map aspects_meant aspects ≡ lowest_from (aspects_at (scope_of scope.now) action.now words.now) 0 words.now) }
{
    let mut len = 0;
    let mut rest = words;
    while let [_, after @ ..] = rest {
        match aspects_at(alloc, scope, action, words, len, rest)? {
            None => {}
            found => return Ok(found),
        }
        len += 1;
        rest = after;
    }
    Ok(aspects_at(alloc, scope, action, words, len, rest)?)
}

/// Whether words begin with the first part of a name.
fn begins(name: &[TextBytes], words: &[TextBytes]) -> bool
    ensures { result ≡ begins (first_part name.now) words.now }
{
    let (first, _) = parts_of(name);
    behind(first, words).is_some()
}

/// What words ask of an action, and of the place, which begins as early as can be.
#[tactic(auto, unfolding(crate::specs::ActionForms::aspects_asked))]
pub fn aspects_asked(
    alloc: Global,
    scope: &Scope<'_>,
    action: &Action,
    words: &[TextBytes],
) -> Result<Option<Aspects>, AllocError>
    requires few { length (scope_of scope.now).repeats ≤ 255 }
    ensures { IfOk result (λ aspects. option_map aspects_meant aspects ≡ aspects_asked (scope_of scope.now) action.now words.now) }
{
    if begins(action.name.as_slice(), words) {
        Ok(aspects_in(alloc, scope, action, words)?)
    } else {
        Ok(None)
    }
}
