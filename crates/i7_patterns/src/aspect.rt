//! What words ask of a noun, or of the place: `the ball`, `an open container`, `something`.
ghost use Rattle.std.specs.Prelude.{◌≡◌, ◌≤◌, length, option_map, IfOk};
ghost use Rattle.std.specs.List.{list_all};
ghost use Rattle.i7_conditions.specs.Objects.{found_meant};
ghost use Rattle.i7_conditions.specs.Scopes.{scope_of};
ghost use Rattle.i7_patterns.specs.AspectForms.{exactly, kind_asked, noun_asked, object_asked, one_asked};
ghost use Rattle.i7_patterns.specs.Aspects.{is_own, is_own_quality, is_something, says_something};
ghost use Rattle.play_meaning.specs.Meant.{object_meant};
ghost use Rattle.play_meaning.specs.Patterns.{aspect_meant};

use i7_actions::noun_said;
use i7_conditions::{Found, Front, Scope, front_of, without_article};
use play_meaning::tree::{Adjective, Aspect, Quality, Referent};
use std::alloc::{AllocError, Global};
use world_meaning::{TextBytes, is_spelled};

/// Whether the word is `something`.
#[tactic(auto, unfolding(crate::specs::Aspects::says_something))]
fn says_something(word: &TextBytes) -> bool
    ensures { result ≡ says_something word.now }
{
    is_spelled(word.as_slice(), b"something")
}

/// Whether words are `something` alone.
fn is_something(words: &[TextBytes]) -> bool
    ensures { result ≡ is_something words.now }
{
    match words {
        [word] => says_something(word),
        _ => false,
    }
}

/// Whether it is an either-or property or a value.
fn is_own_quality(quality: Quality) -> bool
    ensures { result ≡ is_own_quality quality }
{
    match quality {
        Quality::Is(_, _) | Quality::Valued(_, _) => true,
        Quality::Visible | Quality::Touchable => false,
    }
}

/// Whether all adjectives are either-or properties or values.
fn all_own(adjectives: &[Adjective]) -> bool
    ensures { result ≡ list_all is_own adjectives.now }
{
    adjectives
        .iter()
        .all(|adjective| is_own_quality(adjective.quality))
}

/// This object, if a name stands for it.
fn exactly(referent: Referent) -> Option<Aspect>
    ensures { option_map aspect_meant result ≡ exactly (object_meant referent) }
{
    match referent {
        Referent::The(object) => Some(Aspect::Exactly(object)),
        _ => None,
    }
}

/// The object that is found, if a name stands for it.
fn object_asked(found: Found<Referent>) -> Option<Aspect>
    ensures { option_map aspect_meant result ≡ object_asked (found_meant found) }
{
    match found {
        Found::Read(referent) => exactly(referent),
        Found::TooMany | Found::Unread => None,
    }
}

/// An object of this kind with these adjectives, if all are either-or properties or values.
fn kind_asked(front: Option<Front>) -> Option<Aspect>
    ensures { option_map aspect_meant result ≡ kind_asked front }
{
    match front {
        None => None,
        Some(front) => {
            if all_own(front.adjectives.as_slice()) {
                Some(Aspect::OfKind(front.kind, front.adjectives))
            } else {
                None
            }
        }
    }
}

/// The object that words name, or else the description that they are.
pub fn one_asked(
    alloc: Global,
    scope: &Scope<'_>,
    words: &[TextBytes],
) -> Result<Option<Aspect>, AllocError>
    requires few { length (scope_of scope.now).repeats ≤ 255 }
    ensures { IfOk result (λ aspect. option_map aspect_meant aspect ≡ one_asked (scope_of scope.now) words.now) }
{
    match object_asked(noun_said(alloc, scope, words)?) {
        Some(aspect) => Ok(Some(aspect)),
        None => {
            let front = front_of(alloc, scope, without_article(words))?;
            Ok(kind_asked(front))
        }
    }
}

/// What words ask of a noun: nothing, where they are `something` alone.
pub fn noun_asked(
    alloc: Global,
    scope: &Scope<'_>,
    words: &[TextBytes],
) -> Result<Option<Aspect>, AllocError>
    requires few { length (scope_of scope.now).repeats ≤ 255 }
    ensures { IfOk result (λ aspect. option_map aspect_meant aspect ≡ noun_asked (scope_of scope.now) words.now) }
{
    if is_something(words) {
        return Ok(Some(Aspect::Anything));
    }
    Ok(one_asked(alloc, scope, words)?)
}
