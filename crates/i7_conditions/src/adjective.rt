//! Adjectives and kinds by the words of their names: `closed`, `not visible`, `dark rooms`, `something`.
ghost use Rattle.std.specs.Prelude.{◌≡◌, IfOk, None};
ghost use Rattle.i7_conditions.specs.Adjectives.{adjective_by, adjective_named, fixed_quality, in_qualities, in_quality, quality_known, quality_named};
ghost use Rattle.i7_conditions.specs.Adjectives.{in_kind, in_kinds, kind_known, kind_named, something};
ghost use Rattle.i7_conditions.specs.Scopes.{scope_of};

use crate::meaning::Meaning;
use crate::plain::MOST_WORDS;
use crate::scope::Scope;
use crate::word::{is_not, key_of};
use play_meaning::tree::{Adjective, Quality};
use std::alloc::{AllocError, Global};
use world_meaning::{KindNo, TextBytes, is_spelled};

/// The either-or property that a name stands for, or the value.
fn in_quality(meaning: Meaning) -> Option<Quality>
    ensures { result ≡ in_quality meaning }
{
    match meaning {
        Meaning::Quality(property, side) => Some(Quality::Is(property, side)),
        Meaning::Value(kind, value) => Some(Quality::Valued(kind, value)),
        _ => None,
    }
}

/// `visible` and `touchable`.
fn fixed_quality(key: &[u8]) -> Option<Quality>
    ensures { result ≡ fixed_quality key.now }
{
    if is_spelled(key, b"visible") {
        Some(Quality::Visible)
    } else if is_spelled(key, b"touchable") {
        Some(Quality::Touchable)
    } else {
        None
    }
}

/// The either-or property or the value of this name in small letters.
fn property_of_name(scope: &Scope<'_>, key: &[u8]) -> Option<Quality>
    ensures { result ≡ in_qualities ((scope_of scope.now).meanings key.now) }
{
    match scope.names.meaning(key) {
        None => None,
        Some(meaning) => in_quality(meaning),
    }
}

/// What an adjective of this name says: a declared name goes first.
fn quality_known(scope: &Scope<'_>, key: &[u8]) -> Option<Quality>
    ensures { result ≡ quality_known (scope_of scope.now) key.now }
{
    match property_of_name(scope, key) {
        Some(quality) => Some(quality),
        None => fixed_quality(key),
    }
}

/// What the words of an adjective's name say, without a `not` or an article. No name has more than 32 words.
pub fn quality_named(
    alloc: Global,
    scope: &Scope<'_>,
    words: &[TextBytes],
) -> Result<Option<Quality>, AllocError>
    ensures { IfOk result (λ quality. quality ≡ quality_named (scope_of scope.now) words.now) }
{
    if words.len() > MOST_WORDS {
        return Ok(None);
    }
    let key = key_of(alloc, words)?;
    Ok(quality_known(scope, key.as_slice()))
}

fn adjective_by(denied: bool, quality: Option<Quality>) -> Option<Adjective>
    ensures { result ≡ adjective_by denied quality }
{
    match quality {
        None => None,
        Some(quality) => Some(Adjective { quality, denied }),
    }
}

/// The adjective that words are, perhaps behind `not`.
#[tactic(auto, unfolding(crate::specs::Adjectives::adjective_named))]
pub fn adjective_named(
    alloc: Global,
    scope: &Scope<'_>,
    words: &[TextBytes],
) -> Result<Option<Adjective>, AllocError>
    ensures { IfOk result (λ adjective. adjective ≡ adjective_named (scope_of scope.now) words.now) }
{
    match words {
        [] => Ok(None),
        [first, rest @ ..] => {
            if is_not(first) {
                Ok(adjective_by(true, quality_named(alloc, scope, rest)?))
            } else {
                Ok(adjective_by(false, quality_named(alloc, scope, words)?))
            }
        }
    }
}

/// The kind that a name stands for.
fn in_kind(meaning: Meaning) -> Option<KindNo>
    ensures { result ≡ in_kind meaning }
{
    match meaning {
        Meaning::Kind(kind) => Some(kind),
        _ => None,
    }
}

/// The kind of this name in small letters.
fn kind_of_name(scope: &Scope<'_>, key: &[u8]) -> Option<KindNo>
    ensures { result ≡ in_kinds ((scope_of scope.now).meanings key.now) }
{
    match scope.names.meaning(key) {
        None => None,
        Some(meaning) => in_kind(meaning),
    }
}

/// `something` is a thing.
fn something(key: &[u8]) -> Option<KindNo>
    ensures { result ≡ something key.now }
{
    if is_spelled(key, b"something") {
        Some(KindNo::THING)
    } else {
        None
    }
}

/// The kind that a name stands for, or whose plural it is.
fn kind_known(scope: &Scope<'_>, key: &[u8]) -> Option<KindNo>
    ensures { result ≡ kind_known (scope_of scope.now) key.now }
{
    if let Some(kind) = kind_of_name(scope, key) {
        return Some(kind);
    }
    match scope.names.plural(key) {
        Some(kind) => Some(kind),
        None => something(key),
    }
}

/// The kind that words name, or whose plural they are. No name has more than 32 words.
#[tactic(auto, unfolding(crate::specs::Adjectives::kind_named))]
pub fn kind_named(
    alloc: Global,
    scope: &Scope<'_>,
    words: &[TextBytes],
) -> Result<Option<KindNo>, AllocError>
    ensures { IfOk result (λ kind. kind ≡ kind_named (scope_of scope.now) words.now) }
{
    match words {
        [] => Ok(None),
        [_, ..] => {
            if words.len() > MOST_WORDS {
                return Ok(None);
            }
            let key = key_of(alloc, words)?;
            Ok(kind_known(scope, key.as_slice()))
        }
    }
}
