//! Objects that words name without `from`: `the red ball`, `the noun`, the object of a repeat.
ghost use Rattle.std.specs.Prelude.{◌≡◌, ◌≤◌, ◌+◌, length, IfOk, None};
ghost use Rattle.i7_conditions.specs.Plain.{fixed, in_meaning, in_meanings, known_as, plainly_named, turning};
ghost use Rattle.i7_conditions.specs.Scopes.{scope_of};

use crate::mark::Mark;
use crate::meaning::Meaning;
use crate::scope::Scope;
use crate::word::{key_of, without_article};
use std::alloc::{AllocError, Global};
use world_meaning::{ObjNo, TextBytes, is_spelled};

/// The most words of a name.
pub const MOST_WORDS: usize = 32;

/// The object that a name stands for.
fn in_meaning(meaning: Meaning) -> Option<Mark>
    ensures { result ≡ in_meaning meaning }
{
    match meaning {
        Meaning::Object(object) => Some(Mark::The(object)),
        _ => None,
    }
}

/// The object that a name in small letters stands for.
fn object_of_name(scope: &Scope<'_>, key: &[u8]) -> Option<Mark>
    ensures { result ≡ in_meanings ((scope_of scope.now).meanings key.now) }
{
    match scope.names.meaning(key) {
        None => None,
        Some(meaning) => in_meaning(meaning),
    }
}

/// What no source can declare: `player`, `noun`, `second noun`, `location`, `nothing`.
fn fixed(key: &[u8]) -> Option<Mark>
    ensures { result ≡ fixed key.now }
{
    if is_spelled(key, b"player") {
        Some(Mark::The(ObjNo::new(0)))
    } else if is_spelled(key, b"noun") {
        Some(Mark::Noun)
    } else if is_spelled(key, b"second noun") {
        Some(Mark::SecondNoun)
    } else if is_spelled(key, b"location") {
        Some(Mark::Location)
    } else if is_spelled(key, b"nothing") {
        Some(Mark::Nothing)
    } else {
        None
    }
}

/// The object of the innermost repeat that gives it this name.
fn turning(repeats: &[TextBytes], key: &[u8]) -> Option<Mark>
    requires few { length repeats.now ≤ 255 }
    ensures { result ≡ turning 0 repeats.now key.now }
{
    let mut found = None;
    let mut number = 0u8;
    let mut rest = repeats;
    while let [name, after @ ..] = rest {
        if is_spelled(name.as_slice(), key) {
            found = Some(Mark::Turning(number));
        }
        number += 1;
        rest = after;
    }
    found
}

/// The object that a name in small letters stands for: a tale's object, else a fixed word, else the object of a repeat.
fn known_as(scope: &Scope<'_>, key: &[u8]) -> Option<Mark>
    requires few { length (scope_of scope.now).repeats ≤ 255 }
    ensures { result ≡ known_as (scope_of scope.now) key.now }
{
    if let Some(named) = object_of_name(scope, key) {
        return Some(named);
    }
    match fixed(key) {
        Some(named) => Some(named),
        None => turning(scope.repeats, key),
    }
}

/// The object that words name, one article in front being free. No name has more than 32 words.
#[tactic(auto, unfolding(crate::specs::Plain::plainly_named))]
pub fn plainly_named(
    alloc: Global,
    scope: &Scope<'_>,
    words: &[TextBytes],
) -> Result<Option<Mark>, AllocError>
    requires few { length (scope_of scope.now).repeats ≤ 255 }
    ensures { IfOk result (λ named. named ≡ plainly_named (scope_of scope.now) words.now) }
{
    let words = without_article(words);
    if words.len() > MOST_WORDS {
        return Ok(None);
    }
    let key = key_of(alloc, words)?;
    Ok(known_as(scope, key.as_slice()))
}
