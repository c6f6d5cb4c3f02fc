//! Names that are no objects, by their words: variables, number properties and kinds of value; and words cut at their first
//! `of`.
ghost use Rattle.std.specs.Prelude.{◌≡◌, ◌≤◌, length, option_map, IfOk};
ghost use Rattle.std.specs.List.{position_or_len};
ghost use Rattle.i7_conditions.specs.Keys.{is_named, is_of, known, plain_key, property_in, property_named, split_of, value_kind_in, value_kind_named, variable_in, variable_named};
ghost use Rattle.i7_conditions.specs.Scopes.{scope_of};

use crate::meaning::Meaning;
use crate::plain::MOST_WORDS;
use crate::scope::Scope;
use crate::word::{key_of, without_article};
use std::alloc::{AllocError, Global};
use world_meaning::{TextBytes, is_spelled};

/// The name that words spell, in small letters, one article in front being free. No name has more than 32 words.
#[tactic(auto, unfolding(crate::specs::Keys::plain_key))]
fn plain_key(alloc: Global, words: &[TextBytes]) -> Result<Option<Vec<u8>>, AllocError>
    ensures { IfOk result (λ key. option_map (λ bytes. bytes.items) key ≡ plain_key words.now) }
{
    let words = without_article(words);
    match words {
        [] => Ok(None),
        [_, ..] => {
            if words.len() > MOST_WORDS {
                return Ok(None);
            }
            Ok(Some(key_of(alloc, words)?))
        }
    }
}

/// What words name.
pub fn known(
    alloc: Global,
    scope: &Scope<'_>,
    words: &[TextBytes],
) -> Result<Option<Meaning>, AllocError>
    ensures { IfOk result (λ meaning. meaning ≡ known (scope_of scope.now) (plain_key words.now)) }
{
    match plain_key(alloc, words)? {
        None => Ok(None),
        Some(key) => Ok(scope.names.meaning(key.as_slice())),
    }
}

/// The variable that a name stands for.
fn variable_in(meaning: Option<Meaning>) -> Option<u8>
    ensures { result ≡ variable_in meaning }
{
    match meaning {
        Some(Meaning::Variable(variable)) => Some(variable),
        _ => None,
    }
}

/// The number property that a name stands for.
fn property_in(meaning: Option<Meaning>) -> Option<u8>
    ensures { result ≡ property_in meaning }
{
    match meaning {
        Some(Meaning::Number(property)) => Some(property),
        _ => None,
    }
}

/// The variable that words name.
pub fn variable_named(
    alloc: Global,
    scope: &Scope<'_>,
    words: &[TextBytes],
) -> Result<Option<u8>, AllocError>
    ensures { IfOk result (λ variable. variable ≡ variable_named (scope_of scope.now) words.now) }
{
    let meaning = known(alloc, scope, words)?;
    Ok(variable_in(meaning))
}

/// The number property that words name.
pub fn property_named(
    alloc: Global,
    scope: &Scope<'_>,
    words: &[TextBytes],
) -> Result<Option<u8>, AllocError>
    ensures { IfOk result (λ property. property ≡ property_named (scope_of scope.now) words.now) }
{
    let meaning = known(alloc, scope, words)?;
    Ok(property_in(meaning))
}

/// The kind of value that a name stands for.
fn value_kind_in(meaning: Option<Meaning>) -> Option<u8>
    ensures { result ≡ value_kind_in meaning }
{
    match meaning {
        Some(Meaning::ValueKind(kind)) => Some(kind),
        _ => None,
    }
}

/// The kind of value that words name.
pub fn value_kind_named(
    alloc: Global,
    scope: &Scope<'_>,
    words: &[TextBytes],
) -> Result<Option<u8>, AllocError>
    ensures { IfOk result (λ kind. kind ≡ value_kind_named (scope_of scope.now) words.now) }
{
    let meaning = known(alloc, scope, words)?;
    Ok(value_kind_in(meaning))
}

/// Whether words spell this name, one article in front being free.
pub fn is_named(alloc: Global, name: &[u8], words: &[TextBytes]) -> Result<bool, AllocError>
    ensures { IfOk result (λ is. is ≡ is_named name.now words.now) }
{
    match plain_key(alloc, words)? {
        None => Ok(false),
        Some(key) => Ok(is_spelled(key.as_slice(), name)),
    }
}

/// Whether the word is `of`.
#[tactic(auto, unfolding(crate::specs::Keys::is_of))]
fn is_of(word: &TextBytes) -> bool
    ensures { result ≡ is_of word.now }
{
    is_spelled(word.as_slice(), b"of")
}

/// How many words stand in front of the first `of`.
fn before_of(words: &[TextBytes]) -> usize
    ensures place { result ≡ position_or_len is_of words.now }
    ensures within { result ≤ length words.now }
{
    words.iter().take_while(|word| !is_of(*word)).count()
}

/// The words in front of the first `of`, and those behind it.
pub fn split_of(words: &[TextBytes]) -> Option<(&[TextBytes], &[TextBytes])>
    ensures { option_map (λ parts. (parts.0.now, parts.1.now)) result ≡ split_of words.now }
{
    let (front, rest) = words.split_at(before_of(words));
    match rest {
        [] => None,
        [_, behind @ ..] => Some((front, behind)),
    }
}
