//! Words as they are written: which are `from` or open a place beyond, and the name that words spell.
ghost use Rattle.std.specs.Prelude.{◌≡◌, IfOk, OnOk};
ghost use Rattle.i7_conditions.specs.Words.{begins_beyond, beyond_of, is_from, is_not, key_of, spelled, with_word, without_article};

use crate::mark::Mark;
use std::alloc::{AllocError, Global};
use world_meaning::{TextBytes, is_article, is_spelled, lowered};

/// Whether the word is `from`.
#[tactic(auto, unfolding(crate::specs::Words::is_from))]
pub fn is_from(word: &TextBytes) -> bool
    ensures { result ≡ is_from word.now }
{
    is_spelled(word.as_slice(), b"from")
}

/// Whether the word is `not`.
#[tactic(auto, unfolding(crate::specs::Words::is_not))]
pub fn is_not(word: &TextBytes) -> bool
    ensures { result ≡ is_not word.now }
{
    is_spelled(word.as_slice(), b"not")
}

/// What `room` and `door` may open.
#[tactic(auto, unfolding(crate::specs::Words::beyond_of))]
pub fn beyond_of(word: &TextBytes) -> Option<Mark>
    ensures { result ≡ beyond_of word.now }
{
    if is_spelled(word.as_slice(), b"room") {
        Some(Mark::Room)
    } else if is_spelled(word.as_slice(), b"door") {
        Some(Mark::Door)
    } else {
        None
    }
}

/// Whether words begin with `room` or `door`.
pub fn begins_beyond(words: &[TextBytes]) -> bool
    ensures { result ≡ begins_beyond words.now }
{
    match words {
        [] => false,
        [word, ..] => beyond_of(word).is_some(),
    }
}

/// Words without one free article in front, unless it is all there is.
pub fn without_article(words: &[TextBytes]) -> &[TextBytes]
    ensures { result.now ≡ without_article words.now }
{
    match words {
        [] => words,
        [first, rest @ ..] => {
            if is_article(first.as_slice()) && !rest.is_empty() {
                rest
            } else {
                words
            }
        }
    }
}

/// Adds a word, parted by one space from what is there.
fn add_word(bytes: &mut Vec<u8>, word: &TextBytes) -> Result<(), AllocError>
    ensures { OnOk result (bytes.new.items ≡ with_word bytes.old.items word.now) }
{
    if !bytes.is_empty() {
        bytes.push(b' ')?;
    }
    bytes.extend_from_slice(word.as_slice())?;
    Ok(())
}

/// The words, parted by one space.
fn spelled(alloc: Global, words: &[TextBytes]) -> Result<Vec<u8>, AllocError>
    ensures { IfOk result (λ bytes. bytes.items ≡ spelled words.now) }
{
    let mut bytes = Vec::new(alloc);
    let mut rest = words;
    while let [word, after @ ..] = rest {
        add_word(&mut bytes, word)?;
        rest = after;
    }
    Ok(bytes)
}

/// The name that the words spell, in small letters.
pub fn key_of(alloc: Global, words: &[TextBytes]) -> Result<Vec<u8>, AllocError>
    ensures { IfOk result (λ key. key.items ≡ key_of words.now) }
{
    let name = spelled(alloc, words)?;
    lowered(alloc, name.as_slice())
}
