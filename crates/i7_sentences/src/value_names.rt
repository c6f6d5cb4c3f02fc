//! Words that name a kind of value, or are its plural.
ghost use Rattle.std.specs.Prelude.{◌≡◌, IfOk};
ghost use Rattle.std.specs.List.{list_any};
ghost use Rattle.world_meaning.specs.Spelling.{is_spelled, lowered};
ghost use Rattle.i7_sentences.specs.Automata.{is_of};
ghost use Rattle.i7_sentences.specs.Names.{words_in};
ghost use Rattle.i7_sentences.specs.Plurals.{plural_of};
ghost use Rattle.i7_sentences.specs.TextPieces.{are_spelled};
ghost use Rattle.i7_sentences.specs.ValueFits.{is_kind};
ghost use Rattle.i7_sentences.specs.ValueForms.{are_none, are_plural, is_named, is_plural, names_one};
ghost use Rattle.i7_sentences.specs.Words.{word_of};

use crate::class::State;
use crate::name::name_words;
use crate::plural::plural_of;
use crate::tagged::Tagged;
use crate::word::word_of;
use crate::{Class, KindLetter, WordList};
use std::alloc::{AllocError, Global};
use world_meaning::{TextBytes, is_spelled, lowered};

/// Whether the words are spelled as these are.
#[tactic(auto, using(crate::proofs::Alike::count_steps))]
fn are_spelled(words: &[Tagged<'_>], names: &[TextBytes]) -> bool
    ensures { result ≡ are_spelled (words_in words.now) names.now }
{
    if words.len() != names.len() {
        return false;
    }
    let mut left = words;
    let mut right = names;
    while let [word, after @ ..] = left {
        match right {
            [] => return false,
            [name, behind @ ..] => {
                if !is_spelled(word_of(word.token()), name.as_slice()) {
                    return false;
                }
                left = after;
                right = behind;
            }
        }
    }
    right.is_empty()
}

/// Whether the word is the plural of this one.
fn is_plural_word(alloc: Global, word: &Tagged<'_>, name: &[u8]) -> Result<bool, AllocError>
    ensures { IfOk result (λ is. is ≡ is_spelled (word_of word.now) (plural_of (lowered name.now))) }
{
    let name = lowered(alloc, name)?;
    let plural = plural_of(alloc, name.as_slice())?;
    Ok(is_spelled(word_of(word.token()), plural.as_slice()))
}

/// Whether there are neither words nor names.
fn are_none(words: &[Tagged<'_>], names: &[TextBytes]) -> bool
    ensures { result ≡ are_none (words_in words.now) names.now }
{
    match words {
        [] => match names {
            [] => true,
            [_, ..] => false,
        },
        [_, ..] => false,
    }
}

/// Whether the words are the plural of these.
#[tactic(auto, using(crate::proofs::Alike::count_steps))]
fn are_plural(alloc: Global, words: &[Tagged<'_>], names: &[TextBytes]) -> Result<bool, AllocError>
    ensures { IfOk result (λ is. is ≡ are_plural (words_in words.now) names.now) }
{
    if words.len() != names.len() {
        return Ok(false);
    }
    let mut left = words;
    let mut right = names;
    while let [word, after @ ..] = left {
        match right {
            [] => return Ok(false),
            [name, behind @ ..] => {
                if are_none(after, behind) {
                    return Ok(is_plural_word(alloc, word, name.as_slice())?);
                }
                if !is_spelled(word_of(word.token()), name.as_slice()) {
                    return Ok(false);
                }
                left = after;
                right = behind;
            }
        }
    }
    Ok(false)
}

/// Whether the words are the plural of a kind.
pub fn is_plural(alloc: Global, words: &[Tagged<'_>], kind: &WordList) -> Result<bool, AllocError>
    ensures { IfOk result (λ is. is ≡ is_plural words.now kind.now) }
{
    Ok(are_plural(alloc, name_words(words), kind.as_slice())?)
}

/// Whether the words name a kind.
fn is_named(words: &[Tagged<'_>], kind: &WordList) -> bool
    ensures { result ≡ is_named words.now kind.now }
{
    are_spelled(name_words(words), kind.as_slice())
}

/// Whether the words are the plural of one of the kinds.
fn is_plural_of_one(
    alloc: Global,
    kinds: &[WordList],
    words: &[Tagged<'_>],
) -> Result<bool, AllocError>
    ensures { IfOk result (λ is. is ≡ list_any (is_plural words.now) kinds.now) }
{
    let mut rest = kinds;
    while let [kind, after @ ..] = rest {
        if is_plural(alloc, words, kind)? {
            return Ok(true);
        }
        rest = after;
    }
    Ok(false)
}

/// Whether the words name one of the kinds.
fn is_name_of_one(kinds: &[WordList], words: &[Tagged<'_>]) -> bool
    ensures { result ≡ list_any (is_named words.now) kinds.now }
{
    kinds.iter().any(|kind| is_named(words, kind))
}

/// Whether the words name one of the kinds, as the letter of a form must.
fn names_one(
    alloc: Global,
    place: KindLetter,
    kinds: &[WordList],
    words: &[Tagged<'_>],
) -> Result<bool, AllocError>
    ensures { IfOk result (λ is. is ≡ names_one place kinds.now words.now) }
{
    match place {
        KindLetter::First | KindLetter::Last => Ok(is_name_of_one(kinds, words)),
        KindLetter::FirstPlural => Ok(is_plural_of_one(alloc, kinds, words)?),
    }
}

/// Whether a letter of the class may stand for the words.
fn is_of(class: Class, words: &[Tagged<'_>]) -> bool
    ensures { result ≡ is_of class words.now }
{
    let mut state = State::Start;
    let mut rest = words;
    while let [word, after @ ..] = rest {
        match class.step(state, word) {
            None => return false,
            Some(next) => {
                state = next;
                rest = after;
            }
        }
    }
    state.accepts()
}

/// Whether these are words that name one of the kinds and that a letter of the class may stand for.
pub fn is_kind(
    alloc: Global,
    place: KindLetter,
    kinds: &[WordList],
    class: Class,
    words: &[Tagged<'_>],
) -> Result<bool, AllocError>
    ensures { IfOk result (λ is. is ≡ is_kind place kinds.now class words.now) }
{
    if !names_one(alloc, place, kinds, words)? {
        return Ok(false);
    }
    Ok(is_of(class, words))
}
