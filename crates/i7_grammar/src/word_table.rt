//! The words of all objects, with those that sentences tell so far.
ghost use Rattle.std.specs.Prelude.{◌≡◌, ◌+◌, option_map, slice_get, IfOk, OnOk};
ghost use Rattle.world_meaning.specs.Spelling.{lowered};
ghost use Rattle.object_words.specs.Mentions.{mention};
ghost use Rattle.i7_grammar.specs.GrammarScans.{are_many, has_many, named_from, set_words, with_text, with_texts, with_words};

use crate::target::Target;
use crate::text_words::words_among;
use crate::understood::Understood;
use object_words::{Strings, words_for};
use std::alloc::{AllocError, Global};
use world_meaning::{Object, TextBytes, lowered};

/// The most words of an object.
const MOST_WORDS: usize = 32;

/// The words of each object by its name.
pub fn words_by_name(alloc: Global, objects: &[Object]) -> Result<Vec<Strings>, AllocError>
    ensures { IfOk result (λ all. all.items ≡ named_from 0 objects.now) }
{
    let mut all = Vec::new(alloc);
    let mut number = 0usize;
    let mut rest = objects;
    while let [object, behind @ ..] = rest {
        all.push(words_for(alloc, number, object.name.as_slice())?)?;
        number += 1;
        rest = behind;
    }
    Ok(all)
}

/// Mentions a word in small letters.
fn mention_small(alloc: Global, words: &mut Strings, word: &[u8]) -> Result<(), AllocError>
    ensures { OnOk result (words.new ≡ mention words.old (lowered word.now)) }
{
    let small = lowered(alloc, word)?;
    words.mention(alloc, small.as_slice())
}

/// Mentions the words of a text.
fn mention_text(alloc: Global, words: &mut Strings, text: &[u8]) -> Result<(), AllocError>
    ensures { OnOk result (words.new ≡ with_text words.old text.now) }
{
    let among = words_among(alloc, text)?;
    let mut rest = among.as_slice();
    while let [word, behind @ ..] = rest {
        mention_small(alloc, words, word)?;
        rest = behind;
    }
    Ok(())
}

/// Mentions the words of texts.
fn mention_texts(alloc: Global, words: &mut Strings, texts: &[TextBytes]) -> Result<(), AllocError>
    ensures { OnOk result (words.new ≡ with_texts words.old texts.now) }
{
    let mut rest = texts;
    while let [text, behind @ ..] = rest {
        mention_text(alloc, words, text.as_slice())?;
        rest = behind;
    }
    Ok(())
}

/// Mentions the words of texts among those of the object of this number, if it is there.
fn mention_of(
    alloc: Global,
    all: &mut Vec<Strings>,
    object: u16,
    texts: &[TextBytes],
) -> Result<(), AllocError>
    ensures { OnOk result (all.new.items ≡ set_words all.old.items object texts.now (slice_get all.old.items object)) }
{
    match all.get_mut(usize::from(object)) {
        None => Ok(()),
        Some(words) => mention_texts(alloc, words, texts),
    }
}

/// Mentions the words that a sentence tells.
pub fn mention_told(
    alloc: Global,
    all: &mut Vec<Strings>,
    here: &Understood<'_>,
) -> Result<(), AllocError>
    ensures { OnOk result (all.new.items ≡ with_words all.old.items here.now.target here.now.texts.now) }
{
    match here.target {
        Some(Target::Object(object)) => mention_of(alloc, all, object, here.texts),
        Some(Target::Action(_, _)) | None => Ok(()),
    }
}

/// Whether there are too many words of an object.
fn are_many(words: Option<&Strings>) -> bool
    ensures { result ≡ are_many (option_map (λ strings. strings.now) words.entry) }
{
    match words {
        None => false,
        Some(words) => words.len() > MOST_WORDS,
    }
}

/// Whether the object that a sentence is about has too many words.
pub fn has_many(all: &[Strings], target: Option<Target>) -> bool
    ensures { result ≡ has_many all.now target }
{
    match target {
        Some(Target::Object(object)) => are_many(all.get(usize::from(object))),
        Some(Target::Action(_, _)) | None => false,
    }
}
