//! Names as a sentence mentions them.
ghost use Rattle.std.specs.Prelude.{◌≡◌, IfOk, OnOk};
ghost use Rattle.i7_sentences.specs.Names.{article_of, has_article, is_some_article, joined, name_of, name_words, rest_of, with_word};

use crate::Keyword;
use crate::tagged::Tagged;
use crate::word::word_of;
use std::alloc::{AllocError, Global};
use world_meaning::TextBytes;

/// The article that a sentence puts before a name.
#[derive(Clone, Copy, PartialEq, Eq)]
pub enum NameArticle {
    None,
    /// `a`, `an` or `the`
    Plain,
    Some,
}

/// A name as written, its words parted by one space, and the article before it.
#[derive(Drop)]
pub struct Name {
    pub text: TextBytes,
    pub article: NameArticle,
}

/// Whether an article stands before a name; an article alone is the name.
fn has_article(letter: &[Tagged<'_>]) -> bool
    ensures { result ≡ has_article letter.now }
{
    match letter {
        [] => false,
        [_] => false,
        [first, _, ..] => first.is_article(),
    }
}

/// The words behind the first.
pub fn rest_of<'a, 'b>(letter: &'a [Tagged<'b>]) -> &'a [Tagged<'b>]
    ensures { result.now ≡ rest_of letter.now }
{
    match letter {
        [] => letter,
        [_, rest @ ..] => rest,
    }
}

/// The words of a name without the one free article in front, unless it is all there is.
pub fn name_words<'a, 'b>(letter: &'a [Tagged<'b>]) -> &'a [Tagged<'b>]
    ensures { result.now ≡ name_words letter.now }
{
    if has_article(letter) {
        rest_of(letter)
    } else {
        letter
    }
}

/// Whether the first word is `some`.
fn is_some_article(letter: &[Tagged<'_>]) -> bool
    ensures { result ≡ is_some_article letter.now }
{
    match letter {
        [] => false,
        [first, ..] => first.is_sign(Keyword::Some),
    }
}

/// The article before a name.
fn article_of(letter: &[Tagged<'_>]) -> NameArticle
    ensures { result ≡ article_of letter.now }
{
    if !has_article(letter) {
        NameArticle::None
    } else if is_some_article(letter) {
        NameArticle::Some
    } else {
        NameArticle::Plain
    }
}

/// Adds a word, parted by one space from what is there.
fn add_word(bytes: &mut Vec<u8>, word: &Tagged<'_>) -> Result<(), AllocError>
    ensures { OnOk result (bytes.new.items ≡ with_word bytes.old.items word.now) }
{
    if !bytes.is_empty() {
        bytes.push(b' ')?;
    }
    bytes.extend_from_slice(word_of(word.token()))?;
    Ok(())
}

/// The words as written, parted by one space.
pub fn joined(alloc: Global, words: &[Tagged<'_>]) -> Result<TextBytes, AllocError>
    ensures { IfOk result (λ text. text ≡ joined words.now) }
{
    let mut bytes = Vec::new(alloc);
    let mut rest = words;
    while let [word, after @ ..] = rest {
        add_word(&mut bytes, word)?;
        rest = after;
    }
    Ok(TextBytes::new(bytes))
}

/// The name that these words mention.
#[tactic(auto, unfolding(crate::specs::Names::name_of))]
pub fn name_of(alloc: Global, letter: &[Tagged<'_>]) -> Result<Name, AllocError>
    ensures { IfOk result (λ name. name ≡ name_of letter.now) }
{
    Ok(Name {
        text: joined(alloc, name_words(letter))?,
        article: article_of(letter),
    })
}
