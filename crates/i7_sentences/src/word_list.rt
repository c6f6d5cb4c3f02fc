//! Lists of words, and those of a form's letter.
ghost use Rattle.std.specs.Prelude.{◌≡◌, map, IfOk};
ghost use Rattle.i7_sentences.specs.Names.{named_in, words_in};
ghost use Rattle.i7_sentences.specs.TextPieces.{are_spelled, behind_first};

use crate::name::name_words;
use crate::tagged::Tagged;
use crate::word::word_of;
use std::alloc::{AllocError, Global};
use std::marker::Model;
use world_meaning::{TextBytes, is_spelled};

/// Words as they are written, in order.
#[derive(Drop)]
pub struct WordList {
    all: Vec<TextBytes>,
}

impl Model for WordList {
    ghost use Rattle.std.specs.Prelude.{ℕ, List};

    ghost Value = { List (List ℕ) };

    ghost view = { λ words. words.all.items };
}

impl WordList {
    /// These words.
    pub(crate) fn new(all: Vec<TextBytes>) -> WordList
        ensures { result ≡ all.items }
    {
        WordList { all }
    }

    /// The words, in order.
    pub fn as_slice(&self) -> &[TextBytes]
        ensures { result.now ≡ self.now }
    {
        self.all.as_slice()
    }

    /// The words behind the first.
    pub(crate) fn behind_first(mut self) -> WordList
        ensures { result ≡ behind_first self }
    {
        if !self.all.is_empty() {
            let _ = self.all.remove(0);
        }
        self
    }
}

/// Whether the words are spelled as these are.
pub fn are_spelled(words: &[TextBytes], spellings: &[&[u8]]) -> bool
    ensures { result ≡ are_spelled words.now (map (λ spelling. spelling.now) spellings.now) }
{
    let mut left = words;
    let mut right = spellings;
    while let [word, after @ ..] = left {
        match right {
            [] => return false,
            [spelling, behind @ ..] => {
                if !is_spelled(word.as_slice(), spelling) {
                    return false;
                }
                left = after;
                right = behind;
            }
        }
    }
    right.is_empty()
}

/// The words of a letter of a form.
pub fn words_in(alloc: Global, letter: &[Tagged<'_>]) -> Result<WordList, AllocError>
    ensures { IfOk result (λ words. words ≡ words_in letter.now) }
{
    let mut all = Vec::with_capacity(alloc, letter.len())?;
    let mut rest = letter;
    while let [word, after @ ..] = rest {
        all.push(TextBytes::copied(alloc, word_of(word.token()))?)?;
        rest = after;
    }
    Ok(WordList { all })
}

/// The words of a letter without the free article in front.
pub fn named_in(alloc: Global, letter: &[Tagged<'_>]) -> Result<WordList, AllocError>
    ensures { IfOk result (λ words. words ≡ named_in letter.now) }
{
    Ok(words_in(alloc, name_words(letter))?)
}
