//! Lists of names, parted by `,` or `and`.
ghost use Rattle.std.specs.Prelude.{◌≡◌, true, ◌+◌, ◌<◌, ◌≤◌, count_by, length, map, IfOk};
ghost use Rattle.i7_sentences.specs.Names.{is_and, is_joint, name_len, name_of, names_from, opens_with_word, parts_names, unjoined};

use crate::class::is_comma;
use crate::name::{name_of, rest_of};
use crate::tagged::Tagged;
use crate::{Keyword, Name};
use std::alloc::{AllocError, Global};
use std::marker::Model;

/// Names as a sentence lists them, in order.
#[derive(Drop)]
pub struct Names {
    all: Vec<Name>,
}

impl Model for Names {
    ghost use Rattle.std.specs.Prelude.{List};
    ghost use Rattle.i7_sentences.specs.declared.name.Name.{Name};

    ghost Value = { List Name };

    ghost view = { λ names. names.all.items };
}

impl Names {
    /// The names, in order.
    pub fn as_slice(&self) -> &[Name]
        ensures { result.now ≡ self.now }
    {
        self.all.as_slice()
    }
}

/// Whether a word stands first.
fn opens_with_word(words: &[Tagged<'_>]) -> bool
    ensures { result ≡ opens_with_word words.now }
{
    match words {
        [] => false,
        [word, ..] => word.is_word(),
    }
}

fn is_and(word: &Tagged<'_>) -> bool
    ensures { result ≡ is_and word.now }
{
    word.is_sign(Keyword::And)
}

/// Whether a word parts two names, in front of these: at a name's end `and` belongs to the name.
fn parts_names(word: &Tagged<'_>, behind: &[Tagged<'_>]) -> bool
    ensures { result ≡ parts_names word.now behind.now }
{
    is_comma(word) || is_and(word) && opens_with_word(behind)
}

/// How many words stand in front of the first that parts two names.
fn unjoined(words: &[Tagged<'_>]) -> usize
    ensures count { result ≡ unjoined words.now }
    ensures within { result ≤ length words.now }
{
    let mut count = 0;
    let mut rest = words;
    while let [word, after @ ..] = rest {
        if parts_names(word, after) {
            return count;
        }
        count += 1;
        rest = after;
    }
    count
}

/// How many words the first name of a list has.
pub fn name_len(words: &[Tagged<'_>]) -> usize
    ensures count { result ≡ name_len words.now }
    ensures within { result ≤ length words.now }
{
    match words {
        [] => 0,
        [_, rest @ ..] => 1 + unjoined(rest),
    }
}

/// Whether the word may part two names.
fn is_joint(word: &Tagged<'_>) -> bool
    ensures { result ≡ is_joint word.now }
{
    is_comma(word) || is_and(word)
}

/// How many names a list has at most.
fn most_names(words: &[Tagged<'_>]) -> usize
    ensures { result ≡ count_by is_joint words.now + 1 }
{
    words.iter().filter(|word| is_joint(word)).count() + 1
}

/// The names that a list holds.
#[tactic(auto, using(crate::proofs::Naming::names_steps))]
pub fn names_of(alloc: Global, letter: &[Tagged<'_>]) -> Result<Names, AllocError>
    ensures { IfOk result (λ names. names ≡ map name_of (names_from true letter.now)) }
{
    let mut all = Vec::with_capacity(alloc, most_names(letter))?;
    let mut rest = letter;
    while !rest.is_empty() {
        let (name, behind) = rest.split_at(name_len(rest));
        all.push(name_of(alloc, name)?)?;
        rest = rest_of(behind);
    }
    Ok(Names { all })
}
