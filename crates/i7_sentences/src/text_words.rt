//! The words between the brackets of a text.
ghost use Rattle.std.specs.Prelude.{◌≡◌, ◌<◌, ◌≤◌, ◌∷◌, ◌++◌, length, IfOk, MatchOption, OnOk};
ghost use Rattle.std.specs.List.{position_or_len};
ghost use Rattle.i7_sentences.specs.BracketedWords.{is_gap, IsPartedAt};
ghost use Rattle.i7_sentences.specs.TextPieces.{is_fixed_in_place, is_switched, joined, run_word, runs_of, spaced, words_of};

use crate::WordList;
use crate::brackets::is_gap;
use crate::word::as_read;
use std::alloc::{AllocError, Global};
use world_meaning::{TextBytes, is_spelled};

/// How many bytes stand in front of the first that is of no word.
fn run_len(bytes: &[u8]) -> usize
    ensures place { result ≡ position_or_len is_gap bytes.now }
    ensures within { result ≤ length bytes.now }
{
    bytes.iter().take_while(|byte| !is_gap(**byte)).count()
}

/// The bytes in front of the first that is of no word, and those behind it; none where there is none.
fn parted_at_gap(bytes: &[u8]) -> Option<(&[u8], &[u8])>
    ensures { IsPartedAt is_gap bytes.now result }
{
    let (front, rest) = bytes.split_at(run_len(bytes));
    match rest {
        [] => None,
        [_, behind @ ..] => Some((front, behind)),
    }
}

/// The first word, if a byte of no word stands behind it, and the bytes behind that.
#[tactic(auto, using(crate::proofs::Telling::word_steps))]
fn first_run(bytes: &[u8]) -> Option<(&[u8], &[u8])>
    ensures first { MatchOption result (runs_of bytes.now ≡ run_word bytes.now) (λ parts. runs_of bytes.now ≡ run_word parts.0.now ++ runs_of parts.1.now) }
    ensures shorter { MatchOption result (runs_of bytes.now ≡ run_word bytes.now) (λ parts. length parts.1.now < length bytes.now) }
{
    parted_at_gap(bytes)
}

/// Adds a word as it is read, if there is one.
fn add_run(alloc: Global, run: &[u8], all: &mut Vec<TextBytes>) -> Result<(), AllocError>
    ensures { OnOk result (all.new.items ≡ all.old.items ++ run_word run.now) }
{
    if !run.is_empty() {
        all.push(TextBytes::copied(alloc, as_read(run))?)?;
    }
    Ok(())
}

/// The words of these bytes, each by itself, `are` read as `is`.
pub fn runs_of(alloc: Global, bytes: &[u8]) -> Result<Vec<TextBytes>, AllocError>
    ensures { IfOk result (λ runs. runs.items ≡ runs_of bytes.now) }
{
    let mut all = Vec::new(alloc);
    let mut rest = bytes;
    while let Some((run, behind)) = first_run(rest) {
        add_run(alloc, run, &mut all)?;
        rest = behind;
    }
    add_run(alloc, rest, &mut all)?;
    Ok(all)
}

/// Whether the words are `switched on` or `switched off`.
fn is_switched(first: &TextBytes, second: &TextBytes) -> bool
    ensures { result ≡ is_switched first.now second.now }
{
    is_spelled(first.as_slice(), b"switched")
        && (is_spelled(second.as_slice(), b"on") || is_spelled(second.as_slice(), b"off"))
}

/// Whether the words are `fixed in place`.
fn is_fixed_in_place(first: &TextBytes, second: &TextBytes, third: &TextBytes) -> bool
    ensures { result ≡ is_fixed_in_place first.now second.now third.now }
{
    is_spelled(first.as_slice(), b"fixed")
        && is_spelled(second.as_slice(), b"in")
        && is_spelled(third.as_slice(), b"place")
}

/// A word, and behind a space another.
fn spaced(alloc: Global, first: &[u8], second: &[u8]) -> Result<TextBytes, AllocError>
    ensures { IfOk result (λ word. word ≡ spaced first.now second.now) }
{
    let mut bytes = Vec::from_slice(alloc, first)?;
    bytes.push(b' ')?;
    bytes.extend_from_slice(second)?;
    Ok(TextBytes::new(bytes))
}

/// Three words that are one.
fn spaced_three(
    alloc: Global,
    first: &TextBytes,
    second: &TextBytes,
    third: &TextBytes,
) -> Result<TextBytes, AllocError>
    ensures { IfOk result (λ word. word ≡ spaced first.now (spaced second.now third.now)) }
{
    let behind = spaced(alloc, second.as_slice(), third.as_slice())?;
    Ok(spaced(alloc, first.as_slice(), behind.as_slice())?)
}

/// A word that is one by itself.
fn alone(alloc: Global, word: &TextBytes) -> Result<TextBytes, AllocError>
    ensures { IfOk result (λ copy. copy ≡ word.now) }
{
    Ok(TextBytes::copied(alloc, word.as_slice())?)
}

/// The first word, with those behind it that are one word with it, and the words behind these.
fn front_word<'a>(
    alloc: Global,
    first: &TextBytes,
    after: &'a [TextBytes],
) -> Result<(TextBytes, &'a [TextBytes]), AllocError>
    ensures front { IfOk result (λ front. front.0 ∷ joined front.1.now ≡ joined (first.now ∷ after.now)) }
    ensures within { IfOk result (λ front. length front.1.now ≤ length after.now) }
{
    match after {
        [] => Ok((alone(alloc, first)?, after)),
        [second, behind @ ..] => {
            if is_switched(first, second) {
                return Ok((spaced(alloc, first.as_slice(), second.as_slice())?, behind));
            }
            match behind {
                [] => Ok((alone(alloc, first)?, after)),
                [third, rest @ ..] => {
                    if is_fixed_in_place(first, second, third) {
                        Ok((spaced_three(alloc, first, second, third)?, rest))
                    } else {
                        Ok((alone(alloc, first)?, after))
                    }
                }
            }
        }
    }
}

/// The words, those joined that are one.
fn joined(alloc: Global, words: &[TextBytes]) -> Result<WordList, AllocError>
    ensures { IfOk result (λ list. list ≡ joined words.now) }
{
    let mut all = Vec::with_capacity(alloc, words.len())?;
    let mut rest = words;
    while let [first, after @ ..] = rest {
        let (word, behind) = front_word(alloc, first, after)?;
        all.push(word)?;
        rest = behind;
    }
    Ok(WordList::new(all))
}

/// The words of these bytes; `fixed in place`, `switched on` and `switched off` are one word, as they are outside texts.
pub fn words_of(alloc: Global, bytes: &[u8]) -> Result<WordList, AllocError>
    ensures { IfOk result (λ words. words ≡ words_of bytes.now) }
{
    let runs = runs_of(alloc, bytes)?;
    Ok(joined(alloc, runs.as_slice())?)
}
