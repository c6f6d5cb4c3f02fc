//! The words of a text: what stands between blanks.
ghost use Rattle.std.specs.Prelude.{◌≡◌, ◌<◌, ◌≤◌, ◌++◌, length, map, IfOk, MatchOption, OnOk};
ghost use Rattle.std.specs.List.{position_or_len};
ghost use Rattle.i7_grammar.specs.TextTokens.{is_blank, word_run, words_among};
ghost use Rattle.i7_sentences.specs.BracketedWords.{IsPartedAt};

use std::alloc::{AllocError, Global};

/// Whether the byte is a space, a tab or a line feed.
fn is_blank(byte: u8) -> bool
    ensures { result ≡ is_blank byte }
{
    byte == b' ' || byte == b'\t' || byte == b'\n'
}

/// How many bytes stand in front of the first blank.
fn word_len(bytes: &[u8]) -> usize
    ensures place { result ≡ position_or_len is_blank bytes.now }
    ensures within { result ≤ length bytes.now }
{
    bytes.iter().take_while(|byte| !is_blank(**byte)).count()
}

/// The bytes in front of the first blank, and those behind it; none where there is none.
fn parted_at_blank(bytes: &[u8]) -> Option<(&[u8], &[u8])>
    ensures { IsPartedAt is_blank bytes.now result }
{
    let (front, rest) = bytes.split_at(word_len(bytes));
    match rest {
        [] => None,
        [_, behind @ ..] => Some((front, behind)),
    }
}

/// The first word, if a blank stands behind it, and the bytes behind that.
#[tactic(auto, using(crate::proofs::Parting::word_steps))]
fn first_word(bytes: &[u8]) -> Option<(&[u8], &[u8])>
    ensures first { MatchOption result (words_among bytes.now ≡ word_run bytes.now) (λ parts. words_among bytes.now ≡ word_run parts.0.now ++ words_among parts.1.now) }
    ensures shorter { MatchOption result (words_among bytes.now ≡ word_run bytes.now) (λ parts. length parts.1.now < length bytes.now) }
{
    parted_at_blank(bytes)
}

/// Adds a word, if there is one.
fn add_word<'a>(word: &'a [u8], all: &mut Vec<&'a [u8]>) -> Result<(), AllocError>
    ensures { OnOk result (map (λ each. each.now) all.new.items ≡ map (λ each. each.now) all.old.items ++ word_run word.now) }
{
    if !word.is_empty() {
        all.push(word)?;
    }
    Ok(())
}

/// The words among bytes.
pub fn words_among(alloc: Global, bytes: &[u8]) -> Result<Vec<&[u8]>, AllocError>
    ensures { IfOk result (λ words. map (λ word. word.now) words.items ≡ words_among bytes.now) }
{
    let mut all = Vec::new(alloc);
    let mut rest = bytes;
    while let Some((word, behind)) = first_word(rest) {
        add_word(word, &mut all)?;
        rest = behind;
    }
    add_word(rest, &mut all)?;
    Ok(all)
}
