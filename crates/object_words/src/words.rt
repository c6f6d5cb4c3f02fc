//! The words that a command may name an object by.
ghost use Rattle.std.specs.Prelude.{◌≡◌, [], ◌∷◌, IfOk, OnOk, fold, filter, position, slice_get};
ghost use Rattle.world_meaning.specs.Directions.{all_directions};
ghost use Rattle.object_words.specs.Mentions.{mention};
ghost use Rattle.object_words.specs.Words.{is_blank, is_word, blank_words, more_words, words_for, player_words};

use crate::strings::Strings;
use std::alloc::{AllocError, Global};
use world_meaning::{Direction, lowered};

/// The place of the first blank.
fn first_blank(bytes: &[u8]) -> Option<usize>
    ensures { result ≡ position is_blank bytes.now }
{
    bytes.iter().position(|byte| *byte == b' ')
}

/// Mentions what stands between two blanks, unless nothing does.
fn mention_piece(alloc: Global, words: &mut Strings, piece: &[u8]) -> Result<(), AllocError>
    ensures { OnOk result (words.new ≡ fold mention words.old (filter is_word (piece.now ∷ []))) }
{
    if piece.is_empty() {
        return Ok(());
    }
    words.mention(alloc, piece)
}

/// Mentions each word between the blanks of a text.
fn mention_words(alloc: Global, words: &mut Strings, text: &[u8]) -> Result<(), AllocError>
    ensures { OnOk result (words.new ≡ fold mention words.old (blank_words text.now)) }
{
    let mut rest = text;
    while let Some(end) = first_blank(rest) {
        let (piece, behind) = rest.split_at(end);
        mention_piece(alloc, words, piece)?;
        let (_, after) = behind.split_at(1);
        rest = after;
    }
    mention_piece(alloc, words, rest)?;
    Ok(())
}

fn mention_player_words(alloc: Global, words: &mut Strings) -> Result<(), AllocError>
    ensures { OnOk result (words.new ≡ fold mention words.old player_words) }
{
    words.mention(alloc, b"me")?;
    words.mention(alloc, b"myself")?;
    words.mention(alloc, b"self")?;
    words.mention(alloc, b"yourself")
}

/// The direction of this place among them.
fn direction_at(place: usize) -> Option<Direction>
    ensures { result ≡ slice_get all_directions place }
{
    let directions: &[Direction] = &Direction::ALL;
    directions.get(place).copied()
}

/// Mentions what an object of this number has beside its name's words.
#[tactic(auto, unfolding(crate::specs::Words::more_words))]
fn mention_more_words(alloc: Global, words: &mut Strings, number: usize) -> Result<(), AllocError>
    ensures { OnOk result (words.new ≡ fold mention words.old (more_words number)) }
{
    if number == 0 {
        return mention_player_words(alloc, words);
    }
    match direction_at(number - 1) {
        Some(direction) => words.mention(alloc, direction.short_word()),
        None => Ok(()),
    }
}

/// The words of an object of this number and name, each once.
#[tactic(auto, unfolding(crate::specs::Words::words_for), using(crate::proofs::Folds::fold_both))]
pub fn words_for(alloc: Global, number: usize, name: &[u8]) -> Result<Strings, AllocError>
    ensures { IfOk result (λ words. words ≡ words_for number name.now) }
{
    let small = lowered(alloc, name)?;
    let mut words = Strings::new(alloc);
    mention_words(alloc, &mut words, small.as_slice())?;
    mention_more_words(alloc, &mut words, number)?;
    Ok(words)
}
