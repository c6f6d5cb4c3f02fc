//! The tokens of a text: words, and slots between brackets.
ghost use Rattle.std.specs.Prelude.{◌≡◌, ◌++◌, map, IfOk, OnOk};
ghost use Rattle.std.specs.List.{flat_map};
ghost use Rattle.command_grammar.specs.Lines.{token_meant};
ghost use Rattle.play_meaning.specs.Grammar.{Word};
ghost use Rattle.i7_sentences.specs.TextPieces.{parts_of};
ghost use Rattle.i7_grammar.specs.TextTokens.{behind_bracket, has_slot, slot_of, tokens_in, tokens_of, word_tokens};

use crate::text_words::words_among;
use command_grammar::KeptToken;
use i7_sentences::{behind_closing, first_part, in_front_of_closing};
use std::alloc::{AllocError, Global};
use world_meaning::{TextBytes, is_spelled};

/// The slot that is told by words between brackets.
fn slot_of(words: &[&[u8]]) -> KeptToken
    ensures { token_meant result ≡ slot_of (map (λ word. word.now) words.now) }
{
    match words {
        [] => KeptToken::Something,
        [word, ..] => {
            if is_spelled(word, b"direction") {
                KeptToken::Direction
            } else {
                KeptToken::Something
            }
        }
    }
}

/// Adds the words among bytes.
fn add_words(alloc: Global, bytes: &[u8], all: &mut Vec<KeptToken>) -> Result<(), AllocError>
    ensures { OnOk result (map token_meant all.new.items ≡ map token_meant all.old.items ++ word_tokens bytes.now) }
{
    let words = words_among(alloc, bytes)?;
    let mut rest = words.as_slice();
    while let [word, behind @ ..] = rest {
        all.push(KeptToken::Word(TextBytes::copied(alloc, word)?))?;
        rest = behind;
    }
    Ok(())
}

/// Adds what stands behind a `[`: a slot, and words behind its `]`.
fn add_bracket(alloc: Global, part: &[u8], all: &mut Vec<KeptToken>) -> Result<(), AllocError>
    ensures { OnOk result (map token_meant all.new.items ≡ map token_meant all.old.items ++ behind_bracket part.now) }
{
    let words = words_among(alloc, in_front_of_closing(part))?;
    all.push(slot_of(words.as_slice()))?;
    add_words(alloc, behind_closing(part), all)
}

/// Adds what stands behind each `[`.
fn add_brackets(alloc: Global, text: &[u8], all: &mut Vec<KeptToken>) -> Result<(), AllocError>
    ensures { OnOk result (map token_meant all.new.items ≡ map token_meant all.old.items ++ flat_map behind_bracket (parts_of text.now)) }
{
    let mut rest = text;
    while let Some((part, behind)) = first_part(rest) {
        add_bracket(alloc, part, all)?;
        rest = behind;
    }
    add_bracket(alloc, rest, all)
}

/// Adds the tokens of a text.
fn add_text(alloc: Global, text: &[u8], all: &mut Vec<KeptToken>) -> Result<(), AllocError>
    ensures { OnOk result (map token_meant all.new.items ≡ map token_meant all.old.items ++ tokens_in (parts_of text.now)) }
{
    match first_part(text) {
        None => add_words(alloc, text, all),
        Some((front, behind)) => {
            add_words(alloc, front, all)?;
            add_brackets(alloc, behind, all)
        }
    }
}

/// The tokens of a text.
#[tactic(auto, unfolding(crate::specs::TextTokens::tokens_of))]
pub fn tokens_of(alloc: Global, text: &[u8]) -> Result<Vec<KeptToken>, AllocError>
    ensures { IfOk result (λ tokens. map token_meant tokens.items ≡ tokens_of text.now) }
{
    let mut all = Vec::new(alloc);
    add_text(alloc, text, &mut all)?;
    Ok(all)
}

/// Whether a slot stands in the text.
pub fn has_slot(text: &[u8]) -> bool
    ensures { result ≡ has_slot text.now }
{
    text.iter().any(|byte| *byte == b'[')
}
