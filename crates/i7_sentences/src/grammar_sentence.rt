//! Sentences that tell what commands and words mean (*Writing with Inform*, 17.2, 17.8): `Understand "orb" or "globe" as the ball.`
ghost use Rattle.std.specs.Prelude.{◌≡◌, ◌++◌, map, IfOk, OnOk};
ghost use Rattle.std.specs.List.{list_all};
ghost use Rattle.i7_sentences.specs.TextPieces.{parts_of};
ghost use Rattle.i7_sentences.specs.Understandings.{are_choices, is_grammar_text, is_slot, is_slot_read, text_of, texts_in, understands, understands_so};

use crate::brackets::in_front_of_closing;
use crate::tagged::Tagged;
use crate::text_reader::{first_part, is_bracket_read};
use crate::text_words::runs_of;
use crate::word_list::words_in;
use crate::{Assertion, Keyword, WordList};
use i7_lexer::TokenKind;
use std::alloc::{AllocError, Global};
use world_meaning::{Listed, TextBytes, is_spelled};

/// What a sentence says that tells what commands or words mean.
#[derive(Drop)]
pub struct Understanding {
    /// The texts that `or` parts, as they are written; between brackets stands `something` or `direction` alone.
    pub texts: Listed<TextBytes>,
    /// The words behind `as`, a free article among them.
    pub meaning: WordList,
}

/// Whether these are texts that `or` parts.
fn are_choices(tokens: &[Tagged<'_>]) -> bool
    ensures { result ≡ are_choices tokens.now }
{
    let mut rest = tokens;
    while let [text, joint, after @ ..] = rest {
        if !(text.is_text() && joint.is_sign(Keyword::Or)) {
            return false;
        }
        rest = after;
    }
    match rest {
        [text] => text.is_text(),
        _ => false,
    }
}

/// Adds a text, if the token is one.
fn add_text(alloc: Global, token: &Tagged<'_>, all: &mut Vec<TextBytes>) -> Result<(), AllocError>
    ensures { OnOk result (all.new.items ≡ all.old.items ++ text_of token.now) }
{
    match token.token().kind() {
        TokenKind::Text(text) => all.push(TextBytes::copied(alloc, text.as_slice())?)?,
        TokenKind::Word(_) | TokenKind::Mark(_) => (),
    }
    Ok(())
}

/// The texts among tokens.
fn texts_in(alloc: Global, tokens: &[Tagged<'_>]) -> Result<Vec<TextBytes>, AllocError>
    ensures { IfOk result (λ texts. texts.items ≡ texts_in tokens.now) }
{
    let mut all = Vec::new(alloc);
    let mut rest = tokens;
    while let [token, after @ ..] = rest {
        add_text(alloc, token, &mut all)?;
        rest = after;
    }
    Ok(all)
}

/// Whether the words are a slot's.
fn is_slot(words: &[TextBytes]) -> bool
    ensures { result ≡ is_slot words.now }
{
    match words {
        [word] => {
            is_spelled(word.as_slice(), b"something") || is_spelled(word.as_slice(), b"direction")
        }
        _ => false,
    }
}

/// Whether a part that stands behind a `[` has its `]`, and a slot's word in front of that.
#[tactic(auto, unfolding(crate::specs::Understandings::is_slot_read))]
fn is_slot_read(alloc: Global, part: &[u8]) -> Result<bool, AllocError>
    ensures { IfOk result (λ answer. answer ≡ is_slot_read part.now) }
{
    if !is_bracket_read(part) {
        return Ok(false);
    }
    let words = runs_of(alloc, in_front_of_closing(part))?;
    Ok(is_slot(words.as_slice()))
}

/// Whether each part of a text is so.
fn are_slots_read(alloc: Global, text: &[u8]) -> Result<bool, AllocError>
    ensures { IfOk result (λ answer. answer ≡ list_all is_slot_read (parts_of text.now)) }
{
    let mut rest = text;
    while let Some((part, behind)) = first_part(rest) {
        if !is_slot_read(alloc, part)? {
            return Ok(false);
        }
        rest = behind;
    }
    Ok(is_slot_read(alloc, rest)?)
}

/// Whether each `[` of a text has its `]`, and a slot's word stands between them.
#[tactic(auto, unfolding(crate::specs::Understandings::is_grammar_text))]
fn is_grammar_text(alloc: Global, text: &[u8]) -> Result<bool, AllocError>
    ensures { IfOk result (λ answer. answer ≡ is_grammar_text text.now) }
{
    match first_part(text) {
        None => Ok(true),
        Some((_, behind)) => Ok(are_slots_read(alloc, behind)?),
    }
}

/// Whether each of the texts is so.
fn are_grammar_texts(alloc: Global, texts: &[TextBytes]) -> Result<bool, AllocError>
    ensures { IfOk result (λ answer. answer ≡ list_all is_grammar_text texts.now) }
{
    let mut rest = texts;
    while let [text, after @ ..] = rest {
        if !is_grammar_text(alloc, text.as_slice())? {
            return Ok(false);
        }
        rest = after;
    }
    Ok(true)
}

/// What these texts mean, if each is read.
fn understands_so(
    alloc: Global,
    texts: Vec<TextBytes>,
    meaning: &[Tagged<'_>],
) -> Result<Option<Assertion>, AllocError>
    ensures { IfOk result (λ said. said ≡ understands_so texts.items meaning.now) }
{
    if !are_grammar_texts(alloc, texts.as_slice())? {
        return Ok(None);
    }
    Ok(Some(Assertion::Understand(Understanding {
        texts: Listed::new(texts),
        meaning: words_in(alloc, meaning)?,
    })))
}

/// What commands or words mean, if these are texts that `or` parts and each is read.
pub(crate) fn understands(
    alloc: Global,
    letters: &[&[Tagged<'_>]],
) -> Result<Option<Assertion>, AllocError>
    ensures { IfOk result (λ said. said ≡ understands (map (λ letter. letter.now) letters.now)) }
{
    match letters {
        [texts, meaning] => {
            if !are_choices(texts) {
                return Ok(None);
            }
            Ok(understands_so(alloc, texts_in(alloc, texts)?, meaning)?)
        }
        _ => Ok(None),
    }
}
