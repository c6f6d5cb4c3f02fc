//! Whether the phrases of a body stand where they may: blocks, and what `if C,` and `otherwise` want.
ghost use Rattle.std.specs.Prelude.{◌≡◌, IfOk, OnOk};
ghost use Rattle.i7_sentences.specs.Bodies.{phrase_of, phrases_of};
ghost use Rattle.i7_sentences.specs.Dues.{is_awaiting, lacks_deeper, line_due, wants_phrase};
ghost use Rattle.i7_sentences.specs.PhraseMarks.{is_colon_mark, is_comma_mark, is_no_mark, is_pause};
ghost use Rattle.i7_sentences.specs.BodyOrder.{body_fault, fault_at, fault_of, has_instead, has_reserved_name, is_allowed, is_instead, is_simple, opens_head, place_behind, place_of, reserved_line, shape_of, stands_as, without_instead};

use crate::body::{PhraseLine, is_spelled_so};
use crate::body_place::{Block, Place, advance, is_block_if, is_simple, start};
use crate::due::{Due, is_awaiting, lacks_deeper, line_due, wants_phrase};
use crate::phrase_form::{PhraseForm, PhraseShape, shape_in};
use crate::phrase_mark::{PhraseMark, is_colon_mark, is_comma_mark, is_no_mark, is_pause};
use i7_lexer::PackedToken;
use std::alloc::{AllocError, Global};

/// Whether a phrase of this form may end with this mark here.
fn stands_as(due: Due, blocks: &[Block], form: PhraseForm, mark: PhraseMark, indent: u32) -> bool
    ensures { result ≡ stands_as due blocks.now form mark indent }
{
    match form {
        PhraseForm::If => is_comma_mark(mark) || is_colon_mark(mark),
        PhraseForm::Repeat => is_colon_mark(mark),
        PhraseForm::OtherwiseIf => is_colon_mark(mark) && is_block_if(indent, blocks),
        PhraseForm::Otherwise => {
            if is_colon_mark(mark) {
                is_block_if(indent, blocks)
            } else {
                is_no_mark(mark) && is_awaiting(due, indent)
            }
        }
        _ => is_pause(mark),
    }
}

/// Whether the phrase, which is of this form, may stand here.
fn is_allowed(place: &Place, form: PhraseForm, phrase: &PhraseLine<'_>) -> bool
    ensures { result ≡ is_allowed (place_of place.now) form (phrase_of phrase.now) }
{
    (is_simple(form) || !wants_phrase(place.due.kind))
        && stands_as(
            place.due,
            place.blocks.as_slice(),
            form,
            phrase.mark,
            phrase.indent,
        )
}

/// Whether an `instead` stands in front.
fn is_instead(tokens: &[PackedToken]) -> bool
    ensures { result ≡ is_instead tokens.now }
{
    match tokens {
        [] => false,
        [token, ..] => is_spelled_so(token, b"instead"),
    }
}

/// Whether the phrase opens with `if`, `otherwise` or `repeat`.
fn opens_head(tokens: &[PackedToken]) -> bool
    ensures { result ≡ opens_head tokens.now }
{
    match tokens {
        [] => false,
        [token, ..] => {
            is_spelled_so(token, b"if")
                || is_spelled_so(token, b"otherwise")
                || is_spelled_so(token, b"repeat")
        }
    }
}

/// Whether an `instead` closes the phrase.
pub fn has_instead(tokens: &[PackedToken]) -> bool
    ensures { result ≡ has_instead tokens.now }
{
    let (_, last) = tokens.split_at(tokens.len().saturating_sub(1));
    is_instead(last) && !opens_head(tokens)
}

/// The phrase without its closing `instead`.
pub fn without_instead(tokens: &[PackedToken]) -> &[PackedToken]
    ensures { result.now ≡ without_instead tokens.now }
{
    if !has_instead(tokens) {
        return tokens;
    }
    let (front, _) = tokens.split_at(tokens.len().saturating_sub(1));
    front
}

/// What a phrase is by its shape.
fn shape_of(alloc: Global, phrase: &PhraseLine<'_>) -> Result<Option<PhraseShape>, AllocError>
    ensures { IfOk result (λ shape. shape ≡ shape_of (phrase_of phrase.now)) }
{
    Ok(shape_in(alloc, without_instead(phrase.tokens))?)
}

/// The phrase's line, if no shape fits it or it may not stand here.
fn fault_of(place: &Place, phrase: &PhraseLine<'_>, shape: Option<PhraseShape>) -> Option<u32>
    ensures { result ≡ fault_of (place_of place.now) (phrase_of phrase.now) shape }
{
    match shape {
        None => Some(phrase.line),
        Some(shape) => if is_allowed(place, shape.form, phrase) {
            None
        } else {
            Some(phrase.line)
        },
    }
}

/// The line that is told of a phrase here: that of a block without a deeper line, or its own.
fn fault_at(place: &Place, phrase: &PhraseLine<'_>, shape: Option<PhraseShape>) -> Option<u32>
    ensures { result ≡ fault_at (place_of place.now) (phrase_of phrase.now) shape }
{
    if lacks_deeper(place.due, phrase.indent) {
        Some(place.due.line)
    } else {
        fault_of(place, phrase, shape)
    }
}

/// Goes on behind a phrase of this shape.
fn go_on(
    place: &mut Place,
    phrase: &PhraseLine<'_>,
    shape: Option<PhraseShape>,
) -> Result<(), AllocError>
    ensures { OnOk result (place_of place.new ≡ place_behind (place_of place.old) (phrase_of phrase.now) shape) }
{
    match shape {
        None => Ok(()),
        Some(shape) => Ok(advance(place, shape.form, phrase)?),
    }
}

/// The line of the first phrase of a body that isn't understood by its shape, or that may not stand where it
/// stands; that of the rule, `line`, where there is no phrase; none where all is well.
pub fn body_fault(
    alloc: Global,
    line: u32,
    phrases: &[PhraseLine<'_>],
) -> Result<Option<u32>, AllocError>
    ensures { IfOk result (λ found. found ≡ body_fault line (phrases_of phrases.now)) }
{
    let mut place = start(alloc, line);
    let mut rest = phrases;
    while let [phrase, after @ ..] = rest {
        let shape = shape_of(alloc, phrase)?;
        if let Some(told) = fault_at(&place, phrase, shape) {
            return Ok(Some(told));
        }
        go_on(&mut place, phrase, shape)?;
        rest = after;
    }
    Ok(line_due(place.due))
}

/// Whether a name in a phrase of this shape holds a reserved word.
fn has_reserved_name(shape: Option<PhraseShape>) -> bool
    ensures { result ≡ has_reserved_name shape }
{
    match shape {
        None => false,
        Some(shape) => shape.has_reserved_name,
    }
}

/// The line of the first phrase of a body with a reserved word in a name, if there is one.
pub fn reserved_line(alloc: Global, phrases: &[PhraseLine<'_>]) -> Result<Option<u32>, AllocError>
    ensures { IfOk result (λ line. line ≡ reserved_line (phrases_of phrases.now)) }
{
    let mut rest = phrases;
    while let [phrase, after @ ..] = rest {
        if has_reserved_name(shape_of(alloc, phrase)?) {
            return Ok(Some(phrase.line));
        }
        rest = after;
    }
    Ok(None)
}
