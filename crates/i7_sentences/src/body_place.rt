//! A place in a body: the blocks that are open there, and what is due.
ghost use Rattle.std.specs.Prelude.{◌≡◌, ◌≤◌, ◌++◌, length, OnOk};
ghost use Rattle.std.specs.List.{position_or_len};
ghost use Rattle.i7_sentences.specs.Bodies.{phrase_of};
ghost use Rattle.i7_sentences.specs.Dues.{is_then, wants_phrase};
ghost use Rattle.i7_sentences.specs.PhraseMarks.{is_colon_mark, is_comma_mark, is_no_mark, is_semicolon_mark};
ghost use Rattle.i7_sentences.specs.BodyOrder.{after_phrase, block_at, blocks_left, depth_of, indent_due, inline_block, is_at_least, is_if_form, is_inline, is_simple, kind_after, opened, opens_block, place_of, start};

use crate::body::PhraseLine;
use crate::due::{Due, DueKind, is_then, wants_phrase};
use crate::phrase_form::PhraseForm;
use crate::phrase_mark::{PhraseMark, is_colon_mark, is_comma_mark, is_no_mark, is_semicolon_mark};
use std::alloc::{AllocError, Global};

/// An `if`, an `otherwise` or a `repeat` whose deeper lines may go on, or an `if C,` or an `otherwise` in
/// front of such a `repeat`.
#[derive(Clone, Copy)]
pub struct Block {
    pub indent: u32,
    /// Whether an `otherwise` may follow.
    pub is_if: bool,
}

/// A place in a body: the blocks that are open, the outermost first, and what is due.
#[derive(Drop)]
pub struct Place {
    pub blocks: Vec<Block>,
    pub due: Due,
}

/// The place behind the head of a rule at this line.
pub fn start(alloc: Global, line: u32) -> Place
    ensures { place_of result ≡ start line }
{
    Place {
        blocks: Vec::new(alloc),
        due: Due {
            kind: DueKind::First,
            indent: 0,
            line,
        },
    }
}

/// How many blocks are less deep.
fn below_len(indent: u32, blocks: &[Block]) -> usize
    ensures count { result ≡ position_or_len (is_at_least indent) blocks.now }
    ensures within { result ≤ length blocks.now }
{
    blocks
        .iter()
        .take_while(|block| block.indent < indent)
        .count()
}

/// Whether the first of these blocks is an if of this indent.
fn block_at(indent: u32, blocks: &[Block]) -> bool
    ensures { result ≡ block_at indent blocks.now }
{
    match blocks {
        [] => false,
        [block, ..] => block.indent == indent && block.is_if,
    }
}

/// Whether an `if` of this indent is open.
pub fn is_block_if(indent: u32, blocks: &[Block]) -> bool
    ensures { result ≡ opens_block indent blocks.now }
{
    let (_, rest) = blocks.split_at(below_len(indent, blocks));
    block_at(indent, rest)
}

/// Whether the phrase is neither an `if` nor an `otherwise`.
pub fn is_simple(form: PhraseForm) -> bool
    ensures { result ≡ is_simple form }
{
    match form {
        PhraseForm::If | PhraseForm::OtherwiseIf | PhraseForm::Otherwise => false,
        _ => true,
    }
}

/// Whether the phrase is an `otherwise` in front of its phrase.
fn is_inline(form: PhraseForm, mark: PhraseMark) -> bool
    ensures { result ≡ is_inline form mark }
{
    match form {
        PhraseForm::Otherwise => is_no_mark(mark),
        _ => false,
    }
}

/// Whether an `otherwise` may follow a block of this form.
fn is_if_form(form: PhraseForm) -> bool
    ensures { result ≡ is_if_form form }
{
    match form {
        PhraseForm::If | PhraseForm::OtherwiseIf => true,
        _ => false,
    }
}

/// What is due behind a phrase of this form, where this was due.
fn kind_after(kind: DueKind, form: PhraseForm, mark: PhraseMark) -> DueKind
    ensures { result ≡ kind_after kind form mark }
{
    if is_colon_mark(mark) {
        DueKind::Deeper
    } else if is_comma_mark(mark) {
        DueKind::Then
    } else if is_simple(form) {
        if is_then(kind) && is_semicolon_mark(mark) {
            DueKind::AfterThen
        } else {
            DueKind::Free
        }
    } else {
        DueKind::Else
    }
}

/// Closes the blocks that aren't less deep than a phrase; what belongs to an inline `if` closes none.
fn close_blocks(
    blocks: &mut Vec<Block>,
    kind: DueKind,
    form: PhraseForm,
    mark: PhraseMark,
    indent: u32,
)
    ensures { blocks.new.items ≡ blocks_left blocks.old.items kind form mark indent }
{
    if !(wants_phrase(kind) || is_inline(form, mark)) {
        blocks.truncate(below_len(indent, blocks.as_slice()));
    }
}

/// How many blocks a phrase of this form leaves open.
fn left_len(place: &Place, form: PhraseForm, phrase: &PhraseLine<'_>) -> usize
    ensures count { result ≡ length (blocks_left (place_of place.now).blocks (place_of place.now).due.kind form phrase.now.mark phrase.now.indent) }
    ensures within { result ≤ length place.now.blocks.items }
{
    if wants_phrase(place.due.kind) || is_inline(form, phrase.mark) {
        place.blocks.len()
    } else {
        below_len(phrase.indent, place.blocks.as_slice())
    }
}

/// How many blocks stand around a phrase of this form.
pub fn depth_of(place: &Place, form: PhraseForm, phrase: &PhraseLine<'_>) -> usize
    ensures { result ≡ depth_of (place_of place.now) form (phrase_of phrase.now) }
{
    let left = left_len(place, form, phrase);
    if wants_phrase(place.due.kind) {
        left + 1
    } else {
        left
    }
}

/// Opens the block of the `if C,` or the `otherwise` in front of a phrase.
fn open_inline(blocks: &mut Vec<Block>, kind: DueKind, indent: u32) -> Result<(), AllocError>
    ensures { OnOk result (blocks.new.items ≡ blocks.old.items ++ inline_block kind indent) }
{
    if wants_phrase(kind) {
        blocks.push(Block {
            indent,
            is_if: false,
        })?;
    }
    Ok(())
}

/// Opens the block of a phrase, if it has a colon.
fn open_block(
    blocks: &mut Vec<Block>,
    kind: DueKind,
    form: PhraseForm,
    phrase: &PhraseLine<'_>,
) -> Result<(), AllocError>
    ensures { OnOk result (blocks.new.items ≡ opened blocks.old.items kind form (phrase_of phrase.now)) }
{
    if is_colon_mark(phrase.mark) {
        open_inline(blocks, kind, phrase.indent)?;
        blocks.push(Block {
            indent: phrase.indent,
            is_if: is_if_form(form),
        })?;
    }
    Ok(())
}

/// The indent that what comes behind a phrase is measured by.
fn indent_due(phrase: &PhraseLine<'_>) -> u32
    ensures { result ≡ indent_due (phrase_of phrase.now) }
{
    if is_colon_mark(phrase.mark) {
        phrase.indent
    } else {
        phrase.last_indent
    }
}

/// Goes on behind a phrase of this form.
pub fn advance(
    place: &mut Place,
    form: PhraseForm,
    phrase: &PhraseLine<'_>,
) -> Result<(), AllocError>
    ensures { OnOk result (place_of place.new ≡ after_phrase (place_of place.old) form (phrase_of phrase.now)) }
{
    let kind = place.due.kind;
    close_blocks(&mut place.blocks, kind, form, phrase.mark, phrase.indent);
    open_block(&mut place.blocks, kind, form, phrase)?;
    place.due = Due {
        kind: kind_after(kind, form, phrase.mark),
        indent: indent_due(phrase),
        line: phrase.line,
    };
    Ok(())
}
