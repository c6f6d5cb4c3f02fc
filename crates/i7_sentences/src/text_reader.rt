//! Reading a text: its pieces, if its brackets and its ifs are understood.
ghost use Rattle.std.specs.Prelude.{◌≡◌, ◌<◌, ◌++◌, [], ◌∷◌, Some, None, length, if◌then◌else◌, IfOk, IfSome, MatchOption, OnOk};
ghost use Rattle.std.specs.List.{flat_map, list_all, list_any};
ghost use Rattle.i7_lexer.specs.Bytes.{is_letter};
ghost use Rattle.i7_sentences.specs.TextPieces.{are_brackets_read, begins_word, bracket_pieces, has_closing, is_bracket_read, is_if, is_of_words, is_text_read, is_word_or_blank, parts_of, piece_of, pieces_of, print_of, printed, printed_byte, text_pieces};

use crate::brackets::{behind_closing, in_front_of_closing, parted_at};
use crate::text_ifs::ifs_end;
use crate::text_words::words_of;
use crate::word_list::are_spelled;
use crate::{TextPiece, TextPieces, WordList};
use i7_lexer::is_letter;
use std::alloc::{AllocError, Global};
use world_meaning::{TextBytes, is_spelled};

/// `[']`, an apostrophe at a word's edge.
pub const APOSTROPHE: [&[u8]; 1] = [b"'"];

/// `[line break]`
pub const LINE_BREAK: [&[u8]; 2] = [b"line", b"break"];

/// `[paragraph break]`, two line breaks.
pub const PARAGRAPH_BREAK: [&[u8]; 2] = [b"paragraph", b"break"];

/// `[otherwise]`
pub const OTHERWISE: [&[u8]; 1] = [b"otherwise"];

/// `[end if]`
pub const END_IF: [&[u8]; 2] = [b"end", b"if"];

/// The word in front of a condition.
pub const IF: &[u8] = b"if";

/// Whether the bytes begin inside a word.
fn begins_word(bytes: &[u8]) -> bool
    ensures { result ≡ begins_word bytes.now }
{
    match bytes {
        [] => false,
        [first, ..] => is_letter(*first),
    }
}

/// What a byte prints, which stands behind a byte of a word or doesn't, in front of these.
fn printed_byte(is_behind: bool, byte: u8, bytes: &[u8]) -> u8
    ensures { result ≡ printed_byte is_behind byte bytes.now }
{
    if byte != b'\'' {
        byte
    } else if is_behind && begins_word(bytes) {
        b'\''
    } else {
        b'"'
    }
}

/// What bytes of a text print that stand outside brackets.
pub fn printed(alloc: Global, bytes: &[u8]) -> Result<TextBytes, AllocError>
    ensures { IfOk result (λ text. text ≡ printed bytes.now) }
{
    let mut out = Vec::new(alloc);
    let mut is_behind = false;
    let mut rest = bytes;
    while let [byte, after @ ..] = rest {
        out.push(printed_byte(is_behind, *byte, after))?;
        is_behind = is_letter(*byte);
        rest = after;
    }
    Ok(TextBytes::new(out))
}

/// Whether the words are a condition's, behind an `if`.
fn is_if(words: &[TextBytes]) -> bool
    ensures { result ≡ is_if words.now }
{
    match words {
        [] => false,
        [first, ..] => is_spelled(first.as_slice(), IF),
    }
}

/// What words between brackets are.
#[tactic(auto, unfolding(crate::specs::TextPieces::piece_of))]
fn piece_of(alloc: Global, words: WordList) -> Result<TextPiece, AllocError>
    ensures { IfOk result (λ piece. piece ≡ piece_of words) }
{
    if are_spelled(words.as_slice(), &APOSTROPHE) {
        Ok(TextPiece::Printed(TextBytes::copied(alloc, b"'")?))
    } else if are_spelled(words.as_slice(), &LINE_BREAK) {
        Ok(TextPiece::Printed(TextBytes::copied(alloc, b"\n")?))
    } else if are_spelled(words.as_slice(), &PARAGRAPH_BREAK) {
        Ok(TextPiece::Printed(TextBytes::copied(alloc, b"\n\n")?))
    } else if are_spelled(words.as_slice(), &OTHERWISE) {
        Ok(TextPiece::Otherwise)
    } else if are_spelled(words.as_slice(), &END_IF) {
        Ok(TextPiece::EndIf)
    } else if is_if(words.as_slice()) {
        Ok(TextPiece::If(words.behind_first()))
    } else {
        Ok(TextPiece::Substitution(words))
    }
}

/// Adds what bytes outside brackets print, if there are any.
fn add_print(alloc: Global, bytes: &[u8], all: &mut Vec<TextPiece>) -> Result<(), AllocError>
    ensures { OnOk result (all.new.items ≡ all.old.items ++ print_of bytes.now) }
{
    if !bytes.is_empty() {
        all.push(TextPiece::Printed(printed(alloc, bytes)?))?;
    }
    Ok(())
}

/// Adds what a part says that stands behind a `[`.
fn add_bracket(alloc: Global, part: &[u8], all: &mut Vec<TextPiece>) -> Result<(), AllocError>
    ensures { OnOk result (all.new.items ≡ all.old.items ++ bracket_pieces part.now) }
{
    all.push(piece_of(alloc, words_of(alloc, in_front_of_closing(part))?)?)?;
    add_print(alloc, behind_closing(part), all)
}

/// The part up to the first `[`, and the bytes behind that.
#[tactic(auto, using(crate::proofs::Telling::part_steps))]
pub fn first_part(text: &[u8]) -> Option<(&[u8], &[u8])>
    ensures parts { MatchOption result (parts_of text.now ≡ text.now ∷ []) (λ parts. parts_of text.now ≡ parts.0.now ∷ parts_of parts.1.now) }
    ensures shorter { IfSome result (λ parts. length parts.1.now < length text.now) }
{
    parted_at(b'[', text)
}

/// Adds what the parts of a text say, each of which stands behind a `[`.
fn add_brackets(alloc: Global, text: &[u8], all: &mut Vec<TextPiece>) -> Result<(), AllocError>
    ensures { OnOk result (all.new.items ≡ all.old.items ++ flat_map bracket_pieces (parts_of text.now)) }
{
    let mut rest = text;
    while let Some((part, behind)) = first_part(rest) {
        add_bracket(alloc, part, all)?;
        rest = behind;
    }
    add_bracket(alloc, rest, all)
}

/// Adds what a text says.
fn add_text(alloc: Global, text: &[u8], all: &mut Vec<TextPiece>) -> Result<(), AllocError>
    ensures { OnOk result (all.new.items ≡ all.old.items ++ pieces_of (parts_of text.now)) }
{
    match first_part(text) {
        None => add_print(alloc, text, all),
        Some((front, behind)) => {
            add_print(alloc, front, all)?;
            add_brackets(alloc, behind, all)
        }
    }
}

/// The pieces of a text.
fn text_pieces(alloc: Global, text: &[u8]) -> Result<TextPieces, AllocError>
    ensures { IfOk result (λ pieces. pieces ≡ text_pieces text.now) }
{
    let mut all = Vec::new(alloc);
    match text {
        [] => all.push(TextPiece::Printed(TextBytes::copied(alloc, text)?))?,
        [_, ..] => add_text(alloc, text, &mut all)?,
    }
    Ok(TextPieces::new(all))
}

/// Whether the byte is of a word or parts two.
fn is_word_or_blank(byte: u8) -> bool
    ensures { result ≡ is_word_or_blank byte }
{
    is_letter(byte) || byte == b' ' || byte == b'\t' || byte == b'\n'
}

/// Whether a word stands here.
fn has_word(bytes: &[u8]) -> bool
    ensures { result ≡ list_any is_letter bytes.now }
{
    bytes.iter().any(|byte| is_letter(*byte))
}

/// Whether nothing but words and blanks stands here.
fn has_no_mark(bytes: &[u8]) -> bool
    ensures { result ≡ list_all is_word_or_blank bytes.now }
{
    bytes.iter().all(|byte| is_word_or_blank(*byte))
}

/// Whether words and blanks stand here alone, and at least one word.
#[tactic(auto, unfolding(crate::specs::TextPieces::is_of_words))]
fn is_of_words(bytes: &[u8]) -> bool
    ensures { result ≡ is_of_words bytes.now }
{
    has_word(bytes) && has_no_mark(bytes)
}

/// Whether a `]` stands there.
fn has_closing(part: &[u8]) -> bool
    ensures { result ≡ has_closing part.now }
{
    part.iter().any(|byte| *byte == b']')
}

/// Whether a part that stands behind a `[` has its `]`, and words in front of that.
#[tactic(auto, unfolding(crate::specs::TextPieces::is_bracket_read))]
pub fn is_bracket_read(part: &[u8]) -> bool
    ensures { result ≡ is_bracket_read part.now }
{
    has_closing(part) && is_of_words(in_front_of_closing(part))
}

/// Whether each part of a text is so.
fn are_parts_read(text: &[u8]) -> bool
    ensures { result ≡ list_all is_bracket_read (parts_of text.now) }
{
    let mut rest = text;
    while let Some((part, behind)) = first_part(rest) {
        if !is_bracket_read(part) {
            return false;
        }
        rest = behind;
    }
    is_bracket_read(rest)
}

/// Whether each `[` has its `]`, and words stand between them.
fn are_brackets_read(text: &[u8]) -> bool
    ensures { result ≡ are_brackets_read text.now }
{
    match first_part(text) {
        None => true,
        Some((_, behind)) => are_parts_read(behind),
    }
}

/// The pieces of a text, which is given without its quotes; none where a bracket or an if of it isn't
/// understood.
pub fn read_text(alloc: Global, text: &[u8]) -> Result<Option<TextPieces>, AllocError>
    ensures { IfOk result (λ read. read ≡ (if is_text_read text.now then Some (text_pieces text.now) else None)) }
{
    if !are_brackets_read(text) {
        return Ok(None);
    }
    let pieces = text_pieces(alloc, text)?;
    Ok(if ifs_end(pieces.as_slice()) {
        Some(pieces)
    } else {
        None
    })
}
