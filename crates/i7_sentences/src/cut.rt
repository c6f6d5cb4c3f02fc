//! Cutting tokens into paragraphs, and these into headings and sentences.
ghost use Rattle.std.specs.Prelude.{◌≡◌, ◌<◌, ◌≤◌, false, fold, length, IfOk, OnOk};
ghost use Rattle.std.specs.List.{list_all};
ghost use Rattle.i7_sentences.specs.Cuts.{cut, ends_sentence_kind, has_final_end, is_capitalised, is_colon, is_final, is_full_stop, is_heading, is_mark_kind, is_same_paragraph, is_same_sentence};
ghost use Rattle.i7_sentences.specs.Cuts.{is_stop_alone, is_title, is_unindented, is_within_line, kind_of, may_begin_kind, opens_heading, opens_nothing, parts_of, with_paragraph, with_sentence};
ghost use Rattle.i7_sentences.specs.Pieces.{piece_len, pieces_of};
ghost use Rattle.i7_sentences.specs.Words.{is_word};

use crate::part::{Part, PartKind};
use crate::word::{is_text, is_word, word_of};
use i7_lexer::{PackedToken, Start, TokenKind};
use std::alloc::{AllocError, Global};
use world_meaning::is_spelled;

/// The words that open a heading.
pub const HEADINGS: [&[u8]; 5] = [b"volume", b"book", b"part", b"chapter", b"section"];

/// Whether the next token belongs to the same paragraph.
fn is_same_paragraph(token: &PackedToken, next: &PackedToken) -> bool
    ensures { result ≡ is_same_paragraph false token.now next.now }
{
    let _ = token;
    match next.start() {
        Start::Paragraph => false,
        Start::Line { .. } | Start::Within | Start::Across => true,
    }
}

/// Whether a token stands within its line, all of it.
fn is_within_line(start: Start) -> bool
    ensures { result ≡ is_within_line start }
{
    match start {
        Start::Within => true,
        Start::Paragraph | Start::Line { .. } | Start::Across => false,
    }
}

/// Whether the word opens a heading.
fn opens_heading(word: &[u8]) -> bool
    ensures { result ≡ opens_heading word.now }
{
    HEADINGS.iter().any(|heading| is_spelled(word, heading))
}

/// Whether all tokens stand within their line.
fn are_within_line(tokens: &[PackedToken]) -> bool
    ensures { result ≡ list_all (λ token. is_within_line token.start) tokens.now }
{
    tokens.iter().all(|token| is_within_line(token.start()))
}

/// Whether a paragraph is a heading.
fn is_heading(paragraph: &[PackedToken]) -> bool
    ensures { result ≡ is_heading paragraph.now }
{
    match paragraph {
        [] => false,
        [first, rest @ ..] => opens_heading(word_of(first)) && are_within_line(rest),
    }
}

/// Whether the token is this mark.
pub fn is_mark(byte: u8, token: &PackedToken) -> bool
    ensures { result ≡ is_mark_kind byte token.now.kind }
{
    match token.kind() {
        TokenKind::Mark(mark) => mark == byte,
        TokenKind::Text(_) | TokenKind::Word(_) => false,
    }
}

/// Whether the token is a full stop.
pub fn is_full_stop(token: &PackedToken) -> bool
    ensures { result ≡ is_full_stop token.now }
{
    is_mark(b'.', token)
}

/// Whether the token is a colon.
pub fn is_colon(token: &PackedToken) -> bool
    ensures { result ≡ is_colon token.now }
{
    is_mark(b':', token)
}

/// Whether a line of indent 0 begins at a token.
fn is_unindented(start: Start) -> bool
    ensures { result ≡ is_unindented start }
{
    match start {
        Start::Paragraph => true,
        Start::Line { indent } => indent == 0,
        Start::Within | Start::Across => false,
    }
}

/// Whether the byte ends a spoken sentence: a full stop, a question mark or an exclamation mark.
pub fn is_final(byte: u8) -> bool
    ensures { result ≡ is_final byte }
{
    byte == b'.' || byte == b'?' || byte == b'!'
}

/// Whether the bytes end as a sentence does: in `.`, `?` or `!`, or in one of these and `'`.
fn has_final_end(text: &[u8]) -> bool
    ensures { result ≡ has_final_end text.now }
{
    let len = text.len();
    len > 0 && is_final(text[len - 1])
        || len > 1 && text[len - 1] == b'\'' && is_final(text[len - 2])
}

/// Whether the token is a text that ends as a sentence does.
pub fn ends_sentence(token: &PackedToken) -> bool
    ensures { result ≡ ends_sentence_kind token.now.kind }
{
    match token.kind() {
        TokenKind::Text(text) => has_final_end(text.as_slice()),
        TokenKind::Word(_) | TokenKind::Mark(_) => false,
    }
}

/// Whether the word begins with a capital ASCII letter.
fn is_capitalised(word: &[u8]) -> bool
    ensures { result ≡ is_capitalised word.now }
{
    match word {
        [] => false,
        [first, ..] => first.is_ascii_uppercase(),
    }
}

/// Whether a sentence may begin with this token behind a text: a text, or a word with a capital.
pub fn may_begin(token: &PackedToken) -> bool
    ensures { result ≡ may_begin_kind token.now.kind }
{
    match token.kind() {
        TokenKind::Text(_) => true,
        TokenKind::Word(word) => is_capitalised(word.as_slice()),
        TokenKind::Mark(_) => false,
    }
}

/// Whether the next token of a paragraph belongs to the same sentence: behind a colon if it begins no
/// line of indent 0; else none does at a full stop, which is in no sentence, and behind a text that
/// ends as a sentence does.
fn is_same_sentence(has_colon: bool, token: &PackedToken, next: &PackedToken) -> bool
    ensures { result ≡ is_same_sentence has_colon token.now next.now }
{
    if has_colon {
        !is_unindented(next.start())
    } else {
        !(is_full_stop(token) || is_full_stop(next) || ends_sentence(token) && may_begin(next))
    }
}

/// Whether a piece of a paragraph is a full stop.
fn is_stop_alone(piece: &[PackedToken]) -> bool
    ensures { result ≡ is_stop_alone piece.now }
{
    match piece {
        [] => false,
        [first, ..] => is_full_stop(first),
    }
}

/// Whether each of the tokens is a word.
fn are_words(tokens: &[PackedToken]) -> bool
    ensures { result ≡ list_all is_word tokens.now }
{
    tokens.iter().all(|token| is_word(token))
}

/// Whether a sentence is a text alone, or a text, `by` and words alone.
fn is_title(sentence: &[PackedToken]) -> bool
    ensures { result ≡ is_title sentence.now }
{
    match sentence {
        [] => false,
        [text] => is_text(text),
        [_, _] => false,
        [text, by, _, ..] => {
            let (_, names) = sentence.split_at(2);
            is_text(text) && is_spelled(word_of(by), b"by") && are_words(names)
        }
    }
}

/// What a sentence is read as, with these parts before it: only the first part may be a title.
fn kind_of(parts: &[Part<'_>], sentence: &[PackedToken]) -> PartKind
    ensures { result ≡ kind_of (pieces_of parts.now) sentence.now }
{
    match parts {
        [] => {
            if is_title(sentence) {
                PartKind::Title
            } else {
                PartKind::Sentence
            }
        }
        [_, ..] => PartKind::Sentence,
    }
}

/// The number of tokens of the first paragraph.
fn paragraph_len(tokens: &[PackedToken]) -> usize
    ensures len { result ≡ piece_len opens_nothing is_same_paragraph tokens.now }
    ensures within { result ≤ length tokens.now }
{
    let mut count = 0;
    let mut rest = tokens;
    while let [token, after @ ..] = rest {
        count += 1;
        rest = after;
        match after {
            [] => {}
            [next, ..] => {
                if !is_same_paragraph(token, next) {
                    return count;
                }
            }
        }
    }
    count
}

/// The number of tokens of the first piece of a paragraph: a sentence or a full stop.
fn sentence_len(tokens: &[PackedToken]) -> usize
    ensures len { result ≡ piece_len is_colon is_same_sentence tokens.now }
    ensures within { result ≤ length tokens.now }
{
    let mut count = 0;
    let mut has_colon = false;
    let mut rest = tokens;
    while let [token, after @ ..] = rest {
        count += 1;
        has_colon = has_colon || is_colon(token);
        rest = after;
        match after {
            [] => {}
            [next, ..] => {
                if !is_same_sentence(has_colon, token, next) {
                    return count;
                }
            }
        }
    }
    count
}

/// Adds a sentence to the parts; a full stop alone is none.
fn add_sentence<'a>(piece: &'a [PackedToken], parts: &mut Vec<Part<'a>>) -> Result<(), AllocError>
    ensures { OnOk result (pieces_of parts.new.items ≡ with_sentence (pieces_of parts.old.items) piece.now) }
{
    if is_stop_alone(piece) {
        return Ok(());
    }
    let kind = kind_of(parts.as_slice(), piece);
    parts.push(Part {
        kind,
        tokens: piece,
    })?;
    Ok(())
}

/// Adds the sentences of a paragraph to the parts.
#[tactic(auto, using(crate::proofs::Cutting::cut_steps))]
fn add_sentences<'a>(
    paragraph: &'a [PackedToken],
    parts: &mut Vec<Part<'a>>,
) -> Result<(), AllocError>
    ensures { OnOk result (pieces_of parts.new.items ≡ fold with_sentence (pieces_of parts.old.items) (cut is_colon is_same_sentence paragraph.now)) }
{
    let mut rest = paragraph;
    while !rest.is_empty() {
        let (piece, behind) = rest.split_at(sentence_len(rest));
        add_sentence(piece, parts)?;
        rest = behind;
    }
    Ok(())
}

/// Adds a paragraph's parts: the heading that it is, or its sentences.
fn add_paragraph<'a>(
    paragraph: &'a [PackedToken],
    parts: &mut Vec<Part<'a>>,
) -> Result<(), AllocError>
    ensures { OnOk result (pieces_of parts.new.items ≡ with_paragraph (pieces_of parts.old.items) paragraph.now) }
{
    if !is_heading(paragraph) {
        return add_sentences(paragraph, parts);
    }
    parts.push(Part {
        kind: PartKind::Heading,
        tokens: paragraph,
    })?;
    Ok(())
}

/// The parts of a source, in order.
#[tactic(auto, using(crate::proofs::Cutting::cut_steps))]
pub fn parts_of(alloc: Global, tokens: &[PackedToken]) -> Result<Vec<Part<'_>>, AllocError>
    ensures { IfOk result (λ parts. pieces_of parts.items ≡ parts_of tokens.now) }
{
    let mut parts = Vec::new(alloc);
    let mut rest = tokens;
    while !rest.is_empty() {
        let (paragraph, behind) = rest.split_at(paragraph_len(rest));
        add_paragraph(paragraph, &mut parts)?;
        rest = behind;
    }
    Ok(parts)
}
