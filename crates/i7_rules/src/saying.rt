//! `say "Hello."`: a text, and a line break behind it where it ends a sentence (*Writing with Inform*, 5.6).
ghost use Rattle.std.specs.Prelude.{◌≡◌, ◌≤◌, length, IfOk};
ghost use Rattle.i7_conditions.specs.Readings.{IsFoundAs, one};
ghost use Rattle.i7_conditions.specs.Scopes.{scope_of};
ghost use Rattle.i7_phrases.specs.ChangeForms.{found_simple};
ghost use Rattle.i7_phrases.specs.Limits.{phrase_is_over};
ghost use Rattle.i7_phrases.specs.Texts.{found_text};
ghost use Rattle.i7_rules.specs.Doings.{SaysSo};
ghost use Rattle.i7_rules.specs.Saying.{closed, closes, ends_sentence, is_end, prints_close, saying, with_break};
ghost use Rattle.play_meaning.specs.Meant.{text_meant};

use i7_conditions::{Found, Scope};
use i7_phrases::text_of;
use i7_sentences::{TextPiece, is_final};
use play_meaning::tree::{Piece, Said, Simple, Text};
use std::alloc::{AllocError, Global};
use world_meaning::TextBytes;

/// Whether nothing is left but perhaps a quote.
fn is_end(bytes: &[u8]) -> bool
    ensures { result ≡ is_end bytes.now }
{
    match bytes {
        [] => true,
        [byte] => *byte == b'"',
        _ => false,
    }
}

/// Whether what is printed so ends a sentence.
fn closes(bytes: &[u8]) -> bool
    ensures { result ≡ closes bytes.now }
{
    let mut rest = bytes;
    while let [byte, behind @ ..] = rest {
        if is_final(*byte) && is_end(behind) {
            return true;
        }
        rest = behind;
    }
    false
}

/// Whether a piece ends a sentence if it is the last.
fn prints_close(piece: &TextPiece) -> bool
    ensures { result ≡ prints_close piece.now }
{
    match piece {
        TextPiece::Printed(bytes) => closes(bytes.as_slice()),
        _ => false,
    }
}

/// Whether a text of these pieces ends a sentence.
fn ends_sentence(pieces: &[TextPiece]) -> bool
    ensures { result ≡ ends_sentence pieces.now }
{
    let mut rest = pieces;
    while let [piece, behind @ ..] = rest {
        match behind {
            [] => return prints_close(piece),
            [_, ..] => rest = behind,
        }
    }
    false
}

/// The text with a line break behind it.
fn with_break(alloc: Global, text: Text) -> Result<Text, AllocError>
    ensures { IfOk result (λ said. text_meant said ≡ with_break (text_meant text)) }
{
    let Text { mut parts } = text;
    let line_break = TextBytes::copied(alloc, b"\n")?;
    parts.push(Said::Plain(Piece::Bytes(line_break)))?;
    Ok(Text { parts })
}

/// The text, with a line break behind it where it ends a sentence.
fn closed(alloc: Global, is_sentence: bool, text: Text) -> Result<Text, AllocError>
    ensures { IfOk result (λ said. text_meant said ≡ closed is_sentence (text_meant text)) }
{
    if is_sentence {
        let said = with_break(alloc, text)?;
        Ok(said)
    } else {
        Ok(text)
    }
}

/// `say` with this text, which ends a sentence or doesn't.
fn said_so(alloc: Global, is_sentence: bool, text: Found<Text>) -> Result<Found<Simple>, AllocError>
    ensures { IfOk result (λ found. found_simple found ≡ one (saying is_sentence) (found_text text)) }
{
    match text {
        Found::Read(text) => {
            let text = closed(alloc, is_sentence, text)?;
            Ok(Found::Read(Simple::Say(text)))
        }
        Found::TooMany => Ok(Found::TooMany),
        Found::Unread => Ok(Found::Unread),
    }
}

/// `say` with a text of these pieces.
pub fn said_of(
    alloc: Global,
    scope: &Scope<'_>,
    pieces: &[TextPiece],
) -> Result<Found<Simple>, AllocError>
    requires few { length (scope_of scope.now).repeats ≤ 255 }
    ensures { IfOk result (λ found. IsFoundAs (SaysSo (scope_of scope.now) pieces.now) phrase_is_over (found_simple found)) }
{
    let text = text_of(alloc, scope, pieces)?;
    said_so(alloc, ends_sentence(pieces), text)
}
