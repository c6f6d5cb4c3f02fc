//! Texts that may describe (*Writing with Inform*, 5.1 to 5.6, as far as this profile goes).
ghost use Rattle.std.specs.Prelude.{◌≡◌, IfOk};
ghost use Rattle.std.specs.List.{list_all};
ghost use Rattle.i7_sentences.specs.Assertions.{describing, is_of_description, is_plain, may_describe, may_describe_so, may_stand_within};

use crate::condition::are_pieces_read;
use crate::text_reader::read_text;
use crate::{TextPiece, TextPieces};
use std::alloc::{AllocError, Global};
use world_meaning::{TextBytes, is_spelled};

/// Whether a text holds no bracket that opens, so that nothing in it stands for something else.
pub(crate) fn is_plain(text: &[u8]) -> bool
    ensures { result ≡ is_plain text.now }
{
    text.iter().all(|byte| *byte != b'[')
}

/// Whether the words stand for the description of an object.
fn is_of_description(words: &[TextBytes]) -> bool
    ensures { result ≡ is_of_description words.now }
{
    match words {
        [first, second, ..] => {
            is_spelled(first.as_slice(), b"description") && is_spelled(second.as_slice(), b"of")
        }
        _ => false,
    }
}

/// Whether a piece may stand in a description, which prints no other.
fn may_stand_within(piece: &TextPiece) -> bool
    ensures { result ≡ may_stand_within piece.now }
{
    match piece {
        TextPiece::Substitution(words) => !is_of_description(words.as_slice()),
        _ => true,
    }
}

/// Whether the pieces may stand in a description.
fn may_all_stand_within(pieces: &[TextPiece]) -> bool
    ensures { result ≡ list_all may_stand_within pieces.now }
{
    pieces.iter().all(|piece| may_stand_within(piece))
}

/// Whether pieces may describe.
fn may_describe_so(pieces: Option<TextPieces>) -> bool
    ensures { result ≡ may_describe_so pieces }
{
    match pieces {
        None => false,
        Some(pieces) => {
            let pieces = pieces.as_slice();
            are_pieces_read(pieces) && may_all_stand_within(pieces)
        }
    }
}

/// Whether a text may describe: its brackets are understood, and none stands for another description.
fn may_describe(alloc: Global, text: &[u8]) -> Result<bool, AllocError>
    ensures { IfOk result (λ answer. answer ≡ may_describe text.now) }
{
    if is_plain(text) {
        return Ok(true);
    }
    Ok(may_describe_so(read_text(alloc, text)?))
}

/// A copy of the text, if it may describe.
pub fn describing(alloc: Global, text: &[u8]) -> Result<Option<TextBytes>, AllocError>
    ensures { IfOk result (λ copy. copy ≡ describing text.now) }
{
    if !may_describe(alloc, text)? {
        return Ok(None);
    }
    Ok(Some(TextBytes::copied(alloc, text)?))
}
