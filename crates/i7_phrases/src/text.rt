//! What texts with substitutions say (*Writing with Inform*, chapter 5), piece by piece.
ghost use Rattle.std.specs.Prelude.{◌≡◌, ◌≤◌, List, length, IfOk};
ghost use Rattle.i7_conditions.specs.Readings.{IsFoundAs};
ghost use Rattle.i7_conditions.specs.Scopes.{Scope as Names, scope_of};
ghost use Rattle.i7_phrases.specs.Drafts.{IsReadOn, IsSense, draft_of, next_of, sense_of};
ghost use Rattle.i7_phrases.specs.Texts.{IsText, found_text, text_is_over};
ghost use Rattle.i7_sentences.specs.declared.text_piece.TextPiece.{TextPiece as Lent};
ghost use Rattle.play_meaning.specs.Trees.{Text as Meant};

use crate::draft::{Draft, Sense, after, ended, start};
use crate::substitution::substitution_of;
use i7_conditions::{
    Found, Scope, condition_of, one_condition_is_meant, one_description_is_meant,
    one_number_is_meant, one_object_is_meant,
};
use i7_sentences::TextPiece;
use play_meaning::tree::{Piece, Text};
use std::alloc::{AllocError, Global};
use world_meaning::TextBytes;

/// What a piece says or opens.
fn sense_of(alloc: Global, scope: &Scope<'_>, piece: &TextPiece) -> Result<Sense, AllocError>
    requires few { length (scope_of scope.now).repeats ≤ 255 }
    ensures { IfOk result (λ sense. IsSense (scope_of scope.now) piece.now (sense_of sense)) }
{
    match piece {
        TextPiece::Printed(bytes) => {
            let bytes = TextBytes::copied(alloc, bytes.as_slice())?;
            Ok(Sense::Said(Found::Read(Piece::Bytes(bytes))))
        }
        TextPiece::Substitution(words) => {
            let found = substitution_of(alloc, scope, words.as_slice())?;
            Ok(Sense::Said(found))
        }
        TextPiece::If(words) => {
            let found = condition_of(alloc, scope, words.as_slice())?;
            Ok(Sense::If(found))
        }
        TextPiece::Otherwise => Ok(Sense::Otherwise),
        TextPiece::EndIf => Ok(Sense::EndIf),
    }
}

/// What is read behind one more piece, if that may stand there and means something.
fn read_on(
    alloc: Global,
    scope: &Scope<'_>,
    draft: Draft,
    piece: &TextPiece,
) -> Result<Option<Draft>, AllocError>
    requires few { length (scope_of scope.now).repeats ≤ 255 }
    ensures { IfOk result (λ next. IsReadOn (scope_of scope.now) piece.now (draft_of draft) (next_of next)) }
{
    match sense_of(alloc, scope, piece) {
        Ok(sense) => after(alloc, draft, sense),
        Err(refused) => {
            drop(draft);
            Err(refused)
        }
    }
}

/// The text that pieces mean; one with an object, a description, a number or a condition beyond the limits is too many.
pub fn text_of(
    alloc: Global,
    scope: &Scope<'_>,
    pieces: &[TextPiece],
) -> Result<Found<Text>, AllocError>
    requires few { length (scope_of scope.now).repeats ≤ 255 }
    ensures { IfOk result (λ found. IsFoundAs (IsText (scope_of scope.now) pieces.now) text_is_over (found_text found)) }
{
    let mut draft = start(alloc);
    let mut rest = pieces;
    while let [piece, behind @ ..] = rest {
        match read_on(alloc, scope, draft, piece)? {
            None => return Ok(Found::Unread),
            Some(next) => draft = next,
        }
        rest = behind;
    }
    Ok(ended(draft))
}

/// Pieces mean one text at most.
pub fn one_text_is_meant()
    ensures { (s : Names) (pieces : List Lent) (t u : Meant) → IsText s pieces t → IsText s pieces u → t ≡ u }
{
    one_object_is_meant();
    one_number_is_meant();
    one_description_is_meant();
    one_condition_is_meant();
}
