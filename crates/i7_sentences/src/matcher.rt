//! Fitting pieces to words from left to right: each letter ends at the nearest place from which the
//! pieces behind it can fit.
ghost use Rattle.std.specs.Prelude.{◌≡◌, true, ◌≤◌, ◌++◌, ◌∷◌, [], length, map, option_map, IfNone, IfOk, IfSome, IsTrue, None, Some, false};
ghost use Rattle.std.specs.List.{list_any};
ghost use Rattle.i7_sentences.specs.Signs.{is_unmarked, table_of};
ghost use Rattle.i7_sentences.specs.Matching.{behind_word, can_begin, can_fit, can_take, columns_of, first_column, first_fit, is_kept, is_missing, IsEndOf, left_by, letters_with, looked, nearest};
ghost use Rattle.i7_sentences.specs.Found.{letters_in};

use crate::class::State;
use crate::column_stack::ColumnStack;
use crate::lookahead::{columns_behind, looked};
use crate::signs::Signs;
use crate::tagged::Tagged;
use crate::{Class, Keyword, Piece};
use std::alloc::{AllocError, Global};

/// How many words are left behind a letter that ends as near as it can.
fn nearest(class: Class, behind: &[bool], tokens: &[Tagged<'_>]) -> Option<usize>
    ensures left { result ≡ nearest class State.Start (λ rest. looked behind.now (length rest)) tokens.now }
    ensures within { IfSome result (λ left. left ≤ length tokens.now) }
{
    let mut state = State::Start;
    let mut rest = tokens;
    while let [token, after @ ..] = rest {
        if state.accepts() && looked(behind, rest.len()) {
            return Some(rest.len());
        }
        match class.step(state, token) {
            None => return None,
            Some(next) => {
                state = next;
                rest = after;
            }
        }
    }
    if state.accepts() && looked(behind, 0) {
        Some(0)
    } else {
        None
    }
}

/// How many words are left behind a word of the form.
fn behind_word(keyword: Keyword, tokens: &[Tagged<'_>]) -> Option<usize>
    ensures left { result ≡ behind_word keyword tokens.now }
    ensures within { IfSome result (λ left. left ≤ length tokens.now) }
{
    match tokens {
        [] => None,
        [token, after @ ..] => {
            if token.is_sign(keyword) {
                Some(after.len())
            } else {
                None
            }
        }
    }
}

/// How many words are left behind a piece.
fn left_by(piece: Piece, behind: &[bool], tokens: &[Tagged<'_>]) -> Option<usize>
    ensures left { result ≡ left_by piece (λ rest. looked behind.now (length rest)) tokens.now }
    ensures within { IfSome result (λ left. left ≤ length tokens.now) }
{
    match piece {
        Piece::Word(keyword) => behind_word(keyword, tokens),
        Piece::Letter(class) => nearest(class, behind, tokens),
    }
}

/// Whether the words that the piece takes are kept for the form's reader.
fn is_kept(piece: Piece) -> bool
    ensures { result ≡ is_kept piece }
{
    match piece {
        Piece::Word(_) => false,
        Piece::Letter(_) => true,
    }
}

/// How many words are left behind a piece, by the column that was told for the pieces behind it.
fn left_behind(
    piece: Piece,
    after: &[Piece],
    tokens: &[Tagged<'_>],
    rest: &[Tagged<'_>],
    told: &mut ColumnStack,
) -> Result<Option<usize>, AllocError>
    requires told { told.old ≡ columns_of after.now tokens.now ++ first_column after.now tokens.now ∷ [] }
    requires suffix { IsEndOf rest.now tokens.now }
    ensures told { told.new ≡ columns_of after.now tokens.now }
    ensures left { IfOk result (λ found. found ≡ left_by piece (can_fit after.now) rest.now) }
    ensures within { IfOk result (λ found. IfSome found (λ left. left ≤ length rest.now)) }
{
    match told.take_last() {
        None => Ok(None),
        Some(behind) => {
            let left = left_by(piece, behind.as_slice(), rest);
            told.set_free(behind)?;
            Ok(left)
        }
    }
}

/// The words behind a piece, if it takes some; a letter's words are added to the letters.
fn take_piece<'a, 'b>(
    piece: Piece,
    after: &[Piece],
    tokens: &[Tagged<'_>],
    rest: &'a [Tagged<'b>],
    told: &mut ColumnStack,
    letters: &mut Vec<&'a [Tagged<'b>]>,
) -> Result<Option<&'a [Tagged<'b>]>, AllocError>
    requires told { told.old ≡ columns_of after.now tokens.now ++ first_column after.now tokens.now ∷ [] }
    requires suffix { IsEndOf rest.now tokens.now }
    ensures told { told.new ≡ columns_of after.now tokens.now }
    ensures suffix { IfOk result (λ behind. IfSome behind (λ others. IsEndOf others.now tokens.now)) }
    ensures none { IfOk result (λ behind. IfNone behind (first_fit (piece ∷ after.now) rest.now ≡ None)) }
    ensures some { IfOk result (λ behind. IfSome behind (λ others.
        letters_with (letters_in letters.new.items) after.now others.now
        ≡ letters_with (letters_in letters.old.items) (piece ∷ after.now) rest.now)) }
{
    match left_behind(piece, after, tokens, rest, told)? {
        None => Ok(None),
        Some(left) => {
            let (words, others) = rest.split_at(rest.len() - left);
            if is_kept(piece) {
                letters.push(words)?;
            }
            Ok(Some(others))
        }
    }
}

/// Whether a piece can begin with the token.
fn can_take(piece: Piece, token: &Tagged<'_>) -> bool
    ensures { result ≡ can_take piece token.now }
{
    match piece {
        Piece::Word(keyword) => token.is_sign(keyword),
        Piece::Letter(class) => class.step(State::Start, token).is_some(),
    }
}

/// Whether the first piece can take the first token.
pub fn can_begin(pieces: &[Piece], tokens: &[Tagged<'_>]) -> bool
    ensures { result ≡ can_begin pieces.now tokens.now }
{
    match pieces {
        [] => true,
        [piece, ..] => match tokens {
            [] => false,
            [token, ..] => can_take(*piece, token),
        },
    }
}

/// Whether the piece can begin with none of the tokens.
fn is_missing(piece: Piece, tokens: &[Tagged<'_>]) -> bool
    ensures { result ≡ is_missing tokens.now piece }
{
    let mut rest = tokens;
    while let [token, after @ ..] = rest {
        if can_take(piece, token) {
            return false;
        }
        rest = after;
    }
    true
}

/// Whether one of the pieces can begin with none of the tokens.
fn lacks_piece(pieces: &[Piece], tokens: &[Tagged<'_>]) -> bool
    ensures { result ≡ list_any (is_missing tokens.now) pieces.now }
{
    let mut rest = pieces;
    while let [piece, after @ ..] = rest {
        if is_missing(*piece, tokens) {
            return true;
        }
        rest = after;
    }
    false
}

/// Whether these pieces fit the words left; the words for their letters are added to those so far.
fn fits_from<'a, 'b>(
    pieces: &[Piece],
    tokens: &[Tagged<'_>],
    rest: &'a [Tagged<'b>],
    told: &mut ColumnStack,
    letters: &mut Vec<&'a [Tagged<'b>]>,
) -> Result<bool, AllocError>
    requires told { told.old ≡ columns_of pieces.now tokens.now }
    requires suffix { IsEndOf rest.now tokens.now }
    ensures fits { IfOk result (λ fits. IsTrue fits → letters_with (letters_in letters.old.items) pieces.now rest.now ≡ Some (letters_in letters.new.items)) }
    ensures unfit { IfOk result (λ fits. fits ≡ false → first_fit pieces.now rest.now ≡ None) }
{
    match pieces {
        [] => Ok(rest.is_empty()),
        [piece, after @ ..] => match take_piece(*piece, after, tokens, rest, told, letters)? {
            None => Ok(false),
            Some(others) => Ok(fits_from(after, tokens, others, told, letters)?),
        },
    }
}

/// Whether the piece is a word or mark of the form's own that isn't marked.
fn is_unmarked(piece: Piece, signs: &Signs) -> bool
    ensures { result ≡ is_unmarked signs.now piece }
{
    match piece {
        Piece::Word(keyword) => !signs.is_marked(keyword),
        Piece::Letter(_) => false,
    }
}

/// Whether one of the pieces is a word or mark that isn't marked.
fn lacks_sign(pieces: &[Piece], signs: &Signs) -> bool
    ensures { result ≡ list_any (is_unmarked signs.now) pieces.now }
{
    let mut rest = pieces;
    while let [piece, after @ ..] = rest {
        if is_unmarked(*piece, signs) {
            return true;
        }
        rest = after;
    }
    false
}

/// Whether it is seen without columns that the pieces don't fit: a word or mark of theirs isn't there,
/// they can't begin with the first token, or one of them can begin with none. The signs are those of
/// the tokens.
#[tactic(auto, using(crate::proofs::Missing::missing_fits, crate::proofs::Missing::never_begins))]
#[inline(always)]
pub fn is_passed_over(pieces: &[Piece], signs: &Signs, tokens: &[Tagged<'_>]) -> bool
    requires { signs.now ≡ table_of tokens.now }
    ensures { result ≡ true → first_fit pieces.now tokens.now ≡ None }
{
    if lacks_sign(pieces, signs) {
        return true;
    }
    !can_begin(pieces, tokens) || lacks_piece(pieces, tokens)
}

/// The words for the letters of pieces that fit the tokens, each letter as short as it can be, the
/// first before the second; or none where the pieces don't fit.
#[tactic(auto, using(crate::proofs::Columns::never_fits))]
pub fn fit<'a, 'b>(
    alloc: Global,
    pieces: &[Piece],
    tokens: &'a [Tagged<'b>],
    told: &mut ColumnStack,
) -> Result<Option<Vec<&'a [Tagged<'b>]>>, AllocError>
    ensures { IfOk result (λ found. option_map (λ letters. map (λ letter. letter.now) letters.items) found ≡ first_fit pieces.now tokens.now) }
{
    told.clear()?;
    if !columns_behind(alloc, pieces, tokens, told)? {
        return Ok(None);
    }
    let mut letters = Vec::new(alloc);
    if fits_from(pieces, tokens, tokens, told, &mut letters)? {
        Ok(Some(letters))
    } else {
        Ok(None)
    }
}

/// The same with words for a letter in front.
#[tactic(auto, using(crate::proofs::Columns::never_fits))]
pub fn fit_behind<'a, 'b>(
    alloc: Global,
    first: &'a [Tagged<'b>],
    pieces: &[Piece],
    tokens: &'a [Tagged<'b>],
    told: &mut ColumnStack,
) -> Result<Option<Vec<&'a [Tagged<'b>]>>, AllocError>
    ensures { IfOk result (λ found. option_map (λ letters. map (λ letter. letter.now) letters.items) found ≡ option_map (λ letters. first.now ∷ letters) (first_fit pieces.now tokens.now)) }
{
    told.clear()?;
    if !columns_behind(alloc, pieces, tokens, told)? {
        return Ok(None);
    }
    let mut letters = Vec::new(alloc);
    letters.push(first)?;
    if fits_from(pieces, tokens, tokens, told, &mut letters)? {
        Ok(Some(letters))
    } else {
        Ok(None)
    }
}
