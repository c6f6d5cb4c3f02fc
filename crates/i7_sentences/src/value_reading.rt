//! How a sentence is read where kinds of value are declared: by a lower form, by one that speaks of such a kind, or by a higher form.
ghost use Rattle.std.specs.Prelude.{◌≡◌, ◌∷◌, [], ◌++◌, map, option_map, IfOk};
ghost use Rattle.i7_sentences.specs.Found.{found_in};
ghost use Rattle.i7_sentences.specs.Matching.{first_fit, found_as};
ghost use Rattle.i7_sentences.specs.Signs.{table_of};
ghost use Rattle.i7_sentences.specs.ValueFits.{back_letters, cut_letters, form_fit, front_letters, lowest_value, read_later, read_with};
ghost use Rattle.i7_sentences.specs.ValueForms.{value_forms};

use crate::column_stack::ColumnStack;
use crate::matcher::{can_begin, fit, fit_behind, is_passed_over};
use crate::reading::{Reading, higher_reading, lower_reading, middle_reading, preferred};
use crate::signs::{Signs, signs_of};
use crate::tagged::Tagged;
use crate::value_form::VALUE_FORMS;
use crate::value_names::is_kind;
use crate::{Form, KindLetter, Piece, WordList};
use std::alloc::{AllocError, Global};

/// The value forms at one place of memory.
static TABLE: [(KindLetter, (Form, &[Piece])); 5] = VALUE_FORMS;

/// The letters with the kind's name in front, as the first piece.
#[tactic(auto, using(crate::proofs::Missing::never_begins))]
fn front_letters<'a, 'b>(
    alloc: Global,
    place: KindLetter,
    kinds: &[WordList],
    pieces: &[Piece],
    front: &'a [Tagged<'b>],
    back: &'a [Tagged<'b>],
    columns: &mut ColumnStack,
) -> Result<Option<Vec<&'a [Tagged<'b>]>>, AllocError>
    ensures { IfOk result (λ found. option_map (λ letters. map (λ letter. letter.now) letters.items) found ≡ front_letters place kinds.now pieces.now front.now back.now) }
{
    match pieces {
        [] => Ok(None),
        [piece, rest @ ..] => match *piece {
            Piece::Word(_) => Ok(None),
            Piece::Letter(class) => {
                if !can_begin(rest, back) || !is_kind(alloc, place, kinds, class, front)? {
                    return Ok(None);
                }
                Ok(fit_behind(alloc, front, rest, back, columns)?)
            }
        },
    }
}

/// The letters of these pieces, and behind them the kind's name.
fn with_last<'a, 'b>(
    alloc: Global,
    pieces: &[Piece],
    front: &'a [Tagged<'b>],
    back: &'a [Tagged<'b>],
    columns: &mut ColumnStack,
) -> Result<Option<Vec<&'a [Tagged<'b>]>>, AllocError>
    ensures { IfOk result (λ found. option_map (λ letters. map (λ letter. letter.now) letters.items) found ≡ option_map (λ letters. letters ++ back.now ∷ []) (first_fit pieces.now front.now)) }
{
    match fit(alloc, pieces, front, columns)? {
        None => Ok(None),
        Some(found) => {
            let mut letters = found;
            letters.push(back)?;
            Ok(Some(letters))
        }
    }
}

/// The letters with the kind's name at the end, as the last piece.
fn back_letters<'a, 'b>(
    alloc: Global,
    place: KindLetter,
    kinds: &[WordList],
    pieces: &[Piece],
    last: &[Piece],
    front: &'a [Tagged<'b>],
    back: &'a [Tagged<'b>],
    columns: &mut ColumnStack,
) -> Result<Option<Vec<&'a [Tagged<'b>]>>, AllocError>
    ensures { IfOk result (λ found. option_map (λ letters. map (λ letter. letter.now) letters.items) found ≡ back_letters place kinds.now pieces.now last.now front.now back.now) }
{
    match last {
        [piece] => match *piece {
            Piece::Word(_) => Ok(None),
            Piece::Letter(class) => {
                if !is_kind(alloc, place, kinds, class, back)? {
                    return Ok(None);
                }
                Ok(with_last(alloc, pieces, front, back, columns)?)
            }
        },
        _ => Ok(None),
    }
}

/// The letters where the words are cut into these two parts.
fn cut_letters<'a, 'b>(
    alloc: Global,
    place: KindLetter,
    kinds: &[WordList],
    pieces: &[Piece],
    front: &'a [Tagged<'b>],
    back: &'a [Tagged<'b>],
    columns: &mut ColumnStack,
) -> Result<Option<Vec<&'a [Tagged<'b>]>>, AllocError>
    ensures { IfOk result (λ found. option_map (λ letters. map (λ letter. letter.now) letters.items) found ≡ cut_letters place kinds.now pieces.now front.now back.now) }
{
    match place {
        KindLetter::First | KindLetter::FirstPlural => Ok(front_letters(
            alloc, place, kinds, pieces, front, back, columns,
        )?),
        KindLetter::Last => {
            let (others, last) = pieces.split_at(pieces.len().saturating_sub(1));
            Ok(back_letters(alloc, place, kinds, others, last, front, back, columns)?)
        }
    }
}

/// The reading with these letters, if there are some.
fn reading_as<'a, 'b>(
    form: Form,
    pieces: &'static [Piece],
    letters: Option<Vec<&'a [Tagged<'b>]>>,
) -> Option<Reading<'a, 'b>>
    ensures { option_map found_in result ≡ found_as (record { form = form; pieces = pieces.now }) (option_map (λ letters. map (λ letter. letter.now) letters.items) letters.entry) }
{
    match letters {
        None => None,
        Some(letters) => Some(Reading {
            form,
            pieces,
            letters,
        }),
    }
}

/// The reading by a value form, of all cuts of the words that with the shortest letters.
fn form_reading<'a, 'b>(
    alloc: Global,
    kinds: &[WordList],
    place: KindLetter,
    form: Form,
    pieces: &'static [Piece],
    tokens: &'a [Tagged<'b>],
    columns: &mut ColumnStack,
) -> Result<Option<Reading<'a, 'b>>, AllocError>
    ensures { IfOk result (λ found. option_map found_in found ≡ form_fit kinds.now (record { place = place; variant = record { form = form; pieces = pieces.now } }) tokens.now) }
{
    let mut best = None;
    let mut count = 0;
    while count <= tokens.len() {
        let (front, back) = tokens.split_at(count);
        let letters = cut_letters(alloc, place, kinds, pieces, front, back, columns)?;
        best = preferred(best, reading_as(form, pieces, letters));
        count += 1;
    }
    Ok(best)
}

/// The reading by a value form, unless it is seen that it doesn't fit.
#[tactic(auto, using(crate::proofs::Valuing::passed_over))]
fn row_reading<'a, 'b>(
    alloc: Global,
    kinds: &[WordList],
    row: &(KindLetter, (Form, &'static [Piece])),
    signs: &Signs,
    tokens: &'a [Tagged<'b>],
    columns: &mut ColumnStack,
) -> Result<Option<Reading<'a, 'b>>, AllocError>
    requires { signs.now ≡ table_of tokens.now }
    ensures { IfOk result (λ found. option_map found_in found ≡ form_fit kinds.now (record { place = row.now.0; variant = record { form = row.now.1.0; pieces = row.now.1.1.now } }) tokens.now) }
{
    let (place, (form, pieces)) = *row;
    if is_passed_over(pieces, signs, tokens) {
        return Ok(None);
    }
    Ok(form_reading(alloc, kinds, place, form, pieces, tokens, columns)?)
}

/// The reading by the lowest of these value forms that fits.
fn lowest_value<'a, 'b>(
    alloc: Global,
    kinds: &[WordList],
    rows: &[(KindLetter, (Form, &'static [Piece]))],
    signs: &Signs,
    tokens: &'a [Tagged<'b>],
    columns: &mut ColumnStack,
) -> Result<Option<Reading<'a, 'b>>, AllocError>
    requires { signs.now ≡ table_of tokens.now }
    ensures { IfOk result (λ found. option_map found_in found ≡ lowest_value (map (λ row. record { place = row.0; variant = record { form = row.1.0; pieces = row.1.1.now } }) rows.now)
        kinds.now tokens.now) }
{
    let mut rest = rows;
    while let [row, after @ ..] = rest {
        if let Some(reading) = row_reading(alloc, kinds, row, signs, tokens, columns)? {
            return Ok(Some(reading));
        }
        rest = after;
    }
    Ok(None)
}

/// The reading by the lowest value form that fits, if kinds of value are declared.
#[tactic(auto, unfolding(crate::specs::ValueForms::value_forms))]
fn value_reading<'a, 'b>(
    alloc: Global,
    kinds: &[WordList],
    signs: &Signs,
    tokens: &'a [Tagged<'b>],
    columns: &mut ColumnStack,
) -> Result<Option<Reading<'a, 'b>>, AllocError>
    requires { signs.now ≡ table_of tokens.now }
    ensures { IfOk result (λ found. option_map found_in found ≡ lowest_value value_forms kinds.now tokens.now) }
{
    if kinds.is_empty() {
        return Ok(None);
    }
    Ok(lowest_value(alloc, kinds, &TABLE, signs, tokens, columns)?)
}

/// How a sentence is read by the forms behind those of rules.
fn later_with<'a, 'b>(
    alloc: Global,
    kinds: &[WordList],
    signs: &Signs,
    tokens: &'a [Tagged<'b>],
    columns: &mut ColumnStack,
) -> Result<Option<Reading<'a, 'b>>, AllocError>
    requires { signs.now ≡ table_of tokens.now }
    ensures { IfOk result (λ found. option_map found_in found ≡ read_later kinds.now tokens.now) }
{
    if let Some(reading) = middle_reading(alloc, signs, tokens, columns)? {
        return Ok(Some(reading));
    }
    if let Some(reading) = value_reading(alloc, kinds, signs, tokens, columns)? {
        return Ok(Some(reading));
    }
    Ok(higher_reading(alloc, signs, tokens, columns)?)
}

/// How a sentence is read by the forms behind those of rules, where these kinds of value are declared. None: none of them fits.
pub fn later_reading<'a, 'b>(
    alloc: Global,
    kinds: &[WordList],
    tokens: &'a [Tagged<'b>],
    columns: &mut ColumnStack,
) -> Result<Option<Reading<'a, 'b>>, AllocError>
    ensures { IfOk result (λ found. option_map found_in found ≡ read_later kinds.now tokens.now) }
{
    Ok(later_with(alloc, kinds, &signs_of(tokens), tokens, columns)?)
}

/// How a sentence is read where these kinds of value are declared. None: no form fits.
pub fn reading_with<'a, 'b>(
    alloc: Global,
    kinds: &[WordList],
    tokens: &'a [Tagged<'b>],
    columns: &mut ColumnStack,
) -> Result<Option<Reading<'a, 'b>>, AllocError>
    ensures { IfOk result (λ found. option_map found_in found ≡ read_with kinds.now tokens.now) }
{
    let signs = signs_of(tokens);
    if let Some(reading) = lower_reading(alloc, &signs, tokens, columns)? {
        return Ok(Some(reading));
    }
    Ok(later_with(alloc, kinds, &signs, tokens, columns)?)
}
