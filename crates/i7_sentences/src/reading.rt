//! The reading of a sentence: the lowest form that fits, with the shortest letters.
ghost use Rattle.std.specs.Prelude.{◌≡◌, ◌≤◌, length, map, option_map, true, IfOk};
ghost use Rattle.std.specs.List.{list_all};
ghost use Rattle.i7_sentences.specs.Forms.{are_shorter, higher_forms, lower_forms, middle_forms};
ghost use Rattle.i7_sentences.specs.Matching.{FitAlike, best_fit, first_fit, found_as, lowest_fit, preferred};
ghost use Rattle.i7_sentences.specs.Found.{found_in};
ghost use Rattle.i7_sentences.specs.Needed.{is_lacking, needs};
ghost use Rattle.i7_sentences.specs.Signs.{table_of};

use crate::column_stack::ColumnStack;
use crate::matcher::{fit, is_passed_over};
use crate::sentence_form::{HIGHER_FORMS, LOWER_FORMS, MIDDLE_FORMS};
use crate::signs::Signs;
use crate::tagged::Tagged;
use crate::{Form, FormRow, Keyword, Piece};
use std::alloc::{AllocError, Global};

/// The lower forms at one place of memory.
static LOWER: [FormRow; 14] = LOWER_FORMS;

/// The middle forms.
static MIDDLE: [FormRow; 4] = MIDDLE_FORMS;

/// The higher forms.
static HIGHER: [FormRow; 12] = HIGHER_FORMS;

/// How a sentence is read: a form's variant, and the words for its letters.
#[derive(Drop)]
pub struct Reading<'a, 'b> {
    pub form: Form,
    pub pieces: &'static [Piece],
    pub letters: Vec<&'a [Tagged<'b>]>,
}

/// Whether the first list of letters has the first shorter one.
fn are_shorter(letters: &[&[Tagged<'_>]], others: &[&[Tagged<'_>]]) -> bool
    ensures { result ≡ are_shorter (map (λ letter. letter.now) letters.now) (map (λ letter. letter.now) others.now) }
{
    let mut left = letters;
    let mut right = others;
    while let [first, after @ ..] = left {
        match right {
            [] => return false,
            [second, behind @ ..] => {
                if first.len() != second.len() {
                    return first.len() < second.len();
                }
                left = after;
                right = behind;
            }
        }
    }
    !right.is_empty()
}

/// The later reading only if its letters are shorter.
pub fn preferred<'a, 'b>(
    first: Option<Reading<'a, 'b>>,
    later: Option<Reading<'a, 'b>>,
) -> Option<Reading<'a, 'b>>
    ensures { option_map found_in result ≡ preferred (option_map found_in first.entry) (option_map found_in later.entry) }
{
    match first {
        None => later,
        Some(one) => match later {
            None => Some(one),
            Some(other) => {
                if are_shorter(other.letters.as_slice(), one.letters.as_slice()) {
                    Some(other)
                } else {
                    Some(one)
                }
            }
        },
    }
}

/// A variant's reading of these tokens, if it fits.
fn reading_as<'a, 'b>(
    alloc: Global,
    form: Form,
    pieces: &'static [Piece],
    tokens: &'a [Tagged<'b>],
    columns: &mut ColumnStack,
) -> Result<Option<Reading<'a, 'b>>, AllocError>
    ensures { IfOk result (λ found. option_map found_in found ≡ found_as (record { form = form; pieces = pieces.now }) (first_fit pieces.now tokens.now)) }
{
    match fit(alloc, pieces, tokens, columns)? {
        None => Ok(None),
        Some(letters) => Ok(Some(Reading {
            form,
            pieces,
            letters,
        })),
    }
}

/// The variants from the first on that isn't passed over.
#[tactic(auto, using(crate::proofs::Choosing::passed_best))]
#[inline(always)]
fn without_unfit<'a>(
    variants: &'a [(Form, &'static [Piece])],
    signs: &Signs,
    tokens: &[Tagged<'_>],
) -> &'a [(Form, &'static [Piece])]
    requires { signs.now ≡ table_of tokens.now }
    ensures same { FitAlike result.now variants.now (λ variant. record { form = variant.0; pieces = variant.1.now }) tokens.now }
    ensures within { length result.now ≤ length variants.now }
{
    let mut rest = variants;
    while let [variant, after @ ..] = rest {
        if !is_passed_over(variant.1, signs, tokens) {
            return rest;
        }
        rest = after;
    }
    rest
}

/// The fit of a form with the shortest letters, of as short ones the first.
fn best_fit<'a, 'b>(
    alloc: Global,
    variants: &[(Form, &'static [Piece])],
    signs: &Signs,
    tokens: &'a [Tagged<'b>],
    columns: &mut ColumnStack,
) -> Result<Option<Reading<'a, 'b>>, AllocError>
    requires { signs.now ≡ table_of tokens.now }
    ensures { IfOk result (λ found. option_map found_in found ≡ best_fit (map (λ variant. record { form = variant.0; pieces = variant.1.now }) variants.now) tokens.now) }
{
    match variants {
        [] => Ok(None),
        [variant, after @ ..] => {
            let first = reading_as(alloc, variant.0, variant.1, tokens, columns)?;
            let behind = without_unfit(after, signs, tokens);
            let later = best_fit(alloc, behind, signs, tokens, columns)?;
            Ok(preferred(first, later))
        }
    }
}

/// Whether a word or mark is told that isn't marked.
fn is_lacking(word: Option<Keyword>, signs: &Signs) -> bool
    ensures { result ≡ is_lacking signs.now word }
{
    match word {
        None => false,
        Some(keyword) => !signs.is_marked(keyword),
    }
}

/// The variants of a form from the first on that isn't passed over; none where a word or mark that all need isn't there.
#[inline(always)]
fn variants_left<'a>(
    variants: &'a [(Form, &'static [Piece])],
    word: Option<Keyword>,
    signs: &Signs,
    tokens: &[Tagged<'_>],
) -> &'a [(Form, &'static [Piece])]
    requires signs { signs.now ≡ table_of tokens.now }
    requires needed { list_all (needs word) (map (λ variant. record { form = variant.0; pieces = variant.1.now }) variants.now) ≡ true }
    ensures { FitAlike result.now variants.now (λ variant. record { form = variant.0; pieces = variant.1.now }) tokens.now }
{
    if is_lacking(word, signs) {
        return &[];
    }
    without_unfit(variants, signs, tokens)
}

/// The best fit of the lowest of these forms that fits.
pub fn lowest_fit<'a, 'b>(
    alloc: Global,
    forms: &[FormRow],
    signs: &Signs,
    tokens: &'a [Tagged<'b>],
    columns: &mut ColumnStack,
) -> Result<Option<Reading<'a, 'b>>, AllocError>
    requires signs { signs.now ≡ table_of tokens.now }
    requires needed { list_all (λ form. list_all (needs form.0) (map (λ variant. record { form = variant.0; pieces = variant.1.now }) form.1.now)) forms.now ≡ true }
    ensures { IfOk result (λ found. option_map found_in found ≡ lowest_fit (map (λ form. map (λ variant. record { form = variant.0; pieces = variant.1.now }) form.1.now) forms.now) tokens.now) }
{
    let mut rest = forms;
    while let [form, after @ ..] = rest {
        let variants = variants_left(form.1, form.0, signs, tokens);
        if !variants.is_empty() {
            if let Some(reading) = best_fit(alloc, variants, signs, tokens, columns)? {
                return Ok(Some(reading));
            }
        }
        rest = after;
    }
    Ok(None)
}

/// How words are read by the lower forms: by the lowest that fits, with the shortest letters over all of the
/// form's variants. None: no such form fits.
#[tactic(auto, unfolding(crate::specs::Forms::lower_forms))]
pub fn lower_reading<'a, 'b>(
    alloc: Global,
    signs: &Signs,
    tokens: &'a [Tagged<'b>],
    columns: &mut ColumnStack,
) -> Result<Option<Reading<'a, 'b>>, AllocError>
    requires { signs.now ≡ table_of tokens.now }
    ensures { IfOk result (λ found. option_map found_in found ≡ lowest_fit lower_forms tokens.now) }
{
    Ok(lowest_fit(alloc, &LOWER, signs, tokens, columns)?)
}

/// The same by the middle forms.
#[tactic(auto, unfolding(crate::specs::Forms::middle_forms))]
pub fn middle_reading<'a, 'b>(
    alloc: Global,
    signs: &Signs,
    tokens: &'a [Tagged<'b>],
    columns: &mut ColumnStack,
) -> Result<Option<Reading<'a, 'b>>, AllocError>
    requires { signs.now ≡ table_of tokens.now }
    ensures { IfOk result (λ found. option_map found_in found ≡ lowest_fit middle_forms tokens.now) }
{
    Ok(lowest_fit(alloc, &MIDDLE, signs, tokens, columns)?)
}

/// The same by the higher forms.
#[tactic(auto, unfolding(crate::specs::Forms::higher_forms))]
pub fn higher_reading<'a, 'b>(
    alloc: Global,
    signs: &Signs,
    tokens: &'a [Tagged<'b>],
    columns: &mut ColumnStack,
) -> Result<Option<Reading<'a, 'b>>, AllocError>
    requires { signs.now ≡ table_of tokens.now }
    ensures { IfOk result (λ found. option_map found_in found ≡ lowest_fit higher_forms tokens.now) }
{
    Ok(lowest_fit(alloc, &HIGHER, signs, tokens, columns)?)
}
