//! The kinds of value that a source declares, which a first look at its sentences finds.
ghost use Rattle.std.specs.Prelude.{◌≡◌, false, is_some, map, option_map, IfOk, None, if◌then◌else◌};
ghost use Rattle.i7_sentences.specs.Keywords.{is_sign};
ghost use Rattle.i7_sentences.specs.KindsOfValue.{declared_by, declared_in, ends_in_value, first_name, is_read_before, is_value_itself, kinds_of_value, opens_with_value, speaks_of_value};
ghost use Rattle.i7_sentences.specs.Matching.{best_fit, first_fit};
ghost use Rattle.i7_sentences.specs.Pieces.{piece_of, pieces_of};
ghost use Rattle.i7_sentences.specs.declared.keyword.Keyword.TheVariants.{Value};
ghost use Rattle.i7_sentences.specs.declared.part.PartKind.TheVariants.{Sentence};
ghost use Rattle.i7_sentences.specs.declared.value_form.TheConstants.{KIND_OF_VALUE};

use crate::column_stack::ColumnStack;
use crate::keyword::keyword_of;
use crate::matcher::fit;
use crate::reading::{lower_reading, middle_reading};
use crate::signs::signs_of;
use crate::tagged::{Tagged, with_tags};
use crate::value_form::{KIND_OF_VALUE, VALUE_ITSELF};
use crate::word_list::named_in;
use crate::{Form, Keyword, Part, PartKind, Piece, WordList};
use i7_lexer::PackedToken;
use std::alloc::{AllocError, Global};

/// What says of value itself that it is a kind, at one place of memory.
static ITSELF: [(Form, &[Piece]); 2] = VALUE_ITSELF;

/// Whether a token is the word `value`.
#[tactic(auto, unfolding(crate::specs::Keywords::is_sign))]
fn is_value(token: &PackedToken) -> bool
    ensures { result ≡ is_sign Value token.now }
{
    match keyword_of(token) {
        None => false,
        Some(found) => found == Keyword::Value,
    }
}

/// Whether the word `value` is the last of these tokens.
fn ends_in_value(tokens: &[PackedToken]) -> bool
    ensures { result ≡ ends_in_value tokens.now }
{
    let (_, end) = tokens.split_at(tokens.len().saturating_sub(1));
    end.iter().any(|token| is_value(token))
}

/// Whether the word `value` is the first or the second of these tokens.
fn opens_with_value(tokens: &[PackedToken]) -> bool
    ensures { result ≡ opens_with_value tokens.now }
{
    match tokens {
        [] => false,
        [first] => is_value(first),
        [first, second, ..] => is_value(first) || is_value(second),
    }
}

/// What a sentence tells of kinds of value.
#[derive(Drop)]
struct Told {
    /// Whether it says of value itself that it is a kind.
    is_itself: bool,
    declared: Option<WordList>,
}

/// Whether the words say of value itself that it is a kind.
fn is_itself(
    alloc: Global,
    variants: &[(Form, &'static [Piece])],
    tokens: &[Tagged<'_>],
    columns: &mut ColumnStack,
) -> Result<bool, AllocError>
    ensures { IfOk result (λ is. is ≡ is_some (best_fit (map (λ variant. record { form = variant.0; pieces = variant.1.now }) variants.now) tokens.now)) }
{
    let mut rest = variants;
    while let [variant, after @ ..] = rest {
        if fit(alloc, variant.1, tokens, columns)?.is_some() {
            return Ok(true);
        }
        rest = after;
    }
    Ok(false)
}

/// The first of these names, if there are letters.
fn first_name(
    alloc: Global,
    letters: Option<Vec<&[Tagged<'_>]>>,
) -> Result<Option<WordList>, AllocError>
    ensures { IfOk result (λ name. name ≡ first_name (option_map (λ letters. map (λ letter. letter.now) letters.items) letters.entry)) }
{
    match letters {
        None => Ok(None),
        Some(letters) => match letters.as_slice() {
            [] => Ok(None),
            [name, ..] => Ok(Some(named_in(alloc, name)?)),
        },
    }
}

/// Whether a form reads the words that is tried before those that speak of kinds of value.
fn is_read_before(
    alloc: Global,
    tokens: &[Tagged<'_>],
    columns: &mut ColumnStack,
) -> Result<bool, AllocError>
    ensures { IfOk result (λ is. is ≡ is_read_before tokens.now) }
{
    let signs = signs_of(tokens);
    if lower_reading(alloc, &signs, tokens, columns)?.is_some() {
        return Ok(true);
    }
    Ok(middle_reading(alloc, &signs, tokens, columns)?.is_some())
}

/// The kind of value that the words declare, if no form reads them that is tried before.
fn declared_name(
    alloc: Global,
    tokens: &[Tagged<'_>],
    columns: &mut ColumnStack,
) -> Result<Option<WordList>, AllocError>
    ensures { IfOk result (λ name. name ≡ (if is_read_before tokens.now then None else first_name (first_fit KIND_OF_VALUE.now tokens.now))) }
{
    if is_read_before(alloc, tokens, columns)? {
        return Ok(None);
    }
    Ok(first_name(alloc, fit(alloc, KIND_OF_VALUE, tokens, columns)?)?)
}

/// What a sentence tells of kinds of value.
#[tactic(auto, unfolding(crate::specs::KindsOfValue::value_itself))]
fn told_in(
    alloc: Global,
    tokens: &[PackedToken],
    columns: &mut ColumnStack,
) -> Result<Told, AllocError>
    ensures itself { IfOk result (λ told. told.is_itself ≡ speaks_of_value Sentence tokens.now) }
    ensures declared { IfOk result (λ told. told.declared ≡ declared_by Sentence tokens.now) }
{
    let words = with_tags(alloc, tokens)?;
    Ok(Told {
        is_itself: is_itself(alloc, &ITSELF, words.as_slice(), columns)?,
        declared: declared_name(alloc, words.as_slice(), columns)?,
    })
}

/// A sentence or another part that tells nothing of kinds of value.
fn nothing() -> Told
    ensures { result ≡ record { is_itself = false; declared = None } }
{
    Told {
        is_itself: false,
        declared: None,
    }
}

/// What a part tells of kinds of value.
#[tactic(auto, using(crate::proofs::ValueKinds::value_steps))]
fn told_by(alloc: Global, part: &Part<'_>, columns: &mut ColumnStack) -> Result<Told, AllocError>
    ensures itself { IfOk result (λ told. told.is_itself ≡ is_value_itself (piece_of part.now)) }
    ensures declared { IfOk result (λ told. told.declared ≡ declared_in (piece_of part.now)) }
{
    match part.kind {
        PartKind::Title | PartKind::Heading => Ok(nothing()),
        PartKind::Sentence => {
            if ends_in_value(part.tokens) || opens_with_value(part.tokens) {
                return Ok(told_in(alloc, part.tokens, columns)?);
            }
            Ok(nothing())
        }
    }
}

/// The kinds of value that the parts declare.
#[tactic(auto, unfolding(crate::specs::KindsOfValue::kinds_of_value))]
pub fn kinds_of_value(
    alloc: Global,
    parts: &[Part<'_>],
    columns: &mut ColumnStack,
) -> Result<Vec<WordList>, AllocError>
    ensures { IfOk result (λ kinds. kinds.items ≡ kinds_of_value (pieces_of parts.now)) }
{
    let mut kinds = Vec::new(alloc);
    let mut rest = parts;
    while let [part, after @ ..] = rest {
        let found = told_by(alloc, part, columns)?;
        if found.is_itself {
            return Ok(Vec::new(alloc));
        }
        if let Some(kind) = found.declared {
            kinds.push(kind)?;
        }
        rest = after;
    }
    Ok(kinds)
}
