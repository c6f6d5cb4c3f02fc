//! What the texts of a source say that describe (*Writing with Inform*, 5.1 to 5.7), or why the source is refused for them.
ghost use Rattle.std.specs.Prelude.{◌≡◌, ◌≤◌, length, reverse, IfOk};
ghost use Rattle.i7_conditions.specs.Readings.{IsFoundAs};
ghost use Rattle.i7_conditions.specs.Scopes.{scope_of};
ghost use Rattle.i7_phrases.specs.Texts.{found_text, text_is_over};
ghost use Rattle.i7_rules.specs.Knowns.{known_of};
ghost use Rattle.i7_resolution.specs.SourceTexts.{IsTextsFound, Says, SaysIn};
ghost use Rattle.i7_resolution.specs.TextList.{text_lent, texts_lent};
ghost use Rattle.i7_resolution.specs.TextScans.{IsSoFar, kept_of, refused_or, so_far_told, state_of, with_found};

use crate::text_list::{TextAt, texts_in};
use i7_conditions::{Found, Scope};
use i7_phrases::{one_text_is_meant, text_of};
use i7_rules::Known;
use i7_sentences::{Sentence, lower_of, read_text};
use play_meaning::tree::Text;
use std::alloc::{AllocError, Global};
use world_meaning::{Fault, FaultCode};

/// A text that describes.
#[derive(Drop)]
pub struct SourceText {
    /// The line of its sentence.
    pub line: u32,
    pub text: Text,
}

/// What the texts of a source say that describe.
#[derive(Drop)]
pub enum TextsFound {
    /// What each says, in order.
    Says(Vec<SourceText>),
    /// The source is refused for them.
    Refused(Fault),
}

/// What is found of a source's first texts.
#[derive(Drop)]
struct SoFar {
    /// Those that are understood and within their limits.
    texts: Vec<SourceText>,
    /// The lowest line of one that isn't understood.
    unknown: Option<u32>,
    /// The lowest line of one that holds more than the language allows.
    too_many: Option<u32>,
}

/// What a text says where words stand for this.
pub fn found_in(alloc: Global, scope: &Scope<'_>, text: &[u8]) -> Result<Found<Text>, AllocError>
    requires few { length (scope_of scope.now).repeats ≤ 255 }
    ensures { IfOk result (λ found. IsFoundAs (SaysIn (scope_of scope.now) text.now) text_is_over (found_text found)) }
{
    match read_text(alloc, text)? {
        None => Ok(Found::Unread),
        Some(pieces) => {
            let found = text_of(alloc, scope, pieces.as_slice())?;
            Ok(found)
        }
    }
}

/// What a text says, around which no repeat is open.
fn found_of(alloc: Global, known: &Known<'_>, text: &TextAt<'_>) -> Result<Found<Text>, AllocError>
    ensures { IfOk result (λ found. IsFoundAs (Says (known_of known.now) (text_lent text.now).text) text_is_over (found_text found)) }
{
    let scope = Scope {
        names: known.names,
        repeats: &[],
    };
    let found = found_in(alloc, &scope, text.text.as_slice())?;
    Ok(found)
}

/// What is kept of a text.
fn kept_of(text: &TextAt<'_>, said: Text) -> SourceText
    ensures { result ≡ kept_of (text_lent text.now) said }
{
    SourceText {
        line: text.line,
        text: said,
    }
}

/// With a text that is found to say so.
fn with_found(so_far: SoFar, text: &TextAt<'_>, found: Found<Text>) -> Result<SoFar, AllocError>
    ensures { IfOk result (λ next. state_of next ≡ with_found (state_of so_far) (text_lent text.now) found) }
{
    let mut next = so_far;
    match found {
        Found::Read(said) => next.texts.push(kept_of(text, said))?,
        Found::TooMany => next.too_many = lower_of(next.too_many, Some(text.line)),
        Found::Unread => next.unknown = lower_of(next.unknown, Some(text.line)),
    }
    Ok(next)
}

/// What is found of all texts.
fn read_texts(alloc: Global, known: &Known<'_>, texts: &[TextAt<'_>]) -> Result<SoFar, AllocError>
    ensures { IfOk result (λ so_far. IsSoFar (known_of known.now) (reverse (texts_lent texts.now)) (state_of so_far)) }
{
    one_text_is_meant();
    let mut so_far = SoFar {
        texts: Vec::new(alloc),
        unknown: None,
        too_many: None,
    };
    let mut rest = texts;
    while let [text, behind @ ..] = rest {
        let found = found_of(alloc, known, text)?;
        so_far = with_found(so_far, text, found)?;
        rest = behind;
    }
    Ok(so_far)
}

/// Refused with the code at the line, if there is one, and else the next answer.
fn refused_or(code: FaultCode, line: Option<u32>, next: TextsFound) -> TextsFound
    ensures { result ≡ refused_or code line next }
{
    match line {
        None => next,
        Some(line) => TextsFound::Refused(Fault { code, line }),
    }
}

/// What is told of texts by what is found: the first refusal in order, or all of them.
fn told(so_far: SoFar) -> TextsFound
    ensures { result ≡ so_far_told so_far }
{
    let said = TextsFound::Says(so_far.texts);
    let limited = refused_or(FaultCode::TooMany, so_far.too_many, said);
    refused_or(FaultCode::UnknownName, so_far.unknown, limited)
}

/// What the texts of a source say that describe, or what refuses it for them, at the lowest line of a sentence whose text the
/// names allow no reading of (C7), and else of one whose text holds more than the language allows (C12).
pub fn texts_of(
    alloc: Global,
    known: &Known<'_>,
    sentences: &[Sentence],
) -> Result<TextsFound, AllocError>
    ensures { IfOk result (λ found. IsTextsFound (known_of known.now) sentences.now found) }
{
    let texts = texts_in(alloc, sentences)?;
    let so_far = read_texts(alloc, known, texts.as_slice())?;
    Ok(told(so_far))
}
