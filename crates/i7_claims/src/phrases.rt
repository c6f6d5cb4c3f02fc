//! Phrases of one name: what is said by a property's name, perhaps behind `not` or an article, or by a kind's.
ghost use Rattle.std.specs.Prelude.{◌≡◌, ◌≤◌, if◌then◌else◌, IfOk, None, Some, length, nat_lt, option_copied};
ghost use Rattle.std.specs.List.{prefix_len, suffix_len};
ghost use Rattle.i7_claims.specs.NameScans.{IsShort, standing_at};
ghost use Rattle.i7_claims.specs.Phrases.{behind_word, denied_if, first_word, is_behind_and, is_denied, is_letter, is_name, is_phrase, denied, is_quality, kind_said, last_word, longest_phrase, name_in, phrase_said, plain_said, quality_in, said_of, without_article, without_blank};
ghost use Rattle.i7_claims.specs.declared.claim.Value.TheVariants.{Choice};

use crate::claim::{NamedValue, Quality, Standing, Value};
use crate::plurals::kind_named;
use crate::standings::{Known, standing_of};
use std::alloc::{AllocError, Global};
use world_meaning::{TextBytes, is_article, is_spelled};

/// How many bytes the first word has.
fn first_len(words: &[u8]) -> usize
    ensures value { result ≡ prefix_len is_letter words.now }
    ensures bound { result ≤ length words.now }
{
    words.iter().take_while(|byte| **byte != b' ').count()
}

pub fn first_word(words: &[u8]) -> &[u8]
    ensures { result.now ≡ first_word words.now }
{
    let (word, _) = words.split_at(first_len(words));
    word
}

/// How many bytes the last word has.
fn last_len(words: &[u8]) -> usize
    ensures value { result ≡ suffix_len is_letter words.now }
    ensures bound { result ≤ length words.now }
{
    words.iter().rev().take_while(|byte| **byte != b' ').count()
}

pub fn last_word(words: &[u8]) -> &[u8]
    ensures { result.now ≡ last_word words.now }
{
    let (_, word) = words.split_at(words.len() - last_len(words));
    word
}

pub fn without_blank(words: &[u8]) -> &[u8]
    ensures { result.now ≡ without_blank words.now }
{
    match words {
        [] => words,
        [_, after @ ..] => after,
    }
}

/// What stands behind the first word and its blank.
fn behind_word(words: &[u8]) -> &[u8]
    ensures { result.now ≡ behind_word words.now }
{
    let (_, behind) = words.split_at(first_len(words));
    without_blank(behind)
}

fn without_article(words: &[u8]) -> &[u8]
    ensures { result.now ≡ without_article words.now }
{
    if is_article(first_word(words)) {
        behind_word(words)
    } else {
        words
    }
}

fn quality(alloc: Global, property: &[u8], value: Value) -> Result<Quality, AllocError>
    ensures { IfOk result (λ quality. quality ≡ record { property = property.now; value = value }) }
{
    let property = TextBytes::copied(alloc, property)?;
    Ok(Quality { property, value })
}

/// What a value's name says, but for where `and` joins names.
fn choice(alloc: Global, is_joined: bool, value: &NamedValue) -> Result<Option<Quality>, AllocError>
    ensures { IfOk result (λ quality. quality ≡ (if is_joined then None else Some (record { property = value.now.kind; value = Choice value.now.place }))) }
{
    if is_joined {
        return Ok(None);
    }
    Ok(Some(quality(alloc, value.kind.as_slice(), Value::Choice(value.place))?))
}

/// What a name says: a property's first that it is true, its second that it isn't; and a value's that its kind of value has it.
fn quality_in(
    alloc: Global,
    is_joined: bool,
    standing: Option<&Standing>,
    name: &[u8],
) -> Result<Option<Quality>, AllocError>
    ensures { IfOk result (λ quality. quality ≡ quality_in is_joined (option_copied standing.entry) name.now) }
{
    match standing {
        Some(Standing::First(_)) => Ok(Some(quality(alloc, name, Value::Truth(true))?)),
        Some(Standing::Second(first)) => {
            Ok(Some(quality(alloc, first.as_slice(), Value::Truth(false))?))
        }
        Some(Standing::Value(value)) => Ok(choice(alloc, is_joined, value)?),
        _ => Ok(None),
    }
}

/// What is said behind `not`.
fn denied(value: Value) -> Value
    ensures { result ≡ denied value }
{
    match value {
        Value::Truth(truth) => Value::Truth(!truth),
        Value::Amount(number) => Value::Amount(number),
        Value::Choice(_) | Value::Never => Value::Never,
    }
}

/// Behind `not` the other is said.
fn said_of(is_denied: bool, quality: Quality) -> Quality
    ensures { result ≡ said_of is_denied quality }
{
    if is_denied {
        Quality {
            property: quality.property,
            value: denied(quality.value),
        }
    } else {
        quality
    }
}

fn denied_if(is_denied: bool, quality: Option<Quality>) -> Option<Quality>
    ensures { result ≡ denied_if is_denied quality }
{
    match quality {
        None => None,
        Some(quality) => Some(said_of(is_denied, quality)),
    }
}

fn is_denied(phrase: &[u8]) -> bool
    ensures { result ≡ is_denied phrase.now }
{
    is_spelled(first_word(without_article(phrase)), b"not")
}

/// The name in a phrase: it may stand behind `not`, and each of these behind an article.
fn name_in(phrase: &[u8]) -> &[u8]
    ensures { result.now ≡ name_in phrase.now }
{
    if is_denied(phrase) {
        without_article(behind_word(without_article(phrase)))
    } else {
        without_article(phrase)
    }
}

fn plain_said(
    alloc: Global,
    known: &Known<'_>,
    is_joined: bool,
    phrase: &[u8],
) -> Result<Option<Quality>, AllocError>
    ensures { IfOk result (λ quality. quality ≡ plain_said (standing_at known.now) is_joined phrase.now) }
{
    let name = name_in(phrase);
    let quality = quality_in(alloc, is_joined, standing_of(known, name), name)?;
    Ok(denied_if(is_denied(phrase), quality))
}

/// Where `and` joins names, it stands before each.
fn is_behind_and(phrase: &[u8]) -> bool
    ensures { result ≡ is_behind_and phrase.now }
{
    is_spelled(first_word(phrase), b"and")
}

/// What a phrase of one name says.
#[tactic(auto, unfolding(crate::specs::Phrases::phrase_said))]
pub fn phrase_said(
    alloc: Global,
    known: &Known<'_>,
    is_joined: bool,
    phrase: &[u8],
) -> Result<Option<Quality>, AllocError>
    ensures { IfOk result (λ quality. quality ≡ phrase_said (standing_at known.now) is_joined phrase.now) }
{
    if !is_joined {
        return plain_said(alloc, known, false, phrase);
    }
    if is_behind_and(phrase) {
        plain_said(alloc, known, true, behind_word(phrase))
    } else {
        Ok(None)
    }
}

fn is_quality(is_joined: bool, standing: Option<&Standing>) -> bool
    ensures { result ≡ is_quality is_joined (option_copied standing.entry) }
{
    match standing {
        Some(Standing::First(_)) => true,
        Some(Standing::Second(_)) => true,
        Some(Standing::Value(_)) => !is_joined,
        _ => false,
    }
}

fn is_name(known: &Known<'_>, is_joined: bool, phrase: &[u8]) -> bool
    ensures { result ≡ is_name (standing_at known.now) is_joined phrase.now }
{
    is_quality(is_joined, standing_of(known, name_in(phrase)))
}

/// Whether a phrase of one name says something.
#[tactic(auto, unfolding(crate::specs::Phrases::is_phrase))]
pub fn is_phrase(known: &Known<'_>, is_joined: bool, phrase: &[u8]) -> bool
    ensures { result ≡ is_phrase (standing_at known.now) is_joined phrase.now }
{
    if is_joined {
        is_behind_and(phrase) && is_name(known, true, behind_word(phrase))
    } else {
        is_name(known, false, phrase)
    }
}

/// Whether a phrase is longer than any of a name with so many bytes.
pub fn is_too_long(most: usize, phrase: &[u8]) -> bool
    ensures { result ≡ nat_lt (longest_phrase most) (length phrase.now) }
{
    phrase.len() > 20 && phrase.len() - 20 > most
}

/// The kind that words name, behind an article; none where `and` joins names.
#[tactic(auto, unfolding(crate::specs::Phrases::kind_said))]
pub fn kind_said(
    alloc: Global,
    known: &Known<'_>,
    most: usize,
    is_joined: bool,
    words: &[u8],
) -> Result<Option<TextBytes>, AllocError>
    requires short { IsShort most (standing_at known.now) }
    ensures { IfOk result (λ kind. kind ≡ kind_said (standing_at known.now) is_joined words.now) }
{
    if is_too_long(most, words) {
        return Ok(None);
    }
    if is_joined {
        return Ok(None);
    }
    kind_named(alloc, known, without_article(words))
}
