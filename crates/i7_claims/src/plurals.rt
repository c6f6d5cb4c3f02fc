//! Kinds by their names and by their plurals.
ghost use Rattle.std.specs.Prelude.{◌≡◌, IfOk, Some, find, option_copied, option_map};
ghost use Rattle.i7_claims.specs.NameScans.{standing_at};
ghost use Rattle.i7_claims.specs.Plurals.{irregular_of, is_kind_in, is_kind_of_plural, kind_named, singulars};

use crate::claim::Standing;
use crate::standings::{Known, standing_of};
use i7_sentences::{front_of, plural_of, with_end};
use std::alloc::{AllocError, Global};
use world_meaning::{TextBytes, is_spelled};

fn is_kind_in(standing: Option<&Standing>) -> bool
    ensures { result ≡ is_kind_in (option_copied standing.entry) }
{
    match standing {
        None => false,
        Some(standing) => matches!(standing, Standing::Kind),
    }
}

fn is_kind(known: &Known<'_>, name: &[u8]) -> bool
    ensures { result ≡ is_kind_in (standing_at known.now name.now) }
{
    is_kind_in(standing_of(known, name))
}

/// `men`, `women` and `people` stand beside the regular plurals.
fn irregular_of(words: &[u8]) -> Option<&'static [u8]>
    ensures { option_map (λ kind. kind.now) result ≡ irregular_of words.now }
{
    if is_spelled(words, b"men") {
        Some(b"man")
    } else if is_spelled(words, b"women") {
        Some(b"woman")
    } else if is_spelled(words, b"people") {
        Some(b"person")
    } else {
        None
    }
}

/// Whether a name is a kind's and these words are its plural.
fn is_kind_of_plural(
    alloc: Global,
    known: &Known<'_>,
    words: &[u8],
    name: &[u8],
) -> Result<bool, AllocError>
    ensures { IfOk result (λ is. is ≡ is_kind_of_plural (standing_at known.now) words.now name.now) }
{
    if !is_kind(known, name) {
        return Ok(false);
    }
    let plural = plural_of(alloc, name)?;
    Ok(plural.as_slice() == words)
}

fn found(alloc: Global, kind: &[u8]) -> Result<Option<TextBytes>, AllocError>
    ensures { IfOk result (λ found. found ≡ Some kind.now) }
{
    Ok(Some(TextBytes::copied(alloc, kind)?))
}

/// The kind whose regular plural words are.
fn kind_of_plural(
    alloc: Global,
    known: &Known<'_>,
    words: &[u8],
) -> Result<Option<TextBytes>, AllocError>
    ensures { IfOk result (λ kind. kind ≡ find (is_kind_of_plural (standing_at known.now) words.now) (singulars words.now)) }
{
    let name = front_of(1, words);
    if is_kind_of_plural(alloc, known, words, name)? {
        return found(alloc, name);
    }
    let name = front_of(2, words);
    if is_kind_of_plural(alloc, known, words, name)? {
        return found(alloc, name);
    }
    let name = with_end(alloc, front_of(3, words), b"y")?;
    if is_kind_of_plural(alloc, known, words, name.as_slice())? {
        return found(alloc, name.as_slice());
    }
    Ok(None)
}

/// The kind that words name, or whose plural they are.
pub fn kind_named(
    alloc: Global,
    known: &Known<'_>,
    words: &[u8],
) -> Result<Option<TextBytes>, AllocError>
    ensures { IfOk result (λ kind. kind ≡ kind_named (standing_at known.now) words.now) }
{
    if is_kind(known, words) {
        return found(alloc, words);
    }
    match irregular_of(words) {
        Some(kind) => found(alloc, kind),
        None => kind_of_plural(alloc, known, words),
    }
}
