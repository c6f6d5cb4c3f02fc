//! The limits of a tale: objects, words of a name, bytes of a name or a text.
ghost use Rattle.std.specs.Prelude.{◌≡◌, IfOk, count_by};
ghost use Rattle.object_words.specs.Words.{is_blank};
ghost use Rattle.i7_kinds.specs.LongNames.{is_longer, longer_name};
ghost use Rattle.i7_kinds.specs.Tales.{is_too_long, name_too_long, object_too_many, text_too_long};
ghost use Rattle.i7_claims.specs.Views.{mentions_of};

use crate::descriptions::Description;
use i7_claims::{Claim, FIRST_OF_AUTHOR, Fact, Mention, lower};
use object_words::words_for;
use std::alloc::{AllocError, Global};
use world_meaning::MOST_BYTES;

/// The most objects of a story, the player and the directions counted.
const MOST_OBJECTS: usize = 1000;

/// The most words of an object.
const MOST_WORDS: usize = 32;

/// The line of the mention that is one object too many.
pub fn object_too_many(mentions: &[Mention<'_>]) -> Option<u32>
    ensures { result ≡ object_too_many (mentions_of mentions.now) }
{
    match mentions.get(MOST_OBJECTS - FIRST_OF_AUTHOR) {
        Some(mention) => Some(mention.line),
        None => None,
    }
}

/// How many blanks a name has.
fn blanks(name: &[u8]) -> usize
    ensures { result ≡ count_by is_blank name.now }
{
    name.iter().filter(|byte| **byte == b' ').count()
}

/// Whether a name has too many words or bytes. The words are made only where the blanks are so many that
/// they may be too many.
#[tactic(auto, using(crate::proofs::FewWords::few_blanks))]
fn is_too_long(alloc: Global, name: &[u8]) -> Result<bool, AllocError>
    ensures { IfOk result (λ long. long ≡ is_too_long name.now) }
{
    if name.len() > MOST_BYTES {
        return Ok(true);
    }
    if blanks(name) < MOST_WORDS {
        return Ok(false);
    }
    let words = words_for(alloc, FIRST_OF_AUTHOR, name)?;
    Ok(words.len() > MOST_WORDS)
}

/// The line of the first mention of a name that is too long.
pub fn name_too_long(alloc: Global, mentions: &[Mention<'_>]) -> Result<Option<u32>, AllocError>
    ensures { IfOk result (λ line. line ≡ name_too_long (mentions_of mentions.now)) }
{
    let mut rest = mentions;
    while let [mention, after @ ..] = rest {
        if is_too_long(alloc, mention.name.text.as_slice())? {
            return Ok(Some(mention.line));
        }
        rest = after;
    }
    Ok(None)
}

/// The line of the first description that is too long.
pub fn text_too_long(descriptions: &[Description<'_>]) -> Option<u32>
    ensures { result ≡ text_too_long descriptions.now }
{
    let mut rest = descriptions;
    while let [description, after @ ..] = rest {
        if description.text.as_slice().len() > MOST_BYTES {
            return Some(description.line);
        }
        rest = after;
    }
    None
}

/// Whether a name is told that has more bytes than this.
fn is_longer(most: usize, fact: &Fact) -> bool
    ensures { result ≡ is_longer most fact.now }
{
    match fact {
        Fact::Stands(naming) => naming.name.as_slice().len() > most,
        Fact::Rulebook(name) => name.as_slice().len() > most,
        _ => false,
    }
}

/// The lowest line of a name, of whatever it stands for, with more bytes than this.
pub fn longer_name(most: usize, claims: &[Claim]) -> Option<u32>
    ensures { result ≡ longer_name most claims.now }
{
    let mut found = None;
    let mut rest = claims;
    while let [claim, after @ ..] = rest {
        found = lower(is_longer(most, &claim.fact), claim.line, found);
        rest = after;
    }
    found
}
