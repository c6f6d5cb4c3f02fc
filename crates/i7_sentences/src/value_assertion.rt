//! What the forms say that speak of kinds of value.
ghost use Rattle.std.specs.Prelude.{◌≡◌, map, IfOk, OnOk};
ghost use Rattle.i7_sentences.specs.Names.{name_of};
ghost use Rattle.i7_sentences.specs.ValueAssertions.{has_value, kind_of_plural, kind_of_value, name_with, own_value, spaced, usual_value, usually_value, value_of, values, with_space};

use crate::name::name_of;
use crate::names::names_of;
use crate::tagged::Tagged;
use crate::value_names::is_plural;
use crate::word_list::named_in;
use crate::{Assertion, Name, NameArticle, WordList};
use std::alloc::{AllocError, Global};
use world_meaning::TextBytes;

/// Adds a word behind a space, or alone as the first.
fn add_word(bytes: &mut Vec<u8>, word: &[u8]) -> Result<(), AllocError>
    ensures { OnOk result (bytes.new.items ≡ with_space bytes.old.items word.now) }
{
    if !bytes.is_empty() {
        bytes.push(b' ')?;
    }
    bytes.extend_from_slice(word)?;
    Ok(())
}

/// The words, parted by one space.
fn spaced(alloc: Global, words: &[TextBytes]) -> Result<TextBytes, AllocError>
    ensures { IfOk result (λ text. text ≡ spaced words.now) }
{
    let mut bytes = Vec::new(alloc);
    let mut rest = words;
    while let [word, after @ ..] = rest {
        add_word(&mut bytes, word.as_slice())?;
        rest = after;
    }
    Ok(TextBytes::new(bytes))
}

/// The name of these words, without an article.
fn name_with(alloc: Global, words: &WordList) -> Result<Name, AllocError>
    ensures { IfOk result (λ name. name ≡ name_with words.now) }
{
    Ok(Name {
        text: spaced(alloc, words.as_slice())?,
        article: NameArticle::None,
    })
}

/// The name of the first of the kinds whose plural the words are.
fn kind_of_plural(
    alloc: Global,
    kinds: &[WordList],
    words: &[Tagged<'_>],
) -> Result<Name, AllocError>
    ensures { IfOk result (λ kind. kind ≡ name_with (kind_of_plural kinds.now words.now)) }
{
    let mut rest = kinds;
    while let [kind, after @ ..] = rest {
        if is_plural(alloc, words, kind)? {
            return Ok(name_with(alloc, kind)?);
        }
        rest = after;
    }
    Ok(name_with(alloc, &named_in(alloc, words)?)?)
}

/// A kind of value of the author's.
pub(crate) fn kind_of_value(
    alloc: Global,
    letters: &[&[Tagged<'_>]],
) -> Result<Option<Assertion>, AllocError>
    ensures { IfOk result (λ said. said ≡ kind_of_value (map (λ letter. letter.now) letters.now)) }
{
    match letters {
        [name] => Ok(Some(Assertion::ValueKind(name_of(alloc, name)?))),
        _ => Ok(None),
    }
}

/// The values of a kind, which is one of these.
pub(crate) fn values(
    alloc: Global,
    kinds: &[WordList],
    letters: &[&[Tagged<'_>]],
) -> Result<Option<Assertion>, AllocError>
    ensures { IfOk result (λ said. said ≡ values kinds.now (map (λ letter. letter.now) letters.now)) }
{
    match letters {
        [plural, names] => Ok(Some(Assertion::Values {
            kind: kind_of_plural(alloc, kinds, plural)?,
            values: names_of(alloc, names)?,
        })),
        _ => Ok(None),
    }
}

/// A kind of objects has a value of a kind of value.
pub(crate) fn has_value(
    alloc: Global,
    letters: &[&[Tagged<'_>]],
) -> Result<Option<Assertion>, AllocError>
    ensures { IfOk result (λ said. said ≡ has_value (map (λ letter. letter.now) letters.now)) }
{
    match letters {
        [kind, property] => Ok(Some(Assertion::HasValue {
            kind: name_of(alloc, kind)?,
            property: name_of(alloc, property)?,
        })),
        _ => Ok(None),
    }
}

/// The value of a property that objects of a kind usually have.
fn usual_value(
    alloc: Global,
    property: &[Tagged<'_>],
    kind: &[Tagged<'_>],
    value: &[Tagged<'_>],
) -> Result<Option<Assertion>, AllocError>
    ensures { IfOk result (λ said. said ≡ usual_value property.now kind.now value.now) }
{
    let property = name_of(alloc, property)?;
    let kind = name_of(alloc, kind)?;
    let value = name_of(alloc, value)?;
    Ok(Some(Assertion::UsuallyValue {
        property,
        kind,
        value,
    }))
}

/// The value of a property that an object has.
fn own_value(
    alloc: Global,
    property: &[Tagged<'_>],
    object: &[Tagged<'_>],
    value: &[Tagged<'_>],
) -> Result<Option<Assertion>, AllocError>
    ensures { IfOk result (λ said. said ≡ own_value property.now object.now value.now) }
{
    let property = name_of(alloc, property)?;
    let object = name_of(alloc, object)?;
    let value = name_of(alloc, value)?;
    Ok(Some(Assertion::ValueOf {
        property,
        object,
        value,
    }))
}

/// What value objects of a kind usually have.
pub(crate) fn usually_value(
    alloc: Global,
    letters: &[&[Tagged<'_>]],
) -> Result<Option<Assertion>, AllocError>
    ensures { IfOk result (λ said. said ≡ usually_value (map (λ letter. letter.now) letters.now)) }
{
    match letters {
        [property, kind, value] => Ok(usual_value(alloc, property, kind, value)?),
        _ => Ok(None),
    }
}

/// What value an object has.
pub(crate) fn value_of(
    alloc: Global,
    letters: &[&[Tagged<'_>]],
) -> Result<Option<Assertion>, AllocError>
    ensures { IfOk result (λ said. said ≡ value_of (map (λ letter. letter.now) letters.now)) }
{
    match letters {
        [property, object, value] => Ok(own_value(alloc, property, object, value)?),
        _ => Ok(None),
    }
}
