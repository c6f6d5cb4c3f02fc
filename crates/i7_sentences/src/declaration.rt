//! What the forms say that declare a rulebook, a scene, a kind, a property or a variable.
ghost use Rattle.std.specs.Prelude.{◌≡◌, map, IfOk};
ghost use Rattle.i7_sentences.specs.Assertions.{can_be, can_be_either, either_of, kind_of_kind, number_property, rulebook, scene, usually, usually_number, variable};

use crate::Assertion;
use crate::letter::number_in;
use crate::name::{joined, name_of};
use crate::tagged::Tagged;
use std::alloc::{AllocError, Global};

/// A rulebook of the author's.
pub(crate) fn rulebook(
    alloc: Global,
    letters: &[&[Tagged<'_>]],
) -> Result<Option<Assertion>, AllocError>
    ensures { IfOk result (λ said. said ≡ rulebook (map (λ letter. letter.now) letters.now)) }
{
    match letters {
        [name] => Ok(Some(Assertion::Rulebook(name_of(alloc, name)?))),
        _ => Ok(None),
    }
}

/// A scene.
pub(crate) fn scene(
    alloc: Global,
    is_recurring: bool,
    letters: &[&[Tagged<'_>]],
) -> Result<Option<Assertion>, AllocError>
    ensures { IfOk result (λ said. said ≡ scene is_recurring (map (λ letter. letter.now) letters.now)) }
{
    match letters {
        [name] => Ok(Some(Assertion::Scene {
            name: name_of(alloc, name)?,
            is_recurring,
        })),
        _ => Ok(None),
    }
}

/// A kind of the author's.
pub(crate) fn kind_of_kind(
    alloc: Global,
    letters: &[&[Tagged<'_>]],
) -> Result<Option<Assertion>, AllocError>
    ensures { IfOk result (λ said. said ≡ kind_of_kind (map (λ letter. letter.now) letters.now)) }
{
    match letters {
        [kind, parent] => Ok(Some(Assertion::KindOfKind {
            kind: name_of(alloc, kind)?,
            parent: name_of(alloc, parent)?,
        })),
        _ => Ok(None),
    }
}

/// An either-or property of a kind, by both its names.
fn either_of(
    alloc: Global,
    kind: &[Tagged<'_>],
    first: &[Tagged<'_>],
    second: &[Tagged<'_>],
) -> Result<Option<Assertion>, AllocError>
    ensures { IfOk result (λ said. said ≡ either_of kind.now first.now second.now) }
{
    let kind = name_of(alloc, kind)?;
    let first = name_of(alloc, first)?;
    let second = Some(name_of(alloc, second)?);
    Ok(Some(Assertion::EitherOr {
        kind,
        first,
        second,
    }))
}

/// An either-or property with one name.
pub(crate) fn can_be(
    alloc: Global,
    letters: &[&[Tagged<'_>]],
) -> Result<Option<Assertion>, AllocError>
    ensures { IfOk result (λ said. said ≡ can_be (map (λ letter. letter.now) letters.now)) }
{
    match letters {
        [kind, first] => Ok(Some(Assertion::EitherOr {
            kind: name_of(alloc, kind)?,
            first: name_of(alloc, first)?,
            second: None,
        })),
        _ => Ok(None),
    }
}

/// An either-or property with two names.
pub(crate) fn can_be_either(
    alloc: Global,
    letters: &[&[Tagged<'_>]],
) -> Result<Option<Assertion>, AllocError>
    ensures { IfOk result (λ said. said ≡ can_be_either (map (λ letter. letter.now) letters.now)) }
{
    match letters {
        [kind, first, second] => Ok(either_of(alloc, kind, first, second)?),
        _ => Ok(None),
    }
}

/// A number property.
pub(crate) fn number_property(
    alloc: Global,
    letters: &[&[Tagged<'_>]],
) -> Result<Option<Assertion>, AllocError>
    ensures { IfOk result (λ said. said ≡ number_property (map (λ letter. letter.now) letters.now)) }
{
    match letters {
        [kind, property] => Ok(Some(Assertion::NumberProperty {
            kind: name_of(alloc, kind)?,
            property: name_of(alloc, property)?,
        })),
        _ => Ok(None),
    }
}

/// What objects of a kind usually are.
pub(crate) fn usually(
    alloc: Global,
    letters: &[&[Tagged<'_>]],
) -> Result<Option<Assertion>, AllocError>
    ensures { IfOk result (λ said. said ≡ usually (map (λ letter. letter.now) letters.now)) }
{
    match letters {
        [kind, adjectives] => Ok(Some(Assertion::Usually {
            kind: name_of(alloc, kind)?,
            adjectives: joined(alloc, adjectives)?,
        })),
        _ => Ok(None),
    }
}

/// What a number property of a kind usually is.
pub(crate) fn usually_number(
    alloc: Global,
    letters: &[&[Tagged<'_>]],
) -> Result<Option<Assertion>, AllocError>
    ensures { IfOk result (λ said. said ≡ usually_number (map (λ letter. letter.now) letters.now)) }
{
    match letters {
        [property, kind, number] => Ok(Some(Assertion::UsuallyNumber {
            property: name_of(alloc, property)?,
            kind: name_of(alloc, kind)?,
            number: number_in(number),
        })),
        _ => Ok(None),
    }
}

/// A variable.
pub(crate) fn variable(
    alloc: Global,
    letters: &[&[Tagged<'_>]],
) -> Result<Option<Assertion>, AllocError>
    ensures { IfOk result (λ said. said ≡ variable (map (λ letter. letter.now) letters.now)) }
{
    match letters {
        [name] => Ok(Some(Assertion::Variable(name_of(alloc, name)?))),
        _ => Ok(None),
    }
}
