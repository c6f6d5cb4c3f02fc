//! The plurals of kinds, by the kinds' numbers.
ghost use Rattle.std.specs.Prelude.{◌≡◌, OnOk, fold};
ghost use Rattle.i7_names.specs.Known.{known_of, with_plural};
ghost use Rattle.i7_names.specs.PluralNames.{with_irregular, with_plurals, with_regular};

use crate::number::small_number;
use i7_conditions::Names;
use i7_sentences::plural_of;
use object_words::Strings;
use std::alloc::{AllocError, Global};
use world_meaning::KindNo;

/// Adds the plural of a kind, if the kind is there.
fn add_plural(
    alloc: Global,
    names: &mut Names,
    plural: &[u8],
    kind: Option<u8>,
) -> Result<(), AllocError>
    ensures { OnOk result (known_of names.new ≡ with_plural (known_of names.old) plural.now kind) }
{
    match kind {
        None => Ok(()),
        Some(kind) => names.add_plural(alloc, plural, KindNo::new(kind)),
    }
}

/// Adds the regular plural of a kind, if it has so many letters more than the name.
fn add_regular(
    alloc: Global,
    more: usize,
    kinds: &Strings,
    names: &mut Names,
    kind: &[u8],
) -> Result<(), AllocError>
    ensures { OnOk result (known_of names.new ≡ with_regular more kinds.now (known_of names.old) kind.now) }
{
    let plural = plural_of(alloc, kind)?;
    if plural.len().saturating_sub(kind.len()) == more {
        add_plural(alloc, names, plural.as_slice(), small_number(kinds, kind))
    } else {
        Ok(())
    }
}

/// Adds the regular plurals that have so many letters more than the names.
fn add_all_regular(
    alloc: Global,
    more: usize,
    kinds: &Strings,
    names: &mut Names,
) -> Result<(), AllocError>
    ensures { OnOk result (known_of names.new ≡ fold (with_regular more kinds.now) (known_of names.old) kinds.now) }
{
    let mut rest = kinds.as_slice();
    while let [kind, after @ ..] = rest {
        add_regular(alloc, more, kinds, names, kind.as_slice())?;
        rest = after;
    }
    Ok(())
}

/// Adds `men`, `women` and `people`.
fn add_irregular(alloc: Global, kinds: &Strings, names: &mut Names) -> Result<(), AllocError>
    ensures { OnOk result (known_of names.new ≡ with_irregular kinds.now (known_of names.old)) }
{
    add_plural(alloc, names, b"men", small_number(kinds, b"man"))?;
    add_plural(alloc, names, b"women", small_number(kinds, b"woman"))?;
    add_plural(alloc, names, b"people", small_number(kinds, b"person"))
}

/// Adds the plurals of kinds of these names. Of two kinds with one plural, as `boxe` and `box`, it is that of the longer
/// name, as where a sentence says what is usual of a kind.
#[tactic(auto, unfolding(crate::specs::PluralNames::with_plurals))]
pub fn add_plurals(alloc: Global, kinds: &Strings, names: &mut Names) -> Result<(), AllocError>
    ensures { OnOk result (known_of names.new ≡ with_plurals kinds.now (known_of names.old)) }
{
    add_irregular(alloc, kinds, names)?;
    add_all_regular(alloc, 1, kinds, names)?;
    add_all_regular(alloc, 2, kinds, names)
}
