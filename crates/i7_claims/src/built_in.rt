//! What names stand for before any sentence.
ghost use Rattle.std.specs.Prelude.{◌≡◌, ◌++◌, ◌∷◌, [], flat_map, fold, map, option_map, IfOk, OnOk};
ghost use Rattle.object_words.specs.Mentions.{mention};
ghost use Rattle.i7_claims.specs.Standings.{built_in_books, built_in_namings, naming, namings_from, namings_in_row, property_namings};
ghost use Rattle.i7_claims.specs.declared.claim.Standing.TheVariants as stands;

use crate::claim::{Naming, Standing};
use crate::names::built_in_keys;
use crate::reserved_names::{BOOKS, RESERVED};
use object_words::Strings;
use std::alloc::{AllocError, Global};
use world_meaning::{KINDS, KindRow, PROPERTIES, PropertyRow, TextBytes};

/// Adds that a name stands for something.
fn add(
    alloc: Global,
    namings: &mut Vec<Naming>,
    name: &[u8],
    standing: Standing,
) -> Result<(), AllocError>
    ensures { OnOk result (namings.new.items ≡ namings.old.items ++ naming standing name.now ∷ []) }
{
    let name = TextBytes::copied(alloc, name)?;
    namings.push(Naming { name, standing })?;
    Ok(())
}

/// Adds the words of the language.
fn add_reserved(alloc: Global, namings: &mut Vec<Naming>, words: &[&[u8]]) -> Result<(), AllocError>
    ensures { OnOk result (namings.new.items ≡ namings.old.items ++ map (naming stands.Reserved) (map (λ word. word.now) words.now)) }
{
    let mut rest = words;
    while let [word, after @ ..] = rest {
        add(alloc, namings, word, Standing::Reserved)?;
        rest = after;
    }
    Ok(())
}

/// Adds the kinds.
fn add_kinds(
    alloc: Global,
    namings: &mut Vec<Naming>,
    kinds: &[KindRow<'_>],
) -> Result<(), AllocError>
    ensures { OnOk result (namings.new.items ≡ namings.old.items ++ map (naming stands.Kind) (map (λ kind. kind.0.now) kinds.now)) }
{
    let mut rest = kinds;
    while let [kind, after @ ..] = rest {
        add(alloc, namings, kind.0, Standing::Kind)?;
        rest = after;
    }
    Ok(())
}

/// Adds the names of a property.
fn add_property(
    alloc: Global,
    namings: &mut Vec<Naming>,
    first: &[u8],
    second: Option<&[u8]>,
) -> Result<(), AllocError>
    ensures { OnOk result (namings.new.items ≡ namings.old.items ++ property_namings first.now (option_map (λ name. name.now) second.entry)) }
{
    match second {
        None => add(alloc, namings, first, Standing::First(None)),
        Some(second) => {
            let known = Standing::First(Some(TextBytes::copied(alloc, second)?));
            add(alloc, namings, first, known)?;
            let known = Standing::Second(TextBytes::copied(alloc, first)?);
            add(alloc, namings, second, known)
        }
    }
}

/// Adds the properties.
fn add_properties(
    alloc: Global,
    namings: &mut Vec<Naming>,
    properties: &[PropertyRow<'_>],
) -> Result<(), AllocError>
    ensures { OnOk result (namings.new.items ≡ namings.old.items ++ flat_map namings_in_row (map (λ property. (property.0.now, option_map (λ second. second.now) property.1)) properties.now)) }
{
    let mut rest = properties;
    while let [property, after @ ..] = rest {
        add_property(alloc, namings, property.0, property.1)?;
        rest = after;
    }
    Ok(())
}

/// Adds the objects.
fn add_objects(alloc: Global, namings: &mut Vec<Naming>, keys: &[Vec<u8>]) -> Result<(), AllocError>
    ensures { OnOk result (namings.new.items ≡ namings.old.items ++ map (naming stands.Object) (map (λ key. key.items) keys.now)) }
{
    let mut rest = keys;
    while let [key, after @ ..] = rest {
        add(alloc, namings, key.as_slice(), Standing::Object)?;
        rest = after;
    }
    Ok(())
}

/// What the names of these words, kinds and properties, and of the objects, stand for.
fn namings_from(
    alloc: Global,
    words: &[&[u8]],
    kinds: &[KindRow<'_>],
    properties: &[PropertyRow<'_>],
) -> Result<Vec<Naming>, AllocError>
    ensures { IfOk result (λ namings. namings.items ≡ namings_from (map (λ word. word.now) words.now) (map (λ kind. kind.0.now) kinds.now)
        (map (λ property. (property.0.now, option_map (λ second. second.now) property.1)) properties.now)) }
{
    let mut namings = Vec::new(alloc);
    add_reserved(alloc, &mut namings, words)?;
    add_kinds(alloc, &mut namings, kinds)?;
    add_properties(alloc, &mut namings, properties)?;
    let keys = built_in_keys(alloc)?;
    add_objects(alloc, &mut namings, keys.as_slice())?;
    Ok(namings)
}

/// What names stand for before any sentence.
#[tactic(auto, unfolding(crate::specs::Standings::built_in_namings))]
pub fn built_in_namings(alloc: Global) -> Result<Vec<Naming>, AllocError>
    ensures { IfOk result (λ namings. namings.items ≡ built_in_namings) }
{
    namings_from(alloc, &RESERVED, &KINDS, &PROPERTIES)
}

/// Puts names behind the others.
fn mention_all(alloc: Global, books: &mut Strings, names: &[&[u8]]) -> Result<(), AllocError>
    ensures { OnOk result (books.new ≡ fold (λ seen name. mention seen name.now) books.old names.now) }
{
    let mut rest = names;
    while let [name, after @ ..] = rest {
        books.mention(alloc, name)?;
        rest = after;
    }
    Ok(())
}

/// The names that no sentence gives a rulebook.
pub fn built_in_books(alloc: Global) -> Result<Strings, AllocError>
    ensures { IfOk result (λ books. books ≡ built_in_books) }
{
    let mut books = Strings::new(alloc);
    mention_all(alloc, &mut books, &BOOKS)?;
    mention_all(alloc, &mut books, &RESERVED)?;
    Ok(books)
}
