//! The sorts of names, besides kinds, that there may be few of, each sort's names numbered by their first claim.
ghost use Rattle.std.specs.Prelude.{◌≡◌, IfOk, OnOk, fold, map, option_map};
ghost use Rattle.i7_claims.specs.Sorts.{built_in_either_ors, built_in_kinds, built_in_names, claimed_as, is_list_too_long, is_of, is_too_many, list_too_long, mention_firsts, named_if, most_names, names_as, property_names, too_many_as, with_claimed, with_name};

use crate::claim::{Claim, Fact, Standing};
use crate::scans::lower;
use object_words::Strings;
use std::alloc::{AllocError, Global};
use world_meaning::{KINDS, KindRow, PROPERTIES, PropertyRow};

/// A sort of names.
#[derive(Clone, Copy, PartialEq, Eq)]
pub enum Sort {
    EitherOr,
    Number,
    Variable,
    Rulebook,
    Scene,
    ValueKind,
}

/// The most properties, variables, rulebooks or kinds of value, built-in properties counted, and the most values of a kind.
const MOST: usize = 100;

/// The most scenes.
const MOST_SCENES: usize = 50;

/// The most names of a sort.
fn most_names(sort: Sort) -> usize
    ensures { result ≡ most_names sort }
{
    match sort {
        Sort::Scene => MOST_SCENES,
        _ => MOST,
    }
}

/// Whether what a name stands for is of the sort.
fn is_of(sort: Sort, standing: &Standing) -> bool
    ensures { result ≡ is_of sort standing.now }
{
    match standing {
        Standing::First(_) => matches!(sort, Sort::EitherOr),
        Standing::Number => matches!(sort, Sort::Number),
        Standing::Variable => matches!(sort, Sort::Variable),
        Standing::Scene(_) => matches!(sort, Sort::Scene),
        Standing::ValueKind => matches!(sort, Sort::ValueKind),
        _ => false,
    }
}

fn named_if(is_named: bool, name: &[u8]) -> Option<&[u8]>
    ensures { option_map (λ text. text.now) result ≡ named_if is_named name.now }
{
    if is_named { Some(name) } else { None }
}

/// The name that a fact claims as one of the sort.
fn claimed_as(sort: Sort, fact: &Fact) -> Option<&[u8]>
    ensures { option_map (λ name. name.now) result ≡ claimed_as sort fact.now }
{
    match fact {
        Fact::Stands(naming) => named_if(is_of(sort, &naming.standing), naming.name.as_slice()),
        Fact::Rulebook(name) => named_if(matches!(sort, Sort::Rulebook), name.as_slice()),
        _ => None,
    }
}

/// The names of kinds, in order.
fn mention_kinds(
    alloc: Global,
    names: &mut Strings,
    kinds: &[KindRow<'_>],
) -> Result<(), AllocError>
    ensures { OnOk result (names.new ≡ mention_firsts names.old (map (λ kind. kind.0.now) kinds.now)) }
{
    let mut rest = kinds;
    while let [kind, after @ ..] = rest {
        names.mention(alloc, kind.0)?;
        rest = after;
    }
    Ok(())
}

/// The first names of properties, in order.
fn mention_properties(
    alloc: Global,
    names: &mut Strings,
    properties: &[PropertyRow<'_>],
) -> Result<(), AllocError>
    ensures { OnOk result (names.new ≡ mention_firsts names.old (map (λ property. property.0.now) properties.now)) }
{
    let mut rest = properties;
    while let [property, after @ ..] = rest {
        names.mention(alloc, property.0)?;
        rest = after;
    }
    Ok(())
}

/// The names of the built-in kinds.
#[tactic(auto, unfolding(crate::specs::Sorts::built_in_kinds))]
pub fn built_in_kinds(alloc: Global) -> Result<Strings, AllocError>
    ensures { IfOk result (λ names. names ≡ built_in_kinds) }
{
    let mut names = Strings::new(alloc);
    mention_kinds(alloc, &mut names, &KINDS)?;
    Ok(names)
}

/// The first names of the built-in either-or properties.
fn built_in_either_ors(alloc: Global) -> Result<Strings, AllocError>
    ensures { IfOk result (λ names. names ≡ built_in_either_ors) }
{
    let mut names = Strings::new(alloc);
    mention_properties(alloc, &mut names, &PROPERTIES)?;
    Ok(names)
}

/// The built-in names of a sort.
fn built_in_names(alloc: Global, sort: Sort) -> Result<Strings, AllocError>
    ensures { IfOk result (λ names. names ≡ built_in_names sort) }
{
    match sort {
        Sort::EitherOr => built_in_either_ors(alloc),
        _ => Ok(Strings::new(alloc)),
    }
}

/// Puts a name behind the others.
fn add_name(alloc: Global, names: &mut Strings, name: Option<&[u8]>) -> Result<(), AllocError>
    ensures { OnOk result (names.new ≡ with_name names.old (option_map (λ text. text.now) name.entry)) }
{
    match name {
        None => Ok(()),
        Some(name) => names.mention(alloc, name),
    }
}

/// Puts the names that are claimed as ones of a sort behind the others.
fn add_names(
    alloc: Global,
    sort: Sort,
    names: &mut Strings,
    claims: &[Claim],
) -> Result<(), AllocError>
    ensures { OnOk result (names.new ≡ fold (with_claimed sort) names.old claims.now) }
{
    let mut rest = claims;
    while let [claim, after @ ..] = rest {
        add_name(alloc, names, claimed_as(sort, &claim.fact))?;
        rest = after;
    }
    Ok(())
}

/// The names that are claimed as ones of a sort, the built-in ones first.
pub fn names_as(alloc: Global, sort: Sort, claims: &[Claim]) -> Result<Strings, AllocError>
    ensures { IfOk result (λ names. names ≡ names_as sort claims.now) }
{
    let mut names = built_in_names(alloc, sort)?;
    add_names(alloc, sort, &mut names, claims)?;
    Ok(names)
}

/// The names of the properties: of the either-or ones the first, then those of the number properties and of the kinds of value.
pub fn property_names(alloc: Global, claims: &[Claim]) -> Result<Strings, AllocError>
    ensures { IfOk result (λ names. names ≡ property_names claims.now) }
{
    let mut names = names_as(alloc, Sort::EitherOr, claims)?;
    add_names(alloc, Sort::Number, &mut names, claims)?;
    add_names(alloc, Sort::ValueKind, &mut names, claims)?;
    Ok(names)
}

/// Whether a new name is one too many.
fn is_too_many(most: usize, names: &Strings, name: Option<&[u8]>) -> bool
    ensures { result ≡ is_too_many most names.now (option_map (λ text. text.now) name.entry) }
{
    match name {
        None => false,
        Some(name) => !names.contains(name) && names.len() >= most,
    }
}

/// The lowest line of a name of the sort that is one too many.
pub fn too_many_as(alloc: Global, sort: Sort, claims: &[Claim]) -> Result<Option<u32>, AllocError>
    ensures { IfOk result (λ found. found ≡ too_many_as sort claims.now) }
{
    let most = most_names(sort);
    let mut names = built_in_names(alloc, sort)?;
    let mut found = None;
    let mut rest = claims;
    while let [claim, after @ ..] = rest {
        let name = claimed_as(sort, &claim.fact);
        found = lower(is_too_many(most, &names, name), claim.line, found);
        add_name(alloc, &mut names, name)?;
        rest = after;
    }
    Ok(found)
}

/// Whether more values are listed than a kind of value may have.
fn is_list_too_long(fact: &Fact) -> bool
    ensures { result ≡ is_list_too_long fact.now }
{
    match fact {
        Fact::Values(listing) => listing.values.as_slice().len() > MOST,
        _ => false,
    }
}

/// The lowest line of a list of values that is too long.
pub fn list_too_long(claims: &[Claim]) -> Option<u32>
    ensures { result ≡ list_too_long claims.now }
{
    let mut found = None;
    let mut rest = claims;
    while let [claim, after @ ..] = rest {
        found = lower(is_list_too_long(&claim.fact), claim.line, found);
        rest = after;
    }
    found
}
