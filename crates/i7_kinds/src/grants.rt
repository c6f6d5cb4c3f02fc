//! Which kinds have each property.
ghost use Rattle.std.specs.Prelude.{◌≡◌, ◌≤◌, ◌++◌, IfOk, OnOk, length, map};
ghost use Rattle.world_meaning.specs.Declarations.{is_among};
ghost use Rattle.i7_kinds.specs.Grants.{first_base, flag_of, flags_from, givens_in, givens_of, kind_given, kinds_given, other_bases, rising_of};
ghost use Rattle.i7_claims.specs.declared.claim.Fact.TheVariants.{CanBe};

use i7_claims::{Claim, Fact, Grant, number_in};
use object_words::Strings;
use std::alloc::{AllocError, Global};
use world_meaning::{Granted, KindNo, Listed, PropertyRow};

/// A property and a kind to which a sentence gives it, by their numbers.
#[derive(Clone, Copy)]
pub struct Given {
    pub property: usize,
    pub kind: usize,
}

/// Adds what a sentence gives to a kind.
fn add_grant(
    properties: &Strings,
    kinds: &Strings,
    givens: &mut Vec<Given>,
    grant: &Grant,
) -> Result<(), AllocError>
    ensures { OnOk result (givens.new.items ≡ givens.old.items ++ givens_in properties.now kinds.now (CanBe grant.now)) }
{
    givens.push(Given {
        property: number_in(properties, grant.property.as_slice()),
        kind: number_in(kinds, grant.kind.as_slice()),
    })?;
    Ok(())
}

fn add_given(
    properties: &Strings,
    kinds: &Strings,
    givens: &mut Vec<Given>,
    fact: &Fact,
) -> Result<(), AllocError>
    ensures { OnOk result (givens.new.items ≡ givens.old.items ++ givens_in properties.now kinds.now fact.now) }
{
    match fact {
        Fact::CanBe(grant) => add_grant(properties, kinds, givens, grant),
        Fact::HasNumber(grant) => add_grant(properties, kinds, givens, grant),
        Fact::HasValue(grant) => add_grant(properties, kinds, givens, grant),
        _ => Ok(()),
    }
}

/// What sentences give to kinds.
pub fn givens_of(
    alloc: Global,
    properties: &Strings,
    kinds: &Strings,
    claims: &[Claim],
) -> Result<Vec<Given>, AllocError>
    ensures { IfOk result (λ givens. givens.items ≡ givens_of properties.now kinds.now claims.now) }
{
    let mut givens = Vec::new(alloc);
    let mut rest = claims;
    while let [claim, after @ ..] = rest {
        add_given(properties, kinds, &mut givens, &claim.fact)?;
        rest = after;
    }
    Ok(givens)
}

/// Adds the kinds that have a property anyway.
fn add_base(kinds: &mut Vec<usize>, base: &[u8]) -> Result<(), AllocError>
    ensures { OnOk result (kinds.new.items ≡ kinds.old.items ++ base.now) }
{
    let mut rest = base;
    while let [kind, after @ ..] = rest {
        kinds.push(*kind as usize)?;
        rest = after;
    }
    Ok(())
}

fn add_kind(kinds: &mut Vec<usize>, property: usize, given: &Given) -> Result<(), AllocError>
    ensures { OnOk result (kinds.new.items ≡ kinds.old.items ++ kind_given property given.now) }
{
    if given.property == property {
        kinds.push(given.kind)?;
    }
    Ok(())
}

/// Adds the kinds to which sentences give a property.
fn add_kinds(kinds: &mut Vec<usize>, property: usize, givens: &[Given]) -> Result<(), AllocError>
    ensures { OnOk result (kinds.new.items ≡ kinds.old.items ++ kinds_given property givens.now) }
{
    let mut rest = givens;
    while let [given, after @ ..] = rest {
        add_kind(kinds, property, given)?;
        rest = after;
    }
    Ok(())
}

fn is_among(kind: u8, kinds: &[usize]) -> bool
    ensures { result ≡ is_among kind kinds.now }
{
    kinds.iter().any(|other| kind as usize == *other)
}

/// The kinds that are among these, rising.
fn rising_of(
    alloc: Global,
    among: &[usize],
    kinds: &[Option<KindNo>],
) -> Result<Vec<u8>, AllocError>
    requires { length kinds.now ≤ 100 }
    ensures { IfOk result (λ found. found.items ≡ rising_of among.now 0 kinds.now) }
{
    let mut found = Vec::new(alloc);
    let mut kind = 0u8;
    let mut rest = kinds;
    while let [_, after @ ..] = rest {
        if is_among(kind, among) {
            found.push(kind)?;
        }
        kind += 1;
        rest = after;
    }
    Ok(found)
}

/// The property of this number, with these kinds already.
pub fn flag_of(
    alloc: Global,
    kinds: &[Option<KindNo>],
    givens: &[Given],
    property: usize,
    base: &[u8],
) -> Result<Granted, AllocError>
    requires { length kinds.now ≤ 100 }
    ensures { IfOk result (λ flag. flag ≡ flag_of kinds.now givens.now property base.now) }
{
    let mut among = Vec::new(alloc);
    add_base(&mut among, base)?;
    add_kinds(&mut among, property, givens)?;
    Ok(Granted {
        kinds: Listed::new(rising_of(alloc, among.as_slice(), kinds)?),
    })
}

fn first_base<'a>(rows: &[PropertyRow<'a>]) -> &'a [u8]
    ensures { result.now ≡ first_base (map (λ row. row.2.now) rows.now) }
{
    match rows {
        [] => &[],
        [row, ..] => row.2,
    }
}

fn other_bases<'a, 'b>(rows: &'b [PropertyRow<'a>]) -> &'b [PropertyRow<'a>]
    ensures { map (λ row. row.2.now) result.now ≡ other_bases (map (λ row. row.2.now) rows.now) }
{
    match rows {
        [] => rows,
        [_, others @ ..] => others,
    }
}

/// The properties of these names, numbered from `first` on; those with which the list begins are those of the rows.
pub fn flags_from(
    alloc: Global,
    kinds: &[Option<KindNo>],
    givens: &[Given],
    first: usize,
    rows: &[PropertyRow<'_>],
    names: &[Vec<u8>],
) -> Result<Vec<Granted>, AllocError>
    requires few { length kinds.now ≤ 100 }
    requires low { first ≤ 100 }
    ensures { IfOk result (λ flags. flags.items ≡ flags_from kinds.now givens.now first (map (λ row. row.2.now) rows.now) (map (λ name. name.items) names.now)) }
{
    let mut flags = Vec::new(alloc);
    let mut property = first;
    let mut bases = rows;
    let mut rest = names;
    while let [_, after @ ..] = rest {
        flags.push(flag_of(alloc, kinds, givens, property, first_base(bases))?)?;
        property += 1;
        bases = other_bases(bases);
        rest = after;
    }
    Ok(flags)
}
