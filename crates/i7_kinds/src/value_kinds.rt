//! The kinds of value of a source and their values, and which one an object begins with.
ghost use Rattle.std.specs.Prelude.{◌≡◌, ◌≤◌, ◌+◌, IfOk, length, map};
ghost use Rattle.i7_kinds.specs.Making.{made_of};
ghost use Rattle.i7_kinds.specs.Tales.{choices_from, chosen};
ghost use Rattle.i7_kinds.specs.ValueKinds.{AreFewValues, choice_or, is_unlisted, is_value_kind, unlisted, value_kind_of, value_kinds_from};
ghost use Rattle.i7_kinds.specs.Values.{usual_of};

use crate::grants::{Given, flag_of};
use crate::objects::Makings;
use crate::properties::{is_had, usual_of};
use crate::values::{Slot, value_in};
use i7_claims::{Claim, Fact, Standing, Value, lower, values_listed};
use std::alloc::{AllocError, Global};
use world_meaning::{KindNo, Listed, TextBytes, ValueKind};

fn copied(alloc: Global, texts: &[TextBytes]) -> Result<Vec<TextBytes>, AllocError>
    ensures { IfOk result (λ copies. copies.items ≡ texts.now) }
{
    let mut copies = Vec::new(alloc);
    let mut rest = texts;
    while let [text, after @ ..] = rest {
        copies.push(TextBytes::copied(alloc, text.as_slice())?)?;
        rest = after;
    }
    Ok(copies)
}

/// A kind of value of this name, and the kinds whose objects have one of its values.
fn value_kind_of(
    alloc: Global,
    kinds: &[Option<KindNo>],
    givens: &[Given],
    property: usize,
    claims: &[Claim],
    name: &[u8],
) -> Result<ValueKind, AllocError>
    requires { length kinds.now ≤ 100 }
    ensures { IfOk result (λ kind. kind ≡ value_kind_of kinds.now givens.now property claims.now name.now) }
{
    Ok(ValueKind {
        names: Listed::new(copied(alloc, values_listed(claims, name))?),
        given: flag_of(alloc, kinds, givens, property, &[])?,
    })
}

/// The kinds of value of these names, whose numbers as properties go on from `first`.
pub fn value_kinds_from(
    alloc: Global,
    kinds: &[Option<KindNo>],
    givens: &[Given],
    first: usize,
    claims: &[Claim],
    names: &[Vec<u8>],
) -> Result<Vec<ValueKind>, AllocError>
    requires few { length kinds.now ≤ 100 }
    requires low { first ≤ 200 }
    ensures { IfOk result (λ found. found.items ≡ value_kinds_from kinds.now givens.now first claims.now (map (λ name. name.items) names.now)) }
{
    let mut found = Vec::new(alloc);
    let mut property = first;
    let mut rest = names;
    while let [name, after @ ..] = rest {
        found.push(value_kind_of(alloc, kinds, givens, property, claims, name.as_slice())?)?;
        property += 1;
        rest = after;
    }
    Ok(found)
}

fn is_value_kind(standing: &Standing) -> bool
    ensures { result ≡ is_value_kind standing.now }
{
    matches!(standing, Standing::ValueKind)
}

/// Whether a fact declares a kind of value of which no sentence lists a value.
fn is_unlisted(claims: &[Claim], fact: &Fact) -> bool
    ensures { result ≡ is_unlisted claims.now fact.now }
{
    match fact {
        Fact::Stands(naming) => {
            is_value_kind(&naming.standing)
                && values_listed(claims, naming.name.as_slice()).is_empty()
        }
        _ => false,
    }
}

/// The lowest line that declares a kind of value without values.
pub fn unlisted(claims: &[Claim]) -> Option<u32>
    ensures { result ≡ unlisted claims.now }
{
    let mut found = None;
    let mut rest = claims;
    while let [claim, after @ ..] = rest {
        found = lower(is_unlisted(claims, &claim.fact), claim.line, found);
        rest = after;
    }
    found
}

/// The value at the place that is told, if there is one.
fn choice_or(count: usize, value: Option<Value>, other: usize) -> usize
    ensures { result ≡ choice_or count value other }
{
    match value {
        Some(Value::Choice(place)) => { if place < count { place } else { other } }
        _ => other,
    }
}

/// The value that an object begins with, of a kind of value with so many and with this number as a property: what a sentence
/// says, else what is usual, and else the first.
fn chosen(
    makings: &Makings<'_>,
    object: usize,
    kind: KindNo,
    property: usize,
    count: usize,
) -> usize
    ensures { result ≡ chosen (made_of makings.now) object kind property count }
{
    let bearer = object;
    let value = value_in(makings.values, Slot { bearer, property });
    let usual = usual_of(
        makings.parents,
        makings.usuals,
        kind.get() as usize,
        property,
    );
    choice_or(count, value, choice_or(count, usual, 0))
}

/// The values that an object begins with, one of each kind of value that its kind has, by the numbers of these.
pub fn choices_of(
    alloc: Global,
    makings: &Makings<'_>,
    object: usize,
    kind: KindNo,
) -> Result<Vec<u8>, AllocError>
    requires few_flags { length makings.now.flags.now ≤ 100 }
    requires few_numbers { length makings.now.numbers.now ≤ 100 }
    requires few_values { AreFewValues makings.now.value_kinds.now }
    ensures { IfOk result (λ found. found.items ≡ choices_from (made_of makings.now) object kind (length makings.now.flags.now + length makings.now.numbers.now) makings.now.value_kinds.now) }
{
    let mut found = Vec::new(alloc);
    let mut property = makings.flags.len() + makings.numbers.len();
    let mut rest = makings.value_kinds;
    while let [value_kind, after @ ..] = rest {
        if is_had(makings.parents, kind, &value_kind.given) {
            let count = value_kind.names.as_slice().len();
            found.push(chosen(makings, object, kind, property, count) as u8)?;
        }
        property += 1;
        rest = after;
    }
    Ok(found)
}
