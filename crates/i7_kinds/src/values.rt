//! What sentences say of the properties of objects, or usually of those of kinds, and of variables, and the lowest
//! line of what says another value.
//!
//! What each claim tells is marked `inline(always)`, since each loop over the claims asks for few of them.
ghost use Rattle.std.specs.Prelude.{◌≡◌, IfOk, OnOk};
ghost use Rattle.i7_claims.specs.Numbers.{number_in};
ghost use Rattle.i7_kinds.specs.Values.{is_contrary, is_other, is_same, told_as, told_by, told_of, value_at, value_in, value_twice, values_by, with_slot, with_told};
ghost use Rattle.i7_claims.specs.declared.claim.Fact.TheVariants.{Usually};
ghost use Rattle.i7_claims.specs.declared.claim.Value.TheVariants.{Amount};
ghost use Rattle.i7_kinds.specs.declared.values.Bearer.TheVariants.{Kinds};

use crate::scope::Scope;
use i7_claims::{Claim, Fact, Having, Start, Usual, Value, lower};
use indexmap::IndexMap;
use std::alloc::{AllocError, Global};

/// Whose properties sentences tell of; a variable has one, its value.
#[derive(Clone, Copy, PartialEq, Eq)]
pub enum Bearer {
    Objects,
    Kinds,
    Variables,
}

/// A property of an object or of a kind, by the numbers of both.
#[derive(Clone, Copy, Hash, PartialEq, Eq)]
pub struct Slot {
    pub bearer: usize,
    pub property: usize,
}

/// What is said of a property.
#[derive(Clone, Copy)]
pub struct Told {
    pub slot: Slot,
    pub value: Value,
}

/// What is said first of properties.
pub type Values = IndexMap<Slot, Value>;

fn told_as(bearer: usize, property: usize, value: Value) -> Told
    ensures { result ≡ told_as bearer property value }
{
    let slot = Slot { bearer, property };
    Told { slot, value }
}

/// What is said of a property; what a value isn't tells nothing.
fn told_of(bearer: usize, property: usize, value: Value) -> Option<Told>
    ensures { result ≡ told_of bearer property value }
{
    match value {
        Value::Never => None,
        Value::Truth(_) | Value::Amount(_) | Value::Choice(_) => {
            Some(told_as(bearer, property, value))
        }
    }
}

fn told_of_object(scope: &Scope<'_>, having: &Having) -> Option<Told>
    ensures { result ≡ told_of (number_in scope.now.objects having.now.object) (number_in scope.now.properties having.now.property) having.now.value }
{
    let object = scope.object(having.object.as_slice());
    let property = scope.property(having.property.as_slice());
    told_of(object, property, having.value)
}

/// What is usual of a kind that is there.
fn told_of_kind(scope: &Scope<'_>, usual: &Usual) -> Option<Told>
    ensures { result ≡ told_by Kinds scope.now (Usually usual.now) }
{
    let kind = scope.kind_named(usual.kind.as_slice())?;
    let property = scope.property(usual.property.as_slice());
    told_of(kind, property, usual.value)
}

fn told_of_variable(scope: &Scope<'_>, start: &Start) -> Told
    ensures { result ≡ told_as (number_in scope.now.variables start.now.variable) 0 (Amount start.now.number) }
{
    let variable = scope.variable(start.variable.as_slice());
    told_as(variable, 0, Value::Amount(start.number))
}

/// What a fact says of the properties of objects, or of kinds that are there, or of variables.
#[inline(always)]
fn told_by(bearer: Bearer, scope: &Scope<'_>, fact: &Fact) -> Option<Told>
    ensures { result ≡ told_by bearer scope.now fact.now }
{
    match bearer {
        Bearer::Objects => match fact {
            Fact::Has(having) => told_of_object(scope, having),
            _ => None,
        },
        Bearer::Kinds => match fact {
            Fact::Usually(usual) => told_of_kind(scope, usual),
            _ => None,
        },
        Bearer::Variables => match fact {
            Fact::Starts(start) => Some(told_of_variable(scope, start)),
            _ => None,
        },
    }
}

/// What is said of a property.
pub fn value_in(values: &Values, slot: Slot) -> Option<Value>
    ensures { result ≡ value_in (value_at values.now) slot }
{
    values.get(&slot).copied()
}

/// Keeps what is said, unless something is.
fn keep(values: &mut Values, slot: Slot, value: Value) -> Result<(), AllocError>
    ensures { OnOk result (value_at values.new ≡ with_slot (value_at values.old) slot value) }
{
    if values.get(&slot).is_none() {
        values.insert(slot, value)?;
    }
    Ok(())
}

#[inline(always)]
fn keep_told(values: &mut Values, told: Option<Told>) -> Result<(), AllocError>
    ensures { OnOk result (value_at values.new ≡ with_told (value_at values.old) told) }
{
    match told {
        None => Ok(()),
        Some(told) => keep(values, told.slot, told.value),
    }
}

/// What the claims say of the properties of objects, or of kinds, or of variables.
pub fn values_by(
    alloc: Global,
    bearer: Bearer,
    scope: &Scope<'_>,
    claims: &[Claim],
) -> Result<Values, AllocError>
    ensures { IfOk result (λ values. value_at values ≡ values_by bearer scope.now claims.now) }
{
    let mut values = IndexMap::new(alloc);
    let mut rest = claims;
    while let [claim, after @ ..] = rest {
        keep_told(&mut values, told_by(bearer, scope, &claim.fact))?;
        rest = after;
    }
    Ok(values)
}

fn is_same(first: Value, value: Value) -> bool
    ensures { result ≡ is_same first value }
{
    match first {
        Value::Truth(a) => match value {
            Value::Truth(b) => { if a { b } else { !b } }
            _ => false,
        },
        Value::Amount(a) => match value {
            Value::Amount(b) => a == b,
            _ => false,
        },
        Value::Choice(a) => match value {
            Value::Choice(b) => a == b,
            _ => false,
        },
        Value::Never => matches!(value, Value::Never),
    }
}

fn is_other(first: Option<Value>, value: Value) -> bool
    ensures { result ≡ is_other first value }
{
    match first {
        None => false,
        Some(first) => !is_same(first, value),
    }
}

/// Whether another value than what is said first is told.
fn is_contrary(values: &Values, told: Option<Told>) -> bool
    ensures { result ≡ is_contrary (value_at values.now) told }
{
    match told {
        None => false,
        Some(told) => is_other(value_in(values, told.slot), told.value),
    }
}

/// The lowest line that says another value than what is said first of a property.
pub fn value_twice(
    alloc: Global,
    bearer: Bearer,
    scope: &Scope<'_>,
    claims: &[Claim],
) -> Result<Option<u32>, AllocError>
    ensures { IfOk result (λ found. found ≡ value_twice bearer scope.now claims.now) }
{
    let mut values = IndexMap::new(alloc);
    let mut found = None;
    let mut rest = claims;
    while let [claim, after @ ..] = rest {
        let told = told_by(bearer, scope, &claim.fact);
        found = lower(is_contrary(&values, told), claim.line, found);
        keep_told(&mut values, told)?;
        rest = after;
    }
    Ok(found)
}
