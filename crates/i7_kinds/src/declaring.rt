//! What a source declares besides objects.
ghost use Rattle.std.specs.Prelude.{◌≡◌, ◌≤◌, ◌+◌, IfOk, length, map};
ghost use Rattle.i7_kinds.specs.Grants.{built_in_bases};
ghost use Rattle.i7_kinds.specs.KindClaims.{AreSmallKinds, declared_by, flags_by, givens_by, is_recurring, is_recurring_by, kind_names, numbers_by, parents_of, says_recurring, scenes_of, start_of, starts_of, value_kinds_by};

use crate::author_kinds::{kind_nos, parents_of};
use crate::grants::{Given, flags_from, givens_of};
use crate::value_kinds::value_kinds_from;
use i7_claims::{Claim, Fact, Sort, Standing, names_as, property_names};
use object_words::Strings;
use std::alloc::{AllocError, Global};
use world_meaning::{Declared, Granted, KindNo, Listed, PROPERTIES, ValueKind};

/// What a variable starts at: what the first sentence says that says it, and else 0.
fn start_of(claims: &[Claim], name: &[u8]) -> i32
    ensures { result ≡ start_of claims.now name.now }
{
    let mut rest = claims;
    while let [claim, after @ ..] = rest {
        if let Fact::Starts(start) = &claim.fact {
            if name == start.variable.as_slice() {
                return start.number;
            }
        }
        rest = after;
    }
    0
}

/// What the variables of these names start at.
fn starts_of(alloc: Global, claims: &[Claim], names: &[Vec<u8>]) -> Result<Vec<i32>, AllocError>
    ensures { IfOk result (λ starts. starts.items ≡ starts_of claims.now (map (λ name. name.items) names.now)) }
{
    let mut starts = Vec::new(alloc);
    let mut rest = names;
    while let [name, after @ ..] = rest {
        starts.push(start_of(claims, name.as_slice()))?;
        rest = after;
    }
    Ok(starts)
}

/// Whether a name stands for a scene that may happen again.
fn is_recurring(standing: &Standing) -> bool
    ensures { result ≡ is_recurring standing.now }
{
    match standing {
        Standing::Scene(recurs) => *recurs,
        _ => false,
    }
}

/// Whether a claim says that the scene of this name may happen again.
fn says_recurring(name: &[u8], claim: &Claim) -> bool
    ensures { result ≡ says_recurring name.now claim.now }
{
    match &claim.fact {
        Fact::Stands(naming) => is_recurring(&naming.standing) && name == naming.name.as_slice(),
        _ => false,
    }
}

/// Whether the scene of this name may happen again: a sentence says so.
fn is_recurring_by(claims: &[Claim], name: &[u8]) -> bool
    ensures { result ≡ is_recurring_by claims.now name.now }
{
    claims.iter().any(|claim| says_recurring(name, claim))
}

/// Which scenes of these names may happen again.
fn scenes_of(alloc: Global, claims: &[Claim], names: &[Vec<u8>]) -> Result<Vec<bool>, AllocError>
    ensures { IfOk result (λ scenes. scenes.items ≡ scenes_of claims.now (map (λ name. name.items) names.now)) }
{
    let mut scenes = Vec::new(alloc);
    let mut rest = names;
    while let [name, after @ ..] = rest {
        scenes.push(is_recurring_by(claims, name.as_slice()))?;
        rest = after;
    }
    Ok(scenes)
}

/// What sentences give to kinds of these names.
fn givens_by(alloc: Global, names: &Strings, claims: &[Claim]) -> Result<Vec<Given>, AllocError>
    requires { names.now ≡ kind_names claims.now }
    ensures { IfOk result (λ givens. givens.items ≡ givens_by claims.now) }
{
    let properties = property_names(alloc, claims)?;
    let givens = givens_of(alloc, &properties, names, claims)?;
    Ok(givens)
}

/// The either-or properties, where the kinds are these.
#[tactic(auto, unfolding(crate::specs::Grants::built_in_bases))]
fn flags_by(
    alloc: Global,
    kinds: &[Option<KindNo>],
    givens: &[Given],
    claims: &[Claim],
) -> Result<Vec<Granted>, AllocError>
    requires kinds { kinds.now ≡ parents_of (kind_names claims.now) claims.now }
    requires givens { givens.now ≡ givens_by claims.now }
    requires short { length kinds.now ≤ 100 }
    ensures { IfOk result (λ flags. flags.items ≡ flags_by claims.now) }
{
    let names = names_as(alloc, Sort::EitherOr, claims)?;
    let flags = flags_from(alloc, kinds, givens, 0, &PROPERTIES, names.as_slice());
    drop(names);
    Ok(flags?)
}

/// The number properties, where the kinds are these and there are so many either-or properties.
fn numbers_by(
    alloc: Global,
    kinds: &[Option<KindNo>],
    givens: &[Given],
    first: usize,
    claims: &[Claim],
) -> Result<Vec<Granted>, AllocError>
    requires kinds { kinds.now ≡ parents_of (kind_names claims.now) claims.now }
    requires givens { givens.now ≡ givens_by claims.now }
    requires first { first ≡ length (flags_by claims.now) }
    requires short { length kinds.now ≤ 100 }
    requires few { length (flags_by claims.now) ≤ 100 }
    ensures { IfOk result (λ numbers. numbers.items ≡ numbers_by claims.now) }
{
    let names = names_as(alloc, Sort::Number, claims)?;
    let numbers = flags_from(alloc, kinds, givens, first, &[], names.as_slice())?;
    Ok(numbers)
}

/// The kinds of value, where the kinds are these and there are so many properties of other sorts.
fn value_kinds_by(
    alloc: Global,
    kinds: &[Option<KindNo>],
    givens: &[Given],
    first: usize,
    claims: &[Claim],
) -> Result<Vec<ValueKind>, AllocError>
    requires kinds { kinds.now ≡ parents_of (kind_names claims.now) claims.now }
    requires givens { givens.now ≡ givens_by claims.now }
    requires first { first ≡ length (flags_by claims.now) + length (numbers_by claims.now) }
    requires short { length kinds.now ≤ 100 }
    requires few { length (flags_by claims.now) ≤ 100 }
    requires few_numbers { length (numbers_by claims.now) ≤ 100 }
    ensures { IfOk result (λ values. values.items ≡ value_kinds_by claims.now) }
{
    let names = names_as(alloc, Sort::ValueKind, claims)?;
    let values = value_kinds_from(alloc, kinds, givens, first, claims, names.as_slice())?;
    Ok(values)
}

/// The numbers at which the variables start.
fn variables_by(alloc: Global, claims: &[Claim]) -> Result<Vec<i32>, AllocError>
    ensures { IfOk result (λ starts. starts.items ≡ (declared_by claims.now).variables) }
{
    let names = names_as(alloc, Sort::Variable, claims)?;
    starts_of(alloc, claims, names.as_slice())
}

/// Whether each scene is recurring.
fn scenes_by(alloc: Global, claims: &[Claim]) -> Result<Vec<bool>, AllocError>
    ensures { IfOk result (λ scenes. scenes.items ≡ (declared_by claims.now).scenes) }
{
    let names = names_as(alloc, Sort::Scene, claims)?;
    scenes_of(alloc, claims, names.as_slice())
}

/// How many rulebooks there are.
fn rulebooks_by(alloc: Global, claims: &[Claim]) -> Result<usize, AllocError>
    ensures { IfOk result (λ count. count ≡ (declared_by claims.now).rulebooks) }
{
    let names = names_as(alloc, Sort::Rulebook, claims)?;
    Ok(names.len())
}

/// What a source declares besides objects, where its kinds have these names; nothing is claimed of its actions.
pub fn declared_by(alloc: Global, names: &Strings, claims: &[Claim]) -> Result<Declared, AllocError>
    requires named { names.now ≡ kind_names claims.now }
    requires few { AreSmallKinds (parents_of names.now claims.now) }
    requires short { length (parents_of names.now claims.now) ≤ 100 }
    requires few_flags { length (declared_by claims.now).flags ≤ 100 }
    requires few_numbers { length (declared_by claims.now).numbers ≤ 100 }
    ensures { IfOk result (λ declared. declared ≡ declared_by claims.now) }
{
    let parents = parents_of(alloc, names, claims)?;
    let kinds = kind_nos(alloc, parents.as_slice())?;
    let givens = givens_by(alloc, names, claims)?;
    let flags = flags_by(alloc, kinds.as_slice(), givens.as_slice(), claims)?;
    let first = flags.len();
    let numbers = numbers_by(alloc, kinds.as_slice(), givens.as_slice(), first, claims)?;
    let behind = first + numbers.len();
    let values = value_kinds_by(alloc, kinds.as_slice(), givens.as_slice(), behind, claims)?;
    let variables = variables_by(alloc, claims)?;
    let scenes = scenes_by(alloc, claims)?;
    let rulebooks = rulebooks_by(alloc, claims)?;
    Ok(Declared {
        kinds: Listed::new(kinds),
        flags: Listed::new(flags),
        numbers: Listed::new(numbers),
        variables: Listed::new(variables),
        scenes: Listed::new(scenes),
        rulebooks,
        actions: Listed::new(Vec::new(alloc)),
        values: Listed::new(values),
    })
}
