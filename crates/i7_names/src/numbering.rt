//! The names of a source by their numbers: each is numbered among those of its sort.
ghost use Rattle.std.specs.Prelude.{◌≡◌, IfOk, Ok, map};
ghost use Rattle.i7_claims.specs.Sorts.{names_as};
ghost use Rattle.i7_claims.specs.declared.sorts.Sort.TheVariants.{ValueKind};
ghost use Rattle.i7_names.specs.Numbering.{counts_listed, numbering_by};

use crate::number::{object_number, small_number};
use i7_claims::{Claim, Sort, kind_names, names_as, values_listed};
use object_words::Strings;
use std::alloc::{AllocError, Global};
use std::marker::Model;

/// The names of objects, of kinds, of either-or properties the first, and of number properties, variables, scenes and kinds of
/// value, and how many values each of these has.
#[derive(Drop)]
pub struct Numbering<'a> {
    objects: &'a Strings,
    kinds: Strings,
    qualities: Strings,
    numbers: Strings,
    variables: Strings,
    scenes: Strings,
    value_kinds: Strings,
    value_counts: Vec<usize>,
}

impl<'a> Model for Numbering<'a> {
    ghost use Rattle.i7_names.specs.Numbering.{Numbering as Names, numbering_with};

    ghost Value = { Names };

    ghost view = { λ n. numbering_with n.objects.now n.kinds n.qualities n.numbers n.variables n.scenes n.value_kinds n.value_counts.items };
}

/// How many values the kinds of value of these names have.
fn counts_listed(
    alloc: Global,
    claims: &[Claim],
    names: &[Vec<u8>],
) -> Result<Vec<usize>, AllocError>
    ensures { IfOk result (λ counts. counts.items ≡ counts_listed claims.now (map (λ name. name.items) names.now)) }
{
    let mut counts = Vec::new(alloc);
    let mut rest = names;
    while let [name, after @ ..] = rest {
        counts.push(values_listed(claims, name.as_slice()).len())?;
        rest = after;
    }
    Ok(counts)
}

/// The names of the kinds of value, and how many values each has.
fn values_counted(alloc: Global, claims: &[Claim]) -> Result<(Strings, Vec<usize>), AllocError>
    ensures names { IfOk result (λ found. found.0 ≡ names_as ValueKind claims.now) }
    ensures counts { IfOk result (λ found. found.1.items ≡ counts_listed claims.now (names_as ValueKind claims.now)) }
{
    let kinds = names_as(alloc, Sort::ValueKind, claims)?;
    match counts_listed(alloc, claims, kinds.as_slice()) {
        Ok(counts) => Ok((kinds, counts)),
        Err(refused) => {
            drop(kinds);
            Err(refused)
        }
    }
}

/// Both, if neither was refused.
fn both<A: Drop, B: Drop>(
    left: Result<A, AllocError>,
    right: Result<B, AllocError>,
) -> Result<(A, B), AllocError>
    ensures { IfOk result (λ found. (left ≡ Ok found.0) × (right ≡ Ok found.1)) }
{
    let first = left?;
    let second = right?;
    Ok((first, second))
}

/// The numbers of what the claims declare, where the objects have these names.
pub fn numbering_of<'a>(
    alloc: Global,
    objects: &'a Strings,
    claims: &[Claim],
) -> Result<Numbering<'a>, AllocError>
    ensures { IfOk result (λ numbering. numbering ≡ numbering_by objects.now claims.now) }
{
    let kinds = both(kind_names(alloc, claims), values_counted(alloc, claims));
    let qualities = names_as(alloc, Sort::EitherOr, claims);
    let properties = both(qualities, names_as(alloc, Sort::Number, claims));
    let variables = names_as(alloc, Sort::Variable, claims);
    let changing = both(variables, names_as(alloc, Sort::Scene, claims));
    let (kinds, (properties, changing)) = both(kinds, both(properties, changing))?;
    let (kinds, (value_kinds, value_counts)) = kinds;
    let (qualities, numbers) = properties;
    let (variables, scenes) = changing;
    Ok(Numbering {
        objects,
        kinds,
        qualities,
        numbers,
        variables,
        scenes,
        value_kinds,
        value_counts,
    })
}

impl<'a> Numbering<'a> {
    ghost use Rattle.i7_names.specs.Meant.{value_count};
    ghost use Rattle.i7_names.specs.Numbers.{object_number, small_number};

    /// The number of the object of this name.
    pub fn object(&self, name: &[u8]) -> Option<u16>
        ensures { result ≡ object_number self.now.objects name.now }
    {
        object_number(self.objects, name)
    }

    /// The number of the kind of this name.
    pub fn kind(&self, name: &[u8]) -> Option<u8>
        ensures { result ≡ small_number self.now.kinds name.now }
    {
        small_number(&self.kinds, name)
    }

    /// The number of the either-or property of this first name.
    pub fn quality(&self, name: &[u8]) -> Option<u8>
        ensures { result ≡ small_number self.now.qualities name.now }
    {
        small_number(&self.qualities, name)
    }

    /// The number of the number property of this name.
    pub fn number(&self, name: &[u8]) -> Option<u8>
        ensures { result ≡ small_number self.now.numbers name.now }
    {
        small_number(&self.numbers, name)
    }

    /// The number of the variable of this name.
    pub fn variable(&self, name: &[u8]) -> Option<u8>
        ensures { result ≡ small_number self.now.variables name.now }
    {
        small_number(&self.variables, name)
    }

    /// The number of the scene of this name.
    pub fn scene(&self, name: &[u8]) -> Option<u8>
        ensures { result ≡ small_number self.now.scenes name.now }
    {
        small_number(&self.scenes, name)
    }

    /// The number of the kind of value of this name.
    pub fn value_kind(&self, name: &[u8]) -> Option<u8>
        ensures { result ≡ small_number self.now.value_kinds name.now }
    {
        small_number(&self.value_kinds, name)
    }

    /// How many values there are of a kind of value.
    pub fn value_count(&self, kind: u8) -> usize
        ensures { result ≡ value_count self.now kind }
    {
        self.value_counts.get(kind as usize).copied().unwrap_or(0)
    }

    /// The names of the kinds.
    pub fn kinds(&self) -> &Strings
        ensures { result.now ≡ self.now.kinds }
    {
        &self.kinds
    }
}
