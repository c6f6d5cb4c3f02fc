//! What tables 14 and 15 say: each test is named after what it asks.
ghost use Rattle.std.specs.Prelude.{◌≡◌, ◌≤◌, [], IfOk, length, nat_lt, slice_index_or, true};
ghost use Rattle.std.specs.List.{list_all};
ghost use Rattle.world_meaning.specs.Declarations.{are_each_below, is_had};
ghost use Rattle.story_format.specs.Checks.{are_first_right};
ghost use Rattle.story_format.specs.ValueChecks.{all_counts, are_right_value_entries, are_right_values, counts_in, have_told_values, have_values, is_right_value_entry, strings_in_values};

use crate::tables::{Entry, Tables};
use crate::value_tables::ValueEntry;
use crate::world_checks::{is_had, is_right_grant};
use std::alloc::{AllocError, Global};
use world_meaning::{KindNo, Listed};

fn are_below(count: usize, numbers: &[u16]) -> bool
    ensures { result ≡ list_all (λ n. nat_lt n count) numbers.now }
{
    numbers.iter().all(|number| (*number as usize) < count)
}

#[tactic(auto, unfolding(crate::specs::ValueChecks::is_right_value_entry))]
fn is_right_value_entry(kinds: usize, strings: usize, entry: &ValueEntry) -> bool
    ensures { result ≡ is_right_value_entry kinds strings entry.now }
{
    let names = entry.names.as_slice();
    is_right_grant(kinds, &entry.given)
        && 1 <= names.len()
        && names.len() <= 100
        && are_below(strings, names)
}

fn each_is_right(kinds: usize, strings: usize, values: &[ValueEntry]) -> bool
    ensures { result ≡ list_all (is_right_value_entry kinds strings) values.now }
{
    values
        .iter()
        .all(|entry| is_right_value_entry(kinds, strings, entry))
}

fn are_right_value_entries(kinds: usize, strings: usize, values: &[ValueEntry]) -> bool
    ensures { result ≡ are_right_value_entries kinds strings values.now }
{
    values.len() <= 100 && each_is_right(kinds, strings, values)
}

/// Of each kind of value that objects of a kind have, how many values it has.
fn counts_in(
    alloc: Global,
    parents: &[Option<KindNo>],
    values: &[ValueEntry],
    kind: KindNo,
) -> Result<Listed<usize>, AllocError>
    ensures { IfOk result (λ counts. counts ≡ counts_in parents.now values.now kind) }
{
    let mut counts = Vec::new(alloc);
    let mut rest = values;
    while let [entry, after @ ..] = rest {
        if is_had(parents, kind, &entry.given) {
            counts.push(entry.names.as_slice().len())?;
        }
        rest = after;
    }
    Ok(Listed::new(counts))
}

/// Of each kind, by number, what it has.
fn all_counts(
    alloc: Global,
    parents: &[Option<KindNo>],
    values: &[ValueEntry],
) -> Result<Vec<Listed<usize>>, AllocError>
    requires { length parents.now ≤ 100 }
    ensures { IfOk result (λ all. all.items ≡ all_counts parents.now values.now) }
{
    let mut all = Vec::new(alloc);
    let mut kind = 0u8;
    let mut left = parents;
    while let [_, after @ ..] = left {
        all.push(counts_in(alloc, parents, values, KindNo::new(kind))?)?;
        kind += 1;
        left = after;
    }
    Ok(all)
}

/// Whether the numbers are as many as the counts, and each is below the count in its place.
#[tactic(auto, unfolding(world_meaning::specs::Declarations::are_each_below))]
fn are_each_below(counts: &[usize], numbers: &[u8]) -> bool
    ensures { result ≡ are_each_below counts.now numbers.now }
{
    let mut counts = counts;
    let mut numbers = numbers;
    while let [count, others @ ..] = counts {
        match numbers {
            [number, after @ ..] if (*number as usize) < *count => numbers = after,
            _ => return false,
        }
        counts = others;
    }
    numbers.is_empty()
}

fn counts_of_kind(told: &[Listed<usize>], kind: u8) -> &[usize]
    ensures { result.now ≡ slice_index_or told.now kind [] }
{
    match told.get(kind as usize) {
        Some(counts) => counts.as_slice(),
        None => &[],
    }
}

/// Whether each object has the values that are told of its kind.
#[tactic(auto, unfolding(crate::specs::ValueChecks::have_told_values))]
fn have_told_values(told: &[Listed<usize>], entries: &[Entry], all: &[Listed<u8>]) -> bool
    ensures { result ≡ have_told_values told.now entries.now all.now }
{
    let mut entries = entries;
    let mut all = all;
    while let [entry, after @ ..] = entries {
        match all {
            [own, others @ ..]
                if are_each_below(counts_of_kind(told, entry.kind), own.as_slice()) => {
                all = others
            }
            _ => return false,
        }
        entries = after;
    }
    all.is_empty()
}

/// Whether each object has a value of each kind of value that its kind has.
#[tactic(auto, using(crate::proofs::ValueLemmas::first_few, crate::proofs::ValueLemmas::values_told))]
fn have_values(alloc: Global, tables: &Tables) -> Result<bool, AllocError>
    requires { are_first_right tables.now ≡ true }
    ensures { IfOk result (λ have. have ≡ have_values tables.now.world.kinds tables.now.values.kinds tables.now.objects tables.now.values.objects) }
{
    let parents = tables.world.kinds.as_slice();
    let told = all_counts(alloc, parents, tables.values.kinds.as_slice())?;
    let told = told.as_slice();
    Ok(have_told_values(
        told,
        tables.objects.as_slice(),
        tables.values.objects.as_slice(),
    ))
}

/// Whether tables 14 and 15 are those of a story, where the others are.
#[tactic(auto, unfolding(crate::specs::ValueChecks::are_right_values))]
pub fn are_right_values(alloc: Global, tables: &Tables) -> Result<bool, AllocError>
    requires { are_first_right tables.now ≡ true }
    ensures { IfOk result (λ right. right ≡ are_right_values tables.now) }
{
    let values = tables.values.kinds.as_slice();
    if values.is_empty() {
        return Ok(tables.values.objects.as_slice().is_empty());
    }
    let kinds = tables.world.kinds.as_slice().len();
    let strings = tables.strings.as_slice().len();
    Ok(are_right_value_entries(kinds, strings, values) && have_values(alloc, tables)?)
}

/// The strings that kinds of value name, in order.
pub fn strings_in_values(alloc: Global, values: &[ValueEntry]) -> Result<Vec<u16>, AllocError>
    ensures { IfOk result (λ numbers. numbers.items ≡ strings_in_values values.now) }
{
    let mut numbers = Vec::new(alloc);
    for entry in values {
        numbers.extend_from_slice(entry.names.as_slice())?;
    }
    Ok(numbers)
}
