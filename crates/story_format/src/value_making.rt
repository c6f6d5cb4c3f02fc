//! Tables 14 and 15 of a tale, and the strings that they name.
ghost use Rattle.std.specs.Prelude.{◌≡◌, IfOk, OnOk, fold, map};
ghost use Rattle.object_words.specs.Mentions.{mention, number_in};
ghost use Rattle.story_format.specs.Making.{names_of_values, object_values, value_entry, values_of};
ghost use Rattle.story_format.specs.WordedViews.{all_worded};

use crate::making::Worded;
use crate::table::Table;
use crate::value_tables::{ValueEntry, ValueTables};
use crate::world_making::granted_to;
use object_words::Strings;
use std::alloc::{AllocError, Global};
use world_meaning::{Declared, Listed, TextBytes, ValueKind};

#[tactic(auto, using(object_words::proofs::Folds::fold_both))]
fn mention_names(
    alloc: Global,
    strings: &mut Strings,
    names: &[TextBytes],
) -> Result<(), AllocError>
    ensures { OnOk result (strings.new ≡ fold mention strings.old names.now) }
{
    let mut rest = names;
    while let [name, after @ ..] = rest {
        strings.mention(alloc, name.as_slice())?;
        rest = after;
    }
    Ok(())
}

/// Mentions the names of all values, kind of value by kind of value.
#[tactic(auto, using(object_words::proofs::Folds::fold_both))]
pub fn mention_values(
    alloc: Global,
    strings: &mut Strings,
    values: &[ValueKind],
) -> Result<(), AllocError>
    ensures { OnOk result (strings.new ≡ fold mention strings.old (names_of_values values.now)) }
{
    let mut rest = values;
    while let [one, after @ ..] = rest {
        mention_names(alloc, strings, one.names.as_slice())?;
        rest = after;
    }
    Ok(())
}

fn name_numbers(
    alloc: Global,
    strings: &Strings,
    names: &[TextBytes],
) -> Result<Listed<u16>, AllocError>
    ensures { IfOk result (λ numbers. numbers ≡ map (number_in strings.now) names.now) }
{
    let mut numbers = Vec::new(alloc);
    let mut rest = names;
    while let [name, after @ ..] = rest {
        numbers.push(strings.number_of(name.as_slice()))?;
        rest = after;
    }
    Ok(Listed::new(numbers))
}

fn value_entry(alloc: Global, strings: &Strings, kind: &ValueKind) -> Result<ValueEntry, AllocError>
    ensures { IfOk result (λ entry. entry ≡ value_entry strings.now kind.now) }
{
    Ok(ValueEntry {
        names: name_numbers(alloc, strings, kind.names.as_slice())?,
        given: granted_to(alloc, &kind.given)?,
    })
}

fn value_entries(
    alloc: Global,
    strings: &Strings,
    values: &[ValueKind],
) -> Result<Table<ValueEntry>, AllocError>
    ensures { IfOk result (λ entries. entries ≡ map (value_entry strings.now) values.now) }
{
    let mut entries = Vec::new(alloc);
    let mut rest = values;
    while let [one, after @ ..] = rest {
        entries.push(value_entry(alloc, strings, one)?)?;
        rest = after;
    }
    Ok(Table::new(entries))
}

/// The values of the objects.
fn own_values(alloc: Global, worded: &[Worded<'_>]) -> Result<Table<Listed<u8>>, AllocError>
    ensures { IfOk result (λ table. table ≡ map (λ w. w.object.values) (all_worded worded.now)) }
{
    let mut all = Vec::new(alloc);
    let mut rest = worded;
    while let [one, after @ ..] = rest {
        let own = one.object.values.as_slice();
        all.push(Listed::new(Vec::from_slice(alloc, own)?))?;
        rest = after;
    }
    Ok(Table::new(all))
}

/// What the objects have of these kinds of value; nothing where there is none.
fn object_values(
    alloc: Global,
    values: &[ValueKind],
    worded: &[Worded<'_>],
) -> Result<Table<Listed<u8>>, AllocError>
    ensures { IfOk result (λ table. table ≡ object_values values.now (all_worded worded.now)) }
{
    match values {
        [] => Ok(Table::new(Vec::new(alloc))),
        [_, ..] => Ok(own_values(alloc, worded)?),
    }
}

/// Tables 14 and 15 of what is declared and of objects with their words.
#[tactic(auto, unfolding(crate::specs::Making::values_of))]
pub fn values_of(
    alloc: Global,
    strings: &Strings,
    declared: &Declared,
    worded: &[Worded<'_>],
) -> Result<ValueTables, AllocError>
    ensures { IfOk result (λ values. values ≡ values_of strings.now declared.now (all_worded worded.now)) }
{
    let values = declared.values.as_slice();
    Ok(ValueTables {
        kinds: value_entries(alloc, strings, values)?,
        objects: object_values(alloc, values, worded)?,
    })
}
