//! What sentences demand of objects' kinds, and where they place objects.
ghost use Rattle.std.specs.Prelude.{◌≡◌, ◌++◌, ◌∷◌, [], Some, flat_map, map, OnOk};
ghost use Rattle.i7_claims.specs.Claims.{demands, demands_said, has, has_all, holder_demands, kind_said, placed, placings_said, qualities_said, what_claims, worn_claims};

use crate::claim::{Claim, Demand, Fact, Having, Placing, Quality, Value};
use crate::claiming::key_text;
use crate::wording::What;
use i7_sentences::{Holder, Name};
use std::alloc::{AllocError, Global};
use world_meaning::{Rel, TextBytes, lowered};

/// Adds that an object is demanded to be of a kind.
pub fn add_demand(
    alloc: Global,
    claims: &mut Vec<Claim>,
    kind: &[u8],
    name: &Name,
    line: u32,
) -> Result<(), AllocError>
    ensures { OnOk result (claims.new.items ≡ claims.old.items ++ demands kind.now line name.now ∷ []) }
{
    let object = key_text(alloc, name)?;
    let kind = TextBytes::copied(alloc, kind)?;
    claims.push(Claim {
        fact: Fact::Demands(Demand { object, kind }),
        line,
    })?;
    Ok(())
}

/// Adds that objects are demanded to be of a kind.
fn add_each(
    alloc: Global,
    claims: &mut Vec<Claim>,
    kind: &[u8],
    subjects: &[Name],
    line: u32,
) -> Result<(), AllocError>
    ensures { OnOk result (claims.new.items ≡ claims.old.items ++ map (demands kind.now line) subjects.now) }
{
    let mut rest = subjects;
    while let [name, after @ ..] = rest {
        add_demand(alloc, claims, kind, name, line)?;
        rest = after;
    }
    Ok(())
}

/// Adds that objects are demanded to be of the kind that words name; words that say nothing name one that isn't there.
fn add_demands(
    alloc: Global,
    claims: &mut Vec<Claim>,
    what: &Option<What>,
    words: &[u8],
    subjects: &[Name],
    line: u32,
) -> Result<(), AllocError>
    ensures { OnOk result (claims.new.items ≡ claims.old.items ++ demands_said (kind_said what.now words.now) subjects.now line) }
{
    match what {
        None => {
            let kind = lowered(alloc, words)?;
            add_each(alloc, claims, kind.as_slice(), subjects, line)
        }
        Some(what) => match &what.kind {
            None => Ok(()),
            Some(kind) => add_each(alloc, claims, kind.as_slice(), subjects, line),
        },
    }
}

/// Adds that a property of an object has a value.
pub fn add_having(
    alloc: Global,
    claims: &mut Vec<Claim>,
    name: &Name,
    property: &[u8],
    value: Value,
    line: u32,
) -> Result<(), AllocError>
    ensures { OnOk result (claims.new.items ≡ claims.old.items ++ has line name.now property.now value ∷ []) }
{
    let object = key_text(alloc, name)?;
    let property = TextBytes::copied(alloc, property)?;
    claims.push(Claim {
        fact: Fact::Has(Having {
            object,
            property,
            value,
        }),
        line,
    })?;
    Ok(())
}

/// Adds that an object has qualities.
fn add_qualities(
    alloc: Global,
    claims: &mut Vec<Claim>,
    name: &Name,
    qualities: &[Quality],
    line: u32,
) -> Result<(), AllocError>
    ensures { OnOk result (claims.new.items ≡ claims.old.items ++ has_all qualities.now line name.now) }
{
    let mut rest = qualities;
    while let [quality, after @ ..] = rest {
        let property = quality.property.as_slice();
        add_having(alloc, claims, name, property, quality.value, line)?;
        rest = after;
    }
    Ok(())
}

fn add_each_qualities(
    alloc: Global,
    claims: &mut Vec<Claim>,
    qualities: &[Quality],
    subjects: &[Name],
    line: u32,
) -> Result<(), AllocError>
    ensures { OnOk result (claims.new.items ≡ claims.old.items ++ flat_map (has_all qualities.now line) subjects.now) }
{
    let mut rest = subjects;
    while let [name, after @ ..] = rest {
        add_qualities(alloc, claims, name, qualities, line)?;
        rest = after;
    }
    Ok(())
}

fn add_all_qualities(
    alloc: Global,
    claims: &mut Vec<Claim>,
    what: &Option<What>,
    subjects: &[Name],
    line: u32,
) -> Result<(), AllocError>
    ensures { OnOk result (claims.new.items ≡ claims.old.items ++ flat_map (has_all (qualities_said what.now) line) subjects.now) }
{
    match what {
        None => add_each_qualities(alloc, claims, &[], subjects, line),
        Some(what) => {
            add_each_qualities(alloc, claims, what.qualities.as_slice(), subjects, line)
        }
    }
}

/// Adds what objects are said to be.
pub fn add_what(
    alloc: Global,
    claims: &mut Vec<Claim>,
    what: &Option<What>,
    words: &[u8],
    subjects: &[Name],
    line: u32,
) -> Result<(), AllocError>
    ensures { OnOk result (claims.new.items ≡ claims.old.items ++ what_claims what.now words.now subjects.now line) }
{
    add_demands(alloc, claims, what, words, subjects, line)?;
    add_all_qualities(alloc, claims, what, subjects, line)
}

/// Adds that what is worn is wearable.
fn add_worn(
    alloc: Global,
    claims: &mut Vec<Claim>,
    relation: Rel,
    name: &Name,
    line: u32,
) -> Result<(), AllocError>
    ensures { OnOk result (claims.new.items ≡ claims.old.items ++ worn_claims relation line name.now) }
{
    match relation {
        Rel::In | Rel::On | Rel::Carried | Rel::Part => Ok(()),
        Rel::Worn => add_having(alloc, claims, name, b"wearable", Value::Truth(true), line),
    }
}

/// Adds that a holder holds a thing.
fn add_placing(
    alloc: Global,
    claims: &mut Vec<Claim>,
    relation: Rel,
    holder: &Name,
    name: &Name,
    line: u32,
) -> Result<(), AllocError>
    ensures { OnOk result (claims.new.items ≡ claims.old.items ++ placed (record { relation = relation; name = holder.now }) line name.now) }
{
    add_demand(alloc, claims, b"thing", name, line)?;
    let placing = Placing {
        thing: key_text(alloc, name)?,
        relation,
        holder: key_text(alloc, holder)?,
    };
    claims.push(Claim {
        fact: Fact::Placed(placing),
        line,
    })?;
    add_worn(alloc, claims, relation, name, line)
}

fn add_each_placing(
    alloc: Global,
    claims: &mut Vec<Claim>,
    relation: Rel,
    holder: &Name,
    subjects: &[Name],
    line: u32,
) -> Result<(), AllocError>
    ensures { OnOk result (claims.new.items ≡ claims.old.items ++ flat_map (placed (record { relation = relation; name = holder.now }) line) subjects.now) }
{
    let mut rest = subjects;
    while let [name, after @ ..] = rest {
        add_placing(alloc, claims, relation, holder, name, line)?;
        rest = after;
    }
    Ok(())
}

/// Adds what a holder is demanded to be.
fn add_holder_demand(
    alloc: Global,
    claims: &mut Vec<Claim>,
    relation: Rel,
    holder: &Name,
    line: u32,
) -> Result<(), AllocError>
    ensures { OnOk result (claims.new.items ≡ claims.old.items ++ holder_demands relation holder.now line) }
{
    match relation {
        Rel::In => Ok(()),
        Rel::On => add_demand(alloc, claims, b"supporter", holder, line),
        Rel::Carried => add_demand(alloc, claims, b"person", holder, line),
        Rel::Worn => add_demand(alloc, claims, b"person", holder, line),
        Rel::Part => add_demand(alloc, claims, b"thing", holder, line),
    }
}

/// Adds that a holder holds objects.
pub fn add_held(
    alloc: Global,
    claims: &mut Vec<Claim>,
    relation: Rel,
    holder: &Name,
    subjects: &[Name],
    line: u32,
) -> Result<(), AllocError>
    ensures { OnOk result (claims.new.items ≡ claims.old.items ++ placings_said (Some (record { relation = relation; name = holder.now })) subjects.now line) }
{
    add_holder_demand(alloc, claims, relation, holder, line)?;
    add_each_placing(alloc, claims, relation, holder, subjects, line)
}

/// Adds where objects are placed, if that is told.
pub fn add_placings(
    alloc: Global,
    claims: &mut Vec<Claim>,
    place: &Option<Holder>,
    subjects: &[Name],
    line: u32,
) -> Result<(), AllocError>
    ensures { OnOk result (claims.new.items ≡ claims.old.items ++ placings_said place.now subjects.now line) }
{
    match place {
        None => Ok(()),
        Some(holder) => { add_held(alloc, claims, holder.relation, &holder.name, subjects, line) }
    }
}
