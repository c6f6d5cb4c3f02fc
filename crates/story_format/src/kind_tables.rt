//! Whether objects have what their kinds have: it is told once for each kind.
ghost use Rattle.std.specs.Prelude.{◌≡◌, ◌≤◌, IfOk, length, true};
ghost use Rattle.std.specs.List.{list_all};
ghost use Rattle.story_format.specs.KindTables.{all_had, count_told, had_by, is_told_had, suits_told};
ghost use Rattle.story_format.specs.Sizes.{is_right_entry};
ghost use Rattle.story_format.specs.WorldChecks.{suits_kind};
ghost use Rattle.world_meaning.specs.Sorts.{is_at};

use crate::row::Sizes;
use crate::tables::Entry;
use crate::world_checks::{are_rising, is_had};
use crate::world_tables::WorldTables;
use std::alloc::{AllocError, Global};
use world_meaning::{Granted, KindNo, Listed, is_at};

/// Of each kind, by number, whether its objects have a property.
fn had_by(
    alloc: Global,
    parents: &[Option<KindNo>],
    granted: &Granted,
) -> Result<Listed<bool>, AllocError>
    requires { length parents.now ≤ 100 }
    ensures { IfOk result (λ had. had ≡ had_by parents.now granted.now) }
{
    let mut had = Vec::new(alloc);
    let mut kind = 0u8;
    let mut left = parents;
    while let [_, after @ ..] = left {
        had.push(is_had(parents, KindNo::new(kind), granted))?;
        kind += 1;
        left = after;
    }
    Ok(Listed::new(had))
}

/// Of each property, which kinds' objects have it.
fn all_had(
    alloc: Global,
    parents: &[Option<KindNo>],
    granted: &[Granted],
) -> Result<Vec<Listed<bool>>, AllocError>
    requires { length parents.now ≤ 100 }
    ensures { IfOk result (λ all. all.items ≡ all_had parents.now granted.now) }
{
    let mut all = Vec::new(alloc);
    let mut rest = granted;
    while let [one, after @ ..] = rest {
        all.push(had_by(alloc, parents, one)?)?;
        rest = after;
    }
    Ok(all)
}

fn is_told_had(all: &[Listed<bool>], kind: u8, number: u8) -> bool
    ensures { result ≡ is_told_had all.now kind number }
{
    match all.get(number as usize) {
        None => false,
        Some(had) => is_at(had.as_slice(), kind as usize),
    }
}

fn each_is_told_had(all: &[Listed<bool>], kind: u8, numbers: &[u8]) -> bool
    ensures { result ≡ list_all (is_told_had all.now kind) numbers.now }
{
    numbers.iter().all(|number| is_told_had(all, kind, *number))
}

fn count_told(all: &[Listed<bool>], kind: u8) -> usize
    ensures { result ≡ count_told all.now kind }
{
    all.iter()
        .filter(|had| is_at(had.as_slice(), kind as usize))
        .count()
}

/// Whether an object has what is told of its kind.
fn suits_told(flags: &[Listed<bool>], numbers: &[Listed<bool>], entry: &Entry) -> bool
    ensures { result ≡ suits_told flags.now numbers.now entry.now }
{
    are_rising(entry.properties.as_slice())
        && each_is_told_had(flags, entry.kind, entry.properties.as_slice())
        && entry.numbers.as_slice().len() == count_told(numbers, entry.kind)
}

fn suit_told(flags: &[Listed<bool>], numbers: &[Listed<bool>], entries: &[Entry]) -> bool
    ensures { result ≡ list_all (suits_told flags.now numbers.now) entries.now }
{
    entries
        .iter()
        .all(|entry| suits_told(flags, numbers, entry))
}

/// Whether each object has what its kind has.
#[tactic(auto, using(crate::proofs::KindLemmas::all_told))]
pub fn suit_kinds(
    alloc: Global,
    sizes: Sizes,
    world: &WorldTables,
    entries: &[Entry],
) -> Result<bool, AllocError>
    requires few { length world.now.kinds ≤ 100 }
    requires sizes { sizes.kinds ≡ length world.now.kinds }
    requires right { list_all (is_right_entry sizes) entries.now ≡ true }
    ensures { IfOk result (λ suit. suit ≡ list_all (suits_kind world.now) entries.now) }
{
    let parents = world.kinds.as_slice();
    let flags = all_had(alloc, parents, world.flags.as_slice())?;
    let numbers = all_had(alloc, parents, world.numbers.as_slice())?;
    Ok(suit_told(flags.as_slice(), numbers.as_slice(), entries))
}
