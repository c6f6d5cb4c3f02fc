//! What tables 2 to 5 say: each test is named after what it asks.
ghost use Rattle.std.specs.Prelude.{◌≡◌, IfOk, map};
ghost use Rattle.world_meaning.specs.Properties.{built_in_properties};
ghost use Rattle.std.specs.List.{list_all};
ghost use Rattle.world_meaning.specs.Declarations.{are_right_grants, are_right_kinds, are_rising, begin_with_kinds, begin_with_properties};
ghost use Rattle.world_meaning.specs.Declarations.{is_below, is_granted, is_had, is_right_grant, is_rooted, is_same_kind};
ghost use Rattle.story_format.specs.WorldChecks.{is_right_world};

use crate::world_tables::WorldTables;
use std::alloc::{AllocError, Global};
use world_meaning::{
    Granted, KindNo, PROPERTIES, PropertyRow, ROOTS, built_in_parents, is_under_one,
};

/// Whether each number is above the one before it.
#[tactic(auto, unfolding(world_meaning::specs::Declarations::are_rising))]
pub fn are_rising(numbers: &[u8]) -> bool
    ensures { result ≡ are_rising 0 numbers.now }
{
    let mut next = 0usize;
    let mut rest = numbers;
    while let [number, after @ ..] = rest {
        let number = *number as usize;
        if number < next {
            return false;
        }
        next = number + 1;
        rest = after;
    }
    true
}

fn is_same_kind(kind: Option<KindNo>, other: Option<KindNo>) -> bool
    ensures { result ≡ is_same_kind kind other }
{
    match (kind, other) {
        (None, None) => true,
        (Some(kind), Some(other)) => kind == other,
        _ => false,
    }
}

/// Whether the first kinds lie under these, in order.
#[tactic(auto, unfolding(world_meaning::specs::Declarations::begin_with_kinds))]
fn begin_with_kinds(parents: &[Option<KindNo>], others: &[Option<KindNo>]) -> bool
    ensures { result ≡ begin_with_kinds parents.now others.now }
{
    let mut parents = parents;
    let mut others = others;
    while let [other, later @ ..] = others {
        match parents {
            [parent, after @ ..] if is_same_kind(*parent, *other) => parents = after,
            _ => return false,
        }
        others = later;
    }
    true
}

fn is_rooted(parents: &[Option<KindNo>], parent: Option<KindNo>) -> bool
    ensures { result ≡ is_rooted parents.now parent }
{
    match parent {
        None => false,
        Some(parent) => is_under_one(parents, &ROOTS, parent),
    }
}

fn are_rooted(parents: &[Option<KindNo>], kinds: &[Option<KindNo>]) -> bool
    ensures { result ≡ list_all (is_rooted parents.now) kinds.now }
{
    kinds.iter().all(|parent| is_rooted(parents, *parent))
}

/// Whether the kinds are the built-in ones and the author's.
#[tactic(auto, unfolding(world_meaning::specs::Declarations::are_right_kinds))]
fn are_right_kinds(alloc: Global, parents: &[Option<KindNo>]) -> Result<bool, AllocError>
    ensures { IfOk result (λ right. right ≡ are_right_kinds parents.now) }
{
    let built_in = built_in_parents(alloc)?;
    if parents.len() > 100 || !begin_with_kinds(parents, built_in.as_slice()) {
        return Ok(false);
    }
    if parents.len() < 10 {
        return Ok(true);
    }
    let (_, own) = parents.split_at(10);
    Ok(are_rooted(parents, own))
}

fn is_granted(kinds: &[u8], kind: u8) -> bool
    ensures { result ≡ is_granted kinds.now kind }
{
    kinds.iter().any(|other| kind == *other)
}

fn are_granted(kinds: &[u8], others: &[u8]) -> bool
    ensures { result ≡ list_all (is_granted kinds.now) others.now }
{
    others.iter().all(|kind| is_granted(kinds, *kind))
}

/// Whether the first properties are had by the kinds of these rows at least, in order.
#[tactic(auto, unfolding(world_meaning::specs::Declarations::begin_with_properties))]
fn begin_with_properties(granted: &[Granted], rows: &[PropertyRow<'_>]) -> bool
    ensures { result ≡ begin_with_properties granted.now (map (λ row. record { kinds = row.2.now; true_of = row.3.now }) rows.now) }
{
    let mut granted = granted;
    let mut rows = rows;
    while let [row, others @ ..] = rows {
        match granted {
            [one, after @ ..] if are_granted(one.kinds.as_slice(), row.2) => granted = after,
            _ => return false,
        }
        rows = others;
    }
    true
}

fn are_below(count: usize, numbers: &[u8]) -> bool
    ensures { result ≡ list_all (is_below count) numbers.now }
{
    numbers.iter().all(|number| (*number as usize) < count)
}

pub fn is_right_grant(kinds: usize, granted: &Granted) -> bool
    ensures { result ≡ is_right_grant kinds granted.now }
{
    let given = granted.kinds.as_slice();
    are_rising(given) && are_below(kinds, given)
}

fn each_is_right(kinds: usize, granted: &[Granted]) -> bool
    ensures { result ≡ list_all (is_right_grant kinds) granted.now }
{
    granted.iter().all(|one| is_right_grant(kinds, one))
}

fn are_right_grants(kinds: usize, granted: &[Granted]) -> bool
    ensures { result ≡ are_right_grants kinds granted.now }
{
    granted.len() <= 100 && each_is_right(kinds, granted)
}

/// Whether the first properties are the built-in ones.
#[tactic(auto, unfolding(world_meaning::specs::Properties::built_in_properties))]
fn begin_built_in(granted: &[Granted]) -> bool
    ensures { result ≡ begin_with_properties granted.now built_in_properties }
{
    begin_with_properties(granted, &PROPERTIES)
}

/// Whether tables 2 to 5 are those of a story.
#[tactic(auto, unfolding(crate::specs::WorldChecks::is_right_world))]
pub fn is_right_world(alloc: Global, world: &WorldTables) -> Result<bool, AllocError>
    ensures { IfOk result (λ right. right ≡ is_right_world world.now) }
{
    let kinds = world.kinds.as_slice();
    Ok(
        are_right_kinds(alloc, kinds)?
            && begin_built_in(world.flags.as_slice())
            && are_right_grants(kinds.len(), world.flags.as_slice())
            && are_right_grants(kinds.len(), world.numbers.as_slice())
            && world.variables.as_slice().len() <= 100,
    )
}

/// Whether objects of a kind have the property that is given to these kinds.
pub fn is_had(parents: &[Option<KindNo>], kind: KindNo, granted: &Granted) -> bool
    ensures { result ≡ is_had parents.now kind granted.now }
{
    is_under_one(parents, granted.kinds.as_slice(), kind)
}
