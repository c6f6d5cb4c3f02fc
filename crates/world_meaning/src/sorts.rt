//! Which objects are of the built-in kinds, and what these may hold.
ghost use Rattle.std.specs.Prelude.{◌≡◌, IfOk};
ghost use Rattle.world_meaning.specs.Placing.{can_be_held, can_hold};
ghost use Rattle.world_meaning.specs.Sorts.{is_at, kinds_told, sorts_of, under_each};
ghost use Rattle.world_meaning.specs.Standing.{are_well_placed, is_well_placed};

use crate::kinds::{KindNo, is_under};
use crate::listed::Listed;
use crate::place::{Place, Rel};
use std::alloc::{AllocError, Global};

/// Of each object, by number, whether it is of these kinds or of kinds below them.
#[derive(Drop)]
pub struct Sorts {
    pub things: Listed<bool>,
    pub rooms: Listed<bool>,
    pub doors: Listed<bool>,
    pub containers: Listed<bool>,
    pub supporters: Listed<bool>,
    pub persons: Listed<bool>,
}

/// Of each kind, whether it lies under another or is it.
fn all_under(
    alloc: Global,
    parents: &[Option<KindNo>],
    kinds: &[KindNo],
    other: KindNo,
) -> Result<Vec<bool>, AllocError>
    ensures { IfOk result (λ told. told.items ≡ under_each parents.now kinds.now other) }
{
    kinds
        .iter()
        .map(|kind| is_under(parents, *kind, other))
        .collect(alloc)
}

fn under_each(
    alloc: Global,
    parents: &[Option<KindNo>],
    kinds: &[KindNo],
    other: KindNo,
) -> Result<Listed<bool>, AllocError>
    ensures { IfOk result (λ told. told ≡ under_each parents.now kinds.now other) }
{
    Ok(Listed::new(all_under(alloc, parents, kinds, other)?))
}

/// Of objects of these kinds, which are of the built-in kinds or of kinds below them.
#[tactic(auto, unfolding(crate::specs::Sorts::sorts_of))]
pub fn sorts_of(
    alloc: Global,
    parents: &[Option<KindNo>],
    kinds: &[KindNo],
) -> Result<Sorts, AllocError>
    ensures { IfOk result (λ sorts. sorts ≡ sorts_of parents.now kinds.now) }
{
    Ok(Sorts {
        things: under_each(alloc, parents, kinds, KindNo::THING)?,
        rooms: under_each(alloc, parents, kinds, KindNo::ROOM)?,
        doors: under_each(alloc, parents, kinds, KindNo::DOOR)?,
        containers: under_each(alloc, parents, kinds, KindNo::CONTAINER)?,
        supporters: under_each(alloc, parents, kinds, KindNo::SUPPORTER)?,
        persons: under_each(alloc, parents, kinds, KindNo::PERSON)?,
    })
}

/// What is told of an object; no for a number that no object has.
pub fn is_at(told: &[bool], object: usize) -> bool
    ensures { result ≡ is_at told.now object }
{
    match told.get(object) {
        Some(is) => *is,
        None => false,
    }
}

fn can_hold(sorts: &Sorts, relation: Rel, holder: usize) -> bool
    ensures { result ≡ can_hold (kinds_told sorts.now) relation holder }
{
    match relation {
        Rel::In => {
            is_at(sorts.rooms.as_slice(), holder) || is_at(sorts.containers.as_slice(), holder)
        }
        Rel::On => is_at(sorts.supporters.as_slice(), holder),
        Rel::Carried => is_at(sorts.persons.as_slice(), holder),
        Rel::Worn => is_at(sorts.persons.as_slice(), holder),
        Rel::Part => is_at(sorts.things.as_slice(), holder),
    }
}

fn can_be_held(sorts: &Sorts, object: usize) -> bool
    ensures { result ≡ can_be_held (kinds_told sorts.now) object }
{
    is_at(sorts.things.as_slice(), object) && !is_at(sorts.doors.as_slice(), object)
}

fn is_well_placed(sorts: &Sorts, object: usize, place: Option<Place>) -> bool
    ensures { result ≡ is_well_placed (kinds_told sorts.now) object place }
{
    match place {
        None => true,
        Some(place) => {
            can_be_held(sorts, object)
                && can_hold(sorts, place.relation, place.holder.get() as usize)
        }
    }
}

/// Whether each object is where it may be.
#[tactic(auto, unfolding(crate::specs::Standing::are_well_placed))]
pub fn are_well_placed(sorts: &Sorts, places: &[Option<Place>]) -> bool
    ensures { result ≡ are_well_placed (kinds_told sorts.now) 0 places.now }
{
    let mut object = 0usize;
    let mut rest = places;
    while let [place, after @ ..] = rest {
        if !is_well_placed(sorts, object, *place) {
            return false;
        }
        object += 1;
        rest = after;
    }
    true
}
