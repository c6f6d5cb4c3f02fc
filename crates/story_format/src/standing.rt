//! Where table 6 says that objects are, and whether they may be there.
ghost use Rattle.std.specs.Prelude.{◌≡◌, IfOk, map};
ghost use Rattle.world_meaning.specs.Standing.{is_at_or_none, lead_rightly, leads};
ghost use Rattle.std.specs.List.{list_all};
ghost use Rattle.story_format.specs.Checks.{are_right_ways, stand_rightly};
ghost use Rattle.std.specs.Prelude.{count_by};
ghost use Rattle.story_format.specs.Placed.{is_room_entry, kinds_in, places_in, sorts_in};

use crate::place::place_of;
use crate::tables::{Entry, Tables};
use std::alloc::{AllocError, Global};
use world_meaning::{
    Exits, KindNo, ObjNo, Place, Sorts, Way, are_well_placed, have_ends, is_at, is_under, sorts_of,
};

fn kinds_in(alloc: Global, entries: &[Entry]) -> Result<Vec<KindNo>, AllocError>
    ensures { IfOk result (λ kinds. kinds.items ≡ kinds_in entries.now) }
{
    entries
        .iter()
        .map(|entry| KindNo::new(entry.kind))
        .collect(alloc)
}

/// Where the objects of these entries are.
pub fn places_in(alloc: Global, entries: &[Entry]) -> Result<Vec<Option<Place>>, AllocError>
    ensures { IfOk result (λ places. places.items ≡ places_in entries.now) }
{
    entries.iter().map(|entry| place_of(entry)).collect(alloc)
}

/// Which objects are of the built-in kinds or of kinds below them.
pub fn sorts_in(alloc: Global, tables: &Tables) -> Result<Sorts, AllocError>
    ensures { IfOk result (λ sorts. sorts ≡ sorts_in tables.now) }
{
    let kinds = kinds_in(alloc, tables.objects.as_slice())?;
    let sorts = sorts_of(alloc, tables.world.kinds.as_slice(), kinds.as_slice())?;
    Ok(sorts)
}

/// Whether each object is where it may be, and none stands in itself.
#[tactic(auto, unfolding(crate::specs::Checks::stand_rightly))]
pub fn stand_rightly(alloc: Global, tables: &Tables, sorts: &Sorts) -> Result<bool, AllocError>
    requires { sorts.now ≡ sorts_in tables.now }
    ensures { IfOk result (λ right. right ≡ stand_rightly tables.now) }
{
    let places = places_in(alloc, tables.objects.as_slice())?;
    Ok(are_well_placed(sorts, places.as_slice()) && have_ends(places.as_slice()))
}

pub fn is_room_entry(parents: &[Option<KindNo>], entry: &Entry) -> bool
    ensures { result ≡ is_room_entry parents.now entry.now }
{
    is_under(parents, KindNo::new(entry.kind), KindNo::ROOM)
}

pub fn count_of_rooms(parents: &[Option<KindNo>], entries: &[Entry]) -> usize
    ensures { result ≡ count_by (is_room_entry parents.now) entries.now }
{
    entries
        .iter()
        .filter(|entry| is_room_entry(parents, entry))
        .count()
}

fn is_at_or_none(told: &[bool], object: Option<ObjNo>) -> bool
    ensures { result ≡ is_at_or_none told.now object }
{
    match object {
        None => true,
        Some(object) => is_at(told, object.get() as usize),
    }
}

fn leads(sorts: &Sorts, way: &Way) -> bool
    ensures { result ≡ leads sorts.now way.now }
{
    is_at_or_none(sorts.rooms.as_slice(), way.room)
        && is_at_or_none(sorts.doors.as_slice(), way.door)
}

fn each_leads(sorts: &Sorts, ways: &[Way]) -> bool
    ensures { result ≡ list_all (leads sorts.now) ways.now }
{
    ways.iter().all(|way| leads(sorts, way))
}

#[tactic(auto, unfolding(world_meaning::specs::Standing::lead_rightly))]
fn lead_rightly(sorts: &Sorts, exits: &Exits) -> bool
    ensures { result ≡ lead_rightly sorts.now exits.now }
{
    let ways = exits.ways.as_slice();
    ways.len() == 12 && each_leads(sorts, ways)
}

fn all_lead_rightly(sorts: &Sorts, all: &[Exits]) -> bool
    ensures { result ≡ list_all (lead_rightly sorts.now) all.now }
{
    all.iter().all(|exits| lead_rightly(sorts, exits))
}

/// Whether each room has ways, to rooms and by doors.
#[tactic(auto, unfolding(crate::specs::Checks::are_right_ways))]
pub fn are_right_ways(tables: &Tables, sorts: &Sorts) -> bool
    requires { sorts.now ≡ sorts_in tables.now }
    ensures { result ≡ are_right_ways tables.now }
{
    let ways = tables.ways.as_slice();
    ways.len() == count_of_rooms(tables.world.kinds.as_slice(), tables.objects.as_slice())
        && all_lead_rightly(sorts, ways)
}
