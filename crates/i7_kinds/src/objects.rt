//! The objects of a tale: the player, the directions, and the author's.
ghost use Rattle.std.specs.Prelude.{◌≡◌, ◌≤◌, ◌++◌, ◌∷◌, [], IfOk, OnOk, length, option_copied};
ghost use Rattle.world_meaning.specs.Directions.{direction_number};
ghost use Rattle.world_meaning.specs.Standing.{place_at};
ghost use Rattle.i7_kinds.specs.Bounds.{IsSmall, LeadWithin};
ghost use Rattle.i7_kinds.specs.Demands.{target_of};
ghost use Rattle.i7_kinds.specs.Making.{made_of};
ghost use Rattle.i7_kinds.specs.StatedWays.{stated};
ghost use Rattle.i7_kinds.specs.Tales.{entries_of, exits_by, exits_of, kind_at, object_as, object_of, objects_of, way_to};
ghost use Rattle.i7_kinds.specs.ValueKinds.{AreFewValues};
ghost use Rattle.i7_claims.specs.Views.{mentions_of};

use crate::descriptions::Descriptions;
use crate::entries::{Entry, entries_of};
use crate::numbers::numbers_of;
use crate::properties::properties_of;
use crate::value_kinds::choices_of;
use crate::values::Values;
use crate::ways::Ways;
use i7_claims::Mention;
use std::alloc::{AllocError, Global};
use world_meaning::{
    Direction, Exits, Granted, KindNo, Listed, ObjNo, Object, Place, TextBytes, ValueKind, Way,
    is_under,
};

/// What the objects of a tale are made from: their kinds and places, which kinds have which properties, kinds of value, what sentences
/// say of those and what is usual, the texts that describe rooms, and ways.
#[derive(Drop)]
pub struct Makings<'a> {
    pub parents: &'a [Option<KindNo>],
    pub kinds: &'a [KindNo],
    pub places: &'a [Option<Place>],
    pub flags: &'a [Granted],
    pub numbers: &'a [Granted],
    pub value_kinds: &'a [ValueKind],
    pub values: &'a Values,
    pub usuals: &'a Values,
    pub descriptions: &'a Descriptions<'a>,
    pub ways: &'a Ways<'a>,
}

fn door_no(door: Option<usize>) -> Option<ObjNo>
    requires { IsSmall door }
    ensures { result ≡ door }
{
    match door {
        None => None,
        Some(door) => Some(ObjNo::new(door as u16)),
    }
}

/// The way out of a room in a direction.
fn way_of(ways: &Ways<'_>, room: usize, direction: Direction) -> Way
    requires { LeadWithin (stated ways.now) }
    ensures { result ≡ way_to (target_of (stated ways.now) room (direction_number direction)) }
{
    match ways.target_of(room, direction) {
        None => Way::NONE,
        Some(target) => Way {
            room: Some(ObjNo::new(target.room as u16)),
            door: door_no(target.door),
        },
    }
}

/// The ways out of a room.
#[tactic(auto, unfolding(crate::specs::Tales::exits_of))]
fn exits_of(ways: &Ways<'_>, room: usize) -> Exits
    requires { LeadWithin (stated ways.now) }
    ensures { result ≡ exits_of (stated ways.now) room }
{
    Exits {
        ways: [
            way_of(ways, room, Direction::North),
            way_of(ways, room, Direction::Northeast),
            way_of(ways, room, Direction::Northwest),
            way_of(ways, room, Direction::South),
            way_of(ways, room, Direction::Southeast),
            way_of(ways, room, Direction::Southwest),
            way_of(ways, room, Direction::East),
            way_of(ways, room, Direction::West),
            way_of(ways, room, Direction::Up),
            way_of(ways, room, Direction::Down),
            way_of(ways, room, Direction::Inside),
            way_of(ways, room, Direction::Outside),
        ],
    }
}

fn copied(alloc: Global, text: Option<&[u8]>) -> Result<Option<TextBytes>, AllocError>
    ensures { IfOk result (λ copy. copy ≡ option_copied text.entry) }
{
    match text {
        Some(text) => Ok(Some(TextBytes::copied(alloc, text)?)),
        None => Ok(None),
    }
}

/// The ways of an object: rooms have some.
fn exits_by(makings: &Makings<'_>, kind: KindNo, number: usize) -> Exits
    requires { LeadWithin (stated makings.now.ways.now) }
    ensures { result ≡ exits_by makings.now.parents.now (stated makings.now.ways.now) kind number }
{
    if is_under(makings.parents, kind, KindNo::ROOM) {
        exits_of(makings.ways, number)
    } else {
        Exits {
            ways: [Way::NONE; 12],
        }
    }
}

fn kind_at(kinds: &[KindNo], number: usize) -> KindNo
    ensures { result ≡ kind_at kinds.now number }
{
    match kinds.get(number) {
        Some(kind) => *kind,
        None => KindNo::THING,
    }
}

fn place_at(places: &[Option<Place>], number: usize) -> Option<Place>
    ensures { result ≡ place_at places.now number }
{
    match places.get(number) {
        Some(place) => *place,
        None => None,
    }
}

/// An object of a kind.
#[tactic(auto, unfolding(crate::specs::Tales::object_as))]
fn object_as(
    alloc: Global,
    makings: &Makings<'_>,
    kind: KindNo,
    number: usize,
    entry: &Entry<'_>,
) -> Result<Object, AllocError>
    requires within { LeadWithin (stated makings.now.ways.now) }
    requires few_flags { length makings.now.flags.now ≤ 100 }
    requires few_numbers { length makings.now.numbers.now ≤ 100 }
    requires few_values { AreFewValues makings.now.value_kinds.now }
    ensures { IfOk result (λ object. object ≡ object_as (made_of makings.now) kind number entry.now) }
{
    Ok(Object {
        kind,
        name: TextBytes::copied(alloc, entry.name.as_slice())?,
        article: entry.article,
        description: copied(alloc, makings.descriptions.of(number))?,
        place: place_at(makings.places, number),
        exits: exits_by(makings, kind, number),
        properties: Listed::new(properties_of(alloc, makings, number, kind)?),
        numbers: Listed::new(numbers_of(alloc, makings, number, kind)?),
        values: Listed::new(choices_of(alloc, makings, number, kind)?),
    })
}

/// Puts an object behind the others.
fn push_object(
    alloc: Global,
    objects: &mut Vec<Object>,
    makings: &Makings<'_>,
    number: usize,
    entry: &Entry<'_>,
) -> Result<(), AllocError>
    requires within { LeadWithin (stated makings.now.ways.now) }
    requires few_flags { length makings.now.flags.now ≤ 100 }
    requires few_numbers { length makings.now.numbers.now ≤ 100 }
    requires few_values { AreFewValues makings.now.value_kinds.now }
    ensures { OnOk result (objects.new.items ≡ objects.old.items ++ object_of (made_of makings.now) number entry.now ∷ []) }
{
    let kind = kind_at(makings.kinds, number);
    objects.push(object_as(alloc, makings, kind, number, entry)?)?;
    Ok(())
}

/// The objects of these names.
#[tactic(auto, using(crate::proofs::ObjectsBehind::object_behind))]
fn objects_from(
    alloc: Global,
    makings: &Makings<'_>,
    entries: &[Entry<'_>],
) -> Result<Vec<Object>, AllocError>
    requires within { LeadWithin (stated makings.now.ways.now) }
    requires few_flags { length makings.now.flags.now ≤ 100 }
    requires few_numbers { length makings.now.numbers.now ≤ 100 }
    requires few_values { AreFewValues makings.now.value_kinds.now }
    ensures { IfOk result (λ objects. objects.items ≡ objects_of (made_of makings.now) 0 entries.now) }
{
    let mut objects = Vec::with_capacity(alloc, entries.len())?;
    let mut number = 0;
    let mut rest = entries;
    while let [entry, after @ ..] = rest {
        push_object(alloc, &mut objects, makings, number, entry)?;
        number += 1;
        rest = after;
    }
    Ok(objects)
}

/// The objects of a tale, in order.
pub fn objects_of(
    alloc: Global,
    mentions: &[Mention<'_>],
    makings: &Makings<'_>,
) -> Result<Listed<Object>, AllocError>
    requires within { LeadWithin (stated makings.now.ways.now) }
    requires few_flags { length makings.now.flags.now ≤ 100 }
    requires few_numbers { length makings.now.numbers.now ≤ 100 }
    requires few_values { AreFewValues makings.now.value_kinds.now }
    ensures { IfOk result (λ objects. objects ≡ objects_of (made_of makings.now) 0 (entries_of (mentions_of mentions.now))) }
{
    let entries = entries_of(alloc, mentions)?;
    let objects = objects_from(alloc, makings, entries.as_slice())?;
    Ok(Listed::new(objects))
}
