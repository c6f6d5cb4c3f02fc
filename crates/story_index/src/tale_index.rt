//! What the parts of the page are told of: a source's rulebooks with its outline, its names, its rooms and ways, and what stands in what.
use crate::naming::Naming;
use room_map::RoomWay;
use rule_listing::Rulebooks;
use source_outline::Outline;
use std::alloc::{AllocError, Global};
use story_format::Story;
use world_meaning::{Direction, KindNo, ObjNo, Object, Tale, is_under};

/// What is told of.
#[derive(Drop)]
pub struct TaleIndex<'a> {
    pub books: &'a Rulebooks<'a>,
    pub naming: &'a Naming,
    /// The rooms, by their objects' numbers, in order.
    pub rooms: Vec<usize>,
    /// The ways between them.
    pub ways: Vec<IndexWay>,
    /// Of each object, by number, those that it holds.
    pub held: Vec<Vec<usize>>,
    /// Of each room, by its place among the rooms, whether ways lead to it from where the story begins.
    pub reached: Vec<bool>,
}

/// A way between two rooms, and the door on it.
#[derive(Clone, Copy)]
pub struct IndexWay {
    /// The rooms by their places among the rooms.
    pub way: RoomWay,
    pub door: Option<ObjNo>,
}

impl<'a> TaleIndex<'a> {
    pub fn outline(&self) -> &'a Outline {
        self.books.outline
    }

    pub fn story(&self) -> &'a Story {
        &self.books.outline.story
    }

    pub fn tale(&self) -> &'a Tale {
        &self.books.outline.meant.tale
    }

    /// The kinds above the kinds, by number.
    pub fn parents(&self) -> &'a [Option<KindNo>] {
        self.tale().declared.kinds.as_slice()
    }

    /// The objects, by number.
    pub fn objects(&self) -> &'a [Object] {
        self.tale().objects.as_slice()
    }

    /// The name of an object as it is printed.
    pub fn object_name(&self, object: usize) -> &'a [u8] {
        match self.objects().get(object) {
            None => b"?",
            Some(found) => found.name.as_slice(),
        }
    }

    /// The line that names an object first.
    pub fn object_line(&self, object: usize) -> Option<u32> {
        *self.naming.objects.get(object)?
    }

    /// Whether an object is of a kind, or of one below it.
    pub fn is_of(&self, object: usize, kind: KindNo) -> bool {
        match self.objects().get(object) {
            None => false,
            Some(found) => is_under(self.parents(), found.kind, kind),
        }
    }

    /// The object of a room's place.
    pub fn room(&self, place: usize) -> usize {
        self.rooms.get(place).copied().unwrap_or(0)
    }

    /// Whether ways lead to a room from where the story begins.
    pub fn is_reached(&self, place: usize) -> bool {
        self.reached.get(place).copied().unwrap_or(false)
    }

    /// What an object holds.
    pub fn held_by(&self, object: usize) -> &[usize] {
        match self.held.get(object) {
            None => &[],
            Some(held) => held.as_slice(),
        }
    }
}

/// The number of an object as one that a story takes.
pub fn number(object: usize) -> ObjNo {
    ObjNo::new(u16::try_from(object).unwrap_or(u16::MAX))
}

/// The rooms of a tale.
pub fn rooms_of(alloc: Global, tale: &Tale) -> Result<Vec<usize>, AllocError> {
    let mut rooms = Vec::new(alloc);
    let objects = tale.objects.as_slice();
    for place in 0..objects.len() {
        if let Some(object) = objects.get(place)
            && is_under(tale.declared.kinds.as_slice(), object.kind, KindNo::ROOM)
        {
            rooms.push(place)?;
        }
    }
    Ok(rooms)
}

/// Of each object what it holds.
pub fn held_in(alloc: Global, tale: &Tale) -> Result<Vec<Vec<usize>>, AllocError> {
    let objects = tale.objects.as_slice();
    let mut held: Vec<Vec<usize>> = Vec::new(alloc);
    for _ in objects {
        held.push(Vec::new(alloc))?;
    }
    for place in 0..objects.len() {
        if let Some(object) = objects.get(place)
            && let Some(at) = object.place
            && let Some(list) = held.get_mut(usize::from(at.holder.get()))
        {
            list.push(place)?;
        }
    }
    Ok(held)
}

/// Of each object its place among the rooms, if it is one.
fn places_of(
    alloc: Global,
    count: usize,
    rooms: &[usize],
) -> Result<Vec<Option<usize>>, AllocError> {
    let mut places = vec![in alloc; None; count]?;
    for place in 0..rooms.len() {
        if let Some(room) = rooms.get(place)
            && let Some(slot) = places.get_mut(*room)
        {
            *slot = Some(place);
        }
    }
    Ok(places)
}

/// Adds the ways that lead from a room.
fn add_ways(
    ways: &mut Vec<IndexWay>,
    object: &Object,
    from: usize,
    places: &[Option<usize>],
) -> Result<(), AllocError> {
    for direction in Direction::ALL {
        let Some(way) = object.exits.ways.get(direction as usize) else {
            continue;
        };
        if let Some(room) = way.room
            && let Some(Some(to)) = places.get(usize::from(room.get()))
        {
            ways.push(IndexWay {
                way: RoomWay {
                    from,
                    direction,
                    to: *to,
                },
                door: way.door,
            })?;
        }
    }
    Ok(())
}

/// The ways between the rooms of a tale.
pub fn ways_of(alloc: Global, tale: &Tale, rooms: &[usize]) -> Result<Vec<IndexWay>, AllocError> {
    let objects = tale.objects.as_slice();
    let places = places_of(alloc, objects.len(), rooms)?;
    let mut ways = Vec::new(alloc);
    for from in 0..rooms.len() {
        if let Some(room) = rooms.get(from)
            && let Some(object) = objects.get(*room)
        {
            add_ways(&mut ways, object, from, places.as_slice())?;
        }
    }
    Ok(ways)
}

/// The ways alone.
pub fn plain_ways(alloc: Global, ways: &[IndexWay]) -> Result<Vec<RoomWay>, AllocError> {
    let mut all = Vec::new(alloc);
    for way in ways {
        all.push(way.way)?;
    }
    Ok(all)
}

/// The place among the rooms of the one in which the story begins.
pub fn start_of(story: &Story, rooms: &[usize]) -> usize {
    let start = usize::from(story.start().get());
    rooms.iter().position(|room| *room == start).unwrap_or(0)
}
