//! The rooms with what stands in them, the doors, and what stands nowhere.
use crate::html::Html;
use crate::map::has_back;
use crate::naming::name_at;
use crate::properties::add_properties;
use crate::tale_index::{IndexWay, TaleIndex};
use std::alloc::{AllocError, Global};
use world_meaning::{KindNo, Rel};

/// A text up to the end of its first line.
fn first_line(text: &[u8]) -> &[u8] {
    match text.iter().position(|byte| *byte == b'\n') {
        None => text,
        Some(end) => match text.split_at_checked(end) {
            None => text,
            Some((line, _)) => line,
        },
    }
}

/// Adds the first line of an object's description, as it is written.
fn add_description(
    page: &mut Html,
    index: &TaleIndex<'_>,
    object: usize,
) -> Result<(), AllocError> {
    let Some(found) = index.objects().get(object) else {
        return Ok(());
    };
    let Some(text) = &found.description else {
        return Ok(());
    };
    page.markup("<p class=\"text\">")?;
    page.text(first_line(text.as_slice()))?;
    page.markup("</p>\n")
}

/// Adds the kind of an object, which leads to the kind's entry.
fn add_kind(page: &mut Html, index: &TaleIndex<'_>, object: usize) -> Result<(), AllocError> {
    let Some(found) = index.objects().get(object) else {
        return Ok(());
    };
    let kind = usize::from(found.kind.get());
    page.markup(" <span class=\"soft\">")?;
    page.link("k", kind, name_at(index.naming.kinds.as_slice(), kind))?;
    page.markup("</span>")
}

/// How a thing is held, as a word in front of it.
fn held_so(relation: Rel) -> &'static str {
    match relation {
        Rel::In => "",
        Rel::On => "<span class=\"soft\">on it</span> ",
        Rel::Carried => "<span class=\"soft\">carried</span> ",
        Rel::Worn => "<span class=\"soft\">worn</span> ",
        Rel::Part => "<span class=\"soft\">part of it</span> ",
    }
}

/// How an object is held.
fn relation_of(index: &TaleIndex<'_>, object: usize) -> Option<Rel> {
    let place = index.objects().get(object)?.place?;
    Some(place.relation)
}

/// Adds a thing: how it is held, its name, its kind, its line and its properties.
fn add_thing(
    page: &mut Html,
    index: &TaleIndex<'_>,
    object: usize,
    deep: usize,
) -> Result<(), AllocError> {
    page.markup("<li id=\"o")?;
    page.count(object)?;
    page.markup("\" style=\"--deep:")?;
    page.count(deep.min(20))?;
    page.markup("\">")?;
    if let Some(relation) = relation_of(index, object) {
        page.markup(held_so(relation))?;
    }
    page.text(index.object_name(object))?;
    add_kind(page, index, object)?;
    page.line(index.object_line(object))?;
    add_properties(page, index, object)?;
    page.markup("</li>\n")
}

/// Puts what an object holds on the stack, the last in front.
fn push_held(
    index: &TaleIndex<'_>,
    object: usize,
    deep: usize,
    left: &mut Vec<(usize, usize)>,
) -> Result<(), AllocError> {
    let held = index.held_by(object);
    for place in 0..held.len() {
        let last = held.len().saturating_sub(1).saturating_sub(place);
        if let Some(inside) = held.get(last) {
            left.push((*inside, deep))?;
        }
    }
    Ok(())
}

/// Adds things with all that they hold, at any depth.
fn add_things(
    page: &mut Html,
    index: &TaleIndex<'_>,
    mut left: Vec<(usize, usize)>,
) -> Result<(), AllocError> {
    page.markup("<ul class=\"plain tree\">\n")?;
    for _ in 0..index.objects().len() {
        let Some((object, deep)) = left.pop() else {
            break;
        };
        add_thing(page, index, object, deep)?;
        push_held(index, object, deep.saturating_add(1), &mut left)?;
    }
    page.markup("</ul>\n")
}

/// Adds what an object holds, at any depth.
fn add_held(
    alloc: Global,
    page: &mut Html,
    index: &TaleIndex<'_>,
    object: usize,
) -> Result<(), AllocError> {
    if index.held_by(object).is_empty() {
        return Ok(());
    }
    let mut left = Vec::new(alloc);
    push_held(index, object, 0, &mut left)?;
    add_things(page, index, left)
}

/// Adds a way that leads from a room, and whether none leads back as it leads there.
fn add_way(page: &mut Html, index: &TaleIndex<'_>, way: &IndexWay) -> Result<(), AllocError> {
    let room = index.room(way.way.to);
    page.text(way.way.direction.name())?;
    page.markup(" to ")?;
    page.link("o", room, index.object_name(room))?;
    if let Some(door) = way.door {
        let door = usize::from(door.get());
        page.markup(" by ")?;
        page.link("o", door, index.object_name(door))?;
    }
    if !has_back(index.ways.as_slice(), way) {
        page.markup(" <span class=\"mark\">no way back by the ")?;
        page.text(way.way.direction.opposite().name())?;
        page.markup("</span>")?;
    }
    Ok(())
}

/// Adds the ways that lead from a room.
fn add_ways(page: &mut Html, index: &TaleIndex<'_>, place: usize) -> Result<(), AllocError> {
    let mut is_first = true;
    page.markup("<p>")?;
    for way in index.ways.as_slice() {
        if way.way.from == place {
            page.markup(if is_first { "Ways: " } else { "; " })?;
            add_way(page, index, way)?;
            is_first = false;
        }
    }
    if is_first {
        page.markup("<span class=\"mark\">no way leads out</span>")?;
    }
    page.markup("</p>\n")
}

/// Adds a room with its ways and with what stands in it.
fn add_room(
    alloc: Global,
    page: &mut Html,
    index: &TaleIndex<'_>,
    place: usize,
) -> Result<(), AllocError> {
    let object = index.room(place);
    page.open("h3", "o", object)?;
    page.text(index.object_name(object))?;
    page.line(index.object_line(object))?;
    if !index.is_reached(place) {
        page.markup(" <span class=\"mark\">no way from the start leads here</span>")?;
    }
    page.markup("</h3>\n")?;
    add_properties(page, index, object)?;
    add_description(page, index, object)?;
    add_ways(page, index, place)?;
    add_held(alloc, page, index, object)
}

/// Whether an object is a thing of the author's that stands nowhere as the story begins; doors stand between rooms.
pub fn is_nowhere(index: &TaleIndex<'_>, object: usize) -> bool {
    match index.objects().get(object) {
        None => false,
        Some(found) => {
            found.place.is_none()
                && index.is_of(object, KindNo::THING)
                && !index.is_of(object, KindNo::DOOR)
        }
    }
}

/// Adds the things that stand nowhere, with what they hold.
fn add_nowhere(alloc: Global, page: &mut Html, index: &TaleIndex<'_>) -> Result<(), AllocError> {
    page.markup("<h3 id=\"nowhere\">What stands nowhere</h3>\n")?;
    let mut left = Vec::new(alloc);
    for place in 0..index.objects().len() {
        let last = index
            .objects()
            .len()
            .saturating_sub(1)
            .saturating_sub(place);
        if is_nowhere(index, last) {
            left.push((last, 0))?;
        }
    }
    if left.is_empty() {
        return page.markup(
            "<p class=\"soft\">Everything stands somewhere as the story begins.</p>\n",
        );
    }
    add_things(page, index, left)
}

/// Adds a door: its name, its line, its properties, the ways on which it is, and what is part of it.
fn add_door(
    alloc: Global,
    page: &mut Html,
    index: &TaleIndex<'_>,
    door: usize,
) -> Result<(), AllocError> {
    page.open("li", "o", door)?;
    page.text(index.object_name(door))?;
    add_kind(page, index, door)?;
    page.line(index.object_line(door))?;
    add_properties(page, index, door)?;
    for way in index.ways.as_slice() {
        if let Some(on) = way.door
            && usize::from(on.get()) == door
        {
            page.markup("; ")?;
            page.text(way.way.direction.name())?;
            page.markup(" of ")?;
            let room = index.room(way.way.from);
            page.link("o", room, index.object_name(room))?;
        }
    }
    add_held(alloc, page, index, door)?;
    page.markup("</li>\n")
}

/// Adds the doors, if there are any.
fn add_doors(alloc: Global, page: &mut Html, index: &TaleIndex<'_>) -> Result<(), AllocError> {
    let mut is_first = true;
    for object in 0..index.objects().len() {
        if index.is_of(object, KindNo::DOOR) {
            if is_first {
                page.markup("<h3 id=\"doors\">Doors</h3>\n<ul class=\"plain\">\n")?;
            }
            is_first = false;
            add_door(alloc, page, index, object)?;
        }
    }
    if is_first {
        return Ok(());
    }
    page.markup("</ul>\n")
}

/// Adds the world: rooms, doors, and what stands nowhere.
pub fn add_world(alloc: Global, page: &mut Html, index: &TaleIndex<'_>) -> Result<(), AllocError> {
    page.heading("world", "World")?;
    for place in 0..index.rooms.len() {
        add_room(alloc, page, index, place)?;
    }
    add_doors(alloc, page, index)?;
    add_nowhere(alloc, page, index)
}
