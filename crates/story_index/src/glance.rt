//! What an author looks for first: ways and rooms that are lost, what stands nowhere, rules that are never asked, things that are alike.
use crate::html::Html;
use crate::map::has_back;
use crate::rules::{add_rule_link, unlisted};
use crate::tale_index::TaleIndex;
use crate::words::{add_object, alike};
use crate::world::is_nowhere;
use std::alloc::{AllocError, Global};

/// How many of a list are named.
const MOST: usize = 12;

/// Adds how many there are, and what they are: one, or any other number of them.
fn open_entry(
    page: &mut Html,
    count: usize,
    one: &'static str,
    many: &'static str,
) -> Result<(), AllocError> {
    page.markup("<li><b>")?;
    page.count(count)?;
    page.markup("</b> ")?;
    page.markup(if count == 1 { one } else { many })
}

/// Adds what stands in front of the one of this place in a list; whether it is named at all.
fn add_joint(page: &mut Html, place: usize) -> Result<bool, AllocError> {
    if place > MOST {
        return Ok(false);
    }
    if place == MOST {
        page.markup(", and more")?;
        return Ok(false);
    }
    page.markup(if place == 0 { ": " } else { ", " })?;
    Ok(true)
}

/// Adds objects.
fn add_objects(
    page: &mut Html,
    index: &TaleIndex<'_>,
    objects: &[usize],
) -> Result<(), AllocError> {
    for place in 0..objects.len() {
        if let Some(object) = objects.get(place)
            && add_joint(page, place)?
        {
            add_object(page, index, *object)?;
        }
    }
    page.markup("</li>\n")
}

/// The rooms that no way reaches.
fn lost_rooms(alloc: Global, index: &TaleIndex<'_>) -> Result<Vec<usize>, AllocError> {
    let mut rooms = Vec::new(alloc);
    for place in 0..index.rooms.len() {
        if !index.is_reached(place) {
            rooms.push(index.room(place))?;
        }
    }
    Ok(rooms)
}

/// The rooms from which a way leads that none leads back as it leads there; each once.
fn one_way_rooms(alloc: Global, index: &TaleIndex<'_>) -> Result<Vec<usize>, AllocError> {
    let ways = index.ways.as_slice();
    let mut rooms = Vec::new(alloc);
    for way in ways {
        let room = index.room(way.way.from);
        if !has_back(ways, way) && rooms.last() != Some(&room) {
            rooms.push(room)?;
        }
    }
    Ok(rooms)
}

/// The things that stand nowhere.
fn nowhere(alloc: Global, index: &TaleIndex<'_>) -> Result<Vec<usize>, AllocError> {
    let mut things = Vec::new(alloc);
    for object in 0..index.objects().len() {
        if is_nowhere(index, object) {
            things.push(object)?;
        }
    }
    Ok(things)
}

/// Adds the rules that stand in no rulebook.
fn add_unlisted(alloc: Global, page: &mut Html, index: &TaleIndex<'_>) -> Result<(), AllocError> {
    let rules = unlisted(alloc, index)?;
    open_entry(
        page,
        rules.len(),
        "rule in no rulebook",
        "rules in no rulebook",
    )?;
    for place in 0..rules.len() {
        if let Some(rule) = rules.get(place)
            && add_joint(page, place)?
        {
            add_rule_link(page, index, *rule)?;
        }
    }
    page.markup("</li>\n")
}

/// Adds the things of which each goes by the words of another.
fn add_alike(alloc: Global, page: &mut Html, index: &TaleIndex<'_>) -> Result<(), AllocError> {
    let pairs = alike(alloc, index)?;
    let mut things = Vec::new(alloc);
    for pair in pairs.as_slice() {
        things.push(pair.1)?;
    }
    open_entry(
        page,
        things.len(),
        "thing that no words part from another",
        "things that no words part from another",
    )?;
    add_objects(page, index, things.as_slice())
}

/// Adds what is seen at a glance.
pub fn add_glance(alloc: Global, page: &mut Html, index: &TaleIndex<'_>) -> Result<(), AllocError> {
    page.markup("<ul class=\"glance\">\n")?;
    let lost = lost_rooms(alloc, index)?;
    open_entry(
        page,
        lost.len(),
        "room to which no way leads from the start",
        "rooms to which no way leads from the start",
    )?;
    add_objects(page, index, lost.as_slice())?;
    let one_way = one_way_rooms(alloc, index)?;
    open_entry(
        page,
        one_way.len(),
        "room with a way that doesn’t lead back",
        "rooms with a way that doesn’t lead back",
    )?;
    add_objects(page, index, one_way.as_slice())?;
    let nowhere = nowhere(alloc, index)?;
    open_entry(
        page,
        nowhere.len(),
        "thing that stands nowhere",
        "things that stand nowhere",
    )?;
    add_objects(page, index, nowhere.as_slice())?;
    add_unlisted(alloc, page, index)?;
    add_alike(alloc, page, index)?;
    page.markup("</ul>\n")
}
