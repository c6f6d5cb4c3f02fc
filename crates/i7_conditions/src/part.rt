//! Objects put together from the last mark to the first: a name is a part, and an opening takes the two parts in front of
//! it.
ghost use Rattle.std.specs.Prelude.{◌≡◌, ◌∷◌, IfOk, MatchOption, None, Some, if◌then◌else◌, option_map};
ghost use Rattle.play_meaning.specs.Meant.{object_meant};
ghost use Rattle.i7_conditions.specs.Objects.{found_meant};
ghost use Rattle.i7_conditions.specs.Parts.{beyond, deepened, found_in_part, IsShort, joined, leaf_of, on_two, part_of, put_together, stack_of, step, the_one, with_leaf};

use crate::found::Found;
use crate::mark::Mark;
use play_meaning::tree::Referent;
use std::alloc::{AllocError, Global};
use std::boxed::Box;

/// The most `from`s that may stand within one another.
const MOST_FROMS: u8 = 8;

/// A part of an object.
#[derive(Drop)]
pub enum Part {
    /// An object in which so many `from`s stand within one another.
    Built(Referent, u8),
    /// One with too many.
    Deep,
}

/// The object that a mark names.
fn leaf_of(mark: Mark) -> Option<Referent>
    ensures { option_map object_meant result ≡ leaf_of mark }
{
    match mark {
        Mark::The(object) => Some(Referent::The(object)),
        Mark::Noun => Some(Referent::Noun),
        Mark::SecondNoun => Some(Referent::SecondNoun),
        Mark::Location => Some(Referent::Location),
        Mark::Nothing => Some(Referent::Nothing),
        Mark::Turning(number) => Some(Referent::Turning(number)),
        Mark::Room | Mark::Door | Mark::Unknown => None,
    }
}

/// The room or the door in a direction from a room.
fn beyond(
    alloc: Global,
    is_door: bool,
    direction: Referent,
    room: Referent,
) -> Result<Referent, AllocError>
    ensures { IfOk result (λ o. object_meant o ≡ beyond is_door (object_meant direction) (object_meant room)) }
{
    let direction = Box::new(alloc, direction)?;
    let room = Box::new(alloc, room)?;
    if is_door {
        Ok(Referent::DoorFrom(direction, room))
    } else {
        Ok(Referent::RoomFrom(direction, room))
    }
}

/// What lies beyond, where its parts have so many `from`s within one another.
fn deepened(
    alloc: Global,
    is_door: bool,
    direction: Referent,
    room: Referent,
    froms: u8,
) -> Result<Part, AllocError>
    ensures { IfOk result (λ part. part_of part ≡ deepened (beyond is_door (object_meant direction) (object_meant room)) froms) }
{
    if froms >= MOST_FROMS {
        return Ok(Part::Deep);
    }
    let object = beyond(alloc, is_door, direction, room)?;
    Ok(Part::Built(object, froms + 1))
}

/// What lies beyond, by its parts.
fn joined(alloc: Global, is_door: bool, first: Part, second: Part) -> Result<Part, AllocError>
    ensures { IfOk result (λ part. part_of part ≡ joined is_door (part_of first) (part_of second)) }
{
    match first {
        Part::Deep => Ok(Part::Deep),
        Part::Built(direction, m) => match second {
            Part::Deep => Ok(Part::Deep),
            Part::Built(room, n) => deepened(alloc, is_door, direction, room, m.max(n)),
        },
    }
}

/// Takes the two parts in front away.
fn pop_two(parts: &mut Vec<Part>) -> Option<(Part, Part)>
    ensures { MatchOption result (IsShort (stack_of parts.old.items)) (λ two. stack_of parts.old.items ≡ part_of two.0 ∷ part_of two.1 ∷ stack_of parts.new.items) }
{
    let Some(first) = parts.pop() else {
        return None;
    };
    let Some(second) = parts.pop() else {
        return None;
    };
    Some((first, second))
}

/// Joins the two parts in front, if there are two.
fn join_two(alloc: Global, is_door: bool, parts: &mut Vec<Part>) -> Result<bool, AllocError>
    ensures { IfOk result (λ fits. on_two is_door (stack_of parts.old.items) ≡ (if fits then Some (stack_of parts.new.items) else None)) }
{
    match pop_two(parts) {
        None => Ok(false),
        Some((first, second)) => {
            let part = joined(alloc, is_door, first, second)?;
            parts.push(part)?;
            Ok(true)
        }
    }
}

/// Puts a named object in front, if it is one.
fn add_leaf(leaf: Option<Referent>, parts: &mut Vec<Part>) -> Result<bool, AllocError>
    ensures { IfOk result (λ fits. with_leaf (option_map object_meant leaf) (stack_of parts.old.items) ≡ (if fits then Some (stack_of parts.new.items) else None)) }
{
    match leaf {
        None => Ok(false),
        Some(object) => {
            parts.push(Part::Built(object, 0))?;
            Ok(true)
        }
    }
}

/// Takes the mark in front of the parts; false where it doesn't fit.
fn take_mark(alloc: Global, mark: Mark, parts: &mut Vec<Part>) -> Result<bool, AllocError>
    ensures { IfOk result (λ fits. step mark (stack_of parts.old.items) ≡ (if fits then Some (stack_of parts.new.items) else None)) }
{
    match mark {
        Mark::Room => join_two(alloc, false, parts),
        Mark::Door => join_two(alloc, true, parts),
        _ => add_leaf(leaf_of(mark), parts),
    }
}

/// What a part is.
fn found_in_part(part: Part) -> Found<Referent>
    ensures { found_meant result ≡ found_in_part (part_of part) }
{
    match part {
        Part::Built(object, _) => Found::Read(object),
        Part::Deep => Found::TooMany,
    }
}

/// The one object that there is.
fn the_one(mut parts: Vec<Part>) -> Found<Referent>
    ensures { found_meant result ≡ the_one (stack_of parts.items) }
{
    match parts.pop() {
        None => Found::Unread,
        Some(part) => {
            if parts.is_empty() {
                found_in_part(part)
            } else {
                Found::Unread
            }
        }
    }
}

/// The object that marks tell.
pub fn put_together(alloc: Global, mut marks: Vec<Mark>) -> Result<Found<Referent>, AllocError>
    ensures { IfOk result (λ found. found_meant found ≡ put_together marks.items) }
{
    let mut parts = Vec::new(alloc);
    while let Some(mark) = marks.pop() {
        if !take_mark(alloc, mark, &mut parts)? {
            return Ok(Found::Unread);
        }
    }
    Ok(the_one(parts))
}
