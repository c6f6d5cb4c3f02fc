//! Which rooms ways lead to, and which rooms belong together.
use crate::spot::RoomWay;
use crate::tables::at;
use std::alloc::{AllocError, Global};

/// Adds a room that wasn't met, and marks it.
fn add_room(met: &mut [bool], rooms: &mut Vec<usize>, room: usize) -> Result<(), AllocError> {
    if let Some(is_met) = met.get_mut(room)
        && !*is_met
    {
        *is_met = true;
        rooms.push(room)?;
    }
    Ok(())
}

/// Adds the rooms to which ways lead from a room, and with `both` those from which ways lead to it.
fn add_beyond(
    ways: &[RoomWay],
    both: bool,
    room: usize,
    met: &mut [bool],
    rooms: &mut Vec<usize>,
) -> Result<(), AllocError> {
    for way in ways {
        if way.from == room {
            add_room(met, rooms, way.to)?;
        }
        if both && way.to == room {
            add_room(met, rooms, way.from)?;
        }
    }
    Ok(())
}

/// The rooms that are met from a room by ways, the nearest first; of those that are met already none.
fn spread(
    alloc: Global,
    ways: &[RoomWay],
    both: bool,
    start: usize,
    met: &mut [bool],
) -> Result<Vec<usize>, AllocError> {
    let mut rooms = Vec::new(alloc);
    add_room(met, &mut rooms, start)?;
    for place in 0..met.len() {
        let Some(room) = rooms.get(place).copied() else {
            return Ok(rooms);
        };
        add_beyond(ways, both, room, met, &mut rooms)?;
    }
    Ok(rooms)
}

/// Of so many rooms, to which ways lead from the one in which the story begins; that one is among them.
pub fn reached_from(
    alloc: Global,
    rooms: u16,
    start: usize,
    ways: &[RoomWay],
) -> Result<Vec<bool>, AllocError> {
    let mut met = vec![in alloc; false; usize::from(rooms)]?;
    let reached = spread(alloc, ways, false, start, met.as_mut_slice())?;
    drop(reached);
    Ok(met)
}

/// The rooms in groups that are drawn each by itself: those that are reached from the start, and of the others those that ways join. Each group's rooms stand
/// the nearest first.
pub fn groups_of(
    alloc: Global,
    rooms: u16,
    start: usize,
    ways: &[RoomWay],
) -> Result<Vec<Vec<usize>>, AllocError> {
    let mut met = vec![in alloc; false; usize::from(rooms)]?;
    let mut groups = Vec::new(alloc);
    groups.push(spread(alloc, ways, false, start, met.as_mut_slice())?)?;
    for room in 0..usize::from(rooms) {
        if !at(met.as_slice(), room, true) {
            groups.push(spread(alloc, ways, true, room, met.as_mut_slice())?)?;
        }
    }
    Ok(groups)
}

/// Of each room the number of its group.
pub fn group_numbers(
    alloc: Global,
    rooms: u16,
    groups: &[Vec<usize>],
) -> Result<Vec<usize>, AllocError> {
    let mut numbers = vec![in alloc; 0; usize::from(rooms)]?;
    for number in 0..groups.len() {
        mark_group(numbers.as_mut_slice(), groups, number);
    }
    Ok(numbers)
}

/// Writes a group's number at its rooms.
fn mark_group(numbers: &mut [usize], groups: &[Vec<usize>], number: usize) {
    if let Some(group) = groups.get(number) {
        for room in group.as_slice() {
            if let Some(slot) = numbers.get_mut(*room) {
                *slot = number;
            }
        }
    }
}
