//! The places of rooms on a map.
ghost use Rattle.std.specs.Prelude.{◌≡◌, true, length, IfOk};
ghost use Rattle.room_map.specs.Spots.{are_apart, row_of};

use crate::cells::Cells;
use crate::groups::{group_numbers, groups_of};
use crate::levels::levels_of;
use crate::order::keep_group;
use crate::parting::{Levels, part_group};
use crate::passing::clear_group;
use crate::shelves::shelved;
use crate::spot::{RoomWay, Spot, are_apart};
use std::alloc::{AllocError, Global};

/// So many places side by side.
#[tactic(auto, using(crate::proofs::Rows::row_more))]
fn in_one_row(alloc: Global, rooms: u16) -> Result<Vec<Spot>, AllocError>
    ensures { IfOk result (λ spots. spots.items ≡ row_of 0 rooms) }
{
    let mut spots = Vec::new(alloc);
    for column in 0..rooms {
        spots.push(Spot {
            column: u32::from(column),
            row: 0,
        })?;
    }
    Ok(spots)
}

/// What the ways of the groups demand of columns and rows.
fn cells_of(
    alloc: Global,
    rooms: u16,
    ways: &[RoomWay],
    numbers: &[usize],
    groups: &[Vec<usize>],
) -> Result<Cells, AllocError> {
    let mut cells = Cells::new(alloc, usize::from(rooms))?;
    for group in groups {
        keep_group(alloc, &mut cells, numbers, ways, group.as_slice())?;
    }
    Ok(cells)
}

/// How far along both axes the lines stand, the rooms of each group being apart.
fn levels_for(
    alloc: Global,
    cells: &Cells,
    numbers: &[usize],
    ways: &[RoomWay],
    groups: &[Vec<usize>],
) -> Result<Levels, AllocError> {
    let mut levels = Levels {
        columns: levels_of(alloc, &cells.columns)?,
        rows: levels_of(alloc, &cells.rows)?,
    };
    for group in groups {
        part_group(alloc, cells, &mut levels, numbers, group.as_slice())?;
        clear_group(cells, &mut levels, numbers, ways, group.as_slice());
    }
    Ok(levels)
}

/// The places of rooms, by their ways. That no two are one is seen afterwards.
fn drawn_out(
    alloc: Global,
    rooms: u16,
    start: usize,
    ways: &[RoomWay],
) -> Result<Vec<Spot>, AllocError> {
    let groups = groups_of(alloc, rooms, start, ways)?;
    let groups = groups.as_slice();
    let numbers = group_numbers(alloc, rooms, groups)?;
    let cells = cells_of(alloc, rooms, ways, numbers.as_slice(), groups)?;
    let levels = levels_for(alloc, &cells, numbers.as_slice(), ways, groups)?;
    shelved(alloc, rooms, &cells, &levels, groups)
}

/// The places of so many rooms between which these ways lead, a room going by its number from 0, no two in one place. Each group of rooms that hang together
/// by ways is drawn by itself, first that of the room in which the story begins.
#[tactic(auto, using(crate::proofs::Rows::row_apart, crate::proofs::Rows::row_length))]
pub fn laid_out(
    alloc: Global,
    rooms: u16,
    start: usize,
    ways: &[RoomWay],
) -> Result<Vec<Spot>, AllocError>
    ensures each { IfOk result (λ spots. length spots.items ≡ rooms) }
    ensures apart { IfOk result (λ spots. are_apart spots.items ≡ true) }
{
    let spots = drawn_out(alloc, rooms, start, ways)?;
    if spots.len() == usize::from(rooms) && are_apart(spots.as_slice()) {
        return Ok(spots);
    }
    drop(spots);
    Ok(in_one_row(alloc, rooms)?)
}
