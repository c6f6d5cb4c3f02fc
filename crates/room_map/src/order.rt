//! The order in which ways are kept: ways of the compass that lead there and back go first, then those that lead there alone, then ways up, down, in and out;
//! and of each sort those of rooms that are near the start before those of rooms farther away.
use crate::cells::Cells;
use crate::compass::is_of_compass;
use crate::spot::RoomWay;
use crate::tables::at;
use std::alloc::{AllocError, Global};

/// How firmly a way is to be kept.
#[derive(Clone, Copy, Debug, PartialEq, Eq)]
enum Sort {
    ThereAndBack,
    ThereAlone,
    Other,
}

/// Whether a way leads back as another leads there.
fn is_back(way: &RoomWay, other: &RoomWay) -> bool {
    other.from == way.to && other.to == way.from && other.direction == way.direction.opposite()
}

/// How firmly a way is to be kept.
fn sort_of(ways: &[RoomWay], way: &RoomWay) -> Sort {
    if !is_of_compass(way.direction) {
        Sort::Other
    } else if ways.iter().any(|other| is_back(way, other)) {
        Sort::ThereAndBack
    } else {
        Sort::ThereAlone
    }
}

/// Whether a way stays in its group.
fn is_within(numbers: &[usize], way: &RoomWay) -> bool {
    way.from < numbers.len()
        && way.to < numbers.len()
        && at(numbers, way.from, 0) == at(numbers, way.to, 0)
}

/// Keeps the ways of a sort that lead from a room.
fn keep_from(
    alloc: Global,
    cells: &mut Cells,
    numbers: &[usize],
    ways: &[RoomWay],
    room: usize,
    sort: Sort,
) -> Result<(), AllocError> {
    for way in ways {
        if way.from == room && sort_of(ways, way) == sort && is_within(numbers, way) {
            cells.keep(alloc, way)?;
        }
    }
    Ok(())
}

/// Keeps the ways of a sort in a group.
fn keep_sort(
    alloc: Global,
    cells: &mut Cells,
    numbers: &[usize],
    ways: &[RoomWay],
    group: &[usize],
    sort: Sort,
) -> Result<(), AllocError> {
    for room in group {
        keep_from(alloc, cells, numbers, ways, *room, sort)?;
    }
    Ok(())
}

/// Keeps the ways of a group.
pub fn keep_group(
    alloc: Global,
    cells: &mut Cells,
    numbers: &[usize],
    ways: &[RoomWay],
    group: &[usize],
) -> Result<(), AllocError> {
    keep_sort(alloc, cells, numbers, ways, group, Sort::ThereAndBack)?;
    keep_sort(alloc, cells, numbers, ways, group, Sort::ThereAlone)?;
    keep_sort(alloc, cells, numbers, ways, group, Sort::Other)
}
