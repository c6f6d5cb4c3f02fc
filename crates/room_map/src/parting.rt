//! Rooms that would be drawn in one place are parted: a column or a row is put in, and the line of one of them moves there.
use crate::cells::Cells;
use crate::tables::{at, put};
use std::alloc::{AllocError, Global};

/// How far along both axes lines stand.
#[derive(Drop)]
pub struct Levels {
    pub columns: Vec<i64>,
    pub rows: Vec<i64>,
}

impl Levels {
    /// The column and the row of a room.
    pub fn of_room(&self, cells: &Cells, room: usize) -> (i64, i64) {
        let column = at(self.columns.as_slice(), cells.columns.line(room), 0);
        let row = at(self.rows.as_slice(), cells.rows.line(room), 0);
        (column, row)
    }
}

/// Puts in a level behind that of a line among a group's, and moves the line there.
pub fn part_line(levels: &mut [i64], numbers: &[usize], line: usize) {
    let level = at(levels, line, 0);
    let own = at(numbers, line, 0);
    for other in 0..levels.len() {
        let far = at(levels, other, 0);
        if far > level && at(numbers, other, own) == own {
            put(levels, other, far.saturating_add(1));
        }
    }
    put(levels, line, level.saturating_add(1));
}

/// Where the rooms of a group are, by column and row, and so that those in one place stand side by side.
fn placed(
    alloc: Global,
    cells: &Cells,
    levels: &Levels,
    group: &[usize],
) -> Result<Vec<(i64, i64, usize)>, AllocError> {
    let mut placed = Vec::new(alloc);
    for room in group {
        let (column, row) = levels.of_room(cells, *room);
        placed.push((column, row, *room))?;
    }
    placed.sort()?;
    Ok(placed)
}

/// Whether two rooms stand on two lines of an axis at least.
fn can_part(cells: &Cells, room: usize, other: usize) -> bool {
    cells.columns.line(room) != cells.columns.line(other)
        || cells.rows.line(room) != cells.rows.line(other)
}

/// Two rooms in one place that can be parted, if there are any.
fn first_pair(cells: &Cells, placed: &[(i64, i64, usize)]) -> Option<(usize, usize)> {
    let mut rest = placed;
    while let [one, after @ ..] = rest {
        if let [other, ..] = after
            && one.0 == other.0
            && one.1 == other.1
            && can_part(cells, one.2, other.2)
        {
            return Some((one.2, other.2));
        }
        rest = after;
    }
    None
}

/// Whether the second of two rooms is parted from the first by a column, and not by a row: the fewer rooms move.
fn by_column(cells: &Cells, room: usize, other: usize) -> bool {
    let (column, row) = (cells.columns.line(other), cells.rows.line(other));
    if cells.columns.line(room) == column {
        return false;
    }
    cells.rows.line(room) == row || cells.columns.rooms(column).len() <= cells.rows.rooms(row).len()
}

/// Parts two rooms in one place.
fn part_pair(cells: &Cells, levels: &mut Levels, numbers: &[usize], room: usize, other: usize) {
    if by_column(cells, room, other) {
        let line = cells.columns.line(other);
        part_line(levels.columns.as_mut_slice(), numbers, line);
    } else {
        let line = cells.rows.line(other);
        part_line(levels.rows.as_mut_slice(), numbers, line);
    }
}

/// Parts rooms of a group that would be drawn in one place.
pub fn part_group(
    alloc: Global,
    cells: &Cells,
    levels: &mut Levels,
    numbers: &[usize],
    group: &[usize],
) -> Result<(), AllocError> {
    for _ in 0..group.len().saturating_mul(2) {
        let placed = placed(alloc, cells, levels, group)?;
        let Some((room, other)) = first_pair(cells, placed.as_slice()) else {
            return Ok(());
        };
        part_pair(cells, levels, numbers, room, other);
    }
    Ok(())
}
