//! Groups of rooms side by side: the first above, and the others below it in rows.
use crate::cells::Cells;
use crate::parting::Levels;
use crate::spot::Spot;
use crate::tables::put;
use std::alloc::{AllocError, Global};

/// The columns that the rows of groups have at least.
const LEAST_WIDTH: i64 = 6;

/// The columns and rows that the rooms of a group take up.
#[derive(Clone, Copy)]
struct Extent {
    column: i64,
    row: i64,
    width: i64,
    height: i64,
}

/// Where the next group is drawn.
#[derive(Clone, Copy)]
struct Shelf {
    column: i64,
    row: i64,
    /// The row behind the groups of this shelf.
    next_row: i64,
    width: i64,
}

/// How many lie from the least to the greatest, both counted.
fn span(least: i64, most: i64) -> i64 {
    most.saturating_sub(least).saturating_add(1)
}

/// What the rooms of a group take up.
fn extent_of(cells: &Cells, levels: &Levels, group: &[usize]) -> Extent {
    let (mut left, mut top) = (i64::MAX, i64::MAX);
    let (mut right, mut bottom) = (i64::MIN, i64::MIN);
    for room in group {
        let (column, row) = levels.of_room(cells, *room);
        left = left.min(column);
        top = top.min(row);
        right = right.max(column);
        bottom = bottom.max(row);
    }
    Extent {
        column: left,
        row: top,
        width: span(left, right),
        height: span(top, bottom),
    }
}

/// The number as one of a column or a row.
fn counted(number: i64) -> u32 {
    match u32::try_from(number) {
        Ok(number) => number,
        Err(_) => 0,
    }
}

/// A number of one axis as it is drawn: moved from where the group's begin to where it is drawn.
fn moved(number: i64, from: i64, to: i64) -> u32 {
    counted(number.saturating_sub(from).saturating_add(to))
}

/// Draws a group at a place.
fn draw(
    cells: &Cells,
    levels: &Levels,
    group: &[usize],
    extent: Extent,
    at: (i64, i64),
    spots: &mut [Spot],
) {
    for room in group {
        let (column, row) = levels.of_room(cells, *room);
        let spot = Spot {
            column: moved(column, extent.column, at.0),
            row: moved(row, extent.row, at.1),
        };
        put(spots, *room, spot);
    }
}

impl Shelf {
    /// The shelf on which a group of so much room stands: this one, or the next below.
    fn with_room(self, extent: Extent) -> Shelf {
        if self.column == 0 || self.column.saturating_add(extent.width) <= self.width {
            return self;
        }
        Shelf {
            column: 0,
            row: self.next_row,
            next_row: self.next_row,
            width: self.width,
        }
    }

    /// The place behind a group that is drawn here; a row and a column stay free around it.
    fn behind(self, extent: Extent) -> Shelf {
        let below = self.row.saturating_add(extent.height).saturating_add(1);
        Shelf {
            column: self.column.saturating_add(extent.width),
            row: self.row,
            next_row: self.next_row.max(below),
            width: self.width,
        }
    }
}

/// The place below the first group.
fn below(extent: Extent) -> Shelf {
    let row = extent.height.saturating_add(1);
    Shelf {
        column: 0,
        row,
        next_row: row,
        width: extent.width.max(LEAST_WIDTH),
    }
}

/// Draws the groups behind the first on shelves.
fn draw_others(
    cells: &Cells,
    levels: &Levels,
    groups: &[Vec<usize>],
    first: Shelf,
    spots: &mut [Spot],
) {
    let mut shelf = first;
    for group in groups {
        let group = group.as_slice();
        let extent = extent_of(cells, levels, group);
        shelf = shelf.with_room(extent);
        draw(
            cells,
            levels,
            group,
            extent,
            (shelf.column, shelf.row),
            spots,
        );
        shelf = shelf.behind(extent);
    }
}

/// Where each room is drawn.
pub fn shelved(
    alloc: Global,
    rooms: u16,
    cells: &Cells,
    levels: &Levels,
    groups: &[Vec<usize>],
) -> Result<Vec<Spot>, AllocError> {
    let none = Spot { column: 0, row: 0 };
    let mut spots = vec![in alloc; none; usize::from(rooms)]?;
    if let [first, others @ ..] = groups {
        let first = first.as_slice();
        let extent = extent_of(cells, levels, first);
        draw(cells, levels, first, extent, (0, 0), spots.as_mut_slice());
        draw_others(cells, levels, others, below(extent), spots.as_mut_slice());
    }
    Ok(spots)
}
