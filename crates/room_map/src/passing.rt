//! Rooms that would be drawn on the line of a way between two others are put aside, by a row or a column of their own.
use crate::cells::Cells;
use crate::compass::{Step, steps};
use crate::parting::{Levels, part_line};
use crate::spot::RoomWay;

/// How often all ways are looked at: where a room is put aside it may come to stand on the line of another way.
const LOOKS: usize = 4;

/// Whether a number lies between two others.
fn is_between(number: i64, one: i64, other: i64) -> bool {
    one.min(other) < number && number < one.max(other)
}

/// Whether a room stands on the row of a way's rooms, between them, and not for a way of its own.
fn is_on_row(cells: &Cells, levels: &Levels, way: &RoomWay, room: usize) -> bool {
    let (column, row) = levels.of_room(cells, room);
    let (from, own) = levels.of_room(cells, way.from);
    let (to, other) = levels.of_room(cells, way.to);
    row == own
        && row == other
        && is_between(column, from, to)
        && cells.rows.line(room) != cells.rows.line(way.from)
}

/// Whether a room stands on the column of a way's rooms, between them, and not for a way of its own.
fn is_on_column(cells: &Cells, levels: &Levels, way: &RoomWay, room: usize) -> bool {
    let (column, row) = levels.of_room(cells, room);
    let (own, from) = levels.of_room(cells, way.from);
    let (other, to) = levels.of_room(cells, way.to);
    column == own
        && column == other
        && is_between(row, from, to)
        && cells.columns.line(room) != cells.columns.line(way.from)
}

/// Puts the rooms of a group aside that stand on the line of a way.
fn put_aside(
    cells: &Cells,
    levels: &mut Levels,
    numbers: &[usize],
    way: &RoomWay,
    group: &[usize],
) {
    let (column, row) = steps(way.direction);
    for room in group {
        if row == Step::Same && is_on_row(cells, levels, way, *room) {
            part_line(levels.rows.as_mut_slice(), numbers, cells.rows.line(*room));
        }
        if column == Step::Same && is_on_column(cells, levels, way, *room) {
            part_line(
                levels.columns.as_mut_slice(),
                numbers,
                cells.columns.line(*room),
            );
        }
    }
}

/// Puts the rooms of a group aside that stand on the lines of ways from its rooms.
pub fn clear_group(
    cells: &Cells,
    levels: &mut Levels,
    numbers: &[usize],
    ways: &[RoomWay],
    group: &[usize],
) {
    let Some(first) = group.first() else {
        return;
    };
    let Some(own) = numbers.get(*first) else {
        return;
    };
    for _ in 0..LOOKS {
        for way in ways {
            if numbers.get(way.from) == Some(own) {
                put_aside(cells, levels, numbers, way, group);
            }
        }
    }
}
