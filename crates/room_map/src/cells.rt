//! Both axes of a map: which ways are kept.
use crate::axis::Axis;
use crate::compass::{Step, steps};
use crate::spot::RoomWay;
use crate::tables::{at, put};
use std::alloc::{AllocError, Global};

/// The columns and the rows of rooms.
#[derive(Drop)]
pub struct Cells {
    pub columns: Axis,
    pub rows: Axis,
}

/// Marks the lines of another axis on which rooms of these stand.
fn marked(alloc: Global, rooms: &[usize], other: &Axis) -> Result<Vec<bool>, AllocError> {
    let mut marks = vec![in alloc; false; other.lines.len()]?;
    for room in rooms {
        put(marks.as_mut_slice(), other.line(*room), true);
    }
    Ok(marks)
}

/// Whether rooms of two lines of an axis stand on one line of the other, so that the two lines can't be one.
fn would_meet(
    alloc: Global,
    axis: &Axis,
    other: &Axis,
    from: usize,
    to: usize,
) -> Result<bool, AllocError> {
    let (line, second) = (axis.line(from), axis.line(to));
    if line == second {
        return Ok(false);
    }
    let marks = marked(alloc, axis.rooms(line), other)?;
    for room in axis.rooms(second) {
        if at(marks.as_slice(), other.line(*room), false) {
            return Ok(true);
        }
    }
    Ok(false)
}

impl Cells {
    /// So many rooms, nothing being demanded of them.
    pub fn new(alloc: Global, rooms: usize) -> Result<Cells, AllocError> {
        Ok(Cells {
            columns: Axis::new(alloc, rooms)?,
            rows: Axis::new(alloc, rooms)?,
        })
    }

    /// Whether rooms that a way joins into one line would meet in one place.
    fn meet(
        &self,
        alloc: Global,
        way: &RoomWay,
        column: Step,
        row: Step,
    ) -> Result<bool, AllocError> {
        let (from, to) = (way.from, way.to);
        match (column, row) {
            (Step::Same, _) => would_meet(alloc, &self.columns, &self.rows, from, to),
            (_, Step::Same) => would_meet(alloc, &self.rows, &self.columns, from, to),
            _ => Ok(false),
        }
    }

    /// Demands what a way says, where it holds together with what was demanded before.
    pub fn keep(&mut self, alloc: Global, way: &RoomWay) -> Result<(), AllocError> {
        let (column, row) = steps(way.direction);
        let (from, to) = (way.from, way.to);
        if from == to
            || !self.columns.may_lie(alloc, from, column, to)?
            || !self.rows.may_lie(alloc, from, row, to)?
            || self.meet(alloc, way, column, row)?
        {
            return Ok(());
        }
        self.columns.lie(alloc, from, column, to)?;
        self.rows.lie(alloc, from, row, to)
    }
}
