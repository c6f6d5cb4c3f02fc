//! What is demanded of rooms along an axis, so that it holds together: which stand on one line, and which stand behind others.
use crate::compass::Step;
use crate::tables::at;
use std::alloc::{AllocError, Global};

/// A line stands before another.
#[derive(Clone, Copy, Debug)]
pub struct Edge {
    /// A room on the first line.
    pub before: usize,
    /// A room on the line behind it.
    pub behind: usize,
}

/// Lines of rooms, each called by the number of one of its rooms, and which stand behind which. No line stands behind itself.
#[derive(Drop)]
pub struct Axis {
    /// Of each room, the line on which it stands.
    pub lines: Vec<usize>,
    /// Of each line, its rooms.
    members: Vec<Vec<usize>>,
    /// Of each room, those that stand behind it.
    behind: Vec<Vec<usize>>,
    pub edges: Vec<Edge>,
}

/// A list for each of so many rooms, with these rooms in it.
fn lists(alloc: Global, rooms: usize, with_own: bool) -> Result<Vec<Vec<usize>>, AllocError> {
    let mut all = Vec::new(alloc);
    for room in 0..rooms {
        let mut list = Vec::new(alloc);
        if with_own {
            list.push(room)?;
        }
        all.push(list)?;
    }
    Ok(all)
}

/// The numbers of so many rooms.
fn numbers(alloc: Global, rooms: usize) -> Result<Vec<usize>, AllocError> {
    let mut all = Vec::new(alloc);
    for room in 0..rooms {
        all.push(room)?;
    }
    Ok(all)
}

/// The list of a room, if there is one.
fn list_at(lists: &[Vec<usize>], place: usize) -> &[usize] {
    match lists.get(place) {
        Some(list) => list.as_slice(),
        None => &[],
    }
}

/// Adds a room to the list of another.
fn add_to(lists: &mut [Vec<usize>], place: usize, room: usize) -> Result<(), AllocError> {
    if let Some(list) = lists.get_mut(place) {
        list.push(room)?;
    }
    Ok(())
}

/// Adds the lines that stand behind a room and weren't met, and marks them as met.
fn add_behind(
    axis: &Axis,
    room: usize,
    met: &mut [bool],
    left: &mut Vec<usize>,
) -> Result<(), AllocError> {
    for other in list_at(axis.behind.as_slice(), room) {
        let line = at(axis.lines.as_slice(), *other, 0);
        if let Some(is_met) = met.get_mut(line)
            && !*is_met
        {
            *is_met = true;
            left.push(line)?;
        }
    }
    Ok(())
}

impl Axis {
    /// So many rooms, each on a line of its own.
    pub fn new(alloc: Global, rooms: usize) -> Result<Axis, AllocError> {
        Ok(Axis {
            lines: numbers(alloc, rooms)?,
            members: lists(alloc, rooms, true)?,
            behind: lists(alloc, rooms, false)?,
            edges: Vec::new(alloc),
        })
    }

    /// The line of a room.
    pub fn line(&self, room: usize) -> usize {
        at(self.lines.as_slice(), room, 0)
    }

    /// The rooms of a line.
    pub fn rooms(&self, line: usize) -> &[usize] {
        list_at(self.members.as_slice(), line)
    }

    /// Whether the line of a room stands behind that of another, as far as is demanded.
    fn stands_behind(&self, alloc: Global, room: usize, other: usize) -> Result<bool, AllocError> {
        let goal = self.line(room);
        let mut met = vec![in alloc; false; self.lines.len()]?;
        let mut left = vec![in alloc; self.line(other)]?;
        for _ in 0..=self.lines.len() {
            let Some(line) = left.pop() else {
                return Ok(false);
            };
            for member in self.rooms(line) {
                add_behind(self, *member, met.as_mut_slice(), &mut left)?;
            }
            if at(met.as_slice(), goal, false) {
                return Ok(true);
            }
        }
        Ok(false)
    }

    /// Whether it holds together that a room lies so, seen from another.
    pub fn may_lie(
        &self,
        alloc: Global,
        from: usize,
        step: Step,
        to: usize,
    ) -> Result<bool, AllocError> {
        let is_one = self.line(from) == self.line(to);
        match step {
            Step::Behind => Ok(!is_one && !self.stands_behind(alloc, from, to)?),
            Step::Before => Ok(!is_one && !self.stands_behind(alloc, to, from)?),
            Step::Same => Ok(
                is_one
                    || (!self.stands_behind(alloc, from, to)?
                        && !self.stands_behind(alloc, to, from)?),
            ),
        }
    }

    /// Puts a room on the line of another.
    fn join(&mut self, line: usize, room: usize) -> Result<(), AllocError> {
        if let Some(own) = self.lines.get_mut(room) {
            *own = line;
        }
        add_to(self.members.as_mut_slice(), line, room)
    }

    /// Makes one line of two.
    fn merge(&mut self, alloc: Global, line: usize, other: usize) -> Result<(), AllocError> {
        if line == other {
            return Ok(());
        }
        let mut moved = Vec::new(alloc);
        if let Some(members) = self.members.get_mut(other) {
            moved = std::mem::replace(members, Vec::new(alloc));
        }
        for room in moved.as_slice() {
            self.join(line, *room)?;
        }
        Ok(())
    }

    /// Demands that a room stands behind another.
    fn follow(&mut self, before: usize, behind: usize) -> Result<(), AllocError> {
        self.edges.push(Edge { before, behind })?;
        add_to(self.behind.as_mut_slice(), before, behind)
    }

    /// Demands that a room lies so, seen from another, where that holds together.
    pub fn lie(
        &mut self,
        alloc: Global,
        from: usize,
        step: Step,
        to: usize,
    ) -> Result<(), AllocError> {
        match step {
            Step::Behind => self.follow(from, to),
            Step::Before => self.follow(to, from),
            Step::Same => {
                let (line, other) = (self.line(from), self.line(to));
                self.merge(alloc, line, other)
            }
        }
    }
}
