//! How far along its axis each line stands: each behind those that it is to stand behind, and as near to its neighbours as that allows.
use crate::axis::{Axis, Edge};
use crate::tables::{at, put};
use std::alloc::{AllocError, Global};

/// How often lines are drawn nearer to their neighbours.
const PULLS: usize = 6;

/// Puts the line behind an edge behind the one before it; whether it wasn't.
fn push_behind(axis: &Axis, levels: &mut [i64], edge: &Edge) -> bool {
    let before = at(levels, axis.line(edge.before), 0).saturating_add(1);
    let behind = axis.line(edge.behind);
    if at(levels, behind, before) < before {
        put(levels, behind, before);
        return true;
    }
    false
}

/// Puts each line behind those that stand before it, once; whether one wasn't.
fn push_each(axis: &Axis, levels: &mut [i64]) -> bool {
    let mut moved = false;
    for edge in axis.edges.as_slice() {
        if push_behind(axis, levels, edge) {
            moved = true;
        }
    }
    moved
}

/// The least levels at which each line stands behind those before it.
fn least_levels(alloc: Global, axis: &Axis) -> Result<Vec<i64>, AllocError> {
    let mut levels = vec![in alloc; 0i64; axis.lines.len()]?;
    for _ in 0..axis.lines.len() {
        if !push_each(axis, levels.as_mut_slice()) {
            return Ok(levels);
        }
    }
    Ok(levels)
}

/// Where the neighbours of a line would have it, the bounds that they set, and how many they are.
#[derive(Drop)]
struct Wishes {
    wished: Vec<i64>,
    least: i64,
    most: i64,
}

/// Adds what an edge says of a line.
fn add_wish(
    axis: &Axis,
    levels: &[i64],
    line: usize,
    edge: &Edge,
    wishes: &mut Wishes,
) -> Result<(), AllocError> {
    let (before, behind) = (axis.line(edge.before), axis.line(edge.behind));
    if behind == line {
        let wish = at(levels, before, 0).saturating_add(1);
        wishes.least = wishes.least.max(wish);
        wishes.wished.push(wish)?;
    }
    if before == line {
        let wish = at(levels, behind, 0).saturating_sub(1);
        wishes.most = wishes.most.min(wish);
        wishes.wished.push(wish)?;
    }
    Ok(())
}

/// What the neighbours of a line say of it.
fn wishes_of(
    alloc: Global,
    axis: &Axis,
    levels: &[i64],
    line: usize,
    edges: &[Edge],
) -> Result<Wishes, AllocError> {
    let mut wishes = Wishes {
        wished: Vec::new(alloc),
        least: i64::MIN,
        most: i64::MAX,
    };
    for edge in edges {
        add_wish(axis, levels, line, edge, &mut wishes)?;
    }
    wishes.wished.sort()?;
    Ok(wishes)
}

/// Draws a line to where most of its neighbours would have it, as far as they allow.
fn pull(
    alloc: Global,
    axis: &Axis,
    levels: &mut [i64],
    line: usize,
    edges: &[Edge],
) -> Result<(), AllocError> {
    let wishes = wishes_of(alloc, axis, levels, line, edges)?;
    if let Some(wish) = wishes.wished.get(wishes.wished.len() / 2) {
        put(levels, line, (*wish).min(wishes.most).max(wishes.least));
    }
    Ok(())
}

/// Of each line the edges that it is at an end of.
fn edges_by_line(alloc: Global, axis: &Axis) -> Result<Vec<Vec<Edge>>, AllocError> {
    let mut all = Vec::new(alloc);
    for _ in 0..axis.lines.len() {
        all.push(Vec::new(alloc))?;
    }
    for edge in axis.edges.as_slice() {
        add_edge(all.as_mut_slice(), axis.line(edge.before), *edge)?;
        add_edge(all.as_mut_slice(), axis.line(edge.behind), *edge)?;
    }
    Ok(all)
}

/// Adds an edge to those of a line.
fn add_edge(all: &mut [Vec<Edge>], line: usize, edge: Edge) -> Result<(), AllocError> {
    if let Some(edges) = all.get_mut(line) {
        edges.push(edge)?;
    }
    Ok(())
}

/// Draws each line nearer to its neighbours, once.
fn pull_each(
    alloc: Global,
    axis: &Axis,
    edges: &[Vec<Edge>],
    levels: &mut [i64],
) -> Result<(), AllocError> {
    for line in 0..edges.len() {
        if let Some(own) = edges.get(line) {
            pull(alloc, axis, levels, line, own.as_slice())?;
        }
    }
    Ok(())
}

/// How far each line of an axis stands.
pub fn levels_of(alloc: Global, axis: &Axis) -> Result<Vec<i64>, AllocError> {
    let edges = edges_by_line(alloc, axis)?;
    let mut levels = least_levels(alloc, axis)?;
    for _ in 0..PULLS {
        pull_each(alloc, axis, edges.as_slice(), levels.as_mut_slice())?;
    }
    Ok(levels)
}
