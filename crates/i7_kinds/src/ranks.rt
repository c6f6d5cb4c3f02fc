//! Ranks of objects, which tell that no object stands in itself: what is in a holder ranks above it.
ghost use Rattle.std.specs.Prelude.{◌≡◌};
ghost use Rattle.i7_kinds.specs.Cycles.{are_above, rank_of, rise_from};

use crate::cycles::Held;
use std::alloc::{AllocError, Global};

/// Counts one holder more of each of these things.
fn count(counts: &mut Vec<usize>, things: &[usize]) {
    for thing in things {
        if let Some(count) = counts.get_mut(*thing) {
            *count = count.saturating_add(1);
        }
    }
}

/// How many holders each object has.
fn counts_of(alloc: Global, contents: &[Held]) -> Result<Vec<usize>, AllocError> {
    let mut counts = vec![in alloc; 0usize; contents.len()]?;
    for held in contents {
        count(&mut counts, held.things());
    }
    Ok(counts)
}

/// The objects without holders.
fn tops(alloc: Global, counts: &[usize]) -> Result<Vec<usize>, AllocError> {
    let mut order = Vec::new(alloc);
    for (object, count) in counts.iter().enumerate() {
        if *count == 0 {
            order.push(object)?;
        }
    }
    Ok(order)
}

/// Takes a holder away from a thing, and tells whether it has none left.
fn is_last(counts: &mut Vec<usize>, thing: usize) -> bool {
    match counts.get_mut(thing) {
        None => false,
        Some(count) => {
            *count = count.saturating_sub(1);
            *count == 0
        }
    }
}

/// Takes a holder away from each of these things, and adds those that have none left.
fn let_go(
    counts: &mut Vec<usize>,
    order: &mut Vec<usize>,
    things: &[usize],
) -> Result<(), AllocError> {
    for thing in things {
        if is_last(counts, *thing) {
            order.push(*thing)?;
        }
    }
    Ok(())
}

/// Objects in an order in which each comes behind its holders, if there is one.
fn order_of(alloc: Global, contents: &[Held]) -> Result<Vec<usize>, AllocError> {
    let mut counts = counts_of(alloc, contents)?;
    let mut order = tops(alloc, counts.as_slice())?;
    for place in 0..contents.len() {
        if let Some(holder) = order.get(place) {
            if let Some(held) = contents.get(*holder) {
                let_go(&mut counts, &mut order, held.things())?;
            }
        }
    }
    Ok(order)
}

/// The place of each object in that order. No more is proved than that there is an answer: it is looked through.
pub fn ranks_of(alloc: Global, contents: &[Held]) -> Result<Vec<usize>, AllocError> {
    let order = order_of(alloc, contents)?;
    let mut ranks = vec![in alloc; 0usize; contents.len()]?;
    for (place, object) in order.iter().enumerate() {
        if let Some(rank) = ranks.get_mut(*object) {
            *rank = place;
        }
    }
    Ok(ranks)
}

fn rank_of(ranks: &[usize], object: usize) -> usize
    ensures { result ≡ rank_of ranks.now object }
{
    match ranks.get(object) {
        None => 0,
        Some(rank) => *rank,
    }
}

fn are_above(ranks: &[usize], rank: usize, things: &[usize]) -> bool
    ensures { result ≡ are_above ranks.now rank things.now }
{
    let mut rest = things;
    while let [thing, after @ ..] = rest {
        if rank >= rank_of(ranks, *thing) {
            return false;
        }
        rest = after;
    }
    true
}

/// Whether what is in each holder ranks above it.
pub fn rise(ranks: &[usize], contents: &[Held]) -> bool
    ensures { result ≡ rise_from ranks.now 0 contents.now }
{
    let mut object = 0;
    let mut rest = contents;
    while let [held, after @ ..] = rest {
        if !are_above(ranks, rank_of(ranks, object), held.things()) {
            return false;
        }
        object += 1;
        rest = after;
    }
    true
}
