//! Whether a straight line between two places passes by all others.
use crate::spot::Spot;

/// How far a place lies from another along an axis.
fn along(from: u32, to: u32) -> i64 {
    i64::from(to).saturating_sub(i64::from(from))
}

/// The product of two numbers of cells.
fn product(one: i64, other: i64) -> i64 {
    one.saturating_mul(other)
}

/// Whether a number lies between two others, or is one of them.
fn is_between(number: u32, one: u32, other: u32) -> bool {
    one.min(other) <= number && number <= one.max(other)
}

/// Whether a line between two places leads over a third: that lies between them, and nearer to the line than two fifths of a cell.
fn leads_over(from: Spot, to: Spot, other: Spot) -> bool {
    if other == from || other == to {
        return false;
    }
    if !is_between(other.column, from.column, to.column)
        || !is_between(other.row, from.row, to.row)
    {
        return false;
    }
    let (wide, high) = (along(from.column, to.column), along(from.row, to.row));
    let (right, below) = (along(from.column, other.column), along(from.row, other.row));
    let off = product(wide, below).saturating_sub(product(high, right));
    let length = product(wide, wide).saturating_add(product(high, high));
    product(25, product(off, off)) < product(4, length)
}

/// Whether a line between two places passes by all of these but the two.
pub fn is_clear(from: Spot, to: Spot, others: &[Spot]) -> bool {
    !others.iter().any(|other| leads_over(from, to, *other))
}
