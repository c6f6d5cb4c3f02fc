//! What the number properties of an object are as the story begins.
ghost use Rattle.std.specs.Prelude.{◌≡◌, ◌≤◌, IfOk, length};
ghost use Rattle.i7_kinds.specs.Making.{made_of};
ghost use Rattle.i7_kinds.specs.Tales.{amount_or, begins_with, numbers_from};

use crate::objects::Makings;
use crate::properties::{is_had, usual_of};
use crate::values::{Slot, value_in};
use i7_claims::Value;
use std::alloc::{AllocError, Global};
use world_meaning::KindNo;

fn amount_or(value: Option<Value>, other: i32) -> i32
    ensures { result ≡ amount_or value other }
{
    match value {
        Some(Value::Amount(number)) => number,
        _ => other,
    }
}

/// What a number property of an object begins with: what a sentence says, else what is usual, and else 0.
fn begins_with(makings: &Makings<'_>, object: usize, kind: KindNo, property: usize) -> i32
    ensures { result ≡ begins_with (made_of makings.now) object kind property }
{
    let bearer = object;
    let value = value_in(makings.values, Slot { bearer, property });
    let usual = usual_of(
        makings.parents,
        makings.usuals,
        kind.get() as usize,
        property,
    );
    amount_or(value, amount_or(usual, 0))
}

/// What the number properties that an object's kind has are as the story begins, by their numbers, which go on behind
/// those of the either-or properties.
pub fn numbers_of(
    alloc: Global,
    makings: &Makings<'_>,
    object: usize,
    kind: KindNo,
) -> Result<Vec<i32>, AllocError>
    requires few_flags { length makings.now.flags.now ≤ 100 }
    ensures { IfOk result (λ found. found.items ≡ numbers_from (made_of makings.now) object kind (length makings.now.flags.now) makings.now.numbers.now) }
{
    let mut found = Vec::new(alloc);
    let mut property = makings.flags.len();
    let mut rest = makings.numbers;
    while let [number, after @ ..] = rest {
        if is_had(makings.parents, kind, number) {
            found.push(begins_with(makings, object, kind, property))?;
        }
        property += 1;
        rest = after;
    }
    Ok(found)
}
