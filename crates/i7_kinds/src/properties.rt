//! Which either-or properties of an object are true as the story begins.
ghost use Rattle.std.specs.Prelude.{◌≡◌, ◌≤◌, IfOk, length, map};
ghost use Rattle.world_meaning.specs.Declarations.{is_had};
ghost use Rattle.i7_kinds.specs.Grants.{first_base, other_bases};
ghost use Rattle.i7_kinds.specs.Making.{made_of};
ghost use Rattle.i7_kinds.specs.Values.{usual_of, value_at};
ghost use Rattle.i7_kinds.specs.Tales.{begins, begins_by_default, built_in_truths, properties_from, truth_or};

use crate::objects::Makings;
use crate::values::{Slot, Values, value_in};
use i7_claims::Value;
use std::alloc::{AllocError, Global};
use world_meaning::standard_properties::DESCRIBED;
use world_meaning::{Granted, KindNo, PROPERTIES, PropertyRow, is_under_one};

/// Whether a property is true by default of an object, being so of these kinds.
fn begins_by_default(
    parents: &[Option<KindNo>],
    object: usize,
    kind: KindNo,
    property: usize,
    true_of: &[u8],
) -> bool
    ensures { result ≡ begins_by_default parents.now object kind property true_of.now }
{
    is_under_one(parents, true_of, kind) && !(property == DESCRIBED as usize && object == 0)
}

fn truth_or(value: Option<Value>, other: bool) -> bool
    ensures { result ≡ truth_or value other }
{
    match value {
        Some(Value::Truth(truth)) => truth,
        _ => other,
    }
}

/// What is usual of objects of a kind: what is said of the deepest kind.
pub fn usual_of(
    parents: &[Option<KindNo>],
    usuals: &Values,
    kind: usize,
    property: usize,
) -> Option<Value>
    ensures { result ≡ usual_of parents.now (value_at usuals.now) kind property }
{
    let mut at = kind;
    let mut left = parents;
    while let [_, after @ ..] = left {
        let bearer = at;
        if let Some(value) = value_in(usuals, Slot { bearer, property }) {
            return Some(value);
        }
        match parents.get(at) {
            Some(Some(parent)) => at = parent.get() as usize,
            _ => return None,
        }
        left = after;
    }
    let bearer = at;
    value_in(usuals, Slot { bearer, property })
}

/// Whether a property of an object is true as the story begins: where a sentence says so, else where it usually is, and
/// else by default.
fn begins(
    makings: &Makings<'_>,
    object: usize,
    kind: KindNo,
    property: usize,
    true_of: &[u8],
) -> bool
    ensures { result ≡ begins (made_of makings.now) object kind property true_of.now }
{
    let bearer = object;
    let value = value_in(makings.values, Slot { bearer, property });
    let usual = usual_of(
        makings.parents,
        makings.usuals,
        kind.get() as usize,
        property,
    );
    let other = begins_by_default(makings.parents, object, kind, property, true_of);
    truth_or(value, truth_or(usual, other))
}

/// Whether objects of a kind have a property.
pub fn is_had(parents: &[Option<KindNo>], kind: KindNo, flag: &Granted) -> bool
    ensures { result ≡ is_had parents.now kind flag.now }
{
    is_under_one(parents, flag.kinds.as_slice(), kind)
}

fn first_truth<'a>(rows: &[PropertyRow<'a>]) -> &'a [u8]
    ensures { result.now ≡ first_base (map (λ row. row.3.now) rows.now) }
{
    match rows {
        [] => &[],
        [row, ..] => row.3,
    }
}

fn other_truths<'a, 'b>(rows: &'b [PropertyRow<'a>]) -> &'b [PropertyRow<'a>]
    ensures { map (λ row. row.3.now) result.now ≡ other_bases (map (λ row. row.3.now) rows.now) }
{
    match rows {
        [] => rows,
        [_, others @ ..] => others,
    }
}

/// Those of the properties that an object of a kind has and begins with; the rows tell of what the first are true by
/// default.
fn properties_from(
    alloc: Global,
    makings: &Makings<'_>,
    object: usize,
    kind: KindNo,
    rows: &[PropertyRow<'_>],
) -> Result<Vec<u8>, AllocError>
    requires { length makings.now.flags.now ≤ 100 }
    ensures { IfOk result (λ found. found.items ≡ properties_from (made_of makings.now) object kind 0 (map (λ row. row.3.now) rows.now) makings.now.flags.now) }
{
    let mut found = Vec::new(alloc);
    let mut property = 0u8;
    let mut truths = rows;
    let mut rest = makings.flags;
    while let [flag, after @ ..] = rest {
        let true_of = first_truth(truths);
        if is_had(makings.parents, kind, flag)
            && begins(makings, object, kind, property as usize, true_of)
        {
            found.push(property)?;
        }
        property += 1;
        truths = other_truths(truths);
        rest = after;
    }
    Ok(found)
}

/// The either-or properties of an object of a kind that are true as the story begins, rising.
#[tactic(auto, unfolding(crate::specs::Tales::built_in_truths))]
pub fn properties_of(
    alloc: Global,
    makings: &Makings<'_>,
    object: usize,
    kind: KindNo,
) -> Result<Vec<u8>, AllocError>
    requires { length makings.now.flags.now ≤ 100 }
    ensures { IfOk result (λ found. found.items ≡ properties_from (made_of makings.now) object kind 0 built_in_truths makings.now.flags.now) }
{
    properties_from(alloc, makings, object, kind, &PROPERTIES)
}
