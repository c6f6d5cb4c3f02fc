//! What objects begin with that isn't so by default of their kinds.
use crate::html::Html;
use crate::naming::{UsualTold, name_at};
use crate::tale_index::TaleIndex;
use i7_claims::Value;
use std::alloc::AllocError;
use world_meaning::standard_properties::DESCRIBED;
use world_meaning::{Granted, KindNo, Object, PROPERTIES, is_under_one};

/// What is said to be usual of a property of objects of this very kind.
fn usual_at<'a>(index: &'a TaleIndex<'_>, kind: usize, property: &[u8]) -> Option<&'a UsualTold> {
    let name = name_at(index.naming.kinds.as_slice(), kind);
    index.naming.usuals.iter().find(|usual| usual.kind.as_slice() == name
        && usual.property.as_slice() == property)
}

/// What is usual of a property of objects of a kind: what is said of the deepest kind.
fn usual_of(index: &TaleIndex<'_>, kind: KindNo, property: &[u8]) -> Option<Value> {
    let parents = index.parents();
    let mut at = kind;
    for _ in 0..=parents.len() {
        if let Some(usual) = usual_at(index, usize::from(at.get()), property) {
            return Some(usual.value);
        }
        match parents.get(usize::from(at.get())) {
            Some(Some(parent)) => at = *parent,
            _ => return None,
        }
    }
    None
}

/// Whether a built-in property is true of objects of a kind unless a sentence says otherwise.
fn is_built_in_true(index: &TaleIndex<'_>, object: usize, kind: KindNo, property: usize) -> bool {
    match PROPERTIES.get(property) {
        None => false,
        Some(row) => {
            is_under_one(index.parents(), row.3, kind)
                && !(property == usize::from(DESCRIBED) && object == 0)
        }
    }
}

/// Whether an either-or property is true of an object by default of its kind.
fn flag_by_default(index: &TaleIndex<'_>, object: usize, kind: KindNo, property: usize) -> bool {
    let name = name_at(index.naming.flags.as_slice(), property);
    match usual_of(index, kind, name) {
        Some(Value::Truth(truth)) => truth,
        _ => is_built_in_true(index, object, kind, property),
    }
}

/// Whether objects of a kind have a property.
pub fn is_had(index: &TaleIndex<'_>, kind: KindNo, granted: &Granted) -> bool {
    is_under_one(index.parents(), granted.kinds.as_slice(), kind)
}

/// Adds the name of an either-or property that is true, or isn't.
pub fn add_flag(
    page: &mut Html,
    index: &TaleIndex<'_>,
    property: usize,
    truth: bool,
) -> Result<(), AllocError> {
    let first = name_at(index.naming.flags.as_slice(), property);
    if truth {
        return page.text(first);
    }
    if let Some(Some(second)) = index.naming.second_names.get(property) {
        return page.text(second.as_slice());
    }
    page.markup("not ")?;
    page.text(first)
}

/// Adds what parts one of a list from those before it.
pub fn add_joint(page: &mut Html, is_first: &mut bool) -> Result<(), AllocError> {
    if *is_first {
        *is_first = false;
        return Ok(());
    }
    page.markup(", ")
}

/// An object of a tale, by its number.
#[derive(Clone, Copy)]
pub struct Told<'a> {
    pub number: usize,
    pub object: &'a Object,
}

/// Adds the either-or properties that aren't as they are by default.
fn add_flags(
    page: &mut Html,
    index: &TaleIndex<'_>,
    told: Told<'_>,
    is_first: &mut bool,
) -> Result<(), AllocError> {
    let flags = index.tale().declared.flags.as_slice();
    let kind = told.object.kind;
    for property in 0..flags.len() {
        let truth = told
            .object
            .properties
            .as_slice()
            .iter()
            .any(|own| usize::from(*own) == property);
        if let Some(granted) = flags.get(property)
            && is_had(index, kind, granted)
            && truth != flag_by_default(index, told.number, kind, property)
        {
            add_joint(page, is_first)?;
            add_flag(page, index, property, truth)?;
        }
    }
    Ok(())
}

/// The number of a number property by default of a kind.
fn number_by_default(index: &TaleIndex<'_>, kind: KindNo, property: usize) -> i32 {
    let name = name_at(index.naming.numbers.as_slice(), property);
    match usual_of(index, kind, name) {
        Some(Value::Amount(number)) => number,
        _ => 0,
    }
}

/// Adds the number properties that aren't as they are by default: the object's numbers stand in the order of those that it has.
fn add_numbers(
    page: &mut Html,
    index: &TaleIndex<'_>,
    told: Told<'_>,
    is_first: &mut bool,
) -> Result<(), AllocError> {
    let granted = index.tale().declared.numbers.as_slice();
    let kind = told.object.kind;
    let mut rest = told.object.numbers.as_slice().iter();
    for property in 0..granted.len() {
        if let Some(one) = granted.get(property)
            && is_had(index, kind, one)
            && let Some(number) = rest.next()
            && *number != number_by_default(index, kind, property)
        {
            add_joint(page, is_first)?;
            page.text(name_at(index.naming.numbers.as_slice(), property))?;
            page.markup(" ")?;
            page.number(i64::from(*number))?;
        }
    }
    Ok(())
}

/// The place of a value by default of a kind.
fn value_by_default(index: &TaleIndex<'_>, kind: KindNo, property: usize) -> usize {
    let name = name_at(index.naming.values.as_slice(), property);
    match usual_of(index, kind, name) {
        Some(Value::Choice(place)) => place,
        _ => 0,
    }
}

/// The name of a value of a kind of value, by their numbers.
pub fn value_name<'a>(index: &TaleIndex<'a>, kind: usize, value: usize) -> &'a [u8] {
    let tale = index.tale();
    match tale.declared.values.as_slice().get(kind) {
        None => b"?",
        Some(listed) => match listed.names.as_slice().get(value) {
            None => b"?",
            Some(name) => name.as_slice(),
        },
    }
}

/// Adds the values that aren't as they are by default.
fn add_values(
    page: &mut Html,
    index: &TaleIndex<'_>,
    told: Told<'_>,
    is_first: &mut bool,
) -> Result<(), AllocError> {
    let kinds = index.tale().declared.values.as_slice();
    let kind = told.object.kind;
    let mut rest = told.object.values.as_slice().iter();
    for property in 0..kinds.len() {
        if let Some(one) = kinds.get(property)
            && is_had(index, kind, &one.given)
            && let Some(value) = rest.next()
            && usize::from(*value) != value_by_default(index, kind, property)
        {
            add_joint(page, is_first)?;
            page.text(name_at(index.naming.values.as_slice(), property))?;
            page.markup(" ")?;
            page.text(value_name(index, property, usize::from(*value)))?;
        }
    }
    Ok(())
}

/// Adds what an object begins with that isn't so by default of its kind.
pub fn add_properties(
    page: &mut Html,
    index: &TaleIndex<'_>,
    number: usize,
) -> Result<(), AllocError> {
    let Some(object) = index.objects().get(number) else {
        return Ok(());
    };
    let told = Told { number, object };
    let mut is_first = true;
    page.markup(" <span class=\"soft props\">")?;
    add_flags(page, index, told, &mut is_first)?;
    add_numbers(page, index, told, &mut is_first)?;
    add_values(page, index, told, &mut is_first)?;
    page.markup("</span>")
}
