//! The kinds as a tree, with their properties and what is usual of them; kinds of value, variables and scenes.
use crate::html::Html;
use crate::naming::{Declared, UsualTold, joined, line_at, name_at};
use crate::properties::{add_flag, add_joint, value_name};
use crate::tale_index::TaleIndex;
use i7_claims::Value;
use i7_sentences::{Assertion, SceneChange, SceneEdge};
use std::alloc::{AllocError, Global};
use world_meaning::Granted;

/// Whether a kind is among those to which a property is given.
fn is_given(granted: &Granted, kind: usize) -> bool {
    granted
        .kinds
        .as_slice()
        .iter()
        .any(|own| usize::from(*own) == kind)
}

/// Adds the name of a property that is given to a kind.
fn add_given(
    page: &mut Html,
    granted: Option<&Granted>,
    kind: usize,
    names: &[Declared],
    property: usize,
    is_first: &mut bool,
) -> Result<(), AllocError> {
    if let Some(granted) = granted
        && is_given(granted, kind)
    {
        add_joint(page, is_first)?;
        page.text(name_at(names, property))?;
    }
    Ok(())
}

/// Adds the properties that are given to a kind.
fn add_properties(page: &mut Html, index: &TaleIndex<'_>, kind: usize) -> Result<(), AllocError> {
    let declared = &index.tale().declared;
    let naming = index.naming;
    let mut is_first = true;
    page.markup(" <span class=\"soft\">")?;
    for property in 0..naming.flags.len() {
        let granted = declared.flags.as_slice().get(property);
        add_given(
            page,
            granted,
            kind,
            naming.flags.as_slice(),
            property,
            &mut is_first,
        )?;
    }
    for property in 0..naming.numbers.len() {
        let granted = declared.numbers.as_slice().get(property);
        add_given(
            page,
            granted,
            kind,
            naming.numbers.as_slice(),
            property,
            &mut is_first,
        )?;
    }
    for property in 0..naming.values.len() {
        let granted = match declared.values.as_slice().get(property) {
            None => None,
            Some(listed) => Some(&listed.given),
        };
        add_given(
            page,
            granted,
            kind,
            naming.values.as_slice(),
            property,
            &mut is_first,
        )?;
    }
    page.markup("</span>")
}

/// The place of a name.
fn place_of(names: &[Declared], name: &[u8]) -> Option<usize> {
    names
        .iter()
        .position(|declared| declared.name.as_slice() == name)
}

/// Adds what is usual of a property, in words.
fn add_usual_words(
    page: &mut Html,
    index: &TaleIndex<'_>,
    usual: &UsualTold,
) -> Result<(), AllocError> {
    let property = usual.property.as_slice();
    match usual.value {
        Value::Truth(truth) => match place_of(index.naming.flags.as_slice(), property) {
            None => page.text(property),
            Some(flag) => add_flag(page, index, flag, truth),
        },
        Value::Amount(number) => {
            page.text(property)?;
            page.markup(" ")?;
            page.number(i64::from(number))
        }
        Value::Choice(place) => {
            page.text(property)?;
            page.markup(" ")?;
            let kind = place_of(index.naming.values.as_slice(), property);
            page.text(value_name(index, kind.unwrap_or(usize::MAX), place))
        }
        Value::Never => page.text(property),
    }
}

/// Adds what is usual of a kind, each with its line.
fn add_usuals(page: &mut Html, index: &TaleIndex<'_>, kind: usize) -> Result<(), AllocError> {
    let name = name_at(index.naming.kinds.as_slice(), kind);
    let mut is_first = true;
    for usual in index.naming.usuals.as_slice() {
        if usual.kind.as_slice() == name {
            page.markup(if is_first { "; usually " } else { ", " })?;
            add_usual_words(page, index, usual)?;
            page.line(Some(usual.line))?;
            is_first = false;
        }
    }
    Ok(())
}

/// How many objects are of this very kind.
fn count_of(index: &TaleIndex<'_>, kind: usize) -> usize {
    index
        .objects()
        .iter()
        .filter(|object| usize::from(object.kind.get()) == kind)
        .count()
}

/// Adds a kind: its name, its line, how many are of it, its properties, and what is usual.
fn add_kind(
    page: &mut Html,
    index: &TaleIndex<'_>,
    kind: usize,
    deep: usize,
) -> Result<(), AllocError> {
    page.markup("<li id=\"k")?;
    page.count(kind)?;
    page.markup("\" style=\"--deep:")?;
    page.count(deep)?;
    page.markup("\">")?;
    page.text(name_at(index.naming.kinds.as_slice(), kind))?;
    page.line(line_at(index.naming.kinds.as_slice(), kind))?;
    page.markup(" <span class=\"soft\">(")?;
    page.count(count_of(index, kind))?;
    page.markup(")</span>")?;
    add_properties(page, index, kind)?;
    add_usuals(page, index, kind)?;
    page.markup("</li>\n")
}

/// Puts the kinds right below one on the stack, or those below none, the last in front.
fn push_below(
    index: &TaleIndex<'_>,
    above: Option<usize>,
    deep: usize,
    left: &mut Vec<(usize, usize)>,
) -> Result<(), AllocError> {
    let parents = index.parents();
    for place in 0..parents.len() {
        let kind = parents.len().saturating_sub(1).saturating_sub(place);
        if let Some(parent) = parents.get(kind)
            && parent.map(|parent| usize::from(parent.get())) == above
        {
            left.push((kind, deep))?;
        }
    }
    Ok(())
}

/// Adds the kinds as a tree.
fn add_tree(alloc: Global, page: &mut Html, index: &TaleIndex<'_>) -> Result<(), AllocError> {
    let mut left = Vec::new(alloc);
    push_below(index, None, 0, &mut left)?;
    page.markup("<ul class=\"plain tree\">\n")?;
    for _ in 0..index.parents().len() {
        let Some((kind, deep)) = left.pop() else {
            break;
        };
        add_kind(page, index, kind, deep)?;
        push_below(index, Some(kind), deep.saturating_add(1), &mut left)?;
    }
    page.markup("</ul>\n")
}

/// Adds a kind of value with its values.
fn add_value_kind(page: &mut Html, index: &TaleIndex<'_>, kind: usize) -> Result<(), AllocError> {
    page.open("li", "v", kind)?;
    page.text(name_at(index.naming.values.as_slice(), kind))?;
    page.line(line_at(index.naming.values.as_slice(), kind))?;
    page.markup(": ")?;
    let mut is_first = true;
    if let Some(listed) = index.tale().declared.values.as_slice().get(kind) {
        for name in listed.names.as_slice() {
            add_joint(page, &mut is_first)?;
            page.text(name.as_slice())?;
        }
    }
    page.markup("</li>\n")
}

/// Adds the kinds of value.
fn add_value_kinds(page: &mut Html, index: &TaleIndex<'_>) -> Result<(), AllocError> {
    if index.naming.values.is_empty() {
        return Ok(());
    }
    page.markup("<h3>Kinds of value</h3>\n<ul class=\"plain\">\n")?;
    for kind in 0..index.naming.values.len() {
        add_value_kind(page, index, kind)?;
    }
    page.markup("</ul>\n")
}

/// Adds the variables, each with the number with which it begins.
fn add_variables(page: &mut Html, index: &TaleIndex<'_>) -> Result<(), AllocError> {
    if index.naming.variables.is_empty() {
        return Ok(());
    }
    page.markup("<h3>Variables</h3>\n<ul class=\"plain\">\n")?;
    for variable in 0..index.naming.variables.len() {
        page.open("li", "n", variable)?;
        page.text(name_at(index.naming.variables.as_slice(), variable))?;
        page.line(line_at(index.naming.variables.as_slice(), variable))?;
        if let Some(start) = index.tale().declared.variables.as_slice().get(variable) {
            page.markup(" begins at ")?;
            page.number(i64::from(*start))?;
        }
        page.markup("</li>\n")?;
    }
    page.markup("</ul>\n")
}

/// Whether a sentence is about the scene of this name.
fn is_about(change: &[u8], name: &[u8]) -> bool {
    change.eq_ignore_ascii_case(name)
}

/// Adds on what a scene begins or ends, as it is written, with its line.
fn add_change(
    alloc: Global,
    page: &mut Html,
    change: &SceneChange,
    line: u32,
) -> Result<(), AllocError> {
    page.markup(match change.edge {
        SceneEdge::Begins => "; begins when ",
        SceneEdge::Ends => "; ends when ",
    })?;
    page.text(joined(alloc, &change.condition)?.as_slice())?;
    page.line(Some(line))
}

/// Adds a scene: its name, its line, whether it may come again, and on what it begins and ends.
fn add_scene(
    alloc: Global,
    page: &mut Html,
    index: &TaleIndex<'_>,
    scene: usize,
) -> Result<(), AllocError> {
    let name = name_at(index.naming.scenes.as_slice(), scene);
    page.open("li", "s", scene)?;
    page.text(name)?;
    page.line(line_at(index.naming.scenes.as_slice(), scene))?;
    if index.tale().declared.scenes.as_slice().get(scene) == Some(&true) {
        page.markup(", may come again")?;
    }
    for sentence in index.outline().sentences.as_slice() {
        if let Assertion::SceneChange(change) = &sentence.said {
            let scene = joined(alloc, &change.scene)?;
            if is_about(scene.as_slice(), name) {
                add_change(alloc, page, change, sentence.line)?;
            }
        }
    }
    page.markup("</li>\n")
}

/// Adds the scenes.
fn add_scenes(alloc: Global, page: &mut Html, index: &TaleIndex<'_>) -> Result<(), AllocError> {
    if index.naming.scenes.is_empty() {
        return Ok(());
    }
    page.markup("<h3>Scenes</h3>\n<ul class=\"plain\">\n")?;
    for scene in 0..index.naming.scenes.len() {
        add_scene(alloc, page, index, scene)?;
    }
    page.markup("</ul>\n")
}

/// Adds the kinds, the kinds of value, the variables and the scenes.
pub fn add_kinds(alloc: Global, page: &mut Html, index: &TaleIndex<'_>) -> Result<(), AllocError> {
    page.heading("kinds", "Kinds")?;
    add_tree(alloc, page, index)?;
    add_value_kinds(page, index)?;
    add_variables(page, index)?;
    add_scenes(alloc, page, index)
}
