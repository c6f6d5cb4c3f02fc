//! How full each limit of the language is.
use crate::html::Html;
use crate::tale_index::{TaleIndex, number};
use std::alloc::AllocError;

/// How many there are of something, and how many there may be.
#[derive(Clone, Copy)]
struct Figure {
    name: &'static str,
    count: usize,
    most: usize,
}

/// The standard rules, which don't count among the author's.
const STANDARD_RULES: usize = 61;

/// The most words that an object goes by.
fn most_words(index: &TaleIndex<'_>) -> usize {
    let mut most = 0usize;
    for object in 0..index.objects().len() {
        most = most.max(index.story().word_count(number(object)));
    }
    most
}

/// The most values of a kind of value.
fn most_values(index: &TaleIndex<'_>) -> usize {
    let mut most = 0usize;
    for listed in index.tale().declared.values.as_slice() {
        most = most.max(listed.names.as_slice().len());
    }
    most
}

/// Adds a figure.
fn add_figure(page: &mut Html, figure: Figure) -> Result<(), AllocError> {
    page.markup("<tr><td>")?;
    page.markup(figure.name)?;
    page.markup("</td><td>")?;
    page.count(figure.count)?;
    page.markup(" of ")?;
    page.count(figure.most)?;
    page.markup("</td><td><meter max=\"")?;
    page.count(figure.most)?;
    page.markup("\" value=\"")?;
    page.count(figure.count)?;
    page.markup("\"></meter></td></tr>\n")
}

/// A figure.
fn figure_of(name: &'static str, count: usize, most: usize) -> Figure {
    Figure { name, count, most }
}

/// The figures of what is declared.
fn declared(index: &TaleIndex<'_>) -> [Figure; 10] {
    let naming = index.naming;
    [
        figure_of(
            "objects, the player and the directions among them",
            index.objects().len(),
            1_000,
        ),
        figure_of("kinds", naming.kinds.len(), 100),
        figure_of("either-or properties", naming.flags.len(), 100),
        figure_of("number properties", naming.numbers.len(), 100),
        figure_of("variables", naming.variables.len(), 100),
        figure_of("rulebooks of your own", naming.rulebooks.len(), 100),
        figure_of("kinds of value", naming.values.len(), 100),
        figure_of("values of one kind of value", most_values(index), 100),
        figure_of("scenes", naming.scenes.len(), 50),
        figure_of("actions", index.story().action_count(), 200),
    ]
}

/// The other figures.
fn others(index: &TaleIndex<'_>, bytes: usize) -> [Figure; 4] {
    let own = index.story().rule_count().saturating_sub(STANDARD_RULES);
    let commands = index.outline().meant.resolved.grammar.lines.len();
    [
        figure_of("bytes of the source", bytes, 262_144),
        figure_of("rules of your own", own, 1_939),
        figure_of("commands of your own", commands, 65_502),
        figure_of("words of one object", most_words(index), 32),
    ]
}

/// Adds the figures of a source of so many bytes.
pub fn add_figures(page: &mut Html, index: &TaleIndex<'_>, bytes: usize) -> Result<(), AllocError> {
    page.heading("figures", "Figures")?;
    page.markup("<table><tr><th>of</th><th>there are</th><th></th></tr>\n")?;
    for figure in others(index, bytes) {
        add_figure(page, figure)?;
    }
    for figure in declared(index) {
        add_figure(page, figure)?;
    }
    page.markup("</table>\n")
}
