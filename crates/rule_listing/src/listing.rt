//! The rulebooks of a source as lines.
use crate::admitted::{Sought, rules_sought};
use crate::rulebooks::{MOST_BOOKS, RuleTold, Rulebooks};
use crate::sought::{Unsought, Words, told_about};
use source_outline::{Outline, Unlisted, outline_of};
use std::alloc::{AllocError, Global};

/// The name of a rule, if it has one.
fn name_told<'a>(rule: &RuleTold<'a>) -> &'a str {
    match rule.name {
        None => "(without a name)",
        Some(name) => str::from_utf8(name).unwrap_or("?"),
    }
}

/// Where a rule comes from: its line, or that it is standard.
fn source_told(alloc: Global, line: Option<u32>) -> Result<String, AllocError> {
    match line {
        None => String::from_str(alloc, "standard"),
        Some(line) => format!(in alloc; "line {line}"),
    }
}

/// A rule: its name, its line, what its head asks, and what puts it there.
fn rule_told(alloc: Global, rule: &RuleTold<'_>) -> Result<String, AllocError> {
    let mut told = String::from_str(alloc, name_told(rule))?;
    told.push_str(", ")?;
    told.push_str(source_told(alloc, rule.line)?.as_str())?;
    if !rule.head.is_empty() {
        told.push_str(",")?;
        told.push_str(rule.head)?;
    }
    told.push_str(": ")?;
    told.push_str(rule.reason.told(alloc)?.as_str())?;
    Ok(told)
}

/// Adds the line of the rule of this number.
fn add_rule(
    alloc: Global,
    told: &mut String,
    books: &Rulebooks<'_>,
    number: u16,
) -> Result<(), AllocError> {
    told.push_str("\n    ")?;
    match books.rule(number) {
        None => told.push_str("?"),
        Some(rule) => told.push_str(rule_told(alloc, &rule)?.as_str()),
    }
}

/// Adds the lines of a rulebook, if it lists a rule that is sought.
fn add_book(
    alloc: Global,
    told: &mut String,
    books: &Rulebooks<'_>,
    sought: &Sought,
    book: u16,
) -> Result<(), AllocError> {
    let rules = rules_sought(alloc, &books.outline.story, sought, book)?;
    if rules.is_empty() {
        return Ok(());
    }
    told.push_str(books.book_name(alloc, book)?.as_str())?;
    for number in rules.as_slice() {
        add_rule(alloc, told, books, *number)?;
    }
    told.push_str("\n")
}

/// The rulebooks that list rules that are sought, each with these in the order in which they are asked, a line each.
fn books_told(alloc: Global, books: &Rulebooks<'_>, sought: &Sought) -> Result<String, AllocError> {
    let mut told = String::new(alloc);
    for book in 0..MOST_BOOKS {
        add_book(alloc, &mut told, books, sought, book)?;
    }
    Ok(told)
}

/// What is told of the source of an outline.
pub fn told_of(alloc: Global, outline: &Outline, sought: &Sought) -> Result<String, AllocError> {
    let books = Rulebooks::new(alloc, outline)?;
    books_told(alloc, &books, sought)
}

/// The rulebooks that list rules, each with its rules in the order in which they are asked, a line each; where the source is refused, why.
pub fn rulebooks_told(alloc: Global, source: &[u8]) -> Result<String, Unlisted> {
    let outline = outline_of(alloc, source)?;
    match told_of(alloc, &outline, &Sought::ALL) {
        Ok(told) => Ok(told),
        Err(refused) => Err(Unlisted::Memory(refused)),
    }
}

/// The same of the rules alone that an action, its noun and a room admit.
pub fn rules_about(alloc: Global, source: &[u8], words: &Words<'_>) -> Result<String, Unsought> {
    match outline_of(alloc, source) {
        Ok(outline) => told_about(alloc, &outline, words),
        Err(unlisted) => Err(Unsought::Unlisted(unlisted)),
    }
}
