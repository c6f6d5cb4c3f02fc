//! The rulebooks in the order in which they are asked, each rule with what puts it at its place.
use crate::html::Html;
use crate::tale_index::TaleIndex;
use rule_listing::{MOST_BOOKS, Reason, RuleTold, Specificity, decided_by};
use std::alloc::{AllocError, Global};

/// How many standard rules there are; the author's rules stand behind them.
const STANDARD: u16 = 61;

/// Adds the name of a rule, or what its head asks where it has none.
fn add_name(page: &mut Html, rule: &RuleTold<'_>) -> Result<(), AllocError> {
    match rule.name {
        Some(name) => page.text(name),
        None => match rule.line {
            Some(line) => {
                page.markup("the rule of line ")?;
                page.number(i64::from(line))
            }
            None => page.markup("?"),
        },
    }
}

/// Adds a rule's name, which leads to its entry.
pub fn add_rule_link(
    page: &mut Html,
    index: &TaleIndex<'_>,
    number: u16,
) -> Result<(), AllocError> {
    let Some(rule) = index.books.rule(number) else {
        return page.markup("?");
    };
    page.open_link("r", usize::from(number))?;
    add_name(page, &rule)?;
    page.markup("</a>")
}

/// Adds how closely a rule tells a noun or its place, if it asks anything of it.
fn add_grade(page: &mut Html, name: &'static str, grade: u64) -> Result<(), AllocError> {
    if grade == 0 {
        return Ok(());
    }
    page.markup(name)?;
    if grade == 10_000 {
        return page.markup("10,000");
    }
    page.number(i64::try_from(grade).unwrap_or(i64::MAX))
}

/// Adds how specific a rule is.
fn add_specificity(page: &mut Html, told: &Specificity) -> Result<(), AllocError> {
    page.markup("asks ")?;
    page.number(i64::from(told.aspects))?;
    add_grade(page, ", noun ", told.noun)?;
    add_grade(page, ", second noun ", told.second)?;
    add_grade(page, ", place ", told.place)
}

/// Adds what puts a rule at its place.
fn add_reason(page: &mut Html, reason: &Reason) -> Result<(), AllocError> {
    match reason {
        Reason::First(line) => {
            page.markup("listed first by the sentence of ")?;
            page.line_number(*line)
        }
        Reason::Last(line) => {
            page.markup("listed last by the sentence of ")?;
            page.line_number(*line)
        }
        Reason::Asks(told) => add_specificity(page, told),
    }
}

/// Adds a rule: its head as it is written, its name, its line, what puts it there, and why it goes before the next.
fn add_rule(
    page: &mut Html,
    index: &TaleIndex<'_>,
    book: &[u8],
    number: u16,
    next: Option<&u16>,
) -> Result<(), AllocError> {
    let Some(rule) = index.books.rule(number) else {
        return Ok(());
    };
    page.open("li", "r", usize::from(number))?;
    if rule.line.is_some() {
        page.markup("<span class=\"head\">")?;
        page.text(book)?;
        page.text(rule.head.as_bytes())?;
        page.markup("</span>")?;
    }
    if let Some(name) = rule.name {
        page.markup(" <b>")?;
        page.text(name)?;
        page.markup("</b>")?;
    }
    page.line(rule.line)?;
    page.markup("<span class=\"why\">")?;
    add_reason(page, &rule.reason)?;
    add_decision(page, index, &rule, next)?;
    page.markup("</span></li>\n")
}

/// Adds why a rule goes before the next one.
fn add_decision(
    page: &mut Html,
    index: &TaleIndex<'_>,
    rule: &RuleTold<'_>,
    next: Option<&u16>,
) -> Result<(), AllocError> {
    let Some(next) = next else {
        return Ok(());
    };
    let Some(other) = index.books.rule(*next) else {
        return Ok(());
    };
    page.markup("; before the next, since ")?;
    page.markup(decided_by(&rule.reason, &other.reason))
}

/// How many rules stand in front that are standard as the first is, or are the author's as it is.
fn run_length(rules: &[u16]) -> usize {
    let Some(first) = rules.first() else {
        return 0;
    };
    let is_standard = *first < STANDARD;
    match rules
        .iter()
        .position(|rule| (*rule < STANDARD) != is_standard)
    {
        None => rules.len(),
        Some(place) => place,
    }
}

/// Adds the rules of a run, numbered from a place on.
fn add_run(
    page: &mut Html,
    index: &TaleIndex<'_>,
    book: &[u8],
    rules: &[u16],
    from: usize,
    count: usize,
) -> Result<(), AllocError> {
    page.markup("<ol class=\"rules\" start=\"")?;
    page.count(from.saturating_add(1))?;
    page.markup("\">\n")?;
    for place in from..from.saturating_add(count) {
        if let Some(rule) = rules.get(place) {
            add_rule(page, index, book, *rule, rules.get(place.saturating_add(1)))?;
        }
    }
    page.markup("</ol>\n")
}

/// Adds a run of standard rules, folded, or of the author's.
fn add_folded(
    page: &mut Html,
    index: &TaleIndex<'_>,
    book: &[u8],
    rules: &[u16],
    from: usize,
    count: usize,
) -> Result<(), AllocError> {
    let is_standard = match rules.get(from) {
        None => false,
        Some(rule) => *rule < STANDARD,
    };
    if !is_standard {
        return add_run(page, index, book, rules, from, count);
    }
    page.markup("<details><summary>")?;
    page.count(count)?;
    page.markup(if count == 1 {
        " standard rule</summary>"
    } else {
        " standard rules</summary>"
    })?;
    add_run(page, index, book, rules, from, count)?;
    page.markup("</details>\n")
}

/// Adds the rules of a book, run by run.
fn add_runs(
    page: &mut Html,
    index: &TaleIndex<'_>,
    book: &[u8],
    rules: &[u16],
) -> Result<(), AllocError> {
    let mut from = 0usize;
    for _ in 0..rules.len() {
        let Some((_, rest)) = rules.split_at_checked(from) else {
            return Ok(());
        };
        let count = run_length(rest);
        if count == 0 {
            return Ok(());
        }
        add_folded(page, index, book, rules, from, count)?;
        from = from.saturating_add(count);
    }
    Ok(())
}

/// Adds a rulebook, if it lists a rule.
fn add_book(
    alloc: Global,
    page: &mut Html,
    index: &TaleIndex<'_>,
    book: u16,
) -> Result<(), AllocError> {
    let rules = index.story().rules_listed(book);
    if rules.is_empty() {
        return Ok(());
    }
    let name = index.books.book_name(alloc, book)?;
    page.open("h3", "b", usize::from(book))?;
    page.text(name.as_bytes())?;
    page.markup("</h3>\n")?;
    add_runs(page, index, name.as_bytes(), rules)
}

/// Whether a rule stands in its rulebook.
fn is_listed(index: &TaleIndex<'_>, rule: u16) -> bool {
    match index.story().book_of_rule(usize::from(rule)) {
        None => false,
        Some(book) => index
            .story()
            .rules_listed(book)
            .iter()
            .any(|other| *other == rule),
    }
}

/// The rules that stand in no rulebook.
pub fn unlisted(alloc: Global, index: &TaleIndex<'_>) -> Result<Vec<u16>, AllocError> {
    let mut rules = Vec::new(alloc);
    let count = u16::try_from(index.story().rule_count()).unwrap_or(u16::MAX);
    for rule in 0..count {
        if !is_listed(index, rule) {
            rules.push(rule)?;
        }
    }
    Ok(rules)
}

/// Adds a rule that stands in no rulebook.
fn add_unlisted_rule(
    alloc: Global,
    page: &mut Html,
    index: &TaleIndex<'_>,
    number: u16,
) -> Result<(), AllocError> {
    let Some(rule) = index.books.rule(number) else {
        return Ok(());
    };
    page.open("li", "r", usize::from(number))?;
    if let Some(book) = index.story().book_of_rule(usize::from(number))
        && rule.line.is_some()
    {
        page.text(index.books.book_name(alloc, book)?.as_bytes())?;
        page.text(rule.head.as_bytes())?;
        page.markup(" ")?;
    }
    page.markup("<b>")?;
    add_name(page, &rule)?;
    page.markup("</b>")?;
    page.line(rule.line)?;
    page.markup("</li>\n")
}

/// Adds the rules that stand in no rulebook, if there are any.
fn add_unlisted(alloc: Global, page: &mut Html, index: &TaleIndex<'_>) -> Result<(), AllocError> {
    let rules = unlisted(alloc, index)?;
    if rules.is_empty() {
        return Ok(());
    }
    page.markup("<h3 id=\"unlisted\">In no rulebook</h3>\n<ul class=\"plain\">\n")?;
    for rule in rules.as_slice() {
        add_unlisted_rule(alloc, page, index, *rule)?;
    }
    page.markup("</ul>\n")
}

/// Adds the rulebooks.
pub fn add_rulebooks(
    alloc: Global,
    page: &mut Html,
    index: &TaleIndex<'_>,
) -> Result<(), AllocError> {
    page.heading("rules", "Rulebooks")?;
    for book in 0..MOST_BOOKS {
        add_book(alloc, page, index, book)?;
    }
    add_unlisted(alloc, page, index)
}
