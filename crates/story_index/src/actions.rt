//! The actions: what each asks for, the commands that lead to it, and its rules, stage by stage.
use crate::html::Html;
use crate::naming::{line_at, name_at};
use crate::rules::add_rule_link;
use crate::tale_index::TaleIndex;
use command_grammar::Token;
use play_meaning::ActNo;
use play_meaning::standard_books::REPORT;
use rule_listing::{Sought, SoughtObject, rules_sought};
use std::alloc::{AllocError, Global};
use story_format::ActionEntry;

/// The numbers of what an action asks of a noun: nothing, that it is seen, and that it is carried.
const NO_NOUN: u8 = 255;

const SEEN: u8 = 0;

const CARRIED: u8 = 2;

/// The marks of an action that needs light, and of one that is about the game.
const IN_LIGHT: u8 = 1;

const OUT_OF_WORLD: u8 = 2;

/// The words of a noun that is asked for.
fn noun_words(need: u8) -> &'static str {
    match need {
        NO_NOUN => "",
        SEEN => "a thing that is seen",
        CARRIED => "a thing that is carried",
        _ => "a thing that is touched",
    }
}

/// Adds what an action asks for.
fn add_needs(page: &mut Html, needs: &ActionEntry) -> Result<(), AllocError> {
    page.markup("<p>Asks for ")?;
    if needs.noun == NO_NOUN {
        page.markup("no noun")?;
    } else {
        page.markup(noun_words(needs.noun))?;
    }
    if needs.second != NO_NOUN {
        page.markup(" and ")?;
        page.markup(noun_words(needs.second))?;
    }
    if needs.marks == IN_LIGHT {
        page.markup(", in the light")?;
    }
    if needs.marks == OUT_OF_WORLD {
        page.markup("; it is out of the world")?;
    }
    page.markup("</p>\n")
}

/// Adds a token of a command.
fn add_token(page: &mut Html, token: Token<'_>) -> Result<(), AllocError> {
    match token {
        Token::Word(word) => page.text(word),
        Token::Something => page.markup("[something]"),
        Token::Direction => page.markup("[direction]"),
    }
}

/// Adds a command, as its line is written.
fn add_command(page: &mut Html, index: &TaleIndex<'_>, line: u16) -> Result<(), AllocError> {
    for place in 0..index.story().token_count(line) {
        if place != 0 {
            page.markup(" ")?;
        }
        if let Some(token) = index.story().token(line, place) {
            add_token(page, token)?;
        }
    }
    Ok(())
}

/// Adds the commands that lead to an action.
fn add_commands(page: &mut Html, index: &TaleIndex<'_>, action: ActNo) -> Result<(), AllocError> {
    let mut is_first = true;
    page.markup("<p>")?;
    for line in 0..index.story().line_count() {
        if index.story().line_action(line) == action {
            page.markup(if is_first { "Typed: " } else { "; " })?;
            page.markup("<kbd>")?;
            add_command(page, index, line)?;
            page.markup("</kbd>")?;
            is_first = false;
        }
    }
    if is_first {
        page.markup("<span class=\"mark\">no command leads to it</span>")?;
    }
    page.markup("</p>\n")
}

/// Adds the rules of a book that admit an action, if there are any.
fn add_stage(
    alloc: Global,
    page: &mut Html,
    index: &TaleIndex<'_>,
    action: ActNo,
    book: u16,
) -> Result<(), AllocError> {
    let sought = Sought {
        action: Some(action),
        noun: SoughtObject::Any,
        room: SoughtObject::Any,
    };
    let rules = rules_sought(alloc, index.story(), &sought, book)?;
    if rules.is_empty() {
        return Ok(());
    }
    page.markup("<li>")?;
    page.text(index.books.book_name(alloc, book)?.as_bytes())?;
    let mut is_first = true;
    for rule in rules.as_slice() {
        page.markup(if is_first { ": " } else { ", " })?;
        add_rule_link(page, index, *rule)?;
        is_first = false;
    }
    page.markup("</li>\n")
}

/// Adds an action.
fn add_action(
    alloc: Global,
    page: &mut Html,
    index: &TaleIndex<'_>,
    action: usize,
) -> Result<(), AllocError> {
    let Ok(number) = u8::try_from(action) else {
        return Ok(());
    };
    page.open("h3", "a", action)?;
    page.text(name_at(index.naming.actions.as_slice(), action))?;
    page.line(line_at(index.naming.actions.as_slice(), action))?;
    page.markup("</h3>\n")?;
    if let Some(needs) = index.story().action(action) {
        add_needs(page, needs)?;
    }
    add_commands(page, index, ActNo::new(number))?;
    page.markup("<ul class=\"plain\">\n")?;
    for book in 0..=REPORT {
        add_stage(alloc, page, index, ActNo::new(number), book)?;
    }
    page.markup("</ul>\n")
}

/// Adds the actions, the author's first.
pub fn add_actions(
    alloc: Global,
    page: &mut Html,
    index: &TaleIndex<'_>,
) -> Result<(), AllocError> {
    page.heading("actions", "Actions and commands")?;
    let count = index.story().action_count();
    for action in 16..count {
        add_action(alloc, page, index, action)?;
    }
    page.markup("<details><summary>The sixteen actions of every story</summary>\n")?;
    for action in 0..16 {
        add_action(alloc, page, index, action)?;
    }
    page.markup("</details>\n")
}
