//! The words that may be typed: which objects and which commands each may mean, and objects that no words can part.
use crate::html::Html;
use crate::naming::name_at;
use crate::tale_index::{TaleIndex, number};
use command_grammar::Token;
use std::alloc::{AllocError, Global};
use world_meaning::{KindNo, lowered};

/// A word, whether it stands in a command, and the object that it may mean or the action for which the command asks.
type Use = (Vec<u8>, bool, usize);

/// Adds the words that an object goes by.
fn add_object_words(
    alloc: Global,
    uses: &mut Vec<Use>,
    index: &TaleIndex<'_>,
    object: usize,
) -> Result<(), AllocError> {
    let story = index.story();
    for place in 0..story.word_count(number(object)) {
        let word = Vec::from_slice(alloc, story.word(number(object), place))?;
        uses.push((word, false, object))?;
    }
    Ok(())
}

/// Adds the words of a command.
fn add_command_words(
    alloc: Global,
    uses: &mut Vec<Use>,
    index: &TaleIndex<'_>,
    line: u16,
) -> Result<(), AllocError> {
    let story = index.story();
    let action = usize::from(story.line_action(line).get());
    for place in 0..story.token_count(line) {
        if let Some(Token::Word(word)) = story.token(line, place) {
            uses.push((lowered(alloc, word)?, true, action))?;
        }
    }
    Ok(())
}

/// All uses of words, in the order of the words.
fn uses_of(alloc: Global, index: &TaleIndex<'_>) -> Result<Vec<Use>, AllocError> {
    let mut uses = Vec::new(alloc);
    for object in 0..index.objects().len() {
        add_object_words(alloc, &mut uses, index, object)?;
    }
    for line in 0..index.story().line_count() {
        add_command_words(alloc, &mut uses, index, line)?;
    }
    uses.sort()?;
    Ok(uses)
}

/// Whether an object has an entry in the page.
fn has_entry(index: &TaleIndex<'_>, object: usize) -> bool {
    index.is_of(object, KindNo::THING) || index.is_of(object, KindNo::ROOM)
}

/// Adds the name of an object, which leads to its entry if it has one.
pub fn add_object(page: &mut Html, index: &TaleIndex<'_>, object: usize) -> Result<(), AllocError> {
    if has_entry(index, object) {
        page.link("o", object, index.object_name(object))
    } else {
        page.text(index.object_name(object))
    }
}

/// Adds what a word may mean.
fn add_use(page: &mut Html, index: &TaleIndex<'_>, one: &Use) -> Result<(), AllocError> {
    if one.1 {
        page.markup("<i>")?;
        page.link("a", one.2, name_at(index.naming.actions.as_slice(), one.2))?;
        page.markup("</i>")
    } else {
        add_object(page, index, one.2)
    }
}

/// Whether two uses are of one word.
fn is_same_word(one: &Use, other: &Use) -> bool {
    one.0.as_slice() == other.0.as_slice()
}

/// Whether two uses are one.
fn is_same_use(one: &Use, other: &Use) -> bool {
    is_same_word(one, other) && one.1 == other.1 && one.2 == other.2
}

/// Adds the use at a place: with its word, where that is another than the one before.
fn add_at(
    page: &mut Html,
    index: &TaleIndex<'_>,
    before: Option<&Use>,
    one: &Use,
) -> Result<(), AllocError> {
    match before {
        Some(before) if is_same_use(before, one) => return Ok(()),
        Some(before) if is_same_word(before, one) => page.markup(", ")?,
        _ => {
            page.markup(if before.is_none() {
                "<li>"
            } else {
                "</li>\n<li>"
            })?;
            page.markup("<kbd>")?;
            page.text(one.0.as_slice())?;
            page.markup("</kbd> ")?;
        }
    }
    add_use(page, index, one)
}

/// Adds all words with what they may mean.
fn add_uses(page: &mut Html, index: &TaleIndex<'_>, uses: &[Use]) -> Result<(), AllocError> {
    page.markup("<ul class=\"plain words\">\n")?;
    let mut before: Option<&Use> = None;
    for one in uses {
        add_at(page, index, before, one)?;
        before = Some(one);
    }
    if before.is_some() {
        page.markup("</li>")?;
    }
    page.markup("\n</ul>\n")
}

/// The words of an object in their order, each behind a blank.
fn key_of(alloc: Global, index: &TaleIndex<'_>, object: usize) -> Result<Vec<u8>, AllocError> {
    let story = index.story();
    let mut words = Vec::new(alloc);
    for place in 0..story.word_count(number(object)) {
        words.push(lowered(alloc, story.word(number(object), place))?)?;
    }
    words.sort()?;
    let mut key = Vec::new(alloc);
    for word in words.as_slice() {
        key.push(b' ')?;
        key.extend_from_slice(word.as_slice())?;
    }
    Ok(key)
}

/// The things by their words: those that go by the same stand side by side.
fn by_words(alloc: Global, index: &TaleIndex<'_>) -> Result<Vec<(Vec<u8>, usize)>, AllocError> {
    let mut all = Vec::new(alloc);
    for object in 0..index.objects().len() {
        if index.is_of(object, KindNo::THING) {
            all.push((key_of(alloc, index, object)?, object))?;
        }
    }
    all.sort()?;
    Ok(all)
}

/// Pairs of things that go by the same words.
pub fn alike(alloc: Global, index: &TaleIndex<'_>) -> Result<Vec<(usize, usize)>, AllocError> {
    let things = by_words(alloc, index)?;
    let mut pairs = Vec::new(alloc);
    let mut before: Option<&(Vec<u8>, usize)> = None;
    for one in things.as_slice() {
        if let Some(other) = before
            && other.0.as_slice() == one.0.as_slice()
        {
            pairs.push((other.1, one.1))?;
        }
        before = Some(one);
    }
    Ok(pairs)
}

/// Adds the things that no words can part, if there are any.
fn add_alike(alloc: Global, page: &mut Html, index: &TaleIndex<'_>) -> Result<(), AllocError> {
    let pairs = alike(alloc, index)?;
    if pairs.is_empty() {
        return Ok(());
    }
    page.markup("<h3 id=\"alike\">Alike</h3>\n<ul class=\"plain\">\n")?;
    for pair in pairs.as_slice() {
        page.markup("<li class=\"mark\">no typed words part ")?;
        add_object(page, index, pair.0)?;
        page.line(index.object_line(pair.0))?;
        page.markup(" from ")?;
        add_object(page, index, pair.1)?;
        page.line(index.object_line(pair.1))?;
        page.markup("</li>\n")?;
    }
    page.markup("</ul>\n")
}

/// Adds the words.
pub fn add_words(alloc: Global, page: &mut Html, index: &TaleIndex<'_>) -> Result<(), AllocError> {
    page.heading("words", "Words")?;
    let uses = uses_of(alloc, index)?;
    add_uses(page, index, uses.as_slice())?;
    add_alike(alloc, page, index)
}
