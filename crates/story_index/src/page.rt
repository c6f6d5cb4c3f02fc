//! The whole page.
use crate::actions::add_actions;
use crate::figures::add_figures;
use crate::glance::add_glance;
use crate::html::Html;
use crate::kinds::add_kinds;
use crate::listing::add_source;
use crate::map::add_map;
use crate::naming::{Naming, naming_of};
use crate::rules::add_rulebooks;
use crate::style::STYLE;
use crate::tale_index::{IndexWay, TaleIndex, held_in, plain_ways, rooms_of, start_of, ways_of};
use crate::words::add_words;
use crate::world::add_world;
use room_map::reached_from;
use rule_listing::Rulebooks;
use source_outline::{Outline, Unlisted, outline_of};
use std::alloc::{AllocError, Global};

/// What stands behind the blanks in front of a text.
fn behind_blanks(text: &[u8]) -> &[u8] {
    let blank = |byte: &u8| *byte == b' ' || *byte == b'\n' || *byte == b'\r' || *byte == b'\t';
    match text.iter().position(|byte| !blank(byte)) {
        None => &[],
        Some(place) => match text.split_at_checked(place) {
            None => &[],
            Some((_, behind)) => behind,
        },
    }
}

/// The title of a source: the text with which it begins.
fn title_of(source: &[u8]) -> &[u8] {
    let [b'"', rest @ ..] = behind_blanks(source) else {
        return b"A story without a title";
    };
    match rest.iter().position(|byte| *byte == b'"') {
        None => rest,
        Some(end) => match rest.split_at_checked(end) {
            None => rest,
            Some((title, _)) => title,
        },
    }
}

/// Adds the head of the page, and what leads to its parts.
fn open_page(page: &mut Html, title: &[u8], with_source: bool) -> Result<(), AllocError> {
    page.markup(
        "<!DOCTYPE html>\n<html lang=\"en\" xmlns=\"http://www.w3.org/1999/xhtml\">\n<head>\n<meta charset=\"utf-8\"/>\n",
    )?;
    page.markup(
        "<meta name=\"viewport\" content=\"width=device-width, initial-scale=1\"/>\n<title>",
    )?;
    page.text(title)?;
    page.markup(": index</title>\n<style>")?;
    page.markup(STYLE)?;
    page.markup("</style>\n</head>\n<body>\n<header><h1>")?;
    page.text(title)?;
    page.markup(
        "</h1></header>\n<nav><div><a href=\"#map\">Map</a><a href=\"#world\">World</a><a href=\"#kinds\">Kinds</a>",
    )?;
    page.markup(
        "<a href=\"#actions\">Actions</a><a href=\"#rules\">Rules</a><a href=\"#words\">Words</a><a href=\"#figures\">Figures</a>",
    )?;
    if with_source {
        page.markup("<a href=\"#source\">Source</a>")?;
    }
    page.markup("</div></nav>\n<main>\n")
}

/// Adds the key of the map.
fn add_key(page: &mut Html) -> Result<(), AllocError> {
    page.markup(
        "<p class=\"key\">Lines lead in their directions; curves with arrows are ways that can’t be drawn so. Dashed lines lead up, down, in or out; ",
    )?;
    page.markup("squares are doors. Each room leads to its entry.</p>\n")
}

/// Adds the parts of the page.
fn add_parts(
    alloc: Global,
    page: &mut Html,
    index: &TaleIndex<'_>,
    source: &[u8],
    start: usize,
) -> Result<(), AllocError> {
    add_glance(alloc, page, index)?;
    page.heading("map", "Map")?;
    add_map(alloc, page, index, start)?;
    add_key(page)?;
    add_world(alloc, page, index)?;
    add_kinds(alloc, page, index)?;
    add_actions(alloc, page, index)?;
    add_rulebooks(alloc, page, index)?;
    add_words(alloc, page, index)?;
    add_figures(page, index, source.len())
}

/// The page of what is told.
fn page_of(
    alloc: Global,
    index: &TaleIndex<'_>,
    source: &[u8],
    start: usize,
    with_source: bool,
) -> Result<Vec<u8>, AllocError> {
    let mut page = Html::new(alloc, with_source);
    open_page(&mut page, title_of(source), with_source)?;
    add_parts(alloc, &mut page, index, source, start)?;
    if with_source {
        add_source(&mut page, source)?;
    }
    page.markup("</main>\n<footer>Written by i7story.</footer>\n</body>\n</html>\n")?;
    Ok(page.into_bytes())
}

/// Which rooms ways lead to.
fn reached_by(
    alloc: Global,
    rooms: usize,
    start: usize,
    ways: &[IndexWay],
) -> Result<Vec<bool>, AllocError> {
    let ways = plain_ways(alloc, ways)?;
    let rooms = u16::try_from(rooms).unwrap_or(u16::MAX);
    reached_from(alloc, rooms, start, ways.as_slice())
}

/// What is told of rulebooks and names.
fn index_of<'a>(
    alloc: Global,
    books: &'a Rulebooks<'a>,
    naming: &'a Naming,
) -> Result<TaleIndex<'a>, AllocError> {
    let tale = &books.outline.meant.tale;
    let rooms = rooms_of(alloc, tale)?;
    let ways = ways_of(alloc, tale, rooms.as_slice())?;
    let start = start_of(&books.outline.story, rooms.as_slice());
    let reached = reached_by(alloc, rooms.len(), start, ways.as_slice())?;
    Ok(TaleIndex {
        books,
        naming,
        held: held_in(alloc, tale)?,
        rooms,
        ways,
        reached,
    })
}

/// The page of a source with this outline.
fn page_for(
    alloc: Global,
    outline: &Outline,
    source: &[u8],
    with_source: bool,
) -> Result<Vec<u8>, AllocError> {
    let books = Rulebooks::new(alloc, outline)?;
    let naming = naming_of(alloc, outline.sentences.as_slice())?;
    let index = index_of(alloc, &books, &naming)?;
    let start = start_of(&outline.story, index.rooms.as_slice());
    page_of(alloc, &index, source, start, with_source)
}

/// The page of a source, with the source itself where that is asked; where the source is refused, why.
pub fn index_page(alloc: Global, source: &[u8], with_source: bool) -> Result<Vec<u8>, Unlisted> {
    let outline = outline_of(alloc, source)?;
    match page_for(alloc, &outline, source, with_source) {
        Ok(page) => Ok(page),
        Err(refused) => Err(Unlisted::Memory(refused)),
    }
}
