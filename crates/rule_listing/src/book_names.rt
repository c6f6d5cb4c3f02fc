//! The names of rulebooks, as rules' heads have them.
use crate::rulebooks::Rulebooks;
use i7_sentences::{Assertion, Sentence};
use std::alloc::{AllocError, Global};
use world_meaning::TextBytes;

/// Those that every story has, by number.
const BUILT_IN: [&str; 8] = [
    "before",
    "instead of",
    "check",
    "carry out",
    "after",
    "report",
    "every turn",
    "when play begins",
];

/// The names of the scenes, by number, as their sentences write them.
pub fn scenes_of(alloc: Global, sentences: &[Sentence]) -> Result<Vec<TextBytes>, AllocError> {
    let mut scenes = Vec::new(alloc);
    for sentence in sentences {
        if let Assertion::Scene { name, .. } = &sentence.said {
            scenes.push(TextBytes::copied(alloc, name.text.as_slice())?)?;
        }
    }
    Ok(scenes)
}

/// A name, if it is there.
fn readable(name: Option<&[u8]>) -> &str {
    match name {
        None => "?",
        Some(name) => str::from_utf8(name).unwrap_or("?"),
    }
}

/// The name of an author's rulebook.
fn own_name<'a>(books: &'a Rulebooks<'_>, number: usize) -> &'a str {
    let names = books.outline.meant.names.rulebooks.as_slice();
    readable(names.get(number).map(|name| name.as_slice()))
}

/// The name of a scene.
fn scene_name<'a>(books: &'a Rulebooks<'_>, number: usize) -> &'a str {
    readable(books.scenes.get(number).map(|name| name.as_slice()))
}

/// The author's rulebook that a book is, if it stands behind those of so many scenes; of these there are two each.
fn own_number(scenes: usize, number: usize) -> Option<usize> {
    number.checked_sub(scenes)?.checked_sub(scenes)
}

/// The name of a book behind the built-in ones.
fn name_behind(alloc: Global, books: &Rulebooks<'_>, number: usize) -> Result<String, AllocError> {
    if let Some(own) = own_number(books.scenes.len(), number) {
        let name = own_name(books, own);
        return format!(in alloc; "a {name} rule");
    }
    let scene = scene_name(books, number / 2);
    let change = if number % 2 == 0 { "begins" } else { "ends" };
    format!(in alloc; "when {scene} {change}")
}

/// The name of the rulebook of this number.
pub fn name_of(alloc: Global, books: &Rulebooks<'_>, number: usize) -> Result<String, AllocError> {
    match BUILT_IN.get(number) {
        Some(name) => format!(in alloc; "{name}"),
        None => name_behind(alloc, books, number.saturating_sub(BUILT_IN.len())),
    }
}
