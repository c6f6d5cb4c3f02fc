//! The index of a story's rules.
ghost use Rattle.std.specs.Prelude.{◌≡◌, ◌==◌, ◌+◌, ◌<◌, ◌^◌, IfOk, IfSome, position};
ghost use Rattle.story_format.specs.Facts.{rules_listed};
ghost use Rattle.story_format.specs.declared.tables.Tables.{Tables};
ghost use Rattle.rule_index.specs.Buckets.{place_in_book, rule_admits};
ghost use Rattle.rule_index.specs.Classes.{AreIndexed, class_of};
ghost use Rattle.rule_index.specs.Walks.{FindsFirst};

use crate::admitting::Asked;
use crate::classes::{Classes, classes_of};
use crate::walks::{first_listed, first_of_class};
use play_meaning::ActNo;
use std::alloc::{AllocError, Global};
use std::marker::Model;
use std::rc::Rc;
use story_format::Story;
use world_meaning::ObjNo;

/// The rules of a story by book and action.
#[derive(Drop)]
pub struct Index {
    story: Rc<Story>,
    books: Vec<Classes>,
}

impl Model for Index {
    ghost use Rattle.story_format.specs.declared.tables.Tables.{Tables};
    ghost use Rattle.rule_index.specs.Classes.{AreIndexed};

    ghost Value = { Tables };

    ghost view = { λ index. index.story.value };

    ghost invariant = { λ index. AreIndexed index.story.value index.books.items };
}

/// A number behind those of all books that have a rule.
fn book_count(story: &Story) -> u16 {
    let mut count = 0;
    for rule in 0..story.rule_count() {
        if let Some(book) = story.book_of_rule(rule) {
            count = count.max(book.saturating_add(1));
        }
    }
    count
}

/// The classes of each book of a story.
fn classes_of_each(alloc: Global, story: &Story) -> Result<Vec<Classes>, AllocError>
    ensures { IfOk result (λ books. AreIndexed story.now books.items) }
{
    let mut books = Vec::new(alloc);
    for book in 0..book_count(story) {
        books.push(classes_of(alloc, story, book)?)?;
    }
    Ok(books)
}

/// The class of an action in a book, if there are classes of that book.
fn class_in(books: &[Classes], book: u16, action: ActNo) -> Option<&[u16]>
    ensures { (t : Tables) → AreIndexed t books.now → IfSome result (λ class. class.now ≡ class_of t book action) }
{
    books.get(usize::from(book))?.get(action.get())
}

/// The place of a rule among those that a book lists.
fn place_in(listed: &[u16], rule: u16) -> Option<usize>
    ensures { result ≡ position (λ other. other == rule) listed.now }
{
    listed.iter().position(|other| *other == rule)
}

/// The place of a rule in its book.
fn place_told(story: &Story, rule: u16) -> Option<usize>
    ensures { result ≡ place_in_book story.now rule }
{
    match story.book_of_rule(usize::from(rule)) {
        None => None,
        Some(book) => place_in(story.rules_listed(book), rule),
    }
}

impl Index {
    /// The index of a story.
    ///
    /// # Errors
    ///
    /// Want of memory.
    pub fn build(alloc: Global, story: &Rc<Story>) -> Result<Index, AllocError>
        ensures { IfOk result (λ index. index ≡ story.now.value) }
    {
        Ok(Index {
            books: classes_of_each(alloc, story.as_ref())?,
            story: story.clone()?,
        })
    }

    /// The first rule of a book that admits an action, a noun and a room, at a place or behind it, and its place.
    pub fn first_from(
        &self,
        book: u16,
        action: ActNo,
        noun: Option<ObjNo>,
        room: Option<ObjNo>,
        from: usize,
    ) -> Option<(usize, u16)>
        ensures first { FindsFirst (rule_admits self.now action noun room) (rules_listed self.now book) from result }
        ensures few { IfSome result (λ found. found.0 + 1 < 2 ^ 64) }
    {
        let story = self.story.as_ref();
        let listed = story.rules_listed(book);
        let asked = Asked { action, noun, room };
        match class_in(self.books.as_slice(), book, action) {
            None => first_listed(story, listed, from, &asked),
            Some(class) => first_of_class(story, listed, class, from, &asked),
        }
    }

    /// The place at which a rule stands in its book, from 0; none of one that its book doesn't list.
    pub fn place(&self, rule: u16) -> Option<usize>
        ensures { result ≡ place_in_book self.now rule }
    {
        place_told(self.story.as_ref(), rule)
    }
}
