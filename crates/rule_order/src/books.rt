//! Rulebooks, each with its rules in the order in which they are asked.
ghost use Rattle.std.specs.Prelude.{◌≡◌, ◌≤◌, length, IfOk};
ghost use Rattle.rule_order.specs.Books.{AreBooksOf, book_in};
ghost use Rattle.rule_order.specs.Entries.{books_from, count_of, numbers_of};

use crate::entry::{Entry, count_of, entries_of, numbers_of};
use crate::heading::Heading;
use std::alloc::{AllocError, Global};
use std::marker::Model;
use world_meaning::{KindNo, Listed};

/// The rules of each rulebook, by their numbers, in order.
#[derive(Drop)]
pub struct Books {
    all: Vec<Listed<u16>>,
}

impl Model for Books {
    ghost use Rattle.std.specs.Prelude.{ℕ, List};

    ghost Value = { List (List ℕ) };

    ghost view = { λ books. books.all.items };
}

impl Books {
    /// The rules of a rulebook, by their numbers, in the order in which they are asked.
    pub fn book(&self, book: u16) -> &[u16]
        ensures { result.now ≡ book_in self.now book }
    {
        match self.all.get(usize::from(book)) {
            None => &[],
            Some(rules) => rules.as_slice(),
        }
    }
}

/// The rulebooks of sorted entries.
#[tactic(auto, unfolding(crate::specs::Entries::books_from))]
fn books_from(alloc: Global, entries: &[Entry]) -> Result<Books, AllocError>
    ensures { IfOk result (λ books. books ≡ books_from entries.now) }
{
    let mut all = Vec::new(alloc);
    for book in 0..count_of(entries) {
        all.push(Listed::new(numbers_of(alloc, entries, book)?))?;
    }
    Ok(Books { all })
}

/// The rulebooks of these rules, each rule's number being its place among them: those listed first, the latest sentence in
/// front; then the more specific before the less, and of equals the earlier; then those listed last. It takes time n log n,
/// and goes over the rules once for each rulebook.
pub fn order(
    alloc: Global,
    kinds: &[Option<KindNo>],
    headings: &[Heading<'_>],
) -> Result<Books, AllocError>
    requires few { length kinds.now ≤ 255 }
    requires countable { length headings.now ≤ 65535 }
    ensures { IfOk result (λ books. AreBooksOf kinds.now headings.now books) }
{
    let mut entries = entries_of(alloc, kinds, headings)?;
    entries.sort()?;
    Ok(books_from(alloc, entries.as_slice())?)
}
