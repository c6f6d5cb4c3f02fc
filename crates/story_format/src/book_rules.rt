//! Which rules table 11 may list.
ghost use Rattle.std.specs.Prelude.{◌≡◌, slice_get, IfOk};
ghost use Rattle.std.specs.List.{list_all};
ghost use Rattle.std.specs.Option.{option_map};
ghost use Rattle.story_format.specs.BookRules.{is_of, list_their_own, lists_its_own};
ghost use Rattle.story_format.specs.Spells.{are_ordered};

use crate::once::are_different;
use crate::rule_entry::RuleEntry;
use crate::rule_tables::Book;
use crate::tables::Tables;
use std::alloc::{AllocError, Global};

/// Whether a rule is there, and of the book of this number.
fn is_of(book: usize, rule: Option<&RuleEntry>) -> bool
    ensures { result ≡ is_of book (option_map (λ rule. rule.now) rule.entry) }
{
    match rule {
        None => false,
        Some(rule) => usize::from(rule.book) == book,
    }
}

/// Whether the rule of this number is.
fn is_own(rules: &[RuleEntry], book: usize, rule: u16) -> bool
    ensures { result ≡ is_of book (slice_get rules.now rule) }
{
    is_of(book, rules.get(usize::from(rule)))
}

fn each_is_own(rules: &[RuleEntry], book: usize, listed: &[u16]) -> bool
    ensures { result ≡ list_all (λ rule. is_of book (slice_get rules.now rule)) listed.now }
{
    listed.iter().all(|rule| is_own(rules, book, *rule))
}

/// Whether a book of this number lists rules of its own, and none twice.
#[tactic(auto, unfolding(crate::specs::BookRules::lists_its_own))]
fn lists_its_own(
    alloc: Global,
    rules: &[RuleEntry],
    number: usize,
    book: &Book,
) -> Result<bool, AllocError>
    ensures { IfOk result (λ own. own ≡ lists_its_own rules.now number book.now) }
{
    let listed = book.rules.as_slice();
    if !each_is_own(rules, number, listed) {
        return Ok(false);
    }
    Ok(are_different(alloc, rules.len(), listed)?)
}

/// Whether each book does, the first having the number 0.
#[tactic(auto, unfolding(crate::specs::BookRules::list_their_own))]
fn list_their_own(alloc: Global, rules: &[RuleEntry], books: &[Book]) -> Result<bool, AllocError>
    ensures { IfOk result (λ own. own ≡ list_their_own rules.now 0 books.now) }
{
    let mut number = 0usize;
    let mut rest = books;
    while let [book, after @ ..] = rest {
        if !lists_its_own(alloc, rules, number, book)? {
            return Ok(false);
        }
        number += 1;
        rest = after;
    }
    Ok(true)
}

/// Whether the books of a story list rules of their own, and none twice.
#[tactic(auto, unfolding(crate::specs::Spells::are_ordered))]
pub fn are_ordered(alloc: Global, tables: &Tables) -> Result<bool, AllocError>
    ensures { IfOk result (λ ordered. ordered ≡ are_ordered tables.now) }
{
    let rules = &tables.rules;
    Ok(list_their_own(alloc, rules.rules.as_slice(), rules.books.as_slice())?)
}
