//! Table 11 of a tale: its rulebooks, each with its rules in the order in which they are asked (*Writing with Inform*, 19.16).
ghost use Rattle.std.specs.Prelude.{◌≡◌, ◌≤◌, ◌++◌, map, length, IfOk, OnOk};
ghost use Rattle.std.specs.List.{range_with_len};
ghost use Rattle.play_meaning.specs.Patterns.{rule_meant};
ghost use Rattle.play_meaning.specs.StandardRules.{standard_rules};
ghost use Rattle.rule_order.specs.Books.{book_in};
ghost use Rattle.story_format.specs.Making.{books_of};
ghost use Rattle.story_format.specs.RuleHeadings.{all_headed, headed_as, headed_from, head_meant, heading_meant, heading_of, listing_at};

use crate::rule_making::book_count;
use crate::rule_tables::Book;
use crate::standard_rules::standard_heads;
use crate::table::Table;
use play_meaning::tree::{Listing, MeantRule, RuleHead};
use rule_order::{Books, Heading, ListingSentence, one_order, order, rules_are_listed_apart};
use std::alloc::{AllocError, Global};
use world_meaning::Tale;

/// How many rules every story has: the first of the author's has this number.
const STANDARD_COUNT: usize = 61;

/// The listing of the rule of this number; in order, where there is none.
fn listing_at(listings: &[Listing], number: usize) -> Listing
    ensures { result ≡ listing_at listings.now number }
{
    match listings.get(number) {
        None => Listing::InOrder,
        Some(listing) => *listing,
    }
}

/// What the order of a rulebook looks at in a rule with this head that is listed so, whatever the head says of that.
fn heading(head: &RuleHead, listing: Listing) -> Heading<'_>
    ensures { heading_meant result ≡ headed_as listing (head_meant head.now) }
{
    Heading {
        book: head.book,
        pattern: &head.pattern,
        is_conditional: head.condition.is_some(),
        listing,
    }
}

/// Adds the headings of rules with these heads, the first rules of all.
fn add_standard<'a>(
    headings: &mut Vec<Heading<'a>>,
    listings: &[Listing],
    heads: &'a [RuleHead],
) -> Result<(), AllocError>
    ensures { OnOk result (map heading_meant headings.new.items ≡ map heading_meant headings.old.items ++ headed_from listings.now 0 (map head_meant heads.now)) }
{
    let mut number = 0usize;
    let mut rest = heads;
    while let [head, after @ ..] = rest {
        headings.push(heading(head, listing_at(listings, number)))?;
        number += 1;
        rest = after;
    }
    Ok(())
}

/// Adds the headings of the author's rules, which stand behind those that every story has.
fn add_author<'a>(
    headings: &mut Vec<Heading<'a>>,
    listings: &[Listing],
    rules: &'a [MeantRule],
) -> Result<(), AllocError>
    requires few_rules { length rules.now ≤ 1939 }
    ensures { OnOk result (map heading_meant headings.new.items ≡ map heading_meant headings.old.items ++ headed_from listings.now 61 (map heading_of (map rule_meant rules.now))) }
{
    let mut number = STANDARD_COUNT;
    let mut rest = rules;
    while let [rule, after @ ..] = rest {
        headings.push(heading(&rule.head, listing_at(listings, number)))?;
        number += 1;
        rest = after;
    }
    Ok(())
}

/// The headings of all rules of a story, each with its listing: those that every story has, and behind them the author's.
fn headings_of<'a>(
    alloc: Global,
    listings: &[Listing],
    standard: &'a [RuleHead],
    rules: &'a [MeantRule],
) -> Result<Vec<Heading<'a>>, AllocError>
    requires standard { map head_meant standard.now ≡ map heading_of standard_rules }
    requires few_rules { length rules.now ≤ 1939 }
    ensures { IfOk result (λ headings. map heading_meant headings.items ≡ all_headed listings.now (map rule_meant rules.now)) }
{
    let mut headings = Vec::new(alloc);
    add_standard(&mut headings, listings, standard)?;
    add_author(&mut headings, listings, rules)?;
    Ok(headings)
}

/// The first of these books, so many, as table 11 has them.
fn table_of(alloc: Global, books: &Books, count: u16) -> Result<Table<Book>, AllocError>
    ensures { IfOk result (λ table. table ≡ map (λ book. record { rules = book_in books.now book }) (range_with_len 0 count)) }
{
    let mut all = Vec::new(alloc);
    for number in 0..count {
        all.push(Book {
            rules: Table::new(Vec::from_slice(alloc, books.book(number))?),
        })?;
    }
    Ok(Table::new(all))
}

/// The rulebooks of a tale with these rules, all rules being listed as these sentences say.
pub fn books_of(
    alloc: Global,
    tale: &Tale,
    rules: &[MeantRule],
    listings: &[ListingSentence],
) -> Result<Table<Book>, AllocError>
    requires few_kinds { length tale.now.declared.kinds ≤ 255 }
    requires few_rules { length rules.now ≤ 1939 }
    requires few_scenes { length tale.now.declared.scenes ≤ 50 }
    requires few_books { tale.now.declared.rulebooks ≤ 100 }
    ensures { IfOk result (λ books. books ≡ books_of tale.now listings.now (map rule_meant rules.now)) }
{
    one_order();
    rules_are_listed_apart();
    let standard = standard_heads(alloc)?;
    let listings = rule_order::listings(alloc, (STANDARD_COUNT + rules.len()) as u16, listings)?;
    let headings = headings_of(alloc, listings.as_slice(), standard.as_slice(), rules)?;
    let books = order(alloc, tale.declared.kinds.as_slice(), headings.as_slice())?;
    Ok(table_of(alloc, &books, book_count(&tale.declared))?)
}
