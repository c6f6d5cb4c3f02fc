//! Where the sentences of a source list its rules, or why the source is refused for them.
ghost use Rattle.std.specs.Prelude.{◌≡◌, reverse, IfOk};
ghost use Rattle.i7_rules.specs.Knowns.{known_of};
ghost use Rattle.i7_rules.specs.RuleList.{rules_lent};
ghost use Rattle.i7_resolution.specs.ListingList.{listing_lent, listings_lent};
ghost use Rattle.i7_resolution.specs.ListingScans.{IsSoFar, refused_or, so_far_told, state_of, with_found};
ghost use Rattle.i7_resolution.specs.NumberedRules.{all_names};
ghost use Rattle.i7_resolution.specs.SourceListings.{IsListingsFound};

use crate::listing::{ListingFound, listing_of};
use crate::listing_list::{ListingAt, listings_in};
use crate::numbered_rule::names_of;
use i7_actions::one_book_is_followed;
use i7_rules::{Known, RuleAt, rules_in};
use i7_sentences::{Sentence, lower_of};
use rule_order::ListingSentence;
use std::alloc::{AllocError, Global};
use world_meaning::{Fault, FaultCode, TextBytes};

/// Where the sentences of a source list rules.
#[derive(Drop)]
pub enum ListingsFound {
    /// What each that lists a rule says, in order: the rule by its number, the sixty-one that every story has being the first.
    Says(Vec<ListingSentence>),
    /// The source is refused for them.
    Refused(Fault),
}

/// What is found of a source's first sentences that list rules.
#[derive(Drop)]
struct SoFar {
    listings: Vec<ListingSentence>,
    /// The lowest line of one whose rule or rulebook isn't there.
    unknown: Option<u32>,
    /// The lowest line of one whose rulebook isn't the rule's own.
    misplaced: Option<u32>,
}

/// With a sentence that is found to come to this.
fn with_found(
    so_far: SoFar,
    listing: &ListingAt<'_>,
    found: ListingFound,
) -> Result<SoFar, AllocError>
    ensures { IfOk result (λ next. state_of next ≡ with_found (state_of so_far) (listing_lent listing.now) found) }
{
    let mut next = so_far;
    match found {
        ListingFound::Lists(listed) => next.listings.push(listed)?,
        ListingFound::Unknown => next.unknown = lower_of(next.unknown, Some(listing.line)),
        ListingFound::OtherBook => next.misplaced = lower_of(next.misplaced, Some(listing.line)),
    }
    Ok(next)
}

/// What is found of all of them, where all rules have these names.
fn read_listings(
    alloc: Global,
    known: &Known<'_>,
    rules: &[RuleAt<'_>],
    names: &[Option<TextBytes>],
    listings: &[ListingAt<'_>],
) -> Result<SoFar, AllocError>
    requires names { names.now ≡ all_names (rules_lent rules.now) }
    ensures { IfOk result (λ so_far. IsSoFar (known_of known.now) (rules_lent rules.now) (reverse (listings_lent listings.now)) (state_of so_far)) }
{
    one_book_is_followed();
    let mut so_far = SoFar {
        listings: Vec::new(alloc),
        unknown: None,
        misplaced: None,
    };
    let mut rest = listings;
    while let [listing, behind @ ..] = rest {
        let found = listing_of(alloc, known, rules, names, listing.said)?;
        so_far = with_found(so_far, listing, found)?;
        rest = behind;
    }
    Ok(so_far)
}

/// Refused with the code at the line, if there is one, and else the next answer.
fn refused_or(code: FaultCode, line: Option<u32>, next: ListingsFound) -> ListingsFound
    ensures { result ≡ refused_or code line next }
{
    match line {
        None => next,
        Some(line) => ListingsFound::Refused(Fault { code, line }),
    }
}

/// What is told by what is found: the first refusal in order, or where all rules are listed.
fn told(so_far: SoFar) -> ListingsFound
    ensures { result ≡ so_far_told so_far }
{
    let said = ListingsFound::Says(so_far.listings);
    let placed = refused_or(FaultCode::WrongKind, so_far.misplaced, said);
    refused_or(FaultCode::UnknownName, so_far.unknown, placed)
}

/// Where the sentences of a source list its rules, or what refuses it for them, at the lowest line of a sentence whose rule or
/// rulebook isn't there (C7), and else of one that names another rulebook than the rule's own (C8).
pub fn listings_of(
    alloc: Global,
    known: &Known<'_>,
    sentences: &[Sentence],
) -> Result<ListingsFound, AllocError>
    ensures { IfOk result (λ found. IsListingsFound (known_of known.now) sentences.now found) }
{
    let rules = rules_in(alloc, sentences)?;
    let names = names_of(alloc, rules.as_slice())?;
    let listings = listings_in(alloc, sentences)?;
    let so_far = read_listings(
        alloc,
        known,
        rules.as_slice(),
        names.as_slice(),
        listings.as_slice(),
    )?;
    Ok(told(so_far))
}
