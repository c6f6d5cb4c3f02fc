//! What a sentence comes to that lists a rule (*Writing with Inform*, 19.16), once names are known.
ghost use Rattle.std.specs.Prelude.{◌≡◌, Some as There, option_map, IfOk};
ghost use Rattle.i7_rules.specs.Knowns.{known_of};
ghost use Rattle.i7_rules.specs.RuleList.{rules_lent};
ghost use Rattle.i7_resolution.specs.Listings.{IsListing, IsPlaced, book_words, front_of, is_book};
ghost use Rattle.i7_resolution.specs.NumberedRules.{all_names};

use crate::numbered_rule::{book_of_rule, rule_named};
use i7_actions::book_of;
use i7_rules::{Known, RuleAt};
use i7_sentences::{ListedIn, RuleListing, WordList};
use rule_order::{Front, ListingSentence};
use std::alloc::{AllocError, Global};
use world_meaning::TextBytes;

/// What a sentence comes to that lists a rule.
#[derive(Clone, Copy)]
pub enum ListingFound {
    Lists(ListingSentence),
    /// There is no such rule, or no such rulebook (C7).
    Unknown,
    /// The rulebook is another than the rule's own (C8).
    OtherBook,
}

/// Where a rule is listed.
fn front_of(place: &ListedIn) -> Front
    ensures { result ≡ front_of place.now }
{
    match place {
        ListedIn::First(_) => Front::First,
        ListedIn::Last(_) => Front::Last,
        ListedIn::Nowhere => Front::Nowhere,
    }
}

/// The words that name the rulebook, if one is named.
fn book_words(place: &ListedIn) -> Option<&WordList>
    ensures { option_map (λ words. words.now) result ≡ book_words place.now }
{
    match place {
        ListedIn::First(words) => Some(words),
        ListedIn::Last(words) => Some(words),
        ListedIn::Nowhere => None,
    }
}

/// Whether a rulebook that may not be there is this.
fn is_book(own: Option<u16>, book: u16) -> bool
    ensures { result ≡ is_book own book }
{
    match own {
        None => false,
        Some(own) => own == book,
    }
}

/// What it comes to that a rule is listed in the rulebook that words name.
fn placed_in(
    alloc: Global,
    known: &Known<'_>,
    rules: &[RuleAt<'_>],
    listing: ListingSentence,
    words: &[TextBytes],
) -> Result<ListingFound, AllocError>
    ensures { IfOk result (λ found. IsPlaced (known_of known.now) (rules_lent rules.now) listing (There words.now) found) }
{
    match book_of(alloc, known.actions, known.rulebooks, known.scenes, words)? {
        None => Ok(ListingFound::Unknown),
        Some(book) => {
            let own = book_of_rule(alloc, known, rules, listing.rule)?;
            Ok(if is_book(own, book) {
                ListingFound::Lists(listing)
            } else {
                ListingFound::OtherBook
            })
        }
    }
}

/// What it comes to that the rule of this number is listed so.
fn placed(
    alloc: Global,
    known: &Known<'_>,
    rules: &[RuleAt<'_>],
    listing: ListingSentence,
    place: &ListedIn,
) -> Result<ListingFound, AllocError>
    ensures { IfOk result (λ found. IsPlaced (known_of known.now) (rules_lent rules.now) listing (book_words place.now) found) }
{
    match book_words(place) {
        None => Ok(ListingFound::Lists(listing)),
        Some(words) => placed_in(alloc, known, rules, listing, words.as_slice()),
    }
}

/// What a sentence comes to that lists a rule, where all rules have these names.
pub fn listing_of(
    alloc: Global,
    known: &Known<'_>,
    rules: &[RuleAt<'_>],
    names: &[Option<TextBytes>],
    said: &RuleListing,
) -> Result<ListingFound, AllocError>
    requires names { names.now ≡ all_names (rules_lent rules.now) }
    ensures { IfOk result (λ found. IsListing (known_of known.now) (rules_lent rules.now) said.now found) }
{
    match rule_named(alloc, names, said.rule.as_slice())? {
        None => Ok(ListingFound::Unknown),
        Some(rule) => {
            let at = front_of(&said.place);
            placed(
                alloc,
                known,
                rules,
                ListingSentence { rule, at },
                &said.place,
            )
        }
    }
}
