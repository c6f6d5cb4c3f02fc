//! Where the sentences of a source list its rules (*Writing with Inform*, 19.16): of each rule the latest counts.
ghost use Rattle.std.specs.Prelude.{◌≡◌, IfOk};
ghost use Rattle.play_meaning.specs.declared.tree.pattern.Listing.TheVariants.{InOrder};
ghost use Rattle.rule_order.specs.Listings.{AreListings, listed_after, listing_by};

use play_meaning::tree::Listing;
use std::alloc::{AllocError, Global};

/// Where a sentence lists a rule.
#[derive(Clone, Copy)]
pub enum Front {
    /// `is listed first in`
    First,
    /// `is listed last in`
    Last,
    /// `is not listed in any rulebook`
    Nowhere,
}

/// A sentence that lists a rule.
#[derive(Clone, Copy)]
pub struct ListingSentence {
    /// The rule, by its number.
    pub rule: usize,
    pub at: Front,
}

/// Where the sentence of this number lists its rule.
fn listing_by(number: u32, at: Front) -> Listing
    ensures { result ≡ listing_by number at }
{
    match at {
        Front::First => Listing::First(number),
        Front::Last => Listing::Last(number),
        Front::Nowhere => Listing::Unlisted,
    }
}

/// The rules' listings with that of one more sentence, if its rule is there.
fn list(listings: &mut Vec<Listing>, number: u32, sentence: ListingSentence)
    ensures { listings.new.items ≡ listed_after listings.old.items number sentence }
{
    if let Some(listing) = listings.get_mut(sentence.rule) {
        *listing = listing_by(number, sentence.at);
    }
}

/// Where so many rules are listed, by their numbers: as the latest sentence about each says, the sentences being numbered in
/// order from 0; else in order. More sentences than four bytes number are more than memory holds.
pub fn listings(
    alloc: Global,
    rules: u16,
    sentences: &[ListingSentence],
) -> Result<Vec<Listing>, AllocError>
    ensures { IfOk result (λ listings. AreListings rules sentences.now listings.items) }
{
    let mut listings = vec![in alloc; Listing::InOrder; usize::from(rules)]?;
    let mut number = 0u32;
    let mut rest = sentences;
    while let [sentence, after @ ..] = rest {
        list(&mut listings, number, *sentence);
        number = number.checked_add(1).ok_or(AllocError)?;
        rest = after;
    }
    Ok(listings)
}
