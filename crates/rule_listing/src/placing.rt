//! Where sentences list rules, by the rules' names; of several sentences about one rule the latest counts.
use i7_conditions::key_of;
use i7_sentences::{Assertion, ListedIn, RuleListing, Sentence};
use std::alloc::{AllocError, Global};

/// Where a sentence lists a rule in its rulebook.
#[derive(Clone, Copy, Debug, PartialEq, Eq)]
pub enum Placed {
    First,
    Last,
    Nowhere,
}

/// What a sentence says of the place of a rule.
#[derive(Drop)]
pub struct Placing {
    /// The rule's name in small letters.
    name: Vec<u8>,
    pub place: Placed,
    /// The line of the sentence.
    pub line: u32,
}

/// What is told of a place.
fn place_told(place: &ListedIn) -> Placed {
    match place {
        ListedIn::First(_) => Placed::First,
        ListedIn::Last(_) => Placed::Last,
        ListedIn::Nowhere => Placed::Nowhere,
    }
}

fn placing_of(alloc: Global, listing: &RuleListing, line: u32) -> Result<Placing, AllocError> {
    Ok(Placing {
        name: key_of(alloc, listing.rule.as_slice())?,
        place: place_told(&listing.place),
        line,
    })
}

/// Where sentences list rules, in their order.
pub fn placings_of(alloc: Global, sentences: &[Sentence]) -> Result<Vec<Placing>, AllocError> {
    let mut placings = Vec::new(alloc);
    for sentence in sentences {
        if let Assertion::Listing(listing) = &sentence.said {
            placings.push(placing_of(alloc, listing, sentence.line)?)?;
        }
    }
    Ok(placings)
}

/// What the latest sentence about the rule of this name says, if there is one.
pub fn latest_about<'a>(placings: &'a [Placing], name: &[u8]) -> Option<&'a Placing> {
    let mut latest = None;
    for placing in placings {
        if placing.name.as_slice() == name {
            latest = Some(placing);
        }
    }
    latest
}
