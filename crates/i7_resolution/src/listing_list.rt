//! The sentences of a source that list rules.
ghost use Rattle.std.specs.Prelude.{◌≡◌, ◌++◌, IfOk, OnOk};
ghost use Rattle.i7_resolution.specs.ListingList.{listings_in, listings_lent, listings_said};

use i7_sentences::{Assertion, RuleListing, Sentence};
use std::alloc::{AllocError, Global};

/// What a sentence says that lists a rule, and its line.
#[derive(Clone, Copy)]
pub struct ListingAt<'a> {
    pub line: u32,
    pub said: &'a RuleListing,
}

/// Adds what a sentence says, if it lists a rule.
fn add_listing<'a>(
    listings: &mut Vec<ListingAt<'a>>,
    sentence: &'a Sentence,
) -> Result<(), AllocError>
    ensures { OnOk result (listings_lent listings.new.items ≡ listings_lent listings.old.items ++ listings_said sentence.now) }
{
    match &sentence.said {
        Assertion::Listing(said) => {
            let line = sentence.line;
            listings.push(ListingAt { line, said })?;
            Ok(())
        }
        _ => Ok(()),
    }
}

/// What the sentences say that list rules, in order.
pub fn listings_in<'a>(
    alloc: Global,
    sentences: &'a [Sentence],
) -> Result<Vec<ListingAt<'a>>, AllocError>
    ensures { IfOk result (λ listings. listings_lent listings.items ≡ listings_in sentences.now) }
{
    let mut listings = Vec::new(alloc);
    let mut rest = sentences;
    while let [sentence, behind @ ..] = rest {
        add_listing(&mut listings, sentence)?;
        rest = behind;
    }
    Ok(listings)
}
