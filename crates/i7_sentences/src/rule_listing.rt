//! Sentences that list a rule (*Writing with Inform*, 19.16): `The oak rule is listed first in the instead rules.`
ghost use Rattle.std.specs.Prelude.{◌≡◌, map, IfOk};
ghost use Rattle.i7_sentences.specs.RuleListings.{listed_first, listed_last, not_listed};

use crate::tagged::Tagged;
use crate::word_list::named_in;
use crate::{Assertion, WordList};
use std::alloc::{AllocError, Global};

/// Where a sentence lists a rule.
#[derive(Drop)]
pub enum ListedIn {
    /// `is listed first in the instead rules`: the words between the free article and `rules`
    First(WordList),
    /// `is listed last in the instead rules`: the same
    Last(WordList),
    /// `is not listed in any rulebook`
    Nowhere,
}

/// What a sentence says that lists a rule.
#[derive(Drop)]
pub struct RuleListing {
    /// The words between the free article and `rule`.
    pub rule: WordList,
    pub place: ListedIn,
}

/// A rule that is listed first in a rulebook.
pub(crate) fn listed_first(
    alloc: Global,
    letters: &[&[Tagged<'_>]],
) -> Result<Option<Assertion>, AllocError>
    ensures { IfOk result (λ said. said ≡ listed_first (map (λ letter. letter.now) letters.now)) }
{
    match letters {
        [rule, book] => Ok(Some(Assertion::Listing(RuleListing {
            rule: named_in(alloc, rule)?,
            place: ListedIn::First(named_in(alloc, book)?),
        }))),
        _ => Ok(None),
    }
}

/// A rule that is listed last in a rulebook.
pub(crate) fn listed_last(
    alloc: Global,
    letters: &[&[Tagged<'_>]],
) -> Result<Option<Assertion>, AllocError>
    ensures { IfOk result (λ said. said ≡ listed_last (map (λ letter. letter.now) letters.now)) }
{
    match letters {
        [rule, book] => Ok(Some(Assertion::Listing(RuleListing {
            rule: named_in(alloc, rule)?,
            place: ListedIn::Last(named_in(alloc, book)?),
        }))),
        _ => Ok(None),
    }
}

/// A rule that is in no rulebook.
pub(crate) fn not_listed(
    alloc: Global,
    letters: &[&[Tagged<'_>]],
) -> Result<Option<Assertion>, AllocError>
    ensures { IfOk result (λ said. said ≡ not_listed (map (λ letter. letter.now) letters.now)) }
{
    match letters {
        [rule] => Ok(Some(Assertion::Listing(RuleListing {
            rule: named_in(alloc, rule)?,
            place: ListedIn::Nowhere,
        }))),
        _ => Ok(None),
    }
}
