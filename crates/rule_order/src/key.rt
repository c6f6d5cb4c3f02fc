//! The key by which a rule stands in its rulebook.
ghost use Rattle.std.specs.Prelude.{◌≡◌, ◌≤◌, length};
ghost use Rattle.rule_order.specs.Keys.{key_in_order, key_of};

use crate::heading::Heading;
use crate::specificity::{aspects_of, grade_of};
use play_meaning::tree::Listing;
use std::cmp::Reverse;
use world_meaning::KindNo;

/// Keys are compared by their variants, and then field by field.
#[derive(Clone, Copy, PartialEq, Eq, PartialOrd, Ord)]
pub enum Key {
    /// Listed first, by the number of the sentence: the latest goes first.
    First(Reverse<u32>),
    /// In order: the more it asks and the closer it says of what, the earlier; else by its number.
    InOrder {
        aspects: Reverse<u8>,
        noun: Reverse<u64>,
        second: Reverse<u64>,
        place: Reverse<u64>,
        number: u16,
    },
    /// Listed last, by the number of the sentence: the latest goes last.
    Last(u32),
}

/// The key of a rule that no sentence lists.
fn key_in_order(kinds: &[Option<KindNo>], number: u16, heading: &Heading<'_>) -> Key
    requires few { length kinds.now ≤ 255 }
    ensures { result ≡ key_in_order kinds.now number heading.now }
{
    let pattern = heading.pattern;
    Key::InOrder {
        aspects: Reverse(aspects_of(heading)),
        noun: Reverse(grade_of(kinds, &pattern.noun)),
        second: Reverse(grade_of(kinds, &pattern.second)),
        place: Reverse(grade_of(kinds, &pattern.place)),
        number,
    }
}

/// The key of the rule of this number, if it is listed.
#[tactic(auto, unfolding(crate::specs::Keys::key_of))]
pub fn key_of(kinds: &[Option<KindNo>], number: u16, heading: &Heading<'_>) -> Option<Key>
    requires few { length kinds.now ≤ 255 }
    ensures { result ≡ key_of kinds.now number heading.now }
{
    match heading.listing {
        Listing::InOrder => Some(key_in_order(kinds, number, heading)),
        Listing::First(sentence) => Some(Key::First(Reverse(sentence))),
        Listing::Last(sentence) => Some(Key::Last(sentence)),
        Listing::Unlisted => None,
    }
}
