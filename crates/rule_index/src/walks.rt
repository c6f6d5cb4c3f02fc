//! Walks over a book's rules, from a place on, to the first that admits an action, a noun and a room.
ghost use Rattle.std.specs.Prelude.{◌≡◌, ◌+◌, ◌<◌, ◌^◌, ℕ, Bool, IfSome, List, [], ◌∷◌, MatchOption, drop, slice_get};
ghost use Rattle.rule_index.specs.Buckets.{rule_admits};
ghost use Rattle.rule_index.specs.Classes.{places_where, rule_suits};
ghost use Rattle.rule_index.specs.Walks.{FindsFirst, passing};

use crate::admitting::{Asked, admits};
use story_format::Story;

/// The rule at a place of a book, if it is there and admits what is asked.
pub fn admitted(story: &Story, listed: &[u16], place: usize, asked: &Asked) -> Option<u16>
    ensures { result ≡ passing (rule_admits story.now asked.now.action asked.now.noun asked.now.room) (slice_get listed.now place) }
{
    let rule = *listed.get(place)?;
    if admits(story, rule, asked) {
        Some(rule)
    } else {
        None
    }
}

/// The first of the listed rules from a place on that admits what is asked.
pub fn first_listed(
    story: &Story,
    listed: &[u16],
    from: usize,
    asked: &Asked,
) -> Option<(usize, u16)>
    ensures first { FindsFirst (rule_admits story.now asked.now.action asked.now.noun asked.now.room) listed.now from result }
    ensures few { IfSome result (λ found. found.0 + 1 < 2 ^ 64) }
{
    for place in from..listed.len() {
        if let Some(rule) = admitted(story, listed, place, asked) {
            return Some((place, rule));
        }
    }
    None
}

/// The places of a class from a place on.
fn behind(class: &[u16], from: usize) -> &[u16]
    ensures { (passes : ℕ → Bool) (rules : List ℕ) → class.now ≡ places_where passes 0 rules → result.now ≡ places_where passes from (drop from rules) }
{
    let start = class.partition_point(|place| usize::from(*place) < from);
    let (_, rest) = class.split_at(start);
    rest
}

/// The first of a class's places, and those behind it.
fn parted(places: &[u16]) -> Option<(u16, &[u16])>
    ensures { MatchOption result (places.now ≡ []) (λ parts. places.now ≡ parts.0 ∷ parts.1.now) }
{
    match places {
        [] => None,
        [place, behind @ ..] => Some((*place, behind)),
    }
}

/// The first of the listed rules from a place on that admits what is asked, where the class of the action is at hand.
pub fn first_of_class(
    story: &Story,
    listed: &[u16],
    class: &[u16],
    from: usize,
    asked: &Asked,
) -> Option<(usize, u16)>
    requires class { class.now ≡ places_where (rule_suits story.now asked.now.action) 0 listed.now }
    ensures first { FindsFirst (rule_admits story.now asked.now.action asked.now.noun asked.now.room) listed.now from result }
    ensures few { IfSome result (λ found. found.0 + 1 < 2 ^ 64) }
{
    let mut rest = behind(class, from);
    while let Some((place, after)) = parted(rest) {
        let place = usize::from(place);
        if let Some(rule) = admitted(story, listed, place, asked) {
            return Some((place, rule));
        }
        rest = after;
    }
    None
}
