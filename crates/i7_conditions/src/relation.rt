//! Where a description says what holds its objects: `in`, `on`, `carried by`, `worn by`, `part of`.
ghost use Rattle.std.specs.Prelude.{◌≡◌, ◌≤◌, length, option_map};
ghost use Rattle.i7_conditions.specs.Relations.{before_relation, begins_relation, relation_at, relation_behind, relation_of_one, relation_of_two};

use world_meaning::{Rel, TextBytes, is_spelled};

/// The relation of one word.
fn relation_of_one(word: &TextBytes) -> Option<Rel>
    ensures { result ≡ relation_of_one word.now }
{
    if is_spelled(word.as_slice(), b"in") {
        Some(Rel::In)
    } else if is_spelled(word.as_slice(), b"on") {
        Some(Rel::On)
    } else {
        None
    }
}

/// The relation of two words.
#[tactic(auto, unfolding(crate::specs::Relations::relation_of_two))]
fn relation_of_two(first: &TextBytes, second: &TextBytes) -> Option<Rel>
    ensures { result ≡ relation_of_two first.now second.now }
{
    let first = first.as_slice();
    let second = second.as_slice();
    if is_spelled(second, b"by") {
        if is_spelled(first, b"carried") {
            Some(Rel::Carried)
        } else if is_spelled(first, b"worn") {
            Some(Rel::Worn)
        } else {
            None
        }
    } else if is_spelled(second, b"of") && is_spelled(first, b"part") {
        Some(Rel::Part)
    } else {
        None
    }
}

/// The relation of two words with which words begin, the first standing in front, and the words behind it.
fn relation_behind<'a>(first: &TextBytes, rest: &'a [TextBytes]) -> Option<(Rel, &'a [TextBytes])>
    ensures { option_map (λ parts. (parts.0, parts.1.now)) result ≡ relation_behind first.now rest.now }
{
    match rest {
        [] => None,
        [second, behind @ ..] => match relation_of_two(first, second) {
            None => None,
            Some(relation) => Some((relation, behind)),
        },
    }
}

/// The relation with which words begin, and the words behind it.
#[tactic(auto, unfolding(crate::specs::Relations::relation_at))]
pub fn relation_at(words: &[TextBytes]) -> Option<(Rel, &[TextBytes])>
    ensures { option_map (λ parts. (parts.0, parts.1.now)) result ≡ relation_at words.now }
{
    match words {
        [] => None,
        [first, rest @ ..] => match relation_of_one(first) {
            Some(relation) => Some((relation, rest)),
            None => relation_behind(first, rest),
        },
    }
}

/// Whether words begin with a relation.
fn begins_relation(words: &[TextBytes]) -> bool
    ensures { result ≡ begins_relation words.now }
{
    match relation_at(words) {
        None => false,
        Some(_) => true,
    }
}

/// How many words stand in front of the first relation.
pub fn before_relation(words: &[TextBytes]) -> usize
    ensures count { result ≡ before_relation words.now }
    ensures within { result ≤ length words.now }
{
    let mut count = 0;
    let mut rest = words;
    while let [_, after @ ..] = rest {
        if begins_relation(rest) {
            return count;
        }
        count += 1;
        rest = after;
    }
    count
}
