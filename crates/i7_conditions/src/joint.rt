//! Words cut at those that join parts: `from`, `and`, `or`.
ghost use Rattle.std.specs.Prelude.{◌≡◌, ◌≤◌, ◌<◌, ◌∷◌, length, option_map, IfSome};
ghost use Rattle.std.specs.List.{position_or_len, slice_split};
ghost use Rattle.i7_conditions.specs.Conditions.{is_and, is_or};
ghost use Rattle.i7_conditions.specs.Conjoining.{is_joint, parts_behind};

use crate::word::is_from;
use world_meaning::{TextBytes, is_spelled};

/// A word that joins parts.
#[derive(Clone, Copy)]
pub enum Joint {
    From,
    And,
    Or,
}

/// Whether the word is `and`.
#[tactic(auto, unfolding(crate::specs::Conditions::is_and))]
fn is_and(word: &TextBytes) -> bool
    ensures { result ≡ is_and word.now }
{
    is_spelled(word.as_slice(), b"and")
}

/// Whether the word is `or`.
#[tactic(auto, unfolding(crate::specs::Conditions::is_or))]
fn is_or(word: &TextBytes) -> bool
    ensures { result ≡ is_or word.now }
{
    is_spelled(word.as_slice(), b"or")
}

/// Whether the word joins parts so.
fn is_joint(joint: Joint, word: &TextBytes) -> bool
    ensures { result ≡ is_joint joint word.now }
{
    match joint {
        Joint::From => is_from(word),
        Joint::And => is_and(word),
        Joint::Or => is_or(word),
    }
}

/// How many words stand in front of the first joint.
fn part_len(joint: Joint, words: &[TextBytes]) -> usize
    ensures place { result ≡ position_or_len (is_joint joint) words.now }
    ensures within { result ≤ length words.now }
{
    words
        .iter()
        .take_while(|word| !is_joint(joint, *word))
        .count()
}

/// The words in front of the first joint, and those behind it, if there is one.
pub fn cut(joint: Joint, words: &[TextBytes]) -> (&[TextBytes], Option<&[TextBytes]>)
    ensures parts { slice_split (is_joint joint) words.now ≡ result.0.now ∷ parts_behind joint (option_map (λ rest. rest.now) result.1) }
    ensures shorter { IfSome result.1 (λ rest. length rest.now < length words.now) }
{
    let (front, rest) = words.split_at(part_len(joint, words));
    match rest {
        [] => (front, None),
        [_, ..] => {
            let (_, behind) = rest.split_at(1);
            (front, Some(behind))
        }
    }
}
