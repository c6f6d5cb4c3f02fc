//! The parts of an action's name around its `it`, and words that begin with one.
ghost use Rattle.std.specs.Prelude.{◌≡◌, ◌≤◌, length, option_map};
ghost use Rattle.std.specs.List.{position_or_len};
ghost use Rattle.i7_actions.specs.Parts.{behind, first_part, is_it, is_name, second_part};

use world_meaning::{TextBytes, is_spelled};

/// Whether the word is `it`.
#[tactic(auto, unfolding(crate::specs::Parts::is_it))]
fn is_it(word: &TextBytes) -> bool
    ensures { result ≡ is_it word.now }
{
    is_spelled(word.as_slice(), b"it")
}

/// How many words stand in front of the first `it`.
fn before_it(name: &[TextBytes]) -> usize
    ensures place { result ≡ position_or_len is_it name.now }
    ensures within { result ≤ length name.now }
{
    name.iter().take_while(|word| !is_it(*word)).count()
}

/// The words of a name in front of its first `it`, or all, and those behind it.
pub fn parts_of(name: &[TextBytes]) -> (&[TextBytes], &[TextBytes])
    ensures first { result.0.now ≡ first_part name.now }
    ensures second { result.1.now ≡ second_part name.now }
{
    let (first, rest) = name.split_at(before_it(name));
    match rest {
        [] => (first, rest),
        [_, second @ ..] => (first, second),
    }
}

/// The words behind a part, if words begin with it.
pub fn behind<'a>(part: &[TextBytes], words: &'a [TextBytes]) -> Option<&'a [TextBytes]>
    ensures { option_map (λ rest. rest.now) result ≡ behind part.now words.now }
{
    let mut left = part;
    let mut rest = words;
    while let [wanted, later @ ..] = left {
        match rest {
            [] => return None,
            [word, after @ ..] => {
                if !is_spelled(word.as_slice(), wanted.as_slice()) {
                    return None;
                }
                rest = after;
            }
        }
        left = later;
    }
    Some(rest)
}

/// Whether words are a name, word by word.
pub fn is_name(name: &[TextBytes], words: &[TextBytes]) -> bool
    ensures { result ≡ is_name name.now words.now }
{
    match behind(name, words) {
        None => false,
        Some(rest) => rest.is_empty(),
    }
}
