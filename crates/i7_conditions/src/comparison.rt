//! How numbers are compared: `greater than`, `less than`, `at least` and `at most`.
ghost use Rattle.std.specs.Prelude.{◌≡◌, option_map};
ghost use Rattle.play_meaning.specs.Meant.{basic_meant, number_meant};
ghost use Rattle.i7_conditions.specs.Clauses.{compared, comparison_at, comparison_of};

use play_meaning::tree::{Basic, Number};
use world_meaning::{TextBytes, is_spelled};

/// How the first number is to the second.
#[derive(Clone, Copy)]
pub enum Comparison {
    Greater,
    Less,
    AtLeast,
    AtMost,
}

/// The comparison of two words.
#[tactic(auto, unfolding(crate::specs::Clauses::comparison_of))]
fn comparison_of(first: &TextBytes, second: &TextBytes) -> Option<Comparison>
    ensures { result ≡ comparison_of first.now second.now }
{
    let first = first.as_slice();
    let second = second.as_slice();
    if is_spelled(second, b"than") {
        if is_spelled(first, b"greater") {
            Some(Comparison::Greater)
        } else if is_spelled(first, b"less") {
            Some(Comparison::Less)
        } else {
            None
        }
    } else if is_spelled(first, b"at") {
        if is_spelled(second, b"least") {
            Some(Comparison::AtLeast)
        } else if is_spelled(second, b"most") {
            Some(Comparison::AtMost)
        } else {
            None
        }
    } else {
        None
    }
}

/// The comparison with which words begin, and the words behind it.
pub fn comparison_at(words: &[TextBytes]) -> Option<(Comparison, &[TextBytes])>
    ensures { option_map (λ parts. (parts.0, parts.1.now)) result ≡ comparison_at words.now }
{
    match words {
        [] => None,
        [first, rest @ ..] => match rest {
            [] => None,
            [second, behind @ ..] => match comparison_of(first, second) {
                None => None,
                Some(how) => Some((how, behind)),
            },
        },
    }
}

/// What is asked where the first number is so to the second.
pub fn compared(how: Comparison, first: Number, second: Number) -> Basic
    ensures { basic_meant result ≡ compared how (number_meant first) (number_meant second) }
{
    match how {
        Comparison::Greater => Basic::IsLess(second, first),
        Comparison::Less => Basic::IsLess(first, second),
        Comparison::AtLeast => Basic::IsAtMost(second, first),
        Comparison::AtMost => Basic::IsAtMost(first, second),
    }
}
