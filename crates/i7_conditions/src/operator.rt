//! The words that join two numbers: `plus`, `minus` and `times`.
ghost use Rattle.std.specs.Prelude.{◌≡◌};
ghost use Rattle.i7_conditions.specs.Operators.{holds_operator, is_operator, operator_of};

use play_meaning::tree::Operator;
use world_meaning::is_spelled;

/// The operator that a word is.
#[tactic(auto, unfolding(crate::specs::Operators::operator_of))]
pub fn operator_of(word: &[u8]) -> Option<Operator>
    ensures { result ≡ operator_of word.now }
{
    if is_spelled(word, b"plus") {
        Some(Operator::Plus)
    } else if is_spelled(word, b"minus") {
        Some(Operator::Minus)
    } else if is_spelled(word, b"times") {
        Some(Operator::Times)
    } else {
        None
    }
}

/// Whether a word is an operator.
pub fn is_operator(word: &[u8]) -> bool
    ensures { result ≡ is_operator word.now }
{
    operator_of(word).is_some()
}

/// Whether one of the words of a name is an operator.
pub fn holds_operator(name: &[u8]) -> bool
    ensures { result ≡ holds_operator name.now }
{
    name.split(|byte| *byte == b' ')
        .any(|word| is_operator(word))
}
