//! Numbers by their words (*Writing with Inform*, chapter 15): `12`, `the score plus the number of open containers`.
ghost use Rattle.std.specs.Prelude.{◌≡◌, ◌≤◌, List, length, IfOk};
ghost use Rattle.play_meaning.specs.Trees.{Number as Meant};
ghost use Rattle.i7_conditions.specs.Joining.{found_number};
ghost use Rattle.i7_conditions.specs.Numbers.{CountsAs, IsNumberFound};
ghost use Rattle.i7_conditions.specs.Scopes.{Scope as Names, scope_of};
ghost use Rattle.i7_conditions.specs.Words.{Word};

use crate::found::Found;
use crate::joining::number_said;
use crate::scope::Scope;
use play_meaning::tree::Number;
use std::alloc::{AllocError, Global};
use world_meaning::TextBytes;

/// The number that words are; one with a description of more than 9 adjectives or an object of too many `from`s is too
/// many. Operators bind alike, and to the right, as this profile has it.
#[tactic(auto, using(crate::proofs::Counting::numbers_found))]
pub fn number_of(
    alloc: Global,
    scope: &Scope<'_>,
    words: &[TextBytes],
) -> Result<Found<Number>, AllocError>
    requires few { length (scope_of scope.now).repeats ≤ 255 }
    ensures { IfOk result (λ found. IsNumberFound (scope_of scope.now) words.now (found_number found)) }
{
    number_said(alloc, scope, words)
}

/// Words are one number at most.
pub fn one_number_is_meant()
    ensures { (s : Names) (words : List Word) (m n : Meant) → CountsAs s words m → CountsAs s words n → m ≡ n }
{}
