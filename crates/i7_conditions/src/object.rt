//! Objects by their words (*Writing with Inform*, chapter 3): `the red ball`, `the noun`, `the room north from the Hall`.
ghost use Rattle.std.specs.Prelude.{◌≡◌, ◌≤◌, List, length, IfOk};
ghost use Rattle.play_meaning.specs.Trees.{Object};
ghost use Rattle.i7_conditions.specs.Objects.{IsObjectFound, Means, found_meant};
ghost use Rattle.i7_conditions.specs.Marks.{marks_of};
ghost use Rattle.i7_conditions.specs.Parts.{put_together};
ghost use Rattle.i7_conditions.specs.Scopes.{Scope as Names, scope_of};
ghost use Rattle.i7_conditions.specs.Words.{Word};

use crate::found::Found;
use crate::part::put_together;
use crate::run::marks_of;
use crate::scope::Scope;
use play_meaning::tree::Referent;
use std::alloc::{AllocError, Global};
use world_meaning::TextBytes;

/// The object that words are put together to.
pub fn object_said(
    alloc: Global,
    scope: &Scope<'_>,
    words: &[TextBytes],
) -> Result<Found<Referent>, AllocError>
    requires few { length (scope_of scope.now).repeats ≤ 255 }
    ensures { IfOk result (λ found. found_meant found ≡ put_together (marks_of (scope_of scope.now) words.now)) }
{
    put_together(alloc, marks_of(alloc, scope, words)?)
}

/// The object that words mean; one in which more than 8 `from`s stand within one another is too many.
#[tactic(auto, using(crate::proofs::Readings::objects_found))]
pub fn object_of(
    alloc: Global,
    scope: &Scope<'_>,
    words: &[TextBytes],
) -> Result<Found<Referent>, AllocError>
    requires few { length (scope_of scope.now).repeats ≤ 255 }
    ensures { IfOk result (λ found. IsObjectFound (scope_of scope.now) words.now (found_meant found)) }
{
    object_said(alloc, scope, words)
}

/// Words mean one object at most.
pub fn one_object_is_meant()
    ensures { (s : Names) (words : List Word) (o p : Object) → Means s words o → Means s words p → o ≡ p }
{}
