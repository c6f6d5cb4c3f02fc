//! Descriptions by their words (*Writing with Inform*, chapter 6): `closed containers`, `a lit thing carried by the player`.
ghost use Rattle.std.specs.Prelude.{◌≡◌, ◌≤◌, List, length, IfOk};
ghost use Rattle.i7_conditions.specs.Descriptions.{bare_said, description_said, described, found_described, held_in, with_front, with_holder};
ghost use Rattle.i7_conditions.specs.Describing.{Describes, IsDescriptionFound};
ghost use Rattle.i7_conditions.specs.Objects.{found_meant};
ghost use Rattle.i7_conditions.specs.Scopes.{Scope as Names, scope_of};
ghost use Rattle.i7_conditions.specs.Words.{Word};
ghost use Rattle.play_meaning.specs.Trees.{Description as Meant};

use crate::found::Found;
use crate::front::{Front, front_of};
use crate::object::object_said;
use crate::relation::{before_relation, relation_at};
use crate::scope::Scope;
use crate::word::without_article;
use play_meaning::tree::{Description, Held, Referent};
use std::alloc::{AllocError, Global};
use world_meaning::{Rel, TextBytes};

/// The most adjectives of a description.
pub const MOST_ADJECTIVES: usize = 9;

/// The description of these adjectives and this kind, held so.
fn described(front: Front, held: Option<Held>) -> Found<Description>
    ensures { found_described result ≡ described front (held_in held) }
{
    if front.adjectives.as_slice().len() > MOST_ADJECTIVES {
        return Found::TooMany;
    }
    Found::Read(Description {
        adjectives: front.adjectives,
        kind: Some(front.kind),
        held,
    })
}

/// The description of what this object holds.
fn with_holder(front: Front, relation: Rel, holder: Found<Referent>) -> Found<Description>
    ensures { found_described result ≡ with_holder front relation (found_meant holder) }
{
    match holder {
        Found::Read(holder) => described(front, Some(Held { relation, holder })),
        Found::TooMany => Found::TooMany,
        Found::Unread => Found::Unread,
    }
}

/// The description of adjectives and a kind, and the words from a relation on.
fn with_front(
    alloc: Global,
    scope: &Scope<'_>,
    front: Front,
    behind: &[TextBytes],
) -> Result<Found<Description>, AllocError>
    requires few { length (scope_of scope.now).repeats ≤ 255 }
    ensures { IfOk result (λ found. found_described found ≡ with_front (scope_of scope.now) front behind.now) }
{
    match relation_at(behind) {
        None => Ok(described(front, None)),
        Some((relation, words)) => {
            let holder = object_said(alloc, scope, words)?;
            Ok(with_holder(front, relation, holder))
        }
    }
}

/// The description that words without an article are.
#[tactic(auto, unfolding(crate::specs::Descriptions::bare_said))]
fn bare_said(
    alloc: Global,
    scope: &Scope<'_>,
    words: &[TextBytes],
) -> Result<Found<Description>, AllocError>
    requires few { length (scope_of scope.now).repeats ≤ 255 }
    ensures { IfOk result (λ found. found_described found ≡ bare_said (scope_of scope.now) words.now) }
{
    let (front, behind) = words.split_at(before_relation(words));
    match front_of(alloc, scope, front)? {
        None => Ok(Found::Unread),
        Some(front) => with_front(alloc, scope, front, behind),
    }
}

/// The description that words are, one article in front being free.
#[tactic(auto, unfolding(crate::specs::Descriptions::description_said))]
pub fn description_said(
    alloc: Global,
    scope: &Scope<'_>,
    words: &[TextBytes],
) -> Result<Found<Description>, AllocError>
    requires few { length (scope_of scope.now).repeats ≤ 255 }
    ensures { IfOk result (λ found. found_described found ≡ description_said (scope_of scope.now) words.now) }
{
    bare_said(alloc, scope, without_article(words))
}

/// The description that words are; one of more than 9 adjectives is too many, or one whose holder is.
#[tactic(auto, using(crate::proofs::Described::descriptions_found))]
pub fn description_of(
    alloc: Global,
    scope: &Scope<'_>,
    words: &[TextBytes],
) -> Result<Found<Description>, AllocError>
    requires few { length (scope_of scope.now).repeats ≤ 255 }
    ensures { IfOk result (λ found. IsDescriptionFound (scope_of scope.now) words.now (found_described found)) }
{
    description_said(alloc, scope, words)
}

/// Words are one description at most.
pub fn one_description_is_meant()
    ensures { (s : Names) (words : List Word) (d e : Meant) → Describes s words d → Describes s words e → d ≡ e }
{}
