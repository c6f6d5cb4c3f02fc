//! What is said of an object behind `is` (*Writing with Inform*, 11.8): an adjective, a description, an object, or what
//! holds it.
ghost use Rattle.std.specs.Prelude.{◌≡◌, ◌≤◌, length, Some, IfOk};
ghost use Rattle.play_meaning.specs.Meant.{adjective_meant, basic_meant, object_meant, quality_meant};
ghost use Rattle.i7_conditions.specs.Adjectives.{quality_named};
ghost use Rattle.i7_conditions.specs.Descriptions.{found_described};
ghost use Rattle.i7_conditions.specs.Predicates.{HeldByOne as IsHeldByOne, One as IsOne, Same as IsSame, Held as IsHeld, found_predicate, from_held, from_one, from_same, predicate_meant, predicate_said, said_of, so_by};
ghost use Rattle.i7_conditions.specs.Readings.{one};
ghost use Rattle.i7_conditions.specs.Relations.{relation_at};
ghost use Rattle.i7_conditions.specs.Scopes.{scope_of};

use crate::adjective::quality_named;
use crate::description::description_said;
use crate::found::Found;
use crate::object::object_said;
use crate::relation::relation_at;
use crate::scope::Scope;
use play_meaning::tree::{Adjective, Basic, Description, Quality, Referent};
use std::alloc::{AllocError, Global};
use world_meaning::{Rel, TextBytes};

/// What is said of an object.
#[derive(Drop)]
pub enum Predicate {
    So(Adjective),
    One(Description),
    Same(Referent),
    /// Held by an object.
    Held(Rel, Referent),
    /// Held by one of those that the description means.
    HeldByOne(Rel, Description),
}

/// What is asked where this is said of an object.
pub fn said_of(object: Referent, predicate: Predicate) -> Basic
    ensures { basic_meant result ≡ said_of (object_meant object) (predicate_meant predicate) }
{
    match predicate {
        Predicate::So(adjective) => Basic::IsSo(object, adjective),
        Predicate::One(description) => Basic::IsOne(object, description),
        Predicate::Same(other) => Basic::IsSame(object, other),
        Predicate::Held(relation, holder) => Basic::IsHeld(object, relation, holder),
        Predicate::HeldByOne(relation, holder) => Basic::IsHeldByOne(object, relation, holder),
    }
}

/// Held by one of those that are described.
fn by_one(relation: Rel, those: Found<Description>) -> Found<Predicate>
    ensures { found_predicate result ≡ one (IsHeldByOne relation) (found_described those) }
{
    match those {
        Found::Read(those) => Found::Read(Predicate::HeldByOne(relation, those)),
        Found::TooMany => Found::TooMany,
        Found::Unread => Found::Unread,
    }
}

/// `REL O`, or else `REL D`.
fn held_by(
    alloc: Global,
    scope: &Scope<'_>,
    relation: Rel,
    holder: &[TextBytes],
) -> Result<Found<Predicate>, AllocError>
    requires few { length (scope_of scope.now).repeats ≤ 255 }
    ensures { IfOk result (λ found. found_predicate found ≡ from_held (scope_of scope.now) (Some (relation, holder.now))) }
{
    match object_said(alloc, scope, holder)? {
        Found::Read(holder) => Ok(Found::Read(Predicate::Held(relation, holder))),
        Found::TooMany => Ok(Found::TooMany),
        Found::Unread => {
            let those = description_said(alloc, scope, holder)?;
            Ok(by_one(relation, those))
        }
    }
}

/// What holds the object.
fn from_held(
    alloc: Global,
    scope: &Scope<'_>,
    words: &[TextBytes],
) -> Result<Found<Predicate>, AllocError>
    requires few { length (scope_of scope.now).repeats ≤ 255 }
    ensures { IfOk result (λ found. found_predicate found ≡ from_held (scope_of scope.now) (relation_at words.now)) }
{
    match relation_at(words) {
        None => Ok(Found::Unread),
        Some((relation, holder)) => held_by(alloc, scope, relation, holder),
    }
}

/// An object, or else what holds it.
fn from_same(
    alloc: Global,
    scope: &Scope<'_>,
    words: &[TextBytes],
) -> Result<Found<Predicate>, AllocError>
    requires few { length (scope_of scope.now).repeats ≤ 255 }
    ensures { IfOk result (λ found. found_predicate found ≡ from_same (scope_of scope.now) words.now) }
{
    match object_said(alloc, scope, words)? {
        Found::Read(object) => Ok(Found::Read(Predicate::Same(object))),
        Found::TooMany => Ok(Found::TooMany),
        Found::Unread => from_held(alloc, scope, words),
    }
}

/// A description, or else an object or what holds it.
fn from_one(
    alloc: Global,
    scope: &Scope<'_>,
    words: &[TextBytes],
) -> Result<Found<Predicate>, AllocError>
    requires few { length (scope_of scope.now).repeats ≤ 255 }
    ensures { IfOk result (λ found. found_predicate found ≡ from_one (scope_of scope.now) words.now) }
{
    match description_said(alloc, scope, words)? {
        Found::Read(description) => Ok(Found::Read(Predicate::One(description))),
        Found::TooMany => Ok(Found::TooMany),
        Found::Unread => from_same(alloc, scope, words),
    }
}

/// An adjective without a `not` in front.
pub fn plainly(quality: Quality) -> Adjective
    ensures { adjective_meant result ≡ quality_meant quality }
{
    Adjective {
        quality,
        denied: false,
    }
}

/// What words say of an object: an adjective without a `not`, or else a description, an object or what holds it.
#[tactic(auto, unfolding(crate::specs::Predicates::predicate_said))]
pub fn predicate_said(
    alloc: Global,
    scope: &Scope<'_>,
    words: &[TextBytes],
) -> Result<Found<Predicate>, AllocError>
    requires few { length (scope_of scope.now).repeats ≤ 255 }
    ensures { IfOk result (λ found. found_predicate found ≡ predicate_said (scope_of scope.now) words.now) }
{
    match quality_named(alloc, scope, words)? {
        Some(quality) => Ok(Found::Read(Predicate::So(plainly(quality)))),
        None => from_one(alloc, scope, words),
    }
}

/// What words say of an object that are an adjective without a `not`.
pub fn so_said(
    alloc: Global,
    scope: &Scope<'_>,
    words: &[TextBytes],
) -> Result<Found<Predicate>, AllocError>
    ensures { IfOk result (λ found. found_predicate found ≡ so_by (quality_named (scope_of scope.now) words.now)) }
{
    match quality_named(alloc, scope, words)? {
        Some(quality) => Ok(Found::Read(Predicate::So(plainly(quality)))),
        None => Ok(Found::Unread),
    }
}
