//! What clauses with an `is` ask (*Writing with Inform*, 11.8): `the box is not open`, `the score is at least 5`.
ghost use Rattle.std.specs.Prelude.{◌≡◌, ◌≤◌, length, Some, option_map, IfOk};
ghost use Rattle.play_meaning.specs.Meant.{not_if};
ghost use Rattle.play_meaning.specs.Trees as tree;
ghost use Rattle.i7_conditions.specs.Asking.{asked_by, compared_by, denied_by, denied_twice, found_basic, found_clause, from_denied, from_numbers, from_object, from_twice, of_numbers, of_object, of_scene, plain_said};
ghost use Rattle.i7_conditions.specs.Clauses.{behind_not, behind_nots, compared, comparison_at, has_value, is_happening, scene_in, scene_named};
ghost use Rattle.i7_conditions.specs.Joining.{found_number};
ghost use Rattle.i7_conditions.specs.Objects.{found_meant};
ghost use Rattle.i7_conditions.specs.Predicates.{found_predicate, said_of};
ghost use Rattle.i7_conditions.specs.Readings.{one, two};
ghost use Rattle.i7_conditions.specs.Scopes.{scope_of};
ghost use Rattle.i7_conditions.specs.Values.{found_valuing};

use crate::comparison::{Comparison, compared, comparison_at};
use crate::found::Found;
use crate::joining::number_said;
use crate::key::known;
use crate::meaning::Meaning;
use crate::object::object_said;
use crate::predicate::{Predicate, plainly, predicate_said, said_of, so_said};
use crate::scope::Scope;
use crate::value::{Valuing, value_said};
use crate::word::is_not;
use play_meaning::tree::{Basic, Clause, Number, Quality, Referent};
use std::alloc::{AllocError, Global};
use world_meaning::{TextBytes, is_spelled};

/// Whether an object has this value.
fn of_value(found: Found<Valuing>) -> Found<Basic>
    ensures { found_basic result ≡ one has_value (found_valuing found) }
{
    match found {
        Found::Read(said) => {
            let adjective = plainly(Quality::Valued(said.kind, said.value));
            Found::Read(Basic::IsSo(said.object, adjective))
        }
        Found::TooMany => Found::TooMany,
        Found::Unread => Found::Unread,
    }
}

/// What is asked of an object.
fn of_object(object: Found<Referent>, predicate: Found<Predicate>) -> Found<Basic>
    ensures { found_basic result ≡ two said_of (found_meant object) (found_predicate predicate) }
{
    match object {
        Found::Read(object) => match predicate {
            Found::Read(predicate) => Found::Read(said_of(object, predicate)),
            Found::TooMany => Found::TooMany,
            Found::Unread => Found::Unread,
        },
        Found::TooMany => match predicate {
            Found::Read(predicate) => {
                drop(predicate);
                Found::TooMany
            }
            Found::TooMany => Found::TooMany,
            Found::Unread => Found::Unread,
        },
        Found::Unread => Found::Unread,
    }
}

/// Whether two numbers are equal.
fn of_numbers(first: Found<Number>, second: Found<Number>) -> Found<Basic>
    ensures { found_basic result ≡ two tree.Equals (found_number first) (found_number second) }
{
    match first {
        Found::Read(first) => match second {
            Found::Read(second) => Found::Read(Basic::Equals(first, second)),
            Found::TooMany => Found::TooMany,
            Found::Unread => Found::Unread,
        },
        Found::TooMany => match second {
            Found::Read(second) => {
                drop(second);
                Found::TooMany
            }
            Found::TooMany => Found::TooMany,
            Found::Unread => Found::Unread,
        },
        Found::Unread => Found::Unread,
    }
}

/// How a number is to another.
fn of_compared(how: Comparison, first: Found<Number>, second: Found<Number>) -> Found<Basic>
    ensures { found_basic result ≡ two (compared how) (found_number first) (found_number second) }
{
    match first {
        Found::Read(first) => match second {
            Found::Read(second) => Found::Read(compared(how, first, second)),
            Found::TooMany => Found::TooMany,
            Found::Unread => Found::Unread,
        },
        Found::TooMany => match second {
            Found::Read(second) => {
                drop(second);
                Found::TooMany
            }
            Found::TooMany => Found::TooMany,
            Found::Unread => Found::Unread,
        },
        Found::Unread => Found::Unread,
    }
}

/// The scene that a name stands for.
fn scene_in(meaning: Option<Meaning>) -> Option<u8>
    ensures { result ≡ scene_in meaning }
{
    match meaning {
        Some(Meaning::Scene(scene)) => Some(scene),
        _ => None,
    }
}

/// The scene that words name.
pub fn scene_named(
    alloc: Global,
    scope: &Scope<'_>,
    words: &[TextBytes],
) -> Result<Option<u8>, AllocError>
    ensures { IfOk result (λ scene. scene ≡ scene_named (scope_of scope.now) words.now) }
{
    let meaning = known(alloc, scope, words)?;
    Ok(scene_in(meaning))
}

/// Whether words are `happening` alone.
fn is_happening(words: &[TextBytes]) -> bool
    ensures { result ≡ is_happening words.now }
{
    match words {
        [word] => is_spelled(word.as_slice(), b"happening"),
        _ => false,
    }
}

/// `S is happening`.
fn of_scene(
    alloc: Global,
    scope: &Scope<'_>,
    subject: &[TextBytes],
    predicate: &[TextBytes],
) -> Result<Found<Basic>, AllocError>
    ensures { IfOk result (λ found. found_basic found ≡ of_scene (scope_of scope.now) subject.now predicate.now) }
{
    match scene_named(alloc, scope, subject)? {
        None => Ok(Found::Unread),
        Some(scene) => {
            if is_happening(predicate) {
                Ok(Found::Read(Basic::Happens(scene)))
            } else {
                Ok(Found::Unread)
            }
        }
    }
}

/// `E is E`, or else `S is happening`.
fn from_numbers(
    alloc: Global,
    scope: &Scope<'_>,
    subject: &[TextBytes],
    predicate: &[TextBytes],
) -> Result<Found<Basic>, AllocError>
    requires few { length (scope_of scope.now).repeats ≤ 255 }
    ensures { IfOk result (λ found. found_basic found ≡ from_numbers (scope_of scope.now) subject.now predicate.now) }
{
    let first = number_said(alloc, scope, subject)?;
    let second = number_said(alloc, scope, predicate)?;
    match of_numbers(first, second) {
        Found::Unread => Ok(of_scene(alloc, scope, subject, predicate)?),
        found => Ok(found),
    }
}

/// What is asked of an object, or else of numbers or of a scene.
fn from_object(
    alloc: Global,
    scope: &Scope<'_>,
    subject: &[TextBytes],
    predicate: &[TextBytes],
) -> Result<Found<Basic>, AllocError>
    requires few { length (scope_of scope.now).repeats ≤ 255 }
    ensures { IfOk result (λ found. found_basic found ≡ from_object (scope_of scope.now) subject.now predicate.now) }
{
    let object = object_said(alloc, scope, subject)?;
    let said = predicate_said(alloc, scope, predicate)?;
    match of_object(object, said) {
        Found::Unread => Ok(from_numbers(alloc, scope, subject, predicate)?),
        found => Ok(found),
    }
}

/// What is asked without a `not` of its own.
#[tactic(auto, unfolding(crate::specs::Asking::plain_said))]
fn plain_said(
    alloc: Global,
    scope: &Scope<'_>,
    subject: &[TextBytes],
    predicate: &[TextBytes],
) -> Result<Found<Basic>, AllocError>
    requires few { length (scope_of scope.now).repeats ≤ 255 }
    ensures { IfOk result (λ found. found_basic found ≡ plain_said (scope_of scope.now) subject.now predicate.now) }
{
    let valued = value_said(alloc, scope, subject, predicate)?;
    match of_value(valued) {
        Found::Unread => Ok(from_object(alloc, scope, subject, predicate)?),
        found => Ok(found),
    }
}

/// A clause, perhaps with a `not`.
pub fn clause(basic: Found<Basic>, denied: bool) -> Found<Clause>
    ensures { found_clause result ≡ one (not_if denied) (found_basic basic) }
{
    match basic {
        Found::Read(basic) => Found::Read(Clause { basic, denied }),
        Found::TooMany => Found::TooMany,
        Found::Unread => Found::Unread,
    }
}

/// The words behind `not`.
pub fn behind_not(words: &[TextBytes]) -> Option<&[TextBytes]>
    ensures { option_map (λ rest. rest.now) result ≡ behind_not words.now }
{
    match words {
        [] => None,
        [word, rest @ ..] => { if is_not(word) { Some(rest) } else { None } }
    }
}

/// `is not` in front of what is asked.
fn denied_by(
    alloc: Global,
    scope: &Scope<'_>,
    subject: &[TextBytes],
    predicate: &[TextBytes],
) -> Result<Found<Clause>, AllocError>
    requires few { length (scope_of scope.now).repeats ≤ 255 }
    ensures { IfOk result (λ found. found_clause found ≡ denied_by (scope_of scope.now) subject.now (behind_not predicate.now)) }
{
    match behind_not(predicate) {
        None => Ok(Found::Unread),
        Some(rest) => {
            let found = plain_said(alloc, scope, subject, rest)?;
            Ok(clause(found, true))
        }
    }
}

/// The words behind two `not`s.
fn behind_nots(words: &[TextBytes]) -> Option<&[TextBytes]>
    ensures { option_map (λ rest. rest.now) result ≡ behind_nots words.now }
{
    match words {
        [] => None,
        [word, rest @ ..] => { if is_not(word) { behind_not(rest) } else { None } }
    }
}

/// `is not not` in front of an adjective, which is so where it is denied twice.
fn denied_twice(
    alloc: Global,
    scope: &Scope<'_>,
    subject: &[TextBytes],
    predicate: &[TextBytes],
) -> Result<Found<Clause>, AllocError>
    requires few { length (scope_of scope.now).repeats ≤ 255 }
    ensures { IfOk result (λ found. found_clause found ≡ denied_twice (scope_of scope.now) subject.now (behind_nots predicate.now)) }
{
    match behind_nots(predicate) {
        None => Ok(Found::Unread),
        Some(rest) => {
            let object = object_said(alloc, scope, subject)?;
            let said = so_said(alloc, scope, rest)?;
            Ok(clause(of_object(object, said), false))
        }
    }
}

/// A number compared with another.
fn compared_by(
    alloc: Global,
    scope: &Scope<'_>,
    subject: &[TextBytes],
    predicate: &[TextBytes],
) -> Result<Found<Clause>, AllocError>
    requires few { length (scope_of scope.now).repeats ≤ 255 }
    ensures { IfOk result (λ found. found_clause found ≡ compared_by (scope_of scope.now) subject.now (comparison_at predicate.now)) }
{
    match comparison_at(predicate) {
        None => Ok(Found::Unread),
        Some((how, words)) => {
            let first = number_said(alloc, scope, subject)?;
            let second = number_said(alloc, scope, words)?;
            Ok(clause(of_compared(how, first, second), false))
        }
    }
}

/// What is denied twice, or else compared.
fn from_twice(
    alloc: Global,
    scope: &Scope<'_>,
    subject: &[TextBytes],
    predicate: &[TextBytes],
) -> Result<Found<Clause>, AllocError>
    requires few { length (scope_of scope.now).repeats ≤ 255 }
    ensures { IfOk result (λ found. found_clause found ≡ from_twice (scope_of scope.now) subject.now predicate.now) }
{
    match denied_twice(alloc, scope, subject, predicate)? {
        Found::Unread => Ok(compared_by(alloc, scope, subject, predicate)?),
        found => Ok(found),
    }
}

/// What is denied, or else denied twice or compared.
fn from_denied(
    alloc: Global,
    scope: &Scope<'_>,
    subject: &[TextBytes],
    predicate: &[TextBytes],
) -> Result<Found<Clause>, AllocError>
    requires few { length (scope_of scope.now).repeats ≤ 255 }
    ensures { IfOk result (λ found. found_clause found ≡ from_denied (scope_of scope.now) subject.now predicate.now) }
{
    match denied_by(alloc, scope, subject, predicate)? {
        Found::Unread => Ok(from_twice(alloc, scope, subject, predicate)?),
        found => Ok(found),
    }
}

/// What a clause asks, by the words in front of its `is` and those behind it.
#[tactic(auto, unfolding(crate::specs::Asking::asked_by))]
pub fn asked_by(
    alloc: Global,
    scope: &Scope<'_>,
    subject: &[TextBytes],
    predicate: &[TextBytes],
) -> Result<Found<Clause>, AllocError>
    requires few { length (scope_of scope.now).repeats ≤ 255 }
    ensures { IfOk result (λ found. found_clause found ≡ asked_by (scope_of scope.now) subject.now predicate.now) }
{
    match clause(plain_said(alloc, scope, subject, predicate)?, false) {
        Found::Unread => Ok(from_denied(alloc, scope, subject, predicate)?),
        found => Ok(found),
    }
}
