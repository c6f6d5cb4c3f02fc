//! What clauses without an `is` ask (*Writing with Inform*, 11.8): `the box has a description`, `the player carries the key`.
ghost use Rattle.std.specs.Prelude.{◌≡◌, ◌≤◌, length, IfOk};
ghost use Rattle.play_meaning.specs.Trees as tree;
ghost use Rattle.i7_conditions.specs.Asking.{found_basic};
ghost use Rattle.i7_conditions.specs.Between.{found_both};
ghost use Rattle.i7_conditions.specs.Clauses.{asked_of, is_a_description};
ghost use Rattle.i7_conditions.specs.Objects.{found_meant};
ghost use Rattle.i7_conditions.specs.Readings.{one};
ghost use Rattle.i7_conditions.specs.Scopes.{scope_of};
ghost use Rattle.i7_conditions.specs.Verbs.{by_verb, from_carries, from_has, from_wears, text_said, verb_said};

use crate::between::parted_said;
use crate::found::Found;
use crate::object::object_said;
use crate::scope::Scope;
use crate::verb::{Verb, done_by, spelling};
use play_meaning::tree::{Basic, Referent};
use std::alloc::{AllocError, Global};
use world_meaning::{TextBytes, is_spelled};

/// What an object does to another.
fn done(verb: Verb, both: Found<(Referent, Referent)>) -> Found<Basic>
    ensures { found_basic result ≡ one (asked_of verb) (found_both both) }
{
    match both {
        Found::Read((holder, object)) => Found::Read(done_by(verb, holder, object)),
        Found::TooMany => Found::TooMany,
        Found::Unread => Found::Unread,
    }
}

/// What is asked by a verb.
fn verb_said(
    alloc: Global,
    scope: &Scope<'_>,
    verb: Verb,
    words: &[TextBytes],
) -> Result<Found<Basic>, AllocError>
    requires few { length (scope_of scope.now).repeats ≤ 255 }
    ensures { IfOk result (λ found. found_basic found ≡ verb_said (scope_of scope.now) verb words.now) }
{
    let both = parted_said(alloc, scope, spelling(verb), words)?;
    Ok(done(verb, both))
}

/// Whether words are `has a description`.
fn is_a_description(words: &[TextBytes]) -> bool
    ensures { result ≡ is_a_description words.now }
{
    match words {
        [first, second, third] => {
            is_spelled(first.as_slice(), b"has")
                && is_spelled(second.as_slice(), b"a")
                && is_spelled(third.as_slice(), b"description")
        }
        _ => false,
    }
}

/// Whether an object has a description.
fn has_text(object: Found<Referent>) -> Found<Basic>
    ensures { found_basic result ≡ one tree.HasDescription (found_meant object) }
{
    match object {
        Found::Read(object) => Found::Read(Basic::HasDescription(object)),
        Found::TooMany => Found::TooMany,
        Found::Unread => Found::Unread,
    }
}

/// `O has a description`.
fn text_said(
    alloc: Global,
    scope: &Scope<'_>,
    words: &[TextBytes],
) -> Result<Found<Basic>, AllocError>
    requires few { length (scope_of scope.now).repeats ≤ 255 }
    ensures { IfOk result (λ found. found_basic found ≡ text_said (scope_of scope.now) words.now) }
{
    let (front, behind) = words.split_at(words.len().saturating_sub(3));
    if !is_a_description(behind) {
        return Ok(Found::Unread);
    }
    let object = object_said(alloc, scope, front)?;
    Ok(has_text(object))
}

/// `has`, or else `encloses`.
fn from_has(
    alloc: Global,
    scope: &Scope<'_>,
    words: &[TextBytes],
) -> Result<Found<Basic>, AllocError>
    requires few { length (scope_of scope.now).repeats ≤ 255 }
    ensures { IfOk result (λ found. found_basic found ≡ from_has (scope_of scope.now) words.now) }
{
    match verb_said(alloc, scope, Verb::Has, words)? {
        Found::Unread => Ok(verb_said(alloc, scope, Verb::Encloses, words)?),
        found => Ok(found),
    }
}

/// `wears`, or else the verbs behind it in the list.
fn from_wears(
    alloc: Global,
    scope: &Scope<'_>,
    words: &[TextBytes],
) -> Result<Found<Basic>, AllocError>
    requires few { length (scope_of scope.now).repeats ≤ 255 }
    ensures { IfOk result (λ found. found_basic found ≡ from_wears (scope_of scope.now) words.now) }
{
    match verb_said(alloc, scope, Verb::Wears, words)? {
        Found::Unread => Ok(from_has(alloc, scope, words)?),
        found => Ok(found),
    }
}

/// `carries`, or else the verbs behind it in the list.
fn from_carries(
    alloc: Global,
    scope: &Scope<'_>,
    words: &[TextBytes],
) -> Result<Found<Basic>, AllocError>
    requires few { length (scope_of scope.now).repeats ≤ 255 }
    ensures { IfOk result (λ found. found_basic found ≡ from_carries (scope_of scope.now) words.now) }
{
    match verb_said(alloc, scope, Verb::Carries, words)? {
        Found::Unread => Ok(from_wears(alloc, scope, words)?),
        found => Ok(found),
    }
}

/// What a clause without an `is` asks.
#[tactic(auto, unfolding(crate::specs::Verbs::by_verb))]
pub fn by_verb(
    alloc: Global,
    scope: &Scope<'_>,
    words: &[TextBytes],
) -> Result<Found<Basic>, AllocError>
    requires few { length (scope_of scope.now).repeats ≤ 255 }
    ensures { IfOk result (λ found. found_basic found ≡ by_verb (scope_of scope.now) words.now) }
{
    match text_said(alloc, scope, words)? {
        Found::Unread => Ok(from_carries(alloc, scope, words)?),
        found => Ok(found),
    }
}
