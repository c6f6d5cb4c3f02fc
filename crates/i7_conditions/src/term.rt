//! Numbers that aren't joined of others (*Writing with Inform*, chapter 15): `12`, `the score`, `the weight of the ball`, `the
//! number of open containers`, `the turn count`.
ghost use Rattle.std.specs.Prelude.{◌≡◌, ◌≤◌, length, Some, IfOk};
ghost use Rattle.std.specs.List.{list_any};
ghost use Rattle.i7_conditions.specs.Descriptions.{found_described};
ghost use Rattle.i7_conditions.specs.Keys.{split_of};
ghost use Rattle.i7_conditions.specs.Objects.{found_meant};
ghost use Rattle.i7_conditions.specs.Operators.{is_operator};
ghost use Rattle.i7_conditions.specs.Scopes.{scope_of};
ghost use Rattle.i7_conditions.specs.TermForms.{a_count, a_property, around_of, count_of, found_term, from_literal, from_property, from_variable, property_of, term_said, turn_count};
ghost use Rattle.i7_conditions.specs.Terms.{can_stand, literal_said};

use crate::description::description_said;
use crate::found::Found;
use crate::key::{is_named, property_named, split_of, variable_named};
use crate::object::object_said;
use crate::operator::is_operator;
use crate::scope::{Scope, has_operators};
use play_meaning::tree::{Description, Referent, Term};
use std::alloc::{AllocError, Global};
use world_meaning::{TextBytes, literal_in};

/// The literal that one word is.
fn literal_said(words: &[TextBytes]) -> Option<i32>
    ensures { result ≡ literal_said words.now }
{
    match words {
        [word] => literal_in(word.as_slice()),
        _ => None,
    }
}

/// The turn count, if words name it.
fn turn_count(alloc: Global, words: &[TextBytes]) -> Result<Found<Term>, AllocError>
    ensures { IfOk result (λ found. found_term found ≡ turn_count words.now) }
{
    if is_named(alloc, b"turn count", words)? {
        Ok(Found::Read(Term::TurnCount))
    } else {
        Ok(Found::Unread)
    }
}

/// The number of what is described.
fn count_of(those: Found<Description>) -> Found<Term>
    ensures { found_term result ≡ count_of (found_described those) }
{
    match those {
        Found::Read(those) => Found::Read(Term::CountOf(those)),
        Found::TooMany => Found::TooMany,
        Found::Unread => Found::Unread,
    }
}

/// `the number of D`, from the words in front of its `of` and those behind it.
fn a_count(
    alloc: Global,
    scope: &Scope<'_>,
    name: &[TextBytes],
    those: &[TextBytes],
) -> Result<Found<Term>, AllocError>
    requires few { length (scope_of scope.now).repeats ≤ 255 }
    ensures { IfOk result (λ found. found_term found ≡ a_count (scope_of scope.now) (Some (name.now, those.now))) }
{
    if !is_named(alloc, b"number", name)? {
        return Ok(Found::Unread);
    }
    let those = description_said(alloc, scope, those)?;
    Ok(count_of(those))
}

/// The property of an object.
fn property_of(property: u8, object: Found<Referent>) -> Found<Term>
    ensures { found_term result ≡ property_of property (found_meant object) }
{
    match object {
        Found::Read(object) => Found::Read(Term::PropertyOf(property, object)),
        Found::TooMany => Found::TooMany,
        Found::Unread => Found::Unread,
    }
}

/// `the P of O`, from the words in front of its `of` and those behind it.
fn a_property(
    alloc: Global,
    scope: &Scope<'_>,
    name: &[TextBytes],
    object: &[TextBytes],
) -> Result<Found<Term>, AllocError>
    requires few { length (scope_of scope.now).repeats ≤ 255 }
    ensures { IfOk result (λ found. found_term found ≡ a_property (scope_of scope.now) (Some (name.now, object.now))) }
{
    match property_named(alloc, scope, name)? {
        None => Ok(Found::Unread),
        Some(property) => {
            let object = object_said(alloc, scope, object)?;
            Ok(property_of(property, object))
        }
    }
}

/// A property of an object, or else a count, from the words in front of their `of` and those behind it.
fn around_of(
    alloc: Global,
    scope: &Scope<'_>,
    name: &[TextBytes],
    behind: &[TextBytes],
) -> Result<Found<Term>, AllocError>
    requires few { length (scope_of scope.now).repeats ≤ 255 }
    ensures { IfOk result (λ found. found_term found ≡ around_of (scope_of scope.now) (Some (name.now, behind.now))) }
{
    match a_property(alloc, scope, name, behind)? {
        Found::Unread => Ok(a_count(alloc, scope, name, behind)?),
        found => Ok(found),
    }
}

/// What words that hold an `of` are, or else the turn count.
fn from_property(
    alloc: Global,
    scope: &Scope<'_>,
    words: &[TextBytes],
) -> Result<Found<Term>, AllocError>
    requires few { length (scope_of scope.now).repeats ≤ 255 }
    ensures { IfOk result (λ found. found_term found ≡ from_property (scope_of scope.now) words.now) }
{
    if let Some((name, behind)) = split_of(words) {
        match around_of(alloc, scope, name, behind)? {
            Found::Unread => {}
            found => return Ok(found),
        }
    }
    turn_count(alloc, words)
}

/// A variable, or else what comes behind it in the list of forms.
fn from_variable(
    alloc: Global,
    scope: &Scope<'_>,
    words: &[TextBytes],
) -> Result<Found<Term>, AllocError>
    requires few { length (scope_of scope.now).repeats ≤ 255 }
    ensures { IfOk result (λ found. found_term found ≡ from_variable (scope_of scope.now) words.now) }
{
    match variable_named(alloc, scope, words)? {
        Some(variable) => Ok(Found::Read(Term::Variable(variable))),
        None => from_property(alloc, scope, words),
    }
}

/// A literal, or else what comes behind it in the list of forms.
#[tactic(auto, unfolding(crate::specs::TermForms::from_literal))]
fn from_literal(
    alloc: Global,
    scope: &Scope<'_>,
    words: &[TextBytes],
) -> Result<Found<Term>, AllocError>
    requires few { length (scope_of scope.now).repeats ≤ 255 }
    ensures { IfOk result (λ found. found_term found ≡ from_literal (scope_of scope.now) words.now) }
{
    match literal_said(words) {
        Some(number) => Ok(Found::Read(Term::Literal(number))),
        None => from_variable(alloc, scope, words),
    }
}

/// Whether one of the words is `plus`, `minus` or `times`.
fn has_operator(words: &[TextBytes]) -> bool
    ensures { result ≡ list_any is_operator words.now }
{
    words.iter().any(|word| is_operator(word.as_slice()))
}

/// Whether words may be a part of a number: an operator stands there only as a word of some name.
fn can_stand(scope: &Scope<'_>, words: &[TextBytes]) -> bool
    ensures { result ≡ can_stand (scope_of scope.now) words.now }
{
    has_operators(scope) || !has_operator(words)
}

/// The number that words are, if it isn't joined of others: the first of the forms that they have.
#[tactic(auto, unfolding(crate::specs::TermForms::term_said))]
pub fn term_said(
    alloc: Global,
    scope: &Scope<'_>,
    words: &[TextBytes],
) -> Result<Found<Term>, AllocError>
    requires few { length (scope_of scope.now).repeats ≤ 255 }
    ensures { IfOk result (λ found. found_term found ≡ term_said (scope_of scope.now) words.now) }
{
    if can_stand(scope, words) {
        from_literal(alloc, scope, words)
    } else {
        Ok(Found::Unread)
    }
}
