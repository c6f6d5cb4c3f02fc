//! What phrases with an `is` do (*Writing with Inform*, chapters 8 and 15): `now the box is open`, `now the score is 2`.
ghost use Rattle.std.specs.Prelude.{◌≡◌, ◌≤◌, length, IfOk};
ghost use Rattle.i7_conditions.specs.Adjectives.{adjective_named};
ghost use Rattle.i7_conditions.specs.Joining.{found_number};
ghost use Rattle.i7_conditions.specs.Objects.{found_meant};
ghost use Rattle.i7_conditions.specs.Readings.{one, two};
ghost use Rattle.i7_conditions.specs.Relations.{relation_at};
ghost use Rattle.i7_conditions.specs.Scopes.{scope_of};
ghost use Rattle.i7_phrases.specs.CellForms.{cell_said, found_cell};
ghost use Rattle.i7_phrases.specs.Cells.{set};
ghost use Rattle.i7_phrases.specs.ChangeForms.{away_said, becomes_said, found_simple, from_away, from_put, from_set, from_value, held_so, made_so, put_said, set_said, so_said};
ghost use Rattle.i7_phrases.specs.Changes.{flag_of, is_nowhere, value_by};
ghost use Rattle.play_meaning.specs.Trees as tree;

use crate::cell::{Cell, cell_said, set};
use crate::valued::from_value;
use i7_conditions::{Found, Scope, adjective_named, number_said, object_said, relation_at};
use play_meaning::tree::{Adjective, Number, Quality, Referent, Side, Simple};
use std::alloc::{AllocError, Global};
use world_meaning::{Rel, TextBytes, is_spelled};

/// The value that a property's name gives it, perhaps behind `not`.
fn value_by(side: Side, denied: bool) -> bool
    ensures { result ≡ value_by side denied }
{
    match side {
        Side::First => !denied,
        Side::Second => denied,
    }
}

/// The either-or property that an adjective names, and the value that it gives it.
fn flag_of(adjective: Option<Adjective>) -> Option<(u8, bool)>
    ensures { result ≡ flag_of adjective }
{
    match adjective {
        None => None,
        Some(adjective) => match adjective.quality {
            Quality::Is(property, side) => Some((property, value_by(side, adjective.denied))),
            Quality::Valued(_, _) | Quality::Visible | Quality::Touchable => None,
        },
    }
}

/// An object made so.
fn made_so(property: u8, value: bool, object: Found<Referent>) -> Found<Simple>
    ensures { found_simple result ≡ one (made_so (property, value)) (found_meant object) }
{
    match object {
        Found::Read(object) => Found::Read(Simple::NowIs(object, property, value)),
        Found::TooMany => Found::TooMany,
        Found::Unread => Found::Unread,
    }
}

/// `now OBJECT is ADJECTIVE`
fn so_said(
    alloc: Global,
    scope: &Scope<'_>,
    subject: &[TextBytes],
    behind: &[TextBytes],
) -> Result<Found<Simple>, AllocError>
    requires few { length (scope_of scope.now).repeats ≤ 255 }
    ensures { IfOk result (λ found. found_simple found ≡ so_said (scope_of scope.now) subject.now (flag_of (adjective_named (scope_of scope.now) behind.now))) }
{
    match flag_of(adjective_named(alloc, scope, behind)?) {
        None => Ok(Found::Unread),
        Some((property, value)) => {
            let object = object_said(alloc, scope, subject)?;
            Ok(made_so(property, value, object))
        }
    }
}

/// An object put somewhere.
pub fn held_so(relation: Rel, object: Found<Referent>, holder: Found<Referent>) -> Found<Simple>
    ensures { found_simple result ≡ two (held_so relation) (found_meant object) (found_meant holder) }
{
    match object {
        Found::Read(object) => match holder {
            Found::Read(holder) => Found::Read(Simple::NowHeld(object, relation, holder)),
            Found::TooMany => Found::TooMany,
            Found::Unread => Found::Unread,
        },
        Found::TooMany => match holder {
            Found::Read(_) | Found::TooMany => Found::TooMany,
            Found::Unread => Found::Unread,
        },
        Found::Unread => Found::Unread,
    }
}

/// `now OBJECT is in HOLDER`, and the other relations
fn put_said(
    alloc: Global,
    scope: &Scope<'_>,
    subject: &[TextBytes],
    behind: &[TextBytes],
) -> Result<Found<Simple>, AllocError>
    requires few { length (scope_of scope.now).repeats ≤ 255 }
    ensures { IfOk result (λ found. found_simple found ≡ put_said (scope_of scope.now) subject.now (relation_at behind.now)) }
{
    match relation_at(behind) {
        None => Ok(Found::Unread),
        Some((relation, words)) => {
            let object = object_said(alloc, scope, subject)?;
            let holder = object_said(alloc, scope, words)?;
            Ok(held_so(relation, object, holder))
        }
    }
}

/// Whether the words are `nowhere` alone.
fn is_nowhere(words: &[TextBytes]) -> bool
    ensures { result ≡ is_nowhere words.now }
{
    match words {
        [word] => is_spelled(word.as_slice(), b"nowhere"),
        _ => false,
    }
}

/// An object taken away.
fn taken_away(object: Found<Referent>) -> Found<Simple>
    ensures { found_simple result ≡ one tree.NowNowhere (found_meant object) }
{
    match object {
        Found::Read(object) => Found::Read(Simple::NowNowhere(object)),
        Found::TooMany => Found::TooMany,
        Found::Unread => Found::Unread,
    }
}

/// `now OBJECT is nowhere`
fn away_said(
    alloc: Global,
    scope: &Scope<'_>,
    subject: &[TextBytes],
    behind: &[TextBytes],
) -> Result<Found<Simple>, AllocError>
    requires few { length (scope_of scope.now).repeats ≤ 255 }
    ensures { IfOk result (λ found. found_simple found ≡ away_said (scope_of scope.now) subject.now behind.now) }
{
    if is_nowhere(behind) {
        let object = object_said(alloc, scope, subject)?;
        Ok(taken_away(object))
    } else {
        Ok(Found::Unread)
    }
}

/// What holds a number, set.
fn set_so(cell: Found<Cell>, number: Found<Number>) -> Found<Simple>
    ensures { found_simple result ≡ two set (found_cell cell) (found_number number) }
{
    match cell {
        Found::Read(cell) => match number {
            Found::Read(number) => Found::Read(set(cell, number)),
            Found::TooMany => Found::TooMany,
            Found::Unread => Found::Unread,
        },
        Found::TooMany => match number {
            Found::Read(_) | Found::TooMany => Found::TooMany,
            Found::Unread => Found::Unread,
        },
        Found::Unread => Found::Unread,
    }
}

/// `now the score is NUMBER`, `now the weight of the ball is NUMBER`
fn set_said(
    alloc: Global,
    scope: &Scope<'_>,
    subject: &[TextBytes],
    behind: &[TextBytes],
) -> Result<Found<Simple>, AllocError>
    requires few { length (scope_of scope.now).repeats ≤ 255 }
    ensures { IfOk result (λ found. found_simple found ≡ set_said (scope_of scope.now) subject.now behind.now) }
{
    let cell = cell_said(alloc, scope, subject)?;
    let number = number_said(alloc, scope, behind)?;
    Ok(set_so(cell, number))
}

/// The forms of `now` from numbers on.
fn from_set(
    alloc: Global,
    scope: &Scope<'_>,
    subject: &[TextBytes],
    behind: &[TextBytes],
) -> Result<Found<Simple>, AllocError>
    requires few { length (scope_of scope.now).repeats ≤ 255 }
    ensures { IfOk result (λ found. found_simple found ≡ from_set (scope_of scope.now) subject.now behind.now) }
{
    match set_said(alloc, scope, subject, behind)? {
        Found::Unread => Ok(from_value(alloc, scope, subject, behind)?),
        found => Ok(found),
    }
}

/// The forms of `now` from `nowhere` on.
fn from_away(
    alloc: Global,
    scope: &Scope<'_>,
    subject: &[TextBytes],
    behind: &[TextBytes],
) -> Result<Found<Simple>, AllocError>
    requires few { length (scope_of scope.now).repeats ≤ 255 }
    ensures { IfOk result (λ found. found_simple found ≡ from_away (scope_of scope.now) subject.now behind.now) }
{
    match away_said(alloc, scope, subject, behind)? {
        Found::Unread => Ok(from_set(alloc, scope, subject, behind)?),
        found => Ok(found),
    }
}

/// The forms of `now` from relations on.
fn from_put(
    alloc: Global,
    scope: &Scope<'_>,
    subject: &[TextBytes],
    behind: &[TextBytes],
) -> Result<Found<Simple>, AllocError>
    requires few { length (scope_of scope.now).repeats ≤ 255 }
    ensures { IfOk result (λ found. found_simple found ≡ from_put (scope_of scope.now) subject.now behind.now) }
{
    match put_said(alloc, scope, subject, behind)? {
        Found::Unread => Ok(from_away(alloc, scope, subject, behind)?),
        found => Ok(found),
    }
}

/// What `now SUBJECT is ..` does, by the words in front of the `is` and those behind it.
#[tactic(auto, unfolding(crate::specs::ChangeForms::becomes_said))]
pub fn becomes_said(
    alloc: Global,
    scope: &Scope<'_>,
    subject: &[TextBytes],
    behind: &[TextBytes],
) -> Result<Found<Simple>, AllocError>
    requires few { length (scope_of scope.now).repeats ≤ 255 }
    ensures { IfOk result (λ found. found_simple found ≡ becomes_said (scope_of scope.now) subject.now behind.now) }
{
    match so_said(alloc, scope, subject, behind)? {
        Found::Unread => Ok(from_put(alloc, scope, subject, behind)?),
        found => Ok(found),
    }
}
