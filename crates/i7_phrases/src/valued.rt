//! What phrases do that give an object a value (*Writing with Inform*, chapter 4): `now the colour of the ball is red`, `now
//! the ball is red`.
ghost use Rattle.std.specs.Prelude.{◌≡◌, ◌≤◌, length, IfOk};
ghost use Rattle.i7_conditions.specs.Adjectives.{quality_named};
ghost use Rattle.i7_conditions.specs.Objects.{found_meant};
ghost use Rattle.i7_conditions.specs.Readings.{one};
ghost use Rattle.i7_conditions.specs.Scopes.{scope_of};
ghost use Rattle.i7_conditions.specs.Values.{found_valuing};
ghost use Rattle.i7_conditions.specs.Words.{without_article};
ghost use Rattle.i7_phrases.specs.ChangeForms.{found_simple, from_value, made_valued, valued_said};
ghost use Rattle.i7_phrases.specs.Changes.{given, value_of};

use i7_conditions::{
    Found, Scope, Valuing, object_said, quality_named, value_said, without_article,
};
use play_meaning::tree::{Quality, Referent, Simple};
use std::alloc::{AllocError, Global};
use world_meaning::TextBytes;

/// An object given a value.
fn given(found: Found<Valuing>) -> Found<Simple>
    ensures { found_simple result ≡ one given (found_valuing found) }
{
    match found {
        Found::Read(said) => Found::Read(Simple::NowValued(said.object, said.kind, said.value)),
        Found::TooMany => Found::TooMany,
        Found::Unread => Found::Unread,
    }
}

/// The kind of value and the value, if it is one.
fn value_of(quality: Option<Quality>) -> Option<(u8, u8)>
    ensures { result ≡ value_of quality }
{
    match quality {
        None => None,
        Some(quality) => match quality {
            Quality::Valued(kind, value) => Some((kind, value)),
            _ => None,
        },
    }
}

/// An object made so.
fn made_valued(kind: u8, value: u8, object: Found<Referent>) -> Found<Simple>
    ensures { found_simple result ≡ one (made_valued (kind, value)) (found_meant object) }
{
    match object {
        Found::Read(object) => Found::Read(Simple::NowValued(object, kind, value)),
        Found::TooMany => Found::TooMany,
        Found::Unread => Found::Unread,
    }
}

/// `now OBJECT is VALUE`
fn valued_said(
    alloc: Global,
    scope: &Scope<'_>,
    subject: &[TextBytes],
    behind: &[TextBytes],
) -> Result<Found<Simple>, AllocError>
    requires few { length (scope_of scope.now).repeats ≤ 255 }
    ensures { IfOk result (λ found. found_simple found ≡ valued_said (scope_of scope.now) subject.now (value_of (quality_named (scope_of scope.now) (without_article behind.now)))) }
{
    match value_of(quality_named(alloc, scope, without_article(behind))?) {
        None => Ok(Found::Unread),
        Some((kind, value)) => {
            let object = object_said(alloc, scope, subject)?;
            Ok(made_valued(kind, value, object))
        }
    }
}

/// `now the KIND of OBJECT is VALUE`, or else `now OBJECT is VALUE`.
#[tactic(auto, unfolding(crate::specs::ChangeForms::from_value))]
pub fn from_value(
    alloc: Global,
    scope: &Scope<'_>,
    subject: &[TextBytes],
    behind: &[TextBytes],
) -> Result<Found<Simple>, AllocError>
    requires few { length (scope_of scope.now).repeats ≤ 255 }
    ensures { IfOk result (λ found. found_simple found ≡ from_value (scope_of scope.now) subject.now behind.now) }
{
    let said = value_said(alloc, scope, subject, behind)?;
    match given(said) {
        Found::Unread => Ok(valued_said(alloc, scope, subject, behind)?),
        found => Ok(found),
    }
}
