//! What says that an object has a value (*Writing with Inform*, chapter 4): `the colour of the ball`, and `red`.
ghost use Rattle.std.specs.Prelude.{◌≡◌, ◌≤◌, length, option_map, Some, IfOk};
ghost use Rattle.i7_conditions.specs.Objects.{found_meant};
ghost use Rattle.i7_conditions.specs.Readings.{one};
ghost use Rattle.i7_conditions.specs.Scopes.{scope_of};
ghost use Rattle.i7_conditions.specs.Values.{found_valuing, kind_and_object, value_behind, value_in, value_named, value_said, valuing, with_object};

use crate::adjective::quality_named;
use crate::found::Found;
use crate::key::{split_of, value_kind_named};
use crate::object::object_said;
use crate::scope::Scope;
use crate::word::without_article;
use play_meaning::tree::{Quality, Referent};
use std::alloc::{AllocError, Global};
use world_meaning::TextBytes;

/// That an object has this value of this kind of value.
#[derive(Drop)]
pub struct Valuing {
    pub object: Referent,
    pub kind: u8,
    pub value: u8,
}

/// The value of this kind of value, if it is one.
fn value_in(kind: u8, quality: Option<Quality>) -> Option<u8>
    ensures { result ≡ value_in kind quality }
{
    match quality {
        None => None,
        Some(quality) => match quality {
            Quality::Valued(of, value) => { if of == kind { Some(value) } else { None } }
            _ => None,
        },
    }
}

/// The value of this kind of value that words name, one article in front being free.
fn value_named(
    alloc: Global,
    scope: &Scope<'_>,
    kind: u8,
    words: &[TextBytes],
) -> Result<Option<u8>, AllocError>
    ensures { IfOk result (λ value. value ≡ value_named (scope_of scope.now) kind words.now) }
{
    let quality = quality_named(alloc, scope, without_article(words))?;
    Ok(value_in(kind, quality))
}

/// The kind of value, if there is one, and the words of the object.
fn with_object(kind: Option<u8>, object: &[TextBytes]) -> Option<(u8, &[TextBytes])>
    ensures { option_map (λ parts. (parts.0, parts.1.now)) result ≡ with_object kind object.now }
{
    match kind {
        None => None,
        Some(kind) => Some((kind, object)),
    }
}

/// The kind of value that words name in front of their first `of`, and the words behind that: `the Q of O`.
pub fn kind_and_object<'a>(
    alloc: Global,
    scope: &Scope<'_>,
    words: &'a [TextBytes],
) -> Result<Option<(u8, &'a [TextBytes])>, AllocError>
    ensures { IfOk result (λ found. option_map (λ parts. (parts.0, parts.1.now)) found ≡ kind_and_object (scope_of scope.now) words.now) }
{
    match split_of(words) {
        None => Ok(None),
        Some((name, object)) => {
            let kind = value_kind_named(alloc, scope, name)?;
            Ok(with_object(kind, object))
        }
    }
}

/// An object's value.
fn with_value(kind: u8, value: u8, object: Found<Referent>) -> Found<Valuing>
    ensures { found_valuing result ≡ one (valuing kind value) (found_meant object) }
{
    match object {
        Found::Read(object) => Found::Read(Valuing {
            object,
            kind,
            value,
        }),
        Found::TooMany => Found::TooMany,
        Found::Unread => Found::Unread,
    }
}

/// The value of this kind that is named behind the object.
fn value_behind(
    alloc: Global,
    scope: &Scope<'_>,
    kind: u8,
    object: &[TextBytes],
    behind: &[TextBytes],
) -> Result<Found<Valuing>, AllocError>
    requires few { length (scope_of scope.now).repeats ≤ 255 }
    ensures { IfOk result (λ found. found_valuing found ≡ value_behind (scope_of scope.now) (Some (kind, object.now)) behind.now) }
{
    match value_named(alloc, scope, kind, behind)? {
        None => Ok(Found::Unread),
        Some(value) => {
            let object = object_said(alloc, scope, object)?;
            Ok(with_value(kind, value, object))
        }
    }
}

/// `the Q of O`, and `W`: an object, a kind of value, and a value of that.
pub fn value_said(
    alloc: Global,
    scope: &Scope<'_>,
    subject: &[TextBytes],
    behind: &[TextBytes],
) -> Result<Found<Valuing>, AllocError>
    requires few { length (scope_of scope.now).repeats ≤ 255 }
    ensures { IfOk result (λ found. found_valuing found ≡ value_said (scope_of scope.now) subject.now behind.now) }
{
    match kind_and_object(alloc, scope, subject)? {
        None => Ok(Found::Unread),
        Some((kind, object)) => value_behind(alloc, scope, kind, object, behind),
    }
}
