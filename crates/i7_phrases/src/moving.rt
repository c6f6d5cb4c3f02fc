//! Phrases that give and move things (*Writing with Inform*, chapter 8): `now Bob carries the ball`, `move the ball to the box`.
ghost use Rattle.std.specs.Prelude.{◌≡◌, ◌≤◌, length, IfOk};
ghost use Rattle.i7_conditions.specs.Between.{found_both};
ghost use Rattle.i7_conditions.specs.Clauses.{split_is};
ghost use Rattle.i7_conditions.specs.Readings.{one};
ghost use Rattle.i7_conditions.specs.Scopes.{scope_of};
ghost use Rattle.i7_phrases.specs.ChangeForms.{becomes_in, found_simple, from_gives, gives_said, moves_said, now_said};
ghost use Rattle.i7_phrases.specs.Changes.{given_so, moved_so};

use crate::change::becomes_said;
use i7_conditions::{Found, Scope, parted_said, split_is};
use play_meaning::tree::{Referent, Simple};
use std::alloc::{AllocError, Global};
use world_meaning::{Rel, TextBytes};

/// What words with an `is` do.
fn becomes_in(
    alloc: Global,
    scope: &Scope<'_>,
    words: &[TextBytes],
) -> Result<Found<Simple>, AllocError>
    requires few { length (scope_of scope.now).repeats ≤ 255 }
    ensures { IfOk result (λ found. found_simple found ≡ becomes_in (scope_of scope.now) (split_is words.now)) }
{
    match split_is(words) {
        None => Ok(Found::Unread),
        Some((subject, behind)) => Ok(becomes_said(alloc, scope, subject, behind)?),
    }
}

/// An object given to the holder in front.
fn given_so(relation: Rel, both: Found<(Referent, Referent)>) -> Found<Simple>
    ensures { found_simple result ≡ one (given_so relation) (found_both both) }
{
    match both {
        Found::Read((holder, object)) => Found::Read(Simple::NowHeld(object, relation, holder)),
        Found::TooMany => Found::TooMany,
        Found::Unread => Found::Unread,
    }
}

/// What `now HOLDER VERB OBJECT` does.
fn gives_said(
    alloc: Global,
    scope: &Scope<'_>,
    relation: Rel,
    verb: &[u8],
    words: &[TextBytes],
) -> Result<Found<Simple>, AllocError>
    requires few { length (scope_of scope.now).repeats ≤ 255 }
    ensures { IfOk result (λ found. found_simple found ≡ gives_said relation verb.now (scope_of scope.now) words.now) }
{
    let both = parted_said(alloc, scope, verb, words)?;
    Ok(given_so(relation, both))
}

/// `now HOLDER carries OBJECT`, or else `now HOLDER wears OBJECT`.
fn from_gives(
    alloc: Global,
    scope: &Scope<'_>,
    words: &[TextBytes],
) -> Result<Found<Simple>, AllocError>
    requires few { length (scope_of scope.now).repeats ≤ 255 }
    ensures { IfOk result (λ found. found_simple found ≡ from_gives (scope_of scope.now) words.now) }
{
    match gives_said(alloc, scope, Rel::Carried, b"carries", words)? {
        Found::Unread => Ok(gives_said(alloc, scope, Rel::Worn, b"wears", words)?),
        found => Ok(found),
    }
}

/// What `now` does, by the words behind it.
#[tactic(auto, unfolding(crate::specs::ChangeForms::now_said))]
pub fn now_said(
    alloc: Global,
    scope: &Scope<'_>,
    words: &[TextBytes],
) -> Result<Found<Simple>, AllocError>
    requires few { length (scope_of scope.now).repeats ≤ 255 }
    ensures { IfOk result (λ found. found_simple found ≡ now_said (scope_of scope.now) words.now) }
{
    match becomes_in(alloc, scope, words)? {
        Found::Unread => Ok(from_gives(alloc, scope, words)?),
        found => Ok(found),
    }
}

/// The object in front moved to the holder.
fn moved_so(both: Found<(Referent, Referent)>) -> Found<Simple>
    ensures { found_simple result ≡ one moved_so (found_both both) }
{
    match both {
        Found::Read((object, holder)) => Found::Read(Simple::Move(object, holder)),
        Found::TooMany => Found::TooMany,
        Found::Unread => Found::Unread,
    }
}

/// What `move OBJECT to HOLDER` does, by the words behind `move`.
#[tactic(auto, unfolding(crate::specs::ChangeForms::moves_said))]
pub fn moves_said(
    alloc: Global,
    scope: &Scope<'_>,
    words: &[TextBytes],
) -> Result<Found<Simple>, AllocError>
    requires few { length (scope_of scope.now).repeats ≤ 255 }
    ensures { IfOk result (λ found. found_simple found ≡ moves_said (scope_of scope.now) words.now) }
{
    let both = parted_said(alloc, scope, b"to", words)?;
    Ok(moved_so(both))
}
