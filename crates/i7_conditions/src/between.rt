//! A word between two objects: `carries` in `Bob carries the ball`, `to` in `move the ball to the box`.
ghost use Rattle.std.specs.Prelude.{◌≡◌, ◌≤◌, ◌+◌, length, Some, IfOk};
ghost use Rattle.i7_conditions.specs.Between.{around_word, fits, found_both, pair, parted_said, place_from};
ghost use Rattle.i7_conditions.specs.Joining.{is_read};
ghost use Rattle.i7_conditions.specs.Objects.{found_meant};
ghost use Rattle.i7_conditions.specs.Predicates.{object_said};
ghost use Rattle.i7_conditions.specs.Readings.{two};
ghost use Rattle.i7_conditions.specs.Scopes.{scope_of};

use crate::found::Found;
use crate::object::object_said;
use crate::scope::Scope;
use play_meaning::tree::Referent;
use std::alloc::{AllocError, Global};
use world_meaning::{TextBytes, is_spelled};

/// Whether words mean an object, perhaps with too many `from`s.
fn is_object(alloc: Global, scope: &Scope<'_>, words: &[TextBytes]) -> Result<bool, AllocError>
    requires few { length (scope_of scope.now).repeats ≤ 255 }
    ensures { IfOk result (λ is. is ≡ is_read (object_said (scope_of scope.now) words.now)) }
{
    match object_said(alloc, scope, words)? {
        Found::Read(_) | Found::TooMany => Ok(true),
        Found::Unread => Ok(false),
    }
}

/// Whether the found word is this one and objects stand in front of it and behind it.
fn fits(
    alloc: Global,
    scope: &Scope<'_>,
    word: &[u8],
    words: &[TextBytes],
    count: usize,
    found: &TextBytes,
    rest: &[TextBytes],
) -> Result<bool, AllocError>
    requires few { length (scope_of scope.now).repeats ≤ 255 }
    requires within { count ≤ length words.now }
    ensures { IfOk result (λ is. is ≡ fits (scope_of scope.now) word.now words.now count found.now rest.now) }
{
    if !is_spelled(found.as_slice(), word) {
        return Ok(false);
    }
    let (front, _) = words.split_at(count);
    if !is_object(alloc, scope, front)? {
        return Ok(false);
    }
    Ok(is_object(alloc, scope, rest)?)
}

/// The first place where the word fits.
fn place_of(
    alloc: Global,
    scope: &Scope<'_>,
    word: &[u8],
    words: &[TextBytes],
) -> Result<Option<usize>, AllocError>
    requires few { length (scope_of scope.now).repeats ≤ 255 }
    ensures { IfOk result (λ place. place ≡ place_from (scope_of scope.now) word.now words.now 0 words.now) }
{
    let mut count = 0;
    let mut rest = words;
    while let [found, after @ ..] = rest {
        if fits(alloc, scope, word, words, count, found, after)? {
            return Ok(Some(count));
        }
        count += 1;
        rest = after;
    }
    Ok(None)
}

/// Two objects, if each is there.
fn pair(front: Found<Referent>, behind: Found<Referent>) -> Found<(Referent, Referent)>
    ensures { found_both result ≡ two pair (found_meant front) (found_meant behind) }
{
    match front {
        Found::Read(front) => match behind {
            Found::Read(behind) => Found::Read((front, behind)),
            Found::TooMany => Found::TooMany,
            Found::Unread => Found::Unread,
        },
        Found::TooMany => match behind {
            Found::Read(_) | Found::TooMany => Found::TooMany,
            Found::Unread => Found::Unread,
        },
        Found::Unread => Found::Unread,
    }
}

/// The objects around the first of the words behind these.
fn around_word(
    alloc: Global,
    scope: &Scope<'_>,
    front: &[TextBytes],
    behind: &[TextBytes],
) -> Result<Found<(Referent, Referent)>, AllocError>
    requires few { length (scope_of scope.now).repeats ≤ 255 }
    ensures { IfOk result (λ found. found_both found ≡ around_word (scope_of scope.now) front.now behind.now) }
{
    match behind {
        [] => Ok(Found::Unread),
        [_, rest @ ..] => {
            let first = object_said(alloc, scope, front)?;
            let second = object_said(alloc, scope, rest)?;
            Ok(pair(first, second))
        }
    }
}

/// The objects in front of the word and behind it; where names hold the word too, those with the shortest first part. If more than 8
/// `from`s stand within one another in one of the two, they are too many.
#[tactic(auto, unfolding(crate::specs::Between::parted_said))]
pub fn parted_said(
    alloc: Global,
    scope: &Scope<'_>,
    word: &[u8],
    words: &[TextBytes],
) -> Result<Found<(Referent, Referent)>, AllocError>
    requires few { length (scope_of scope.now).repeats ≤ 255 }
    ensures { IfOk result (λ found. found_both found ≡ parted_said (scope_of scope.now) word.now words.now) }
{
    match place_of(alloc, scope, word, words)? {
        None => Ok(Found::Unread),
        Some(count) => {
            let (front, behind) = words.split_at(count.min(words.len()));
            Ok(around_word(alloc, scope, front, behind)?)
        }
    }
}
