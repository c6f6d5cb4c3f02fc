//! The nouns that words give an action: `the ball` and `the box` in `putting the ball on the box`.
ghost use Rattle.std.specs.Prelude.{◌≡◌, ◌≤◌, length, IfOk};
ghost use Rattle.i7_actions.specs.NounForms.{alone_said, found_nouns, last_said, no_noun, noun_said, nouns_at, nouns_behind, nouns_from, nouns_said, pair};
ghost use Rattle.i7_actions.specs.Parts.{behind, first_part, second_part};
ghost use Rattle.i7_conditions.specs.Objects.{found_meant};
ghost use Rattle.i7_conditions.specs.Readings.{two};
ghost use Rattle.i7_conditions.specs.Scopes.{scope_of};

use crate::action::{Action, NounCount};
use crate::noun::noun_said;
use crate::part::{behind, is_name, parts_of};
use i7_conditions::{Found, Scope};
use play_meaning::tree::Referent;
use std::alloc::{AllocError, Global};
use world_meaning::TextBytes;

/// The nouns of an action, each nothing where it has none.
#[derive(Drop)]
pub struct Nouns {
    pub noun: Referent,
    pub second: Referent,
}

/// No second noun, where no words are left.
fn no_noun(words: &[TextBytes]) -> Found<Referent>
    ensures { found_meant result ≡ no_noun words.now }
{
    match words {
        [] => Found::Read(Referent::Nothing),
        [_, ..] => Found::Unread,
    }
}

/// What the words behind the second part are.
fn last_said(
    alloc: Global,
    scope: &Scope<'_>,
    count: NounCount,
    words: &[TextBytes],
) -> Result<Found<Referent>, AllocError>
    requires few { length (scope_of scope.now).repeats ≤ 255 }
    ensures { IfOk result (λ found. found_meant found ≡ last_said (scope_of scope.now) count words.now) }
{
    match count {
        NounCount::Zero => Ok(Found::Unread),
        NounCount::One => Ok(no_noun(words)),
        NounCount::Two => Ok(noun_said(alloc, scope, words)?),
    }
}

/// Both nouns.
fn both(noun: Found<Referent>, second: Found<Referent>) -> Found<Nouns>
    ensures { found_nouns result ≡ two pair (found_meant noun) (found_meant second) }
{
    match noun {
        Found::Read(noun) => match second {
            Found::Read(second) => Found::Read(Nouns { noun, second }),
            Found::TooMany => Found::TooMany,
            Found::Unread => Found::Unread,
        },
        Found::TooMany => match second {
            Found::Read(_) | Found::TooMany => Found::TooMany,
            Found::Unread => Found::Unread,
        },
        Found::Unread => Found::Unread,
    }
}

/// The nouns in front of the second part and behind it.
fn nouns_around(
    alloc: Global,
    scope: &Scope<'_>,
    count: NounCount,
    noun: &[TextBytes],
    last: &[TextBytes],
) -> Result<Found<Nouns>, AllocError>
    requires few { length (scope_of scope.now).repeats ≤ 255 }
    ensures { IfOk result (λ found. found_nouns found ≡ two pair (noun_said (scope_of scope.now) noun.now) (last_said (scope_of scope.now) count last.now)) }
{
    match noun_said(alloc, scope, noun)? {
        Found::Unread => Ok(Found::Unread),
        noun => {
            let second = last_said(alloc, scope, count, last)?;
            Ok(both(noun, second))
        }
    }
}

/// The nouns of which the first has so many words.
fn nouns_at(
    alloc: Global,
    scope: &Scope<'_>,
    count: NounCount,
    second: &[TextBytes],
    words: &[TextBytes],
    len: usize,
    rest: &[TextBytes],
) -> Result<Found<Nouns>, AllocError>
    requires few { length (scope_of scope.now).repeats ≤ 255 }
    requires within { len ≤ length words.now }
    ensures { IfOk result (λ found. found_nouns found ≡ nouns_at (scope_of scope.now) count second.now words.now len rest.now) }
{
    match behind(second, rest) {
        None => Ok(Found::Unread),
        Some(last) => {
            let (noun, _) = words.split_at(len);
            Ok(nouns_around(alloc, scope, count, noun, last)?)
        }
    }
}

/// The nouns around the first place of the second part that there are such.
fn nouns_in(
    alloc: Global,
    scope: &Scope<'_>,
    count: NounCount,
    second: &[TextBytes],
    words: &[TextBytes],
) -> Result<Found<Nouns>, AllocError>
    requires few { length (scope_of scope.now).repeats ≤ 255 }
    ensures { IfOk result (λ found. found_nouns found ≡ nouns_from (scope_of scope.now) count second.now words.now 0 words.now) }
{
    let mut len = 0;
    let mut rest = words;
    while let [_, after @ ..] = rest {
        match nouns_at(alloc, scope, count, second, words, len, rest)? {
            Found::Unread => {}
            found => return Ok(found),
        }
        len += 1;
        rest = after;
    }
    Ok(nouns_at(alloc, scope, count, second, words, len, rest)?)
}

/// The nouns around the second part of a name, in words that begin with the first.
fn nouns_behind(
    alloc: Global,
    scope: &Scope<'_>,
    count: NounCount,
    name: &[TextBytes],
    words: &[TextBytes],
) -> Result<Found<Nouns>, AllocError>
    requires few { length (scope_of scope.now).repeats ≤ 255 }
    ensures { IfOk result (λ found. found_nouns found ≡ nouns_behind (scope_of scope.now) count (second_part name.now) (behind (first_part name.now) words.now)) }
{
    let (first, second) = parts_of(name);
    match behind(first, words) {
        None => Ok(Found::Unread),
        Some(rest) => Ok(nouns_in(alloc, scope, count, second, rest)?),
    }
}

/// No nouns, where words are a name alone.
fn alone_said(name: &[TextBytes], words: &[TextBytes]) -> Found<Nouns>
    ensures { found_nouns result ≡ alone_said name.now words.now }
{
    if is_name(name, words) {
        Found::Read(Nouns {
            noun: Referent::Nothing,
            second: Referent::Nothing,
        })
    } else {
        Found::Unread
    }
}

/// The nouns that words give an action, of which the first is as short as can be.
#[tactic(auto, unfolding(crate::specs::NounForms::nouns_said))]
pub fn nouns_said(
    alloc: Global,
    scope: &Scope<'_>,
    action: &Action,
    words: &[TextBytes],
) -> Result<Found<Nouns>, AllocError>
    requires few { length (scope_of scope.now).repeats ≤ 255 }
    ensures { IfOk result (λ found. found_nouns found ≡ nouns_said (scope_of scope.now) action.now words.now) }
{
    let name = action.name.as_slice();
    match action.nouns {
        NounCount::Zero => Ok(alone_said(name, words)),
        NounCount::One => Ok(nouns_behind(alloc, scope, NounCount::One, name, words)?),
        NounCount::Two => Ok(nouns_behind(alloc, scope, NounCount::Two, name, words)?),
    }
}
