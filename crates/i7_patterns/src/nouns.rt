//! What words ask of an action's nouns: `the ball` and `something` in `putting the ball on something`.
ghost use Rattle.std.specs.Prelude.{◌≡◌, ◌≤◌, length, option_map, IfOk};
ghost use Rattle.i7_actions.specs.Parts.{behind, first_part, second_part};
ghost use Rattle.i7_conditions.specs.Scopes.{scope_of};
ghost use Rattle.i7_patterns.specs.ActionForms.{alone_asked, nouns_around, nouns_asked, nouns_at, nouns_behind, nouns_meant, omitted_or_asked, one_noun, pair, two_nouns, without_second};
ghost use Rattle.i7_patterns.specs.Lowest.{lowest_from};
ghost use Rattle.play_meaning.specs.Patterns.{aspect_meant};

use crate::aspect::noun_asked;
use i7_actions::{Action, NounCount, behind, is_name, parts_of};
use i7_conditions::Scope;
use play_meaning::tree::Aspect;
use std::alloc::{AllocError, Global};
use world_meaning::TextBytes;

/// What is asked of the noun and of the second noun, nothing where the action has none.
#[derive(Drop)]
pub struct Nouns {
    pub noun: Aspect,
    pub second: Aspect,
}

/// What words ask of the noun of an action that has one: nothing, where there are none.
fn omitted_or_asked(
    alloc: Global,
    scope: &Scope<'_>,
    words: &[TextBytes],
) -> Result<Option<Aspect>, AllocError>
    requires few { length (scope_of scope.now).repeats ≤ 255 }
    ensures { IfOk result (λ aspect. option_map aspect_meant aspect ≡ omitted_or_asked (scope_of scope.now) words.now) }
{
    match words {
        [] => Ok(Some(Aspect::Anything)),
        [_, ..] => Ok(noun_asked(alloc, scope, words)?),
    }
}

/// The noun, and nothing of a second.
fn without_second(noun: Option<Aspect>) -> Option<Nouns>
    ensures { option_map nouns_meant result ≡ option_map without_second (option_map aspect_meant noun) }
{
    match noun {
        None => None,
        Some(noun) => Some(Nouns {
            noun,
            second: Aspect::Anything,
        }),
    }
}

/// What words ask of the one noun of an action, where none stand behind it.
fn one_noun(
    alloc: Global,
    scope: &Scope<'_>,
    noun: &[TextBytes],
    last: &[TextBytes],
) -> Result<Option<Nouns>, AllocError>
    requires few { length (scope_of scope.now).repeats ≤ 255 }
    ensures { IfOk result (λ nouns. option_map nouns_meant nouns ≡ one_noun (scope_of scope.now) noun.now last.now) }
{
    match last {
        [] => {
            let noun = omitted_or_asked(alloc, scope, noun)?;
            Ok(without_second(noun))
        }
        [_, ..] => Ok(None),
    }
}

/// The noun, and a second.
fn with_second(noun: Aspect, second: Option<Aspect>) -> Option<Nouns>
    ensures { option_map nouns_meant result ≡ option_map (pair (aspect_meant noun)) (option_map aspect_meant second) }
{
    match second {
        None => None,
        Some(second) => Some(Nouns { noun, second }),
    }
}

/// What words ask of the two nouns of an action.
fn two_nouns(
    alloc: Global,
    scope: &Scope<'_>,
    noun: &[TextBytes],
    last: &[TextBytes],
) -> Result<Option<Nouns>, AllocError>
    requires few { length (scope_of scope.now).repeats ≤ 255 }
    ensures { IfOk result (λ nouns. option_map nouns_meant nouns ≡ two_nouns (scope_of scope.now) noun.now last.now) }
{
    match noun_asked(alloc, scope, noun)? {
        None => Ok(None),
        Some(noun) => {
            let second = noun_asked(alloc, scope, last)?;
            Ok(with_second(noun, second))
        }
    }
}

/// What the words in front of the second part of a name ask, and those behind it.
fn nouns_around(
    alloc: Global,
    scope: &Scope<'_>,
    count: NounCount,
    noun: &[TextBytes],
    last: &[TextBytes],
) -> Result<Option<Nouns>, AllocError>
    requires few { length (scope_of scope.now).repeats ≤ 255 }
    ensures { IfOk result (λ nouns. option_map nouns_meant nouns ≡ nouns_around (scope_of scope.now) count noun.now last.now) }
{
    match count {
        NounCount::Zero => Ok(None),
        NounCount::One => Ok(one_noun(alloc, scope, noun, last)?),
        NounCount::Two => Ok(two_nouns(alloc, scope, noun, last)?),
    }
}

/// What words ask of which the first noun has so many.
fn nouns_at(
    alloc: Global,
    scope: &Scope<'_>,
    count: NounCount,
    second: &[TextBytes],
    words: &[TextBytes],
    len: usize,
    rest: &[TextBytes],
) -> Result<Option<Nouns>, AllocError>
    requires few { length (scope_of scope.now).repeats ≤ 255 }
    requires within { len ≤ length words.now }
    ensures { IfOk result (λ nouns. option_map nouns_meant nouns ≡ nouns_at (scope_of scope.now) count second.now words.now len rest.now) }
{
    match behind(second, rest) {
        None => Ok(None),
        Some(last) => {
            let (noun, _) = words.split_at(len);
            Ok(nouns_around(alloc, scope, count, noun, last)?)
        }
    }
}

/// What words ask around the first place of the second part where they ask something.
fn nouns_in(
    alloc: Global,
    scope: &Scope<'_>,
    count: NounCount,
    second: &[TextBytes],
    words: &[TextBytes],
) -> Result<Option<Nouns>, AllocError>
    requires few { length (scope_of scope.now).repeats ≤ 255 }
    ensures { IfOk result (λ nouns. option_map nouns_meant nouns ≡ lowest_from (nouns_at (scope_of scope.now) count second.now words.now) 0 words.now) }
{
    let mut len = 0;
    let mut rest = words;
    while let [_, after @ ..] = rest {
        match nouns_at(alloc, scope, count, second, words, len, rest)? {
            None => {}
            found => return Ok(found),
        }
        len += 1;
        rest = after;
    }
    Ok(nouns_at(alloc, scope, count, second, words, len, rest)?)
}

/// What words ask around the second part of a name that begin with the first.
fn nouns_behind(
    alloc: Global,
    scope: &Scope<'_>,
    count: NounCount,
    name: &[TextBytes],
    words: &[TextBytes],
) -> Result<Option<Nouns>, AllocError>
    requires few { length (scope_of scope.now).repeats ≤ 255 }
    ensures { IfOk result (λ nouns. option_map nouns_meant nouns ≡ nouns_behind (scope_of scope.now) count (second_part name.now) (behind (first_part name.now) words.now)) }
{
    let (first, second) = parts_of(name);
    match behind(first, words) {
        None => Ok(None),
        Some(rest) => Ok(nouns_in(alloc, scope, count, second, rest)?),
    }
}

/// Nothing of either noun, where words are a name alone.
fn alone_asked(name: &[TextBytes], words: &[TextBytes]) -> Option<Nouns>
    ensures { option_map nouns_meant result ≡ alone_asked name.now words.now }
{
    if is_name(name, words) {
        Some(Nouns {
            noun: Aspect::Anything,
            second: Aspect::Anything,
        })
    } else {
        None
    }
}

/// What words ask of an action's nouns, of which the first is as short as can be.
#[tactic(auto, unfolding(crate::specs::ActionForms::nouns_asked))]
pub fn nouns_asked(
    alloc: Global,
    scope: &Scope<'_>,
    action: &Action,
    words: &[TextBytes],
) -> Result<Option<Nouns>, AllocError>
    requires few { length (scope_of scope.now).repeats ≤ 255 }
    ensures { IfOk result (λ nouns. option_map nouns_meant nouns ≡ nouns_asked (scope_of scope.now) action.now words.now) }
{
    let name = action.name.as_slice();
    match action.nouns {
        NounCount::Zero => Ok(alone_asked(name, words)),
        NounCount::One => Ok(nouns_behind(alloc, scope, NounCount::One, name, words)?),
        NounCount::Two => Ok(nouns_behind(alloc, scope, NounCount::Two, name, words)?),
    }
}
