//! Patterns by their words (*Writing with Inform*, chapters 7 and 12): what stands behind `before` or `check`, without a
//! `during` or a `when`; and the place behind `every turn in`.
ghost use Rattle.std.specs.Prelude.{◌≡◌, ◌≤◌, length, option_map, IfOk};
ghost use Rattle.i7_conditions.specs.Scopes.{scope_of};
ghost use Rattle.i7_patterns.specs.AspectForms.{one_asked};
ghost use Rattle.i7_patterns.specs.Aspects.{AsksOne};
ghost use Rattle.i7_patterns.specs.Asked.{IsAsked, judged};
ghost use Rattle.i7_patterns.specs.PatternForms.{asked_aspect, asked_pattern, pattern_asked};
ghost use Rattle.play_meaning.specs.Patterns.{aspect_meant, pattern_meant};
ghost use Rattle.i7_patterns.specs.Patterns.{IsPattern, is_right, pattern_asks_value, pattern_is_over};
ghost use Rattle.i7_patterns.specs.Places.{is_long, is_right_place};

use crate::action::action_asked;
use crate::anything::anything_asked;
use crate::asked::Asked;
use crate::aspect::one_asked;
use crate::place::{asks_value, is_long, is_place, is_right_place};
use i7_actions::Action;
use i7_conditions::Scope;
use play_meaning::tree::{Aspect, Pattern};
use std::alloc::{AllocError, Global};
use world_meaning::{KindNo, Object, TextBytes};

/// The pattern that words are, wherever it may be.
#[tactic(auto, unfolding(crate::specs::PatternForms::pattern_asked))]
fn pattern_asked(
    alloc: Global,
    scope: &Scope<'_>,
    actions: &[Action],
    words: &[TextBytes],
) -> Result<Option<Pattern>, AllocError>
    requires few { length (scope_of scope.now).repeats ≤ 255 }
    requires countable { length actions.now ≤ 255 }
    ensures { IfOk result (λ pattern. option_map pattern_meant pattern ≡ pattern_asked actions.now (scope_of scope.now) words.now) }
{
    match anything_asked(alloc, scope, words)? {
        Some(pattern) => Ok(Some(pattern)),
        None => Ok(action_asked(alloc, scope, actions, words)?),
    }
}

/// Whether a pattern has more adjectives of one noun, or of the place, than the language allows.
fn pattern_is_over(pattern: &Pattern) -> bool
    ensures { result ≡ pattern_is_over (pattern_meant pattern.now) }
{
    is_long(&pattern.noun) || is_long(&pattern.second) || is_long(&pattern.place)
}

/// Whether a pattern asks for a value.
fn pattern_asks_value(pattern: &Pattern) -> bool
    ensures { result ≡ pattern_asks_value (pattern_meant pattern.now) }
{
    asks_value(&pattern.noun) || asks_value(&pattern.second) || asks_value(&pattern.place)
}

/// Whether the place of a pattern is right, and no value is asked for.
fn is_right(parents: &[Option<KindNo>], objects: &[Object], pattern: &Pattern) -> bool
    ensures { result ≡ is_right parents.now objects.now (pattern_meant pattern.now) }
{
    is_place(parents, objects, &pattern.place) && !pattern_asks_value(pattern)
}

/// What is told of a pattern.
fn judged(
    parents: &[Option<KindNo>],
    objects: &[Object],
    pattern: Option<Pattern>,
) -> Asked<Pattern>
    ensures { asked_pattern result ≡ judged (is_right parents.now objects.now) pattern_is_over (option_map pattern_meant pattern) }
{
    match pattern {
        None => Asked::Unread,
        Some(pattern) => {
            if !is_right(parents, objects, &pattern) {
                Asked::WrongKind
            } else if pattern_is_over(&pattern) {
                Asked::TooMany
            } else {
                Asked::Read(pattern)
            }
        }
    }
}

/// The pattern that words are, actions being numbered by their places. The kind above each kind is told, and the objects by
/// number: a place is a room, or a description of rooms, and no value is asked for. Of several actions the one with the longest name is meant, and of
/// its readings the one whose place begins earliest, and then the one with the shortest noun, as this profile has it.
#[tactic(auto, using(crate::proofs::Asking::patterns_found))]
pub fn pattern_of(
    alloc: Global,
    scope: &Scope<'_>,
    actions: &[Action],
    parents: &[Option<KindNo>],
    objects: &[Object],
    words: &[TextBytes],
) -> Result<Asked<Pattern>, AllocError>
    requires few { length (scope_of scope.now).repeats ≤ 255 }
    requires countable { length actions.now ≤ 255 }
    ensures { IfOk result (λ found. IsAsked (IsPattern actions.now (scope_of scope.now) words.now) (is_right parents.now objects.now) pattern_is_over (asked_pattern found)) }
{
    let pattern = pattern_asked(alloc, scope, actions, words)?;
    Ok(judged(parents, objects, pattern))
}

/// What is told of a place.
fn place_judged(
    parents: &[Option<KindNo>],
    objects: &[Object],
    place: Option<Aspect>,
) -> Asked<Aspect>
    ensures { asked_aspect result ≡ judged (is_right_place parents.now objects.now) is_long (option_map aspect_meant place) }
{
    match place {
        None => Asked::Unread,
        Some(place) => {
            if !is_right_place(parents, objects, &place) {
                Asked::WrongKind
            } else if is_long(&place) {
                Asked::TooMany
            } else {
                Asked::Read(place)
            }
        }
    }
}

/// The place that words are behind an `in`: a room, or a description of rooms, by no value.
#[tactic(auto, using(crate::proofs::Asking::places_found))]
pub fn place_of(
    alloc: Global,
    scope: &Scope<'_>,
    parents: &[Option<KindNo>],
    objects: &[Object],
    words: &[TextBytes],
) -> Result<Asked<Aspect>, AllocError>
    requires few { length (scope_of scope.now).repeats ≤ 255 }
    ensures { IfOk result (λ found. IsAsked (AsksOne (scope_of scope.now) words.now) (is_right_place parents.now objects.now) is_long (asked_aspect found)) }
{
    let place = one_asked(alloc, scope, words)?;
    Ok(place_judged(parents, objects, place))
}
