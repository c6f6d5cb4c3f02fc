//! What `try` says (*Writing with Inform*, chapter 12): `try putting the ball on the box`.
ghost use Rattle.std.specs.Prelude.{◌≡◌, ◌≤◌, List, length, IfOk};
ghost use Rattle.i7_actions.specs.NounForms.{found_nouns};
ghost use Rattle.i7_actions.specs.Trying.{Tries, Try, try_is_over};
ghost use Rattle.i7_actions.specs.TryingForms.{found_try, tried_said, try_of};
ghost use Rattle.i7_actions.specs.declared.action.Action.{Action as Row};
ghost use Rattle.i7_conditions.specs.Readings.{IsFoundAs, one};
ghost use Rattle.i7_conditions.specs.Scopes.{Scope as Names, scope_of};
ghost use Rattle.i7_conditions.specs.Words.{Word};

use crate::action::Action;
use crate::choice::best_of;
use crate::nouns::{Nouns, nouns_said};
use i7_conditions::{Found, Scope};
use play_meaning::ActNo;
use play_meaning::tree::Referent;
use std::alloc::{AllocError, Global};
use world_meaning::TextBytes;

/// What is tried. A noun that the action hasn't is nothing.
#[derive(Drop)]
pub struct Tried {
    pub action: ActNo,
    pub noun: Referent,
    pub second: Referent,
}

/// The action of this number with its nouns.
fn with_nouns(number: u8, nouns: Found<Nouns>) -> Found<Tried>
    ensures { found_try result ≡ one (try_of number) (found_nouns nouns) }
{
    match nouns {
        Found::Read(nouns) => Found::Read(Tried {
            action: ActNo::new(number),
            noun: nouns.noun,
            second: nouns.second,
        }),
        Found::TooMany => Found::TooMany,
        Found::Unread => Found::Unread,
    }
}

/// What words try, by going over the actions.
#[tactic(auto, unfolding(crate::specs::TryingForms::tried_said))]
fn tried_said(
    alloc: Global,
    scope: &Scope<'_>,
    actions: &[Action],
    words: &[TextBytes],
) -> Result<Found<Tried>, AllocError>
    requires few { length (scope_of scope.now).repeats ≤ 255 }
    requires countable { length actions.now ≤ 255 }
    ensures { IfOk result (λ found. found_try found ≡ tried_said actions.now (scope_of scope.now) words.now) }
{
    match best_of(alloc, scope, words, actions)? {
        None => Ok(Found::Unread),
        Some((number, action)) => {
            let nouns = nouns_said(alloc, scope, action, words)?;
            Ok(with_nouns(number, nouns))
        }
    }
}

/// What words try, actions being numbered by their places; one with a noun of too many `from`s is too many. Of several
/// actions the one with the longest name is meant, and of its readings the one with the shortest noun, as this profile
/// has it.
#[tactic(auto, using(crate::proofs::Trying::tries_found))]
pub fn tried_of(
    alloc: Global,
    scope: &Scope<'_>,
    actions: &[Action],
    words: &[TextBytes],
) -> Result<Found<Tried>, AllocError>
    requires few { length (scope_of scope.now).repeats ≤ 255 }
    requires countable { length actions.now ≤ 255 }
    ensures { IfOk result (λ found. IsFoundAs (Tries actions.now (scope_of scope.now) words.now) try_is_over (found_try found)) }
{
    tried_said(alloc, scope, actions, words)
}

/// Words try one action at most, with one noun and one second noun.
pub fn one_action_is_tried()
    ensures { (actions : List Row) (s : Names) (words : List Word) (t u : Try) → Tries actions s words t → Tries actions s words u → t ≡ u }
{}
