//! Which of several actions words try: the one of the longest name, its first part counting before its second.
ghost use Rattle.std.specs.Prelude.{◌≡◌, ◌≤◌, length, option_map, None, IfOk};
ghost use Rattle.i7_actions.specs.Trying.{is_longer};
ghost use Rattle.i7_actions.specs.TryingForms.{best_from, can_try, improves, is_better};
ghost use Rattle.i7_conditions.specs.Scopes.{scope_of};

use crate::action::Action;
use crate::nouns::nouns_said;
use crate::part::parts_of;
use i7_conditions::{Found, Scope};
use std::alloc::{AllocError, Global};
use world_meaning::TextBytes;

/// Whether an action's first part has more words than another's, or as many, and its second part more.
#[tactic(auto, unfolding(crate::specs::Trying::is_longer))]
fn is_longer(action: &Action, other: &Action) -> bool
    ensures { result ≡ is_longer action.now other.now }
{
    let (first, second) = parts_of(action.name.as_slice());
    let (other_first, other_second) = parts_of(other.name.as_slice());
    first.len() > other_first.len()
        || (first.len() == other_first.len() && second.len() > other_second.len())
}

/// Whether an action is longer than the best so far.
pub fn is_better(action: &Action, best: Option<(u8, &Action)>) -> bool
    ensures { result ≡ is_better action.now (option_map (λ b. (b.0, b.1.now)) best.entry) }
{
    match best {
        None => true,
        Some((_, best)) => is_longer(action, best),
    }
}

/// Whether words are a reading of an action.
fn can_try(
    alloc: Global,
    scope: &Scope<'_>,
    words: &[TextBytes],
    action: &Action,
) -> Result<bool, AllocError>
    requires few { length (scope_of scope.now).repeats ≤ 255 }
    ensures { IfOk result (λ can. can ≡ can_try (scope_of scope.now) words.now action.now) }
{
    match nouns_said(alloc, scope, action, words)? {
        Found::Read(_) | Found::TooMany => Ok(true),
        Found::Unread => Ok(false),
    }
}

/// Whether an action that words try is longer than the best so far.
fn improves(
    alloc: Global,
    scope: &Scope<'_>,
    words: &[TextBytes],
    action: &Action,
    best: Option<(u8, &Action)>,
) -> Result<bool, AllocError>
    requires few { length (scope_of scope.now).repeats ≤ 255 }
    ensures { IfOk result (λ better. better ≡ improves (can_try (scope_of scope.now) words.now) action.now (option_map (λ b. (b.0, b.1.now)) best.entry)) }
{
    if !is_better(action, best) {
        return Ok(false);
    }
    Ok(can_try(alloc, scope, words, action)?)
}

/// The action that words try, with its number.
pub fn best_of<'a>(
    alloc: Global,
    scope: &Scope<'_>,
    words: &[TextBytes],
    actions: &'a [Action],
) -> Result<Option<(u8, &'a Action)>, AllocError>
    requires few { length (scope_of scope.now).repeats ≤ 255 }
    requires countable { length actions.now ≤ 255 }
    ensures { IfOk result (λ best. option_map (λ b. (b.0, b.1.now)) best ≡ best_from (can_try (scope_of scope.now) words.now) 0 None actions.now) }
{
    let mut best = None;
    let mut number = 0u8;
    let mut rest = actions;
    while let [action, after @ ..] = rest {
        if improves(alloc, scope, words, action, best)? {
            best = Some((number, action));
        }
        number += 1;
        rest = after;
    }
    Ok(best)
}
