//! Which of several actions words are about: the one of the longest name that reads them.
ghost use Rattle.std.specs.Prelude.{◌≡◌, ◌≤◌, length, option_map, None, IfOk};
ghost use Rattle.i7_actions.specs.TryingForms.{best_from, improves};
ghost use Rattle.i7_conditions.specs.Scopes.{scope_of};
ghost use Rattle.i7_patterns.specs.PatternForms.{can_ask};

use crate::aspects::aspects_asked;
use i7_actions::{Action, is_better};
use i7_conditions::Scope;
use std::alloc::{AllocError, Global};
use world_meaning::TextBytes;

/// Whether an action that reads the words is longer than the best so far.
fn improves(
    alloc: Global,
    scope: &Scope<'_>,
    words: &[TextBytes],
    action: &Action,
    best: Option<(u8, &Action)>,
) -> Result<bool, AllocError>
    requires few { length (scope_of scope.now).repeats ≤ 255 }
    ensures { IfOk result (λ better. better ≡ improves (can_ask (scope_of scope.now) words.now) action.now (option_map (λ b. (b.0, b.1.now)) best.entry)) }
{
    if !is_better(action, best) {
        return Ok(false);
    }
    let aspects = aspects_asked(alloc, scope, action, words)?;
    Ok(aspects.is_some())
}

/// The action that words are about, with its number.
pub fn best_of<'a>(
    alloc: Global,
    scope: &Scope<'_>,
    words: &[TextBytes],
    actions: &'a [Action],
) -> Result<Option<(u8, &'a Action)>, AllocError>
    requires few { length (scope_of scope.now).repeats ≤ 255 }
    requires countable { length actions.now ≤ 255 }
    ensures { IfOk result (λ best. option_map (λ b. (b.0, b.1.now)) best ≡ best_from (can_ask (scope_of scope.now) words.now) 0 None actions.now) }
{
    let mut best = None;
    let mut number = 0u8;
    let mut rest = actions;
    while let [action, after @ ..] = rest {
        if improves(alloc, scope, words, action, best)? {
            best = Some((number, action));
        }
        number += 1;
        rest = after;
    }
    Ok(best)
}
