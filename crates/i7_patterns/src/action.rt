//! The pattern of an action: `taking an open container in the Hall`.
ghost use Rattle.std.specs.Prelude.{◌≡◌, ◌≤◌, length, option_map, Some, IfOk};
ghost use Rattle.i7_conditions.specs.Scopes.{scope_of};
ghost use Rattle.i7_patterns.specs.ActionForms.{aspects_meant};
ghost use Rattle.i7_patterns.specs.PatternForms.{action_asked};
ghost use Rattle.play_meaning.specs.Patterns.{pattern_meant};
ghost use Rattle.i7_patterns.specs.Patterns.{pattern_of};

use crate::aspects::{Aspects, aspects_asked};
use crate::choice::best_of;
use i7_actions::Action;
use i7_conditions::Scope;
use play_meaning::ActNo;
use play_meaning::tree::Pattern;
use std::alloc::{AllocError, Global};
use world_meaning::TextBytes;

/// The pattern of the action of this number.
fn of_action(number: u8, aspects: Option<Aspects>) -> Option<Pattern>
    ensures { option_map pattern_meant result ≡ option_map (pattern_of (Some number)) (option_map aspects_meant aspects) }
{
    match aspects {
        None => None,
        Some(aspects) => Some(Pattern {
            action: Some(ActNo::new(number)),
            noun: aspects.nouns.noun,
            second: aspects.nouns.second,
            place: aspects.place,
            scene: None,
        }),
    }
}

/// The pattern of the action that words are about.
pub fn action_asked(
    alloc: Global,
    scope: &Scope<'_>,
    actions: &[Action],
    words: &[TextBytes],
) -> Result<Option<Pattern>, AllocError>
    requires few { length (scope_of scope.now).repeats ≤ 255 }
    requires countable { length actions.now ≤ 255 }
    ensures { IfOk result (λ pattern. option_map pattern_meant pattern ≡ action_asked actions.now (scope_of scope.now) words.now) }
{
    match best_of(alloc, scope, words, actions)? {
        None => Ok(None),
        Some((number, action)) => {
            let aspects = aspects_asked(alloc, scope, action, words)?;
            Ok(of_action(number, aspects))
        }
    }
}
