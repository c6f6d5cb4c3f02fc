//! What the words behind `as` mean: an action by its name, or else an object.
ghost use Rattle.std.specs.Prelude.{◌≡◌, ◌≤◌, ◌+◌, length, IfOk};
ghost use Rattle.i7_conditions.specs.NamesOf.{meanings_of};
ghost use Rattle.i7_grammar.specs.Targets.{action_from, object_by, object_meant, object_of, player_by, target_of};
ghost use Rattle.i7_grammar.specs.Knowns.{known_of};

use crate::known::Known;
use i7_actions::{Action, NounCount, is_name};
use i7_conditions::{Meaning, Names, key_of, without_article};
use std::alloc::{AllocError, Global};
use world_meaning::{TextBytes, is_spelled};

/// What words mean.
#[derive(Clone, Copy)]
pub enum Target {
    /// An action by its number, and how many nouns it has.
    Action(u8, NounCount),
    /// An object by its number.
    Object(u16),
}

/// The first of the actions that has this name.
fn action_named(actions: &[Action], words: &[TextBytes]) -> Option<Target>
    requires few { length actions.now ≤ 255 }
    ensures { result ≡ action_from 0 actions.now words.now }
{
    let mut number = 0u8;
    let mut rest = actions;
    while let [action, behind @ ..] = rest {
        if is_name(action.name.as_slice(), words) {
            return Some(Target::Action(number, action.nouns));
        }
        number += 1;
        rest = behind;
    }
    None
}

/// The object that a name stands for.
fn object_meant(meaning: &Option<Meaning>) -> Option<u16>
    ensures { result ≡ object_meant meaning.now }
{
    match meaning {
        Some(Meaning::Object(object)) => Some(object.get()),
        _ => None,
    }
}

/// The player, by the word for him.
fn player_by(key: &[u8]) -> Option<u16>
    ensures { result ≡ player_by key.now }
{
    if is_spelled(key, b"player") {
        Some(0)
    } else {
        None
    }
}

/// The object of a name in small letters.
fn object_by(names: &Names, key: &[u8]) -> Option<u16>
    ensures { result ≡ object_by (meanings_of names.now) key.now }
{
    match object_meant(&names.meaning(key)) {
        Some(object) => Some(object),
        None => player_by(key),
    }
}

/// One of so many objects.
fn object_there(count: usize, object: Option<u16>) -> Option<Target>
    ensures { result ≡ object_of count object }
{
    match object {
        None => None,
        Some(object) => {
            if usize::from(object) < count {
                Some(Target::Object(object))
            } else {
                None
            }
        }
    }
}

/// What words mean, if they mean anything: an action without an article, or an object, in front of whose name one is free.
#[tactic(auto, unfolding(crate::specs::Targets::target_of))]
pub fn target_of(
    alloc: Global,
    known: &Known<'_>,
    words: &[TextBytes],
) -> Result<Option<Target>, AllocError>
    ensures { IfOk result (λ target. target ≡ target_of (known_of known.now) words.now) }
{
    match action_named(known.actions, words) {
        Some(target) => Ok(Some(target)),
        None => {
            let key = key_of(alloc, without_article(words))?;
            let object = object_by(known.names, key.as_slice());
            Ok(object_there(known.objects.len(), object))
        }
    }
}
