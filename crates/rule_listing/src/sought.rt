//! The words by which rules are sought: an action with its noun, and a room.
ghost use Rattle.std.specs.Prelude.{◌≤◌, length};
ghost use Rattle.i7_conditions.specs.Scopes.{scope_of};

use crate::admitted::{Sought, SoughtObject};
use crate::listing::told_of;
use i7_actions::{Action, action_named, standard_actions, tried_of};
use i7_conditions::{Found, Scope, object_of};
use i7_sentences::{Assertion, Sentence};
use play_meaning::ActNo;
use play_meaning::tree::Referent;
use source_outline::{Outline, Unlisted};
use std::alloc::{AllocError, Global};
use thiserror::Error;
use world_meaning::{KindNo, ObjNo, TextBytes, is_spelled};

/// The words of an action with its noun, and of a room; what isn't told is left open.
#[derive(Clone, Copy, Debug, Drop)]
pub struct Words<'a> {
    /// `taking the ball`, or `taking`, whatever its noun
    pub action: Option<&'a str>,
    /// `the Hall`
    pub room: Option<&'a str>,
}

/// Why no rules are sought.
#[derive(Debug, Drop, Error)]
pub enum Unsought {
    /// Nothing is told of the source.
    #[error("{0}")]
    Unlisted(Unlisted),
    #[error("no action of the source is so named")]
    NoAction,
    #[error("no room of the source is so named")]
    NoRoom,
}

impl From<Unlisted> for Unsought {
    fn from(unlisted: Unlisted) -> Unsought {
        Unsought::Unlisted(unlisted)
    }
}

impl From<AllocError> for Unsought {
    fn from(refused: AllocError) -> Unsought {
        Unsought::Unlisted(Unlisted::Memory(refused))
    }
}

/// The words that blanks part.
fn words_of(alloc: Global, text: &str) -> Result<Vec<TextBytes>, AllocError> {
    let mut words = Vec::new(alloc);
    for word in text.as_bytes().split(|byte| *byte == b' ') {
        if !word.is_empty() {
            words.push(TextBytes::copied(alloc, word)?)?;
        }
    }
    Ok(words)
}

/// Adds the action that a sentence declares, if it does.
fn add_action(
    alloc: Global,
    actions: &mut Vec<Action>,
    sentence: &Sentence,
) -> Result<(), AllocError> {
    if let Assertion::Action(declared) = &sentence.said {
        let action = action_named(alloc, declared.name.as_slice(), declared.needs)?;
        actions.push(action)?;
    }
    Ok(())
}

/// The actions of a source, by number.
fn actions_of(alloc: Global, sentences: &[Sentence]) -> Result<Vec<Action>, AllocError> {
    let mut actions = standard_actions(alloc)?;
    for sentence in sentences {
        add_action(alloc, &mut actions, sentence)?;
    }
    Ok(actions)
}

/// A noun that words tell by its name.
fn noun_told(noun: &Referent) -> Option<SoughtObject> {
    match noun {
        Referent::The(object) => Some(SoughtObject::The(*object)),
        Referent::Nothing => Some(SoughtObject::Nothing),
        _ => None,
    }
}

/// Whether the words are an action's name, or that without its `it` and what stands behind.
fn is_name(action: &Action, words: &[TextBytes]) -> bool {
    let mut left = words;
    for word in action.name.as_slice() {
        match left {
            [] => return is_spelled(word.as_slice(), b"it"),
            [first, after @ ..] => {
                if !is_spelled(first.as_slice(), word.as_slice()) {
                    return false;
                }
                left = after;
            }
        }
    }
    left.is_empty()
}

/// The action whose name alone the words are, whatever its noun.
fn named_alone(actions: &[Action], words: &[TextBytes]) -> Option<ActNo> {
    let place = actions.iter().position(|action| is_name(action, words))?;
    Some(ActNo::new(u8::try_from(place).ok()?))
}

/// What is sought for an action that is told with its noun.
fn sought_with(action: ActNo, noun: &Referent) -> Option<Sought> {
    Some(Sought {
        action: Some(action),
        noun: noun_told(noun)?,
        room: SoughtObject::Any,
    })
}

/// What is sought for an action that is told alone.
fn sought_alone(actions: &[Action], words: &[TextBytes]) -> Option<Sought> {
    Some(Sought {
        action: Some(named_alone(actions, words)?),
        noun: SoughtObject::Any,
        room: SoughtObject::Any,
    })
}

/// What the words of an action try, if these are as few as a source has.
fn tried_by(
    alloc: Global,
    scope: &Scope<'_>,
    actions: &[Action],
    words: &[TextBytes],
) -> Result<Option<Sought>, AllocError>
    requires few { length (scope_of scope.now).repeats ≤ 255 }
{
    if actions.len() > 255 {
        return Ok(None);
    }
    match tried_of(alloc, scope, actions, words)? {
        Found::Read(tried) => Ok(sought_with(tried.action, &tried.noun)),
        _ => Ok(sought_alone(actions, words)),
    }
}

/// What is sought for the words of an action.
fn sought_for(alloc: Global, outline: &Outline, text: &str) -> Result<Sought, Unsought> {
    let words = words_of(alloc, text)?;
    let actions = match actions_of(alloc, outline.sentences.as_slice()) {
        Ok(actions) => actions,
        Err(refused) => {
            drop(words);
            return Err(Unsought::from(refused));
        }
    };
    let scope = Scope {
        names: &outline.meant.names.names,
        repeats: &[],
    };
    match tried_by(alloc, &scope, actions.as_slice(), words.as_slice()) {
        Ok(Some(sought)) => Ok(sought),
        Ok(None) => Err(Unsought::NoAction),
        Err(refused) => Err(Unsought::from(refused)),
    }
}

/// The object that is told by its name.
fn named(found: &Found<Referent>) -> Option<ObjNo> {
    let Found::Read(referent) = found else {
        return None;
    };
    match referent {
        Referent::The(object) => Some(*object),
        _ => None,
    }
}

/// The object that words name.
fn object_in(
    alloc: Global,
    scope: &Scope<'_>,
    words: &[TextBytes],
) -> Result<Option<ObjNo>, AllocError>
    requires few { length (scope_of scope.now).repeats ≤ 255 }
{
    let found = object_of(alloc, scope, words)?;
    Ok(named(&found))
}

/// The room that words name.
fn room_named(alloc: Global, outline: &Outline, text: &str) -> Result<ObjNo, Unsought> {
    let words = words_of(alloc, text)?;
    let scope = Scope {
        names: &outline.meant.names.names,
        repeats: &[],
    };
    match object_in(alloc, &scope, words.as_slice()) {
        Ok(Some(object)) if outline.story.is_of(object, KindNo::ROOM) => Ok(object),
        Ok(_) => Err(Unsought::NoRoom),
        Err(refused) => Err(Unsought::from(refused)),
    }
}

/// What these words seek.
fn sought_of(alloc: Global, outline: &Outline, words: &Words<'_>) -> Result<Sought, Unsought> {
    let mut sought = match words.action {
        None => Sought::ALL,
        Some(text) => sought_for(alloc, outline, text)?,
    };
    if let Some(text) = words.room {
        sought.room = SoughtObject::The(room_named(alloc, outline, text)?);
    }
    Ok(sought)
}

/// The rulebooks of the source of an outline, of the rules that are sought.
fn told_for(alloc: Global, outline: &Outline, sought: &Sought) -> Result<String, Unsought> {
    match told_of(alloc, outline, sought) {
        Ok(told) => Ok(told),
        Err(refused) => Err(Unsought::from(refused)),
    }
}

/// The rulebooks of the source of an outline, of the rules that words seek.
pub fn told_about(alloc: Global, outline: &Outline, words: &Words<'_>) -> Result<String, Unsought> {
    match sought_of(alloc, outline, words) {
        Ok(sought) => told_for(alloc, outline, &sought),
        Err(unsought) => Err(unsought),
    }
}
