//! What a standard rule answers: changes to be made, a text to be said, an action to be tried, and how the rule ends.
ghost use Rattle.std.specs.Prelude.{◌≡◌, [], IfOk, None};
ghost use Rattle.play_meaning.specs.Effects.{changing, refusing, saying, silence, trying};
ghost use Rattle.standard_rules.specs.Answers.{answer_of, making, out_of_range, putting, refused_if, said_if};

use play_meaning::{ActionNow, Change};
use smallvec::SmallVec;
use std::alloc::{AllocError, Global};
use world_meaning::{ObjNo, Rel, TextBytes};

/// How a rule ends: by itself, with a decision, or because a number is out of range.
#[derive(Clone, Copy, Debug, PartialEq, Eq)]
pub enum HostOutcome {
    ByEnd,
    Success,
    Failure,
    OutOfRange,
}

/// What is to be done for a rule: its changes are made in order, one that isn't allowed doing nothing, then its text is said, and
/// then the action is tried.
#[derive(Drop)]
pub struct HostAnswer {
    pub changes: SmallVec<Change, 2>,
    pub text: TextBytes,
    pub tries: Option<ActionNow>,
    pub outcome: HostOutcome,
}

/// An answer that changes and tries nothing.
fn told(alloc: Global, text: Vec<u8>, outcome: HostOutcome) -> HostAnswer
    ensures changes { result.changes.items ≡ [] }
    ensures text { result.text ≡ text.items }
    ensures tries { result.tries ≡ None }
    ensures outcome { result.outcome ≡ outcome }
{
    HostAnswer {
        changes: SmallVec::new(alloc),
        text: TextBytes::new(text),
        tries: None,
        outcome,
    }
}

/// The answer of a rule that has nothing to say or do.
pub fn silence(alloc: Global) -> HostAnswer
    ensures { answer_of result ≡ silence }
{
    told(alloc, Vec::new(alloc), HostOutcome::ByEnd)
}

/// The answer that says a text.
pub fn saying(alloc: Global, text: Vec<u8>) -> HostAnswer
    ensures { answer_of result ≡ saying text.items }
{
    told(alloc, text, HostOutcome::ByEnd)
}

/// The answer that says a text instead of the action.
pub fn refusing(alloc: Global, text: Vec<u8>) -> HostAnswer
    ensures { answer_of result ≡ refusing text.items }
{
    told(alloc, text, HostOutcome::Failure)
}

/// The answer of a rule that meets a number out of range.
pub fn out_of_range(alloc: Global) -> HostAnswer
    ensures { answer_of result ≡ out_of_range }
{
    told(alloc, Vec::new(alloc), HostOutcome::OutOfRange)
}

/// The answer that makes a change.
pub fn changing(alloc: Global, change: Change) -> HostAnswer
    ensures { answer_of result ≡ changing change }
{
    let mut changes = SmallVec::new(alloc);
    changes.push_reserved(change);
    HostAnswer {
        changes,
        text: TextBytes::new(Vec::new(alloc)),
        tries: None,
        outcome: HostOutcome::ByEnd,
    }
}

/// The answer that tries an action.
pub fn trying(alloc: Global, now: ActionNow) -> HostAnswer
    ensures { answer_of result ≡ trying now }
{
    HostAnswer {
        changes: SmallVec::new(alloc),
        text: TextBytes::new(Vec::new(alloc)),
        tries: Some(now),
        outcome: HostOutcome::ByEnd,
    }
}

/// The answer that says a text.
pub fn said(alloc: Global, text: &[u8]) -> Result<HostAnswer, AllocError>
    ensures { IfOk result (λ answer. answer_of answer ≡ saying text.now) }
{
    Ok(saying(alloc, Vec::from_slice(alloc, text)?))
}

/// The answer that says a text instead of the action, where this is so.
pub fn refused_if(alloc: Global, is: bool, text: &[u8]) -> Result<HostAnswer, AllocError>
    ensures { IfOk result (λ answer. answer_of answer ≡ refused_if is text.now) }
{
    if is {
        Ok(refusing(alloc, Vec::from_slice(alloc, text)?))
    } else {
        Ok(silence(alloc))
    }
}

/// The answer that puts an object somewhere; nothing is put, and nothing is put nowhere.
pub fn putting(
    alloc: Global,
    object: Option<ObjNo>,
    relation: Rel,
    holder: Option<ObjNo>,
) -> HostAnswer
    ensures { answer_of result ≡ putting object relation holder }
{
    let Some(object) = object else {
        return silence(alloc);
    };
    match holder {
        None => silence(alloc),
        Some(holder) => changing(
            alloc,
            Change::Put {
                object,
                relation,
                holder,
            },
        ),
    }
}

/// The answer that makes an either-or property true of an object or not.
pub fn making(alloc: Global, object: Option<ObjNo>, property: u8, value: bool) -> HostAnswer
    ensures { answer_of result ≡ making object property value }
{
    match object {
        None => silence(alloc),
        Some(object) => changing(
            alloc,
            Change::SetFlag {
                object,
                property,
                value,
            },
        ),
    }
}

/// The answer that says a text, where this is so.
pub fn said_if(alloc: Global, is: bool, text: Vec<u8>) -> HostAnswer
    ensures { answer_of result ≡ said_if is text.items }
{
    if is {
        saying(alloc, text)
    } else {
        silence(alloc)
    }
}
