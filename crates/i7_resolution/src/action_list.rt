//! The sentences of a source that declare an action.
ghost use Rattle.std.specs.Prelude.{◌≡◌, IfOk};
ghost use Rattle.i7_sentences.specs.ActionDeclarations.{actions_declared};
ghost use Rattle.i7_resolution.specs.SourceActions.{action_lent, action_of, actions_lent};

use i7_actions::{Action, action_named};
use i7_sentences::{ActionDeclaration, Assertion, Sentence};
use std::alloc::{AllocError, Global};

/// What a sentence says that declares an action, and its line.
#[derive(Clone, Copy)]
pub struct ActionAt<'a> {
    pub line: u32,
    pub said: &'a ActionDeclaration,
}

impl<'a> ActionAt<'a> {
    /// The action.
    pub fn action(&self, alloc: Global) -> Result<Action, AllocError>
        ensures { IfOk result (λ action. action ≡ action_of (action_lent self.now)) }
    {
        Ok(action_named(alloc, self.said.name.as_slice(), self.said.needs)?)
    }
}

/// What the sentences say that declare actions, in order.
pub fn actions_declared<'a>(
    alloc: Global,
    sentences: &'a [Sentence],
) -> Result<Vec<ActionAt<'a>>, AllocError>
    ensures { IfOk result (λ actions. actions_lent actions.items ≡ actions_declared sentences.now) }
{
    let mut actions = Vec::new(alloc);
    let mut rest = sentences;
    while let [sentence, behind @ ..] = rest {
        if let Assertion::Action(said) = &sentence.said {
            let line = sentence.line;
            actions.push(ActionAt { line, said })?;
        }
        rest = behind;
    }
    Ok(actions)
}
