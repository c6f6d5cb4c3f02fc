//! The author's actions: what each asks for. Nothing is claimed of their names, which are apart.
ghost use Rattle.std.specs.Prelude.{◌≡◌, ℕ, IfOk, Option};
ghost use Rattle.i7_kinds.specs.Actions.{actions_said, with_actions};
ghost use Rattle.i7_kinds.specs.Tales.{HasLine, tale_in};

use crate::tale::TaleSaid;
use i7_sentences::{Assertion, Sentence};
use std::alloc::{AllocError, Global};
use world_meaning::{Fault, Listed, Needs};

/// What the actions ask for that the sentences declare, in their order.
#[tactic(auto, unfolding(crate::specs::Actions::actions_said))]
pub fn actions_said(alloc: Global, sentences: &[Sentence]) -> Result<Vec<Needs>, AllocError>
    ensures { IfOk result (λ actions. actions.items ≡ actions_said sentences.now) }
{
    let mut actions = Vec::new(alloc);
    let mut rest = sentences;
    while let [sentence, behind @ ..] = rest {
        if let Assertion::Action(declaration) = &sentence.said {
            actions.push(declaration.needs)?;
        }
        rest = behind;
    }
    Ok(actions)
}

/// The tale with these actions, unless it is refused.
pub fn with_actions(actions: Vec<Needs>, said: Result<TaleSaid, Fault>) -> Result<TaleSaid, Fault>
    ensures tale { tale_in result ≡ with_actions actions.items (tale_in said) }
    ensures line { (line : Option ℕ) → HasLine line said → HasLine line result }
{
    let mut said = said?;
    said.tale.declared.actions = Listed::new(actions);
    Ok(said)
}
