//! What phrases do that name no action, no rulebook and no text.
ghost use Rattle.std.specs.Prelude.{◌≡◌, ◌≤◌, length, option_map, IfOk};
ghost use Rattle.i7_conditions.specs.Scopes.{Scope as Names, scope_of};
ghost use Rattle.i7_phrases.specs.ChangeForms.{found_simple};
ghost use Rattle.i7_phrases.specs.Limits.{phrase_is_over};
ghost use Rattle.i7_phrases.specs.PhraseForms.{change_said};
ghost use Rattle.i7_phrases.specs.Phrases.{Changes, closing, ending_of, is_change};
ghost use Rattle.i7_phrases.specs.Told.{IsToldOf};
ghost use Rattle.i7_sentences.specs.declared.spoken.Spoken.{Spoken as Phrase};
ghost use Rattle.i7_sentences.specs.declared.spoken.Spoken.TheVariants as spoken;
ghost use Rattle.play_meaning.specs.Meant.{simple_meant};
ghost use Rattle.play_meaning.specs.Trees as tree;

use crate::adding::adds_said;
use crate::moving::{moves_said, now_said};
use i7_conditions::{Found, Scope};
use i7_sentences::Spoken;
use play_meaning::tree::{Operator, Simple};
use play_meaning::{Flow, Outcome};
use std::alloc::{AllocError, Global};
use world_meaning::TextBytes;

/// What a phrase does that changes the world, by its words.
fn change_said(
    alloc: Global,
    scope: &Scope<'_>,
    said: &Spoken,
) -> Result<Option<Found<Simple>>, AllocError>
    requires few { length (scope_of scope.now).repeats ≤ 255 }
    ensures { IfOk result (λ found. option_map found_simple found ≡ change_said (scope_of scope.now) said.now) }
{
    let found = match said {
        Spoken::Now(words) => now_said(alloc, scope, words.as_slice())?,
        Spoken::Move(words) => moves_said(alloc, scope, words.as_slice())?,
        Spoken::Increase { value, amount } => adds_said(
            alloc,
            scope,
            Operator::Plus,
            value.as_slice(),
            amount.as_slice(),
        )?,
        Spoken::Decrease { value, amount } => adds_said(
            alloc,
            scope,
            Operator::Minus,
            value.as_slice(),
            amount.as_slice(),
        )?,
        _ => return Ok(None),
    };
    Ok(Some(found))
}

/// What a phrase does that changes the world: `now`, `move`, `increase`, `decrease`; none of another. A change with an object
/// or a description beyond the limits is too many.
pub fn change_of(
    alloc: Global,
    scope: &Scope<'_>,
    said: &Spoken,
) -> Result<Option<Found<Simple>>, AllocError>
    requires few { length (scope_of scope.now).repeats ≤ 255 }
    ensures { IfOk result (λ change. IsToldOf (is_change said.now) (Changes (scope_of scope.now) said.now) phrase_is_over (option_map found_simple change)) }
{
    change_said(alloc, scope, said)
}

/// A phrase changes the world in one way at most.
pub fn one_change_is_made()
    ensures { (s : Names) (said : Phrase) (p q : tree.Phrase) → Changes s said p → Changes s said q → p ≡ q }
{}

/// What is printed at the end of a story, in place of `The End` if the phrase says it.
fn closing(alloc: Global, text: Option<&TextBytes>) -> Result<TextBytes, AllocError>
    ensures { IfOk result (λ bytes. bytes ≡ closing (option_map (λ text. text.now) text.entry)) }
{
    match text {
        None => Ok(TextBytes::new(Vec::from_slice(alloc, b"The End")?)),
        Some(text) => Ok(TextBytes::new(Vec::from_slice(alloc, text.as_slice())?)),
    }
}

/// The end of the story that a phrase is.
fn story_end(alloc: Global, text: Option<&TextBytes>) -> Result<Option<Simple>, AllocError>
    ensures { IfOk result (λ phrase. option_map simple_meant phrase ≡ ending_of (spoken.EndStory (option_map (λ text. text.now) text.entry))) }
{
    Ok(Some(Simple::EndStory(closing(alloc, text)?)))
}

/// What a phrase does that ends a rule or the story, none of another: `rule succeeds`, `rule fails`, `make no decision`,
/// `continue the action`, `stop the action`, `end the story`.
pub fn ending_of(alloc: Global, said: &Spoken) -> Result<Option<Simple>, AllocError>
    ensures { IfOk result (λ phrase. option_map simple_meant phrase ≡ ending_of said.now) }
{
    match said {
        Spoken::RuleSucceeds => Ok(Some(Simple::Leave(Flow::Decides(Outcome::Success)))),
        Spoken::RuleFails | Spoken::StopAction => {
            Ok(Some(Simple::Leave(Flow::Decides(Outcome::Failure))))
        }
        Spoken::MakeNoDecision | Spoken::ContinueAction => {
            Ok(Some(Simple::Leave(Flow::NoDecision)))
        }
        Spoken::EndStory(text) => story_end(alloc, text.as_ref()),
        _ => Ok(None),
    }
}
