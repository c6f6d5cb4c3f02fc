//! Rulebooks of the author's that are named as rules of actions are: `The check taking rules is a rulebook.`
ghost use Rattle.std.specs.Prelude.{◌≡◌, ◌++◌, IfOk, OnOk};
ghost use Rattle.i7_conditions.specs.Words.{key_of};
ghost use Rattle.i7_sentences.specs.Lowest.{lowest};
ghost use Rattle.i7_resolution.specs.BookNames.{action_books, book_line, book_twice, books_of_stage, is_action_book};

use i7_actions::Action;
use i7_conditions::key_of;
use i7_sentences::{Assertion, Sentence, lower_of};
use std::alloc::{AllocError, Global};
use world_meaning::{TextBytes, lowered};

/// A rulebook's name: these words, and behind them the action's name.
fn book_of_action(alloc: Global, stage: &[u8], action: &Action) -> Result<TextBytes, AllocError>
    ensures { IfOk result (λ name. name ≡ stage.now ++ key_of action.now.name) }
{
    let mut name = Vec::from_slice(alloc, stage)?;
    let key = key_of(alloc, action.name.as_slice())?;
    name.extend_from_slice(key.as_slice())?;
    Ok(TextBytes::new(name))
}

/// Adds the names by which the rules of actions in one stage are followed.
fn add_books(
    alloc: Global,
    names: &mut Vec<TextBytes>,
    stage: &[u8],
    actions: &[Action],
) -> Result<(), AllocError>
    ensures { OnOk result (names.new.items ≡ names.old.items ++ books_of_stage stage.now actions.now) }
{
    let mut rest = actions;
    while let [action, behind @ ..] = rest {
        names.push(book_of_action(alloc, stage, action)?)?;
        rest = behind;
    }
    Ok(())
}

/// The names by which rules of actions are followed.
fn action_books(alloc: Global, actions: &[Action]) -> Result<Vec<TextBytes>, AllocError>
    ensures { IfOk result (λ names. names.items ≡ action_books actions.now) }
{
    let mut names = Vec::new(alloc);
    add_books(alloc, &mut names, b"check ", actions)?;
    add_books(alloc, &mut names, b"carry out ", actions)?;
    add_books(alloc, &mut names, b"report ", actions)?;
    Ok(names)
}

/// Whether a name is one of these.
fn is_action_book(names: &[TextBytes], name: &[u8]) -> bool
    ensures { result ≡ is_action_book names.now name.now }
{
    names.iter().any(|other| other.as_slice() == name)
}

/// The line of a sentence that names a rulebook as one of these.
fn book_line(
    alloc: Global,
    names: &[TextBytes],
    sentence: &Sentence,
) -> Result<Option<u32>, AllocError>
    ensures { IfOk result (λ line. line ≡ book_line names.now sentence.now) }
{
    match &sentence.said {
        Assertion::Rulebook(name) => {
            let name = lowered(alloc, name.text.as_slice())?;
            Ok(if is_action_book(names, name.as_slice()) {
                Some(sentence.line)
            } else {
                None
            })
        }
        _ => Ok(None),
    }
}

/// The lowest line of a sentence that names a rulebook as rules of an action are named.
#[tactic(auto, using(i7_sentences::proofs::Lowest::lower_steps))]
pub fn book_twice(
    alloc: Global,
    actions: &[Action],
    sentences: &[Sentence],
) -> Result<Option<u32>, AllocError>
    ensures { IfOk result (λ line. line ≡ book_twice actions.now sentences.now) }
{
    let names = action_books(alloc, actions)?;
    let mut low = None;
    let mut rest = sentences;
    while let [sentence, behind @ ..] = rest {
        low = lower_of(low, book_line(alloc, names.as_slice(), sentence)?);
        rest = behind;
    }
    Ok(low)
}
