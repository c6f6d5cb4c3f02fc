//! Sentences that declare an action (*Writing with Inform*, 12.7): `Weighing it with is an action applying to one carried thing and
//! one thing.`
ghost use Rattle.std.specs.Prelude.{◌≡◌, map, IfOk};
ghost use Rattle.i7_sentences.specs.ActionDeclarations.{action, action_on_two, asked_of, declared, is_in_light, is_out_of_world};

use crate::action_form::ActionSort;
use crate::tagged::Tagged;
use crate::word_list::named_in;
use crate::{Assertion, Keyword, WordList};
use std::alloc::{AllocError, Global};
use world_meaning::{Needs, Slot};

/// What a sentence says that declares an action.
#[derive(Drop)]
pub struct ActionDeclaration {
    /// The words between the free article and `is`.
    pub name: WordList,
    /// What it asks for: one noun or two, each of which is touched, or a `visible thing` or a `carried thing`.
    pub needs: Needs,
}

/// What is asked of a noun by these words.
fn asked_of(words: &[Tagged<'_>]) -> Slot
    ensures { result ≡ asked_of words.now }
{
    match words {
        [] => Slot::Touched,
        [first, ..] => {
            if first.is_sign(Keyword::Visible) {
                Slot::Visible
            } else if first.is_sign(Keyword::Carried) {
                Slot::Carried
            } else {
                Slot::Touched
            }
        }
    }
}

fn is_in_light(sort: ActionSort) -> bool
    ensures { result ≡ is_in_light sort }
{
    match sort {
        ActionSort::InLight => true,
        ActionSort::InWorld | ActionSort::OutOfWorld => false,
    }
}

fn is_out_of_world(sort: ActionSort) -> bool
    ensures { result ≡ is_out_of_world sort }
{
    match sort {
        ActionSort::OutOfWorld => true,
        ActionSort::InWorld | ActionSort::InLight => false,
    }
}

/// An action of this name that asks for these nouns.
fn declared(
    alloc: Global,
    name: &[Tagged<'_>],
    noun: Slot,
    second: Slot,
    sort: ActionSort,
) -> Result<Option<Assertion>, AllocError>
    ensures { IfOk result (λ said. said ≡ declared name.now noun second sort) }
{
    Ok(Some(Assertion::Action(ActionDeclaration {
        name: named_in(alloc, name)?,
        needs: Needs {
            noun,
            second,
            light: is_in_light(sort),
            out_of_world: is_out_of_world(sort),
        },
    })))
}

/// An action by its name and what it asks of its nouns, as many as are told.
pub(crate) fn action(
    alloc: Global,
    sort: ActionSort,
    letters: &[&[Tagged<'_>]],
) -> Result<Option<Assertion>, AllocError>
    ensures { IfOk result (λ said. said ≡ action sort (map (λ letter. letter.now) letters.now)) }
{
    match letters {
        [name] => Ok(declared(alloc, name, Slot::Absent, Slot::Absent, sort)?),
        [name, noun] => Ok(declared(alloc, name, asked_of(noun), Slot::Absent, sort)?),
        [name, noun, second] => Ok(declared(alloc, name, asked_of(noun), asked_of(second), sort)?),
        _ => Ok(None),
    }
}

/// An action that applies to two things.
pub(crate) fn action_on_two(
    alloc: Global,
    sort: ActionSort,
    letters: &[&[Tagged<'_>]],
) -> Result<Option<Assertion>, AllocError>
    ensures { IfOk result (λ said. said ≡ action_on_two sort (map (λ letter. letter.now) letters.now)) }
{
    match letters {
        [name] => Ok(declared(alloc, name, Slot::Touched, Slot::Touched, sort)?),
        _ => Ok(None),
    }
}
