//! What the sentences of a source state, objects by their numbers.
ghost use Rattle.std.specs.Prelude.{◌≡◌, IfOk, map};
ghost use Rattle.i7_claims.specs.Statements.{numbered_holding, numbered_in, numbered_subject, side_in, statement_in};
ghost use Rattle.i7_claims.specs.Views.{names_of};

use crate::names::Names;
use i7_sentences::{Assertion, Name, Sentence, Side};
use std::alloc::{AllocError, Global};
use world_meaning::{Direction, Rel, TextBytes};

/// An assertion, objects by their numbers.
#[derive(Drop)]
pub enum Numbered {
    /// Nothing of ways and texts: a title, a heading, what is declared.
    Aside,
    /// A text as it is written.
    Description(TextBytes),
    /// An object, and the text that describes it, as it is written.
    Describes { object: usize, text: TextBytes },
    /// What an object is.
    Being(usize),
    Way(NumberedWay),
    Door(NumberedDoor),
}

/// The subject lies in this direction of the room.
#[derive(Clone, Copy)]
pub struct NumberedWay {
    pub subject: usize,
    pub direction: Direction,
    pub room: usize,
}

/// A direction out of a room.
#[derive(Clone, Copy)]
pub struct NumberedSide {
    pub direction: Direction,
    pub room: usize,
}

/// The door is in the one direction of the one room, and in the other of the other.
#[derive(Clone, Copy)]
pub struct NumberedDoor {
    pub door: usize,
    pub first: NumberedSide,
    pub second: NumberedSide,
}

/// What a sentence asserts, objects by their numbers, and its line.
#[derive(Drop)]
pub struct NumberedSentence {
    pub said: Numbered,
    pub line: u32,
}

/// The one object of these names, if there is one alone.
fn numbered_subject(
    alloc: Global,
    names: &Names<'_>,
    subjects: &[Name],
) -> Result<Numbered, AllocError>
    ensures { IfOk result (λ numbered. numbered ≡ numbered_subject (names_of names.now) subjects.now) }
{
    match subjects {
        [name] => Ok(Numbered::Being(names.number_of(alloc, name)?)),
        _ => Ok(Numbered::Aside),
    }
}

/// Who carries or wears is what the sentence is about, and else what is held.
fn numbered_holding(
    alloc: Global,
    names: &Names<'_>,
    relation: Rel,
    holder: &Name,
    things: &[Name],
) -> Result<Numbered, AllocError>
    ensures { IfOk result (λ numbered. numbered ≡ numbered_holding (names_of names.now) relation holder.now things.now) }
{
    match relation {
        Rel::In | Rel::On | Rel::Part => numbered_subject(alloc, names, things),
        Rel::Carried | Rel::Worn => Ok(Numbered::Being(names.number_of(alloc, holder)?)),
    }
}

fn side_in(alloc: Global, names: &Names<'_>, side: &Side) -> Result<NumberedSide, AllocError>
    ensures { IfOk result (λ numbered. numbered ≡ side_in (names_of names.now) side.now) }
{
    Ok(NumberedSide {
        direction: side.direction,
        room: names.number_of(alloc, &side.room)?,
    })
}

fn numbered_in(alloc: Global, names: &Names<'_>, said: &Assertion) -> Result<Numbered, AllocError>
    ensures { IfOk result (λ numbered. numbered ≡ numbered_in (names_of names.now) said.now) }
{
    match said {
        Assertion::Description(text) => Ok(Numbered::Description(TextBytes::copied(
            alloc,
            text.as_slice(),
        )?)),
        Assertion::DescriptionOf { object, text } => Ok(Numbered::Describes {
            object: names.number_of(alloc, object)?,
            text: TextBytes::copied(alloc, text.as_slice())?,
        }),
        Assertion::Are(being) => numbered_subject(alloc, names, being.subjects.as_slice()),
        Assertion::Holds {
            holder,
            relation,
            things,
        } => numbered_holding(alloc, names, *relation, holder, things.as_slice()),
        Assertion::Way(way) => Ok(Numbered::Way(NumberedWay {
            subject: names.number_of(alloc, &way.subject)?,
            direction: way.direction,
            room: names.number_of(alloc, &way.room)?,
        })),
        Assertion::Door {
            door,
            first,
            second,
        } => Ok(Numbered::Door(NumberedDoor {
            door: names.number_of(alloc, door)?,
            first: side_in(alloc, names, first)?,
            second: side_in(alloc, names, second)?,
        })),
        _ => Ok(Numbered::Aside),
    }
}

fn statement_in(
    alloc: Global,
    names: &Names<'_>,
    sentence: &Sentence,
) -> Result<NumberedSentence, AllocError>
    ensures { IfOk result (λ statement. statement ≡ statement_in (names_of names.now) sentence.now) }
{
    Ok(NumberedSentence {
        said: numbered_in(alloc, names, &sentence.said)?,
        line: sentence.line,
    })
}

/// What each sentence states.
pub fn statements_in(
    alloc: Global,
    names: &Names<'_>,
    sentences: &[Sentence],
) -> Result<Vec<NumberedSentence>, AllocError>
    ensures { IfOk result (λ statements. statements.items ≡ map (statement_in (names_of names.now)) sentences.now) }
{
    let mut statements = Vec::with_capacity(alloc, sentences.len())?;
    let mut rest = sentences;
    while let [sentence, after @ ..] = rest {
        statements.push(statement_in(alloc, names, sentence)?)?;
        rest = after;
    }
    Ok(statements)
}
