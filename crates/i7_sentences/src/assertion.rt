//! What a form says with its letters.
ghost use Rattle.std.specs.Prelude.{◌≡◌, map, IfOk};
ghost use Rattle.i7_sentences.specs.Assertions.{are, assertion_of, being, described_object, description, description_of, door_between, door_to, held, holder_by, holds, number_of, side_of, variable_is, way_assertion, way_from, way_to, what_held};

use crate::action_declaration::{action, action_on_two};
use crate::declaration::{
    can_be, can_be_either, kind_of_kind, number_property, rulebook, scene, usually, usually_number,
    variable,
};
use crate::grammar_sentence::understands;
use crate::letter::{describing_text, number_in, side_direction};
use crate::name::{joined, name_of};
use crate::names::names_of;
use crate::rule_listing::{listed_first, listed_last, not_listed};
use crate::scene_change::{SceneEdge, scene_change};
use crate::tagged::Tagged;
use crate::value_assertion::{has_value, kind_of_value, usually_value, value_of, values};
use crate::{Assertion, Being, Form, Holder, Side, Way, WordList};
use std::alloc::{AllocError, Global};
use world_meaning::{Direction, Rel, TextBytes};

/// A side of a room, if there is such a direction.
fn side_of(
    alloc: Global,
    direction: Option<Direction>,
    room: &[Tagged<'_>],
) -> Result<Option<Side>, AllocError>
    ensures { IfOk result (λ side. side ≡ side_of direction room.now) }
{
    match direction {
        None => Ok(None),
        Some(direction) => Ok(Some(Side {
            direction,
            room: name_of(alloc, room)?,
        })),
    }
}

/// The way by which the subject lies in the direction of the room.
fn way_assertion(
    alloc: Global,
    subject: &[Tagged<'_>],
    direction: Option<Direction>,
    room: &[Tagged<'_>],
    is_room_first: bool,
) -> Result<Option<Assertion>, AllocError>
    ensures { IfOk result (λ said. said ≡ way_assertion subject.now direction room.now is_room_first) }
{
    match direction {
        None => Ok(None),
        Some(direction) => Ok(Some(Assertion::Way(Way {
            subject: name_of(alloc, subject)?,
            direction,
            room: name_of(alloc, room)?,
            is_room_first,
        }))),
    }
}

/// The door that is on these sides.
fn door_between(
    alloc: Global,
    door: &[Tagged<'_>],
    first: Option<Side>,
    second: Option<Side>,
) -> Result<Option<Assertion>, AllocError>
    ensures { IfOk result (λ said. said ≡ door_between door.now first second) }
{
    match first {
        None => Ok(None),
        Some(first) => match second {
            None => Ok(None),
            Some(second) => Ok(Some(Assertion::Door {
                door: name_of(alloc, door)?,
                first,
                second,
            })),
        },
    }
}

/// What holds an object, and how.
fn holder_by(
    alloc: Global,
    relation: Rel,
    holder: &[Tagged<'_>],
) -> Result<Option<Holder>, AllocError>
    ensures { IfOk result (λ place. place ≡ holder_by relation holder.now) }
{
    Ok(Some(Holder {
        relation,
        name: name_of(alloc, holder)?,
    }))
}

/// What these subjects are said to be.
fn being(
    alloc: Global,
    subjects: &[Tagged<'_>],
    what: &[Tagged<'_>],
    place: Option<Holder>,
) -> Result<Option<Assertion>, AllocError>
    ensures { IfOk result (λ said. said ≡ being subjects.now what.now place) }
{
    Ok(Some(Assertion::Are(Being {
        subjects: names_of(alloc, subjects)?,
        what: joined(alloc, what)?,
        place,
    })))
}

/// A text alone.
fn description(alloc: Global, letters: &[&[Tagged<'_>]]) -> Result<Option<Assertion>, AllocError>
    ensures { IfOk result (λ said. said ≡ description (map (λ letter. letter.now) letters.now)) }
{
    match letters {
        [text] => match describing_text(alloc, text)? {
            None => Ok(None),
            Some(text) => Ok(Some(Assertion::Description(text))),
        },
        _ => Ok(None),
    }
}

/// The description of an object, if the text may describe.
fn described_object(
    alloc: Global,
    object: &[Tagged<'_>],
    text: Option<TextBytes>,
) -> Result<Option<Assertion>, AllocError>
    ensures { IfOk result (λ said. said ≡ described_object object.now text) }
{
    match text {
        None => Ok(None),
        Some(text) => Ok(Some(Assertion::DescriptionOf {
            object: name_of(alloc, object)?,
            text,
        })),
    }
}

/// The description of an object, perhaps behind an article that opens the form.
fn description_of(alloc: Global, letters: &[&[Tagged<'_>]]) -> Result<Option<Assertion>, AllocError>
    ensures { IfOk result (λ said. said ≡ description_of (map (λ letter. letter.now) letters.now)) }
{
    match letters {
        [object, text] => Ok(described_object(alloc, object, describing_text(alloc, text)?)?),
        [_, object, text] => Ok(described_object(alloc, object, describing_text(alloc, text)?)?),
        _ => Ok(None),
    }
}

/// What a number property of an object is.
fn number_of(alloc: Global, letters: &[&[Tagged<'_>]]) -> Result<Option<Assertion>, AllocError>
    ensures { IfOk result (λ said. said ≡ number_of (map (λ letter. letter.now) letters.now)) }
{
    match letters {
        [property, object, number] => Ok(Some(Assertion::NumberOf {
            property: name_of(alloc, property)?,
            object: name_of(alloc, object)?,
            number: number_in(number),
        })),
        _ => Ok(None),
    }
}

/// What a variable is.
fn variable_is(alloc: Global, letters: &[&[Tagged<'_>]]) -> Result<Option<Assertion>, AllocError>
    ensures { IfOk result (λ said. said ≡ variable_is (map (λ letter. letter.now) letters.now)) }
{
    match letters {
        [variable, number] => Ok(Some(Assertion::VariableIs {
            variable: name_of(alloc, variable)?,
            number: number_in(number),
        })),
        _ => Ok(None),
    }
}

/// The side of a room on which another lies.
fn way_to(alloc: Global, letters: &[&[Tagged<'_>]]) -> Result<Option<Assertion>, AllocError>
    ensures { IfOk result (λ said. said ≡ way_to (map (λ letter. letter.now) letters.now)) }
{
    match letters {
        [subject, side, room] => Ok(way_assertion(
            alloc,
            subject,
            side_direction(side),
            room,
            false,
        )?),
        _ => Ok(None),
    }
}

/// The same with the room in front.
fn way_from(alloc: Global, letters: &[&[Tagged<'_>]]) -> Result<Option<Assertion>, AllocError>
    ensures { IfOk result (λ said. said ≡ way_from (map (λ letter. letter.now) letters.now)) }
{
    match letters {
        [side, room, subject] => Ok(way_assertion(
            alloc,
            subject,
            side_direction(side),
            room,
            true,
        )?),
        _ => Ok(None),
    }
}

/// A door between two rooms.
fn door_to(alloc: Global, letters: &[&[Tagged<'_>]]) -> Result<Option<Assertion>, AllocError>
    ensures { IfOk result (λ said. said ≡ door_to (map (λ letter. letter.now) letters.now)) }
{
    match letters {
        [door, side, room, other, behind] => {
            let first = side_of(alloc, side_direction(side), room)?;
            let second = side_of(alloc, side_direction(other), behind)?;
            Ok(door_between(alloc, door, first, second)?)
        },
        _ => Ok(None),
    }
}

/// What a holder holds.
fn holds(
    alloc: Global,
    relation: Rel,
    letters: &[&[Tagged<'_>]],
) -> Result<Option<Assertion>, AllocError>
    ensures { IfOk result (λ said. said ≡ holds relation (map (λ letter. letter.now) letters.now)) }
{
    match letters {
        [holder, things] => Ok(Some(Assertion::Holds {
            holder: name_of(alloc, holder)?,
            relation,
            things: names_of(alloc, things)?,
        })),
        _ => Ok(None),
    }
}

/// Where objects are.
fn held(
    alloc: Global,
    relation: Rel,
    letters: &[&[Tagged<'_>]],
) -> Result<Option<Assertion>, AllocError>
    ensures { IfOk result (λ said. said ≡ held relation (map (λ letter. letter.now) letters.now)) }
{
    match letters {
        [subjects, holder] => Ok(being(alloc, subjects, &[], holder_by(alloc, relation, holder)?)?),
        _ => Ok(None),
    }
}

/// What objects are, and where.
fn what_held(
    alloc: Global,
    relation: Rel,
    letters: &[&[Tagged<'_>]],
) -> Result<Option<Assertion>, AllocError>
    ensures { IfOk result (λ said. said ≡ what_held relation (map (λ letter. letter.now) letters.now)) }
{
    match letters {
        [subjects, what, holder] => Ok(being(
            alloc,
            subjects,
            what,
            holder_by(alloc, relation, holder)?,
        )?),
        _ => Ok(None),
    }
}

/// What objects are.
fn are(alloc: Global, letters: &[&[Tagged<'_>]]) -> Result<Option<Assertion>, AllocError>
    ensures { IfOk result (λ said. said ≡ are (map (λ letter. letter.now) letters.now)) }
{
    match letters {
        [subjects, what] => Ok(being(alloc, subjects, what, None)?),
        _ => Ok(None),
    }
}

/// What the form says with these letters, if it is part of the language so far, where these kinds of value are declared.
#[tactic(auto, unfolding(crate::specs::Assertions::assertion_of))]
pub fn assertion_of(
    alloc: Global,
    kinds: &[WordList],
    form: Form,
    letters: &[&[Tagged<'_>]],
) -> Result<Option<Assertion>, AllocError>
    ensures { IfOk result (λ said. said ≡ assertion_of kinds.now form (map (λ letter. letter.now) letters.now)) }
{
    match form {
        Form::Description => Ok(description(alloc, letters)?),
        Form::Understand => Ok(understands(alloc, letters)?),
        Form::SceneBegins => Ok(scene_change(alloc, SceneEdge::Begins, letters)?),
        Form::SceneEnds => Ok(scene_change(alloc, SceneEdge::Ends, letters)?),
        Form::ListedFirst => Ok(listed_first(alloc, letters)?),
        Form::ListedLast => Ok(listed_last(alloc, letters)?),
        Form::NotListed => Ok(not_listed(alloc, letters)?),
        Form::Action(sort) => Ok(action(alloc, sort, letters)?),
        Form::ActionOnTwo(sort) => Ok(action_on_two(alloc, sort, letters)?),
        Form::Rulebook => Ok(rulebook(alloc, letters)?),
        Form::Scene => Ok(scene(alloc, false, letters)?),
        Form::RecurringScene => Ok(scene(alloc, true, letters)?),
        Form::ValueKind => Ok(kind_of_value(alloc, letters)?),
        Form::Values => Ok(values(alloc, kinds, letters)?),
        Form::HasValue => Ok(has_value(alloc, letters)?),
        Form::UsuallyValue => Ok(usually_value(alloc, letters)?),
        Form::ValueOf => Ok(value_of(alloc, letters)?),
        Form::KindOfKind => Ok(kind_of_kind(alloc, letters)?),
        Form::CanBe => Ok(can_be(alloc, letters)?),
        Form::CanBeEither => Ok(can_be_either(alloc, letters)?),
        Form::NumberProperty => Ok(number_property(alloc, letters)?),
        Form::Usually => Ok(usually(alloc, letters)?),
        Form::UsuallyNumber => Ok(usually_number(alloc, letters)?),
        Form::Variable => Ok(variable(alloc, letters)?),
        Form::DescriptionOf => Ok(description_of(alloc, letters)?),
        Form::NumberOf => Ok(number_of(alloc, letters)?),
        Form::DoorTo => Ok(door_to(alloc, letters)?),
        Form::WayTo => Ok(way_to(alloc, letters)?),
        Form::WayFrom => Ok(way_from(alloc, letters)?),
        Form::Holds(relation) => Ok(holds(alloc, relation, letters)?),
        Form::VariableIs => Ok(variable_is(alloc, letters)?),
        Form::Held(relation) => Ok(held(alloc, relation, letters)?),
        Form::WhatHeld(relation) => Ok(what_held(alloc, relation, letters)?),
        Form::Is => Ok(are(alloc, letters)?),
        _ => Ok(None),
    }
}
