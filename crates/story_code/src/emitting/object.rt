//! The codes of objects, and of tests whether an object is one of those that a description means.
ghost use Rattle.std.specs.Prelude.{◌≡◌, ◌++◌, [], ◌∷◌, IfOk, OnOk, map};
ghost use Rattle.play_meaning.specs.Meant.{adjective_meant, description_meant, object_meant, quality_meant};
ghost use Rattle.play_meaning.specs.Translation.{adjective_code, adjectives_code, asked_of, description_code, is_there_code, kind_code, object_code, test_code};
ghost use Rattle.play_meaning.specs.Meant as meant;

use play_meaning::tree::{Adjective, Description, Quality, Referent, Side};
use play_meaning::{Asked, Instruction};
use std::alloc::{AllocError, Global};
use world_meaning::KindNo;

/// Adds the code that gives an object.
pub(crate) fn put_object(code: &mut Vec<Instruction>, object: &Referent) -> Result<(), AllocError>
    ensures { OnOk result (code.new.items ≡ code.old.items ++ object_code (object_meant object.now)) }
{
    match object {
        Referent::The(number) => put(code, Instruction::Num(i32::from(number.get()))),
        Referent::Noun => put(code, Instruction::Noun),
        Referent::SecondNoun => put(code, Instruction::Second),
        Referent::Location => put(code, Instruction::Location),
        Referent::Nothing => put(code, Instruction::Num(-1)),
        Referent::Turning(number) => put(code, Instruction::Loop(*number)),
        Referent::RoomFrom(direction, room) => {
            put_object(code, direction)?;
            put_object(code, room)?;
            put(code, Instruction::Room)
        }
        Referent::DoorFrom(direction, room) => {
            put_object(code, direction)?;
            put_object(code, room)?;
            put(code, Instruction::Door)
        }
    }
}

/// The code that gives an object.
pub(crate) fn object_code(alloc: Global, object: &Referent) -> Result<Vec<Instruction>, AllocError>
    ensures { IfOk result (λ code. code.items ≡ object_code (object_meant object.now)) }
{
    let mut code = Vec::new(alloc);
    put_object(&mut code, object)?;
    Ok(code)
}

/// One more instruction.
pub(crate) fn put(code: &mut Vec<Instruction>, instruction: Instruction) -> Result<(), AllocError>
    ensures { OnOk result (code.new.items ≡ code.old.items ++ instruction ∷ []) }
{
    code.push(instruction)?;
    Ok(())
}

/// Adds a test whether the object that this code gives is no nothing.
fn put_is_there(code: &mut Vec<Instruction>, object: &[Instruction]) -> Result<(), AllocError>
    ensures { OnOk result (code.new.items ≡ code.old.items ++ is_there_code object.now) }
{
    code.extend_from_slice(object)?;
    put(code, Instruction::Num(-1))?;
    put(code, Instruction::Eq)?;
    put(code, Instruction::Not)
}

/// How a property is asked by its first name or its second.
fn asked_of(side: Side) -> Asked
    ensures { result ≡ asked_of (meant.side_meant side) }
{
    match side {
        Side::First => Asked::IsFirst,
        Side::Second => Asked::IsSecond,
    }
}

/// Adds a test whether the object that this code gives is so.
#[tactic(auto, unfolding(play_meaning::specs::Translation::adjective_code))]
fn put_quality(
    code: &mut Vec<Instruction>,
    object: &[Instruction],
    quality: Quality,
) -> Result<(), AllocError>
    ensures { OnOk result (code.new.items ≡ code.old.items ++ adjective_code object.now (quality_meant quality)) }
{
    code.extend_from_slice(object)?;
    match quality {
        Quality::Is(property, side) => put(code, Instruction::Flag(property, asked_of(side))),
        Quality::Valued(kind, value) => put(code, Instruction::Valued(kind, value)),
        Quality::Visible => put(code, Instruction::Visible),
        Quality::Touchable => put(code, Instruction::Touchable),
    }
}

/// Adds a test whether the object that this code gives is so, or isn't; of nothing neither is true.
#[tactic(auto, unfolding(play_meaning::specs::Translation::adjective_code))]
pub(crate) fn put_adjective(
    code: &mut Vec<Instruction>,
    object: &[Instruction],
    adjective: Adjective,
) -> Result<(), AllocError>
    ensures { OnOk result (code.new.items ≡ code.old.items ++ adjective_code object.now (adjective_meant adjective)) }
{
    if !adjective.denied {
        return put_quality(code, object, adjective.quality);
    }
    put_is_there(code, object)?;
    put_quality(code, object, adjective.quality)?;
    put(code, Instruction::Not)?;
    put(code, Instruction::And)
}

/// Adds a test whether the object that this code gives is something, and all of these.
fn put_adjectives(
    code: &mut Vec<Instruction>,
    object: &[Instruction],
    adjectives: &[Adjective],
) -> Result<(), AllocError>
    ensures { OnOk result (code.new.items ≡ code.old.items ++ adjectives_code object.now (map adjective_meant adjectives.now)) }
{
    match adjectives {
        [] => put_is_there(code, object),
        [first, rest @ ..] => {
            put_adjective(code, object, *first)?;
            put_adjectives(code, object, rest)?;
            put(code, Instruction::And)
        }
    }
}

/// Adds a test whether the object that this code gives is of a kind, if one is said, and all of these.
fn put_kind(
    code: &mut Vec<Instruction>,
    object: &[Instruction],
    kind: Option<KindNo>,
    adjectives: &[Adjective],
) -> Result<(), AllocError>
    ensures { OnOk result (code.new.items ≡ code.old.items ++ kind_code object.now kind (adjectives_code object.now (map adjective_meant adjectives.now))) }
{
    let Some(kind) = kind else {
        return put_adjectives(code, object, adjectives);
    };
    code.extend_from_slice(object)?;
    put(code, Instruction::Kind(kind.get()))?;
    put_adjectives(code, object, adjectives)?;
    put(code, Instruction::And)
}

/// Adds a test whether the object that this code gives is one of those that a description means.
#[tactic(auto, unfolding(play_meaning::specs::Translation::description_code))]
pub(crate) fn put_description(
    code: &mut Vec<Instruction>,
    object: &[Instruction],
    description: &Description,
) -> Result<(), AllocError>
    ensures { OnOk result (code.new.items ≡ code.old.items ++ description_code object.now (description_meant description.now)) }
{
    put_kind(
        code,
        object,
        description.kind,
        description.adjectives.as_slice(),
    )?;
    let Some(held) = &description.held else {
        return Ok(());
    };
    code.extend_from_slice(object)?;
    put_object(code, &held.holder)?;
    put(code, Instruction::Held(held.relation))?;
    put(code, Instruction::And)
}

/// The test whether the object of the loop of this number is one of those that a description means.
pub(crate) fn test_code(
    alloc: Global,
    number: u8,
    description: &Description,
) -> Result<Vec<Instruction>, AllocError>
    ensures { IfOk result (λ code. code.items ≡ test_code number (description_meant description.now)) }
{
    let mut code = Vec::new(alloc);
    put_description(&mut code, &[Instruction::Loop(number)], description)?;
    put(&mut code, Instruction::Answer)?;
    Ok(code)
}
