//! The bytes of codes.
ghost use Rattle.std.specs.Prelude.{◌≡◌, ◌++◌, IfOk, OnOk, true};
ghost use Rattle.play_meaning.specs.Instructions.{row_of};
ghost use Rattle.world_meaning.specs.Relations.{relation_number};
ghost use Rattle.story_code.specs.Spelling.{Spells, arguments_bytes, can_spell, choice_number, form_number, side_number, spelled};

use crate::row::opcode;
use play_meaning::{Asked, Instruction, Naming};
use std::alloc::{AllocError, Global};
use world_meaning::relation_number;

/// The number of how a property is asked.
fn side_number(asked: Asked) -> u8
    ensures { result ≡ side_number asked }
{
    match asked {
        Asked::IsSecond => 0,
        Asked::IsFirst => 1,
        Asked::IsNotSecond => 2,
        Asked::IsNotFirst => 3,
    }
}

/// The number of how an object is told of.
fn form_number(naming: Naming) -> u8
    ensures { result ≡ form_number naming }
{
    match naming {
        Naming::Plain => 0,
        Naming::Definite => 1,
        Naming::CapitalDefinite => 2,
        Naming::Indefinite => 3,
        Naming::CapitalIndefinite => 4,
    }
}

/// No is 0, yes is 1.
fn choice_number(choice: bool) -> u8
    ensures { result ≡ choice_number choice }
{
    match choice {
        false => 0,
        true => 1,
    }
}

/// Adds an instruction's arguments of one byte and of four, if it has no other.
fn put_arguments(out: &mut Vec<u8>, instruction: Instruction) -> Result<(), AllocError>
    ensures { OnOk result (out.new.items ≡ out.old.items ++ arguments_bytes (row_of instruction).arguments) }
{
    match instruction {
        Instruction::Num(number) => out.extend_from_slice(&number.to_be_bytes()),
        Instruction::Var(number)
        | Instruction::Prop(number)
        | Instruction::Loop(number)
        | Instruction::Kind(number)
        | Instruction::Happens(number)
        | Instruction::SetProp(number)
        | Instruction::SetVar(number)
        | Instruction::ValueName(number)
        | Instruction::Begin(number) => out.extend_from_slice(&[number]),
        Instruction::Held(relation)
        | Instruction::Holder(relation)
        | Instruction::PutAt(relation) => out.extend_from_slice(&[relation_number(relation)]),
        Instruction::Flag(property, asked) => {
            out.extend_from_slice(&[property, side_number(asked)])
        }
        Instruction::SetFlag(property, value) => {
            out.extend_from_slice(&[property, choice_number(value)])
        }
        Instruction::Valued(kind, value) | Instruction::SetValue(kind, value) => {
            out.extend_from_slice(&[kind, value])
        }
        Instruction::Name(naming) => out.extend_from_slice(&[form_number(naming)]),
        Instruction::Try(silent, action) => {
            out.extend_from_slice(&[choice_number(silent), action])
        }
        Instruction::Say(number)
        | Instruction::Follow(number)
        | Instruction::IfZero(number)
        | Instruction::Jump(number)
        | Instruction::EndStory(number) => out.extend_from_slice(&number.to_be_bytes()),
        Instruction::Count(number, test) => {
            let [high, low] = test.to_be_bytes();
            out.extend_from_slice(&[number, high, low])
        }
        Instruction::Names(naming, number, test) => {
            let [high, low] = test.to_be_bytes();
            out.extend_from_slice(&[form_number(naming), number, high, low])
        }
        Instruction::Next(number, test, exit) => {
            let [high, low] = test.to_be_bytes();
            let [exit_high, exit_low] = exit.to_be_bytes();
            out.extend_from_slice(&[number, high, low, exit_high, exit_low])
        }
        _ => Ok(()),
    }
}

/// Adds an instruction's bytes.
fn put(out: &mut Vec<u8>, instruction: Instruction) -> Result<(), AllocError>
    ensures bytes { OnOk result (out.new.items ≡ out.old.items ++ spelled instruction) }
    ensures can { can_spell instruction ≡ true }
{
    out.push(opcode(instruction))?;
    put_arguments(out, instruction)
}

/// The bytes of a code.
pub fn spell(alloc: Global, code: &[Instruction]) -> Result<Vec<u8>, AllocError>
    ensures { IfOk result (λ bytes. Spells bytes.items code.now) }
{
    let mut bytes = Vec::new(alloc);
    let mut rest = code;
    while let [first, after @ ..] = rest {
        put(&mut bytes, *first)?;
        rest = after;
    }
    Ok(bytes)
}
