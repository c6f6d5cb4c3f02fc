//! Instructions that read: each does what it means, over any ground.
ghost use Rattle.std.specs.Prelude.{◌≡◌, ℕ, List, OnOk};
ghost use Rattle.play_meaning.specs.Machines.{does};
ghost use Rattle.play_meaning.specs.Operands.{gives};
ghost use Rattle.play_meaning.specs.Stands.{GivesObject};
ghost use Rattle.play_meaning.specs.declared.operand.Counts.{Counts};
ghost use Rattle.story_code.specs.Runs.{IsServed, Proceeds};

use crate::asking::{
    beyond_in, calculated, holder_by, known, number_at, object_known, of_numbers, of_object,
    of_objects,
};
use crate::number::{in_range, is_true, object_at, object_number, truth_number};
use crate::state::RunState;
use crate::verified::Verified;
use play_meaning::{ActionNow, Ground, Instruction};
use world_meaning::Abandon;

/// Does an instruction that takes no operand and gives a number, a truth or an object.
#[tactic(auto, unfolding(play_meaning::specs::Machines::does))]
#[inline(always)]
fn ask_nothing<G: Ground>(
    ground: &G,
    codes: &[Verified],
    now: &ActionNow,
    state: &mut RunState,
    instruction: Instruction,
) -> Result<(), Abandon>
    requires { IsServed instruction state.old }
    ensures step { (text : List ℕ) → Proceeds (G.fixed ground.now) codes.now now.now (G.world ground.now) instruction state.old text result state.new text }
    ensures same { state.new.code ≡ state.old.code }
    ensures small { (z : Counts) → OnOk result (GivesObject (gives z instruction) state.new.operands) }
{
    match instruction {
        Instruction::Num(_)
        | Instruction::Var(_)
        | Instruction::Turns
        | Instruction::Dark
        | Instruction::Happens(_) => state.push(known(ground, instruction)),
        Instruction::Noun | Instruction::Second | Instruction::Location | Instruction::Loop(_) => {
            let object = object_known(ground, now, &state.loops, instruction);
            state.push(object_number(object));
        }
        _ => return Err(Abandon::Memory),
    }
    state.pass(instruction);
    Ok(())
}

/// Does an instruction that takes at most one operand and gives a number, a truth or an object.
#[tactic(auto, unfolding(play_meaning::specs::Machines::does))]
#[inline(always)]
fn ask_one<G: Ground>(
    ground: &G,
    codes: &[Verified],
    now: &ActionNow,
    state: &mut RunState,
    instruction: Instruction,
) -> Result<(), Abandon>
    requires { IsServed instruction state.old }
    ensures step { (text : List ℕ) → Proceeds (G.fixed ground.now) codes.now now.now (G.world ground.now) instruction state.old text result state.new text }
    ensures same { state.new.code ≡ state.old.code }
    ensures small { (z : Counts) → OnOk result (GivesObject (gives z instruction) state.new.operands) }
{
    match instruction {
        Instruction::Prop(property) => {
            let object = object_at(state.take());
            state.push(number_at(ground, property, object));
        }
        Instruction::Not => {
            let truth = is_true(state.take());
            state.push(truth_number(!truth));
        }
        Instruction::Flag(_, _)
        | Instruction::Kind(_)
        | Instruction::Visible
        | Instruction::Touchable
        | Instruction::HasDescription
        | Instruction::Valued(_, _) => {
            let object = object_at(state.take());
            state.push(of_object(ground, instruction, object));
        }
        Instruction::Holder(relation) => {
            let object = object_at(state.take());
            state.push(object_number(holder_by(ground, relation, object)));
        }
        _ => {
            ask_nothing(ground, codes, now, state, instruction)?;
            return Ok(());
        }
    }
    state.pass(instruction);
    Ok(())
}

/// Does an instruction that gives a number, a truth or an object and runs no test.
#[tactic(auto, unfolding(play_meaning::specs::Machines::does))]
#[inline(always)]
pub fn ask<G: Ground>(
    ground: &G,
    codes: &[Verified],
    now: &ActionNow,
    state: &mut RunState,
    instruction: Instruction,
) -> Result<(), Abandon>
    requires { IsServed instruction state.old }
    ensures step { (text : List ℕ) → Proceeds (G.fixed ground.now) codes.now now.now (G.world ground.now) instruction state.old text result state.new text }
    ensures same { state.new.code ≡ state.old.code }
    ensures small { (z : Counts) → OnOk result (GivesObject (gives z instruction) state.new.operands) }
{
    match instruction {
        Instruction::Eq
        | Instruction::Less
        | Instruction::AtMost
        | Instruction::And
        | Instruction::Or => {
            let b = state.take();
            let a = state.take();
            state.push(of_numbers(instruction, a, b));
        }
        Instruction::Held(_) | Instruction::Encloses => {
            let b = object_at(state.take());
            let a = object_at(state.take());
            state.push(of_objects(ground, instruction, a, b));
        }
        Instruction::Room | Instruction::Door => {
            let room = object_at(state.take());
            let direction = object_at(state.take());
            state.push(object_number(beyond_in(ground, instruction, direction, room)));
        }
        Instruction::Add | Instruction::Sub | Instruction::Mul => {
            let b = state.take();
            let a = state.take();
            state.push(in_range(calculated(instruction, a, b))?);
        }
        _ => {
            ask_one(ground, codes, now, state, instruction)?;
            return Ok(());
        }
    }
    state.pass(instruction);
    Ok(())
}
