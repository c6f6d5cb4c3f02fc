//! Bodies of rules, run step by step.
ghost use Rattle.std.specs.Prelude.{◌≡◌, ℕ, List, Ok, OnErr, OnOk, true};
ghost use Rattle.play_meaning.specs.Machines.{does};
ghost use Rattle.play_meaning.specs.Operands.{gives};
ghost use Rattle.play_meaning.specs.Stands.{GivesObject};
ghost use Rattle.play_meaning.specs.declared.instruction.Instruction.TheVariants.{Next};
ghost use Rattle.play_meaning.specs.declared.operand.Counts.{Counts};
ghost use Rattle.story_code.specs.Runs.{AreDescribedBy, AreSoundTogether, IsServed, LoopsSuit, MayDo};
ghost use Rattle.story_code.specs.Steps.{CarriesOn, DoneSo, LeadsBack, StepsSo, leads_on};
ghost use Rattle.story_code.specs.declared.step.Step.{Step};
ghost use Rattle.story_code.specs.Longer.{IsLonger};

use crate::changing::{
    end_story, make_number, make_so, make_value, make_variable, move_to, put, take_away,
};
use crate::describing::description;
use crate::fetching::fetch;
use crate::looping::next_object;
use crate::naming::say;
use crate::number::object_at;
use crate::state::RunState;
use crate::step::Step;
use crate::telling::go_on;
use crate::verified::Verified;
use play_meaning::{ActNo, ActionNow, Ground, GroundMut, Instruction};
use std::alloc::Global;
use world_meaning::Abandon;

/// The most work of a command or of the opening.
pub const MOST_WORK: u32 = 10_000;

/// Does an instruction that changes the world, or reads it, or says something.
#[tactic(auto, using(crate::proofs::Longer::longer_rules), unfolding(play_meaning::specs::Machines::does))]
#[inline(always)]
fn change<G: GroundMut>(
    alloc: Global,
    ground: &mut G,
    codes: &[Verified],
    now: &ActionNow,
    state: &mut RunState,
    text: &mut Vec<u8>,
    instruction: Instruction,
) -> Result<(), Abandon>
    requires sound { AreSoundTogether codes.now }
    requires served { IsServed instruction state.old }
    requires loops { LoopsSuit codes.now state.old instruction }
    ensures step { CarriesOn (G.fixed ground.old) codes.now now.now (G.world ground.old) instruction state.old text.old.items result (G.world ground.new) state.new text.new.items }
    ensures kept { OnErr result ((G.world ground.new ≡ G.world ground.old) × (G.past ground.new ≡ G.past ground.old)) }
    ensures past { LeadsBack (G.world ground.old) (G.past ground.old) (G.world ground.new) (G.past ground.new) }
    ensures fixed { G.fixed ground.new ≡ G.fixed ground.old }
    ensures small { (z : Counts) → OnOk result (GivesObject (gives z instruction) state.new.operands) }
    ensures same { state.new.code ≡ state.old.code }
    ensures longer { IsLonger text.old.items text.new.items }
{
    match instruction {
        Instruction::SetFlag(property, value) => {
            let object = object_at(state.take());
            make_so(ground, object, property, value)?;
        }
        Instruction::SetProp(property) => {
            let number = state.take();
            let object = object_at(state.take());
            make_number(ground, object, property, number)?;
        }
        Instruction::SetVar(variable) => {
            let number = state.take();
            make_variable(ground, variable, number)?;
        }
        Instruction::SetValue(kind, value) => {
            let object = object_at(state.take());
            make_value(ground, object, kind, value)?;
        }
        Instruction::PutAt(relation) => {
            let holder = object_at(state.take());
            let object = object_at(state.take());
            put(ground, object, relation, holder)?;
        }
        Instruction::Move => {
            let holder = object_at(state.take());
            let object = object_at(state.take());
            move_to(ground, object, holder)?;
        }
        Instruction::Away => {
            let object = object_at(state.take());
            take_away(ground, object)?;
        }
        Instruction::EndStory(string) => end_story(alloc, ground, string)?,
        _ => {
            return match go_on(alloc, ground, codes, now, state, text, instruction) {
                Ok(()) => Ok(()),
                Err(reason) => Err(reason),
            };
        }
    }
    state.pass(instruction);
    Ok(())
}

/// Turns the innermost loop to its next object, or goes on at its exit.
#[tactic(auto, unfolding(play_meaning::specs::Machines::does, play_meaning::specs::Progress::spend))]
fn turn<G: Ground>(
    ground: &G,
    codes: &[Verified],
    now: &ActionNow,
    state: &mut RunState,
    number: u8,
    test: u16,
    exit: u16,
) -> Result<(), Abandon>
    requires sound { AreSoundTogether codes.now }
    requires served { IsServed (Next number test exit) state.old }
    requires loops { LoopsSuit codes.now state.old (Next number test exit) }
    ensures step { (text : List ℕ) → CarriesOn (G.fixed ground.now) codes.now now.now (G.world ground.now) (Next number test exit) state.old text result (G.world ground.now) state.new text }
    ensures same { state.new.code ≡ state.old.code }
{
    match next_object(ground, codes, now, state, number, test) {
        Ok(Some(object)) => {
            if state.work >= MOST_WORK {
                return Err(Abandon::TooMuchWork);
            }
            state.turn(number, object);
            state.pass(Instruction::Next(number, test, exit));
            Ok(())
        }
        Ok(None) => {
            state.close(number);
            state.leap(usize::from(exit));
            Ok(())
        }
        Err(reason) => Err(reason),
    }
}

/// Does an instruction behind which the run goes on.
#[tactic(auto, using(crate::proofs::Longer::longer_rules), unfolding(play_meaning::specs::Machines::does))]
#[inline(always)]
fn carry_on<G: GroundMut>(
    alloc: Global,
    ground: &mut G,
    codes: &[Verified],
    now: &ActionNow,
    state: &mut RunState,
    text: &mut Vec<u8>,
    instruction: Instruction,
) -> Result<(), Abandon>
    requires sound { AreSoundTogether codes.now }
    requires described { AreDescribedBy codes.now (G.fixed ground.old) }
    requires served { IsServed instruction state.old }
    requires loops { LoopsSuit codes.now state.old instruction }
    ensures step { CarriesOn (G.fixed ground.old) codes.now now.now (G.world ground.old) instruction state.old text.old.items result (G.world ground.new) state.new text.new.items }
    ensures kept { OnErr result ((G.world ground.new ≡ G.world ground.old) × (G.past ground.new ≡ G.past ground.old)) }
    ensures past { LeadsBack (G.world ground.old) (G.past ground.old) (G.world ground.new) (G.past ground.new) }
    ensures fixed { G.fixed ground.new ≡ G.fixed ground.old }
    ensures small { (z : Counts) → OnOk result (GivesObject (gives z instruction) state.new.operands) }
    ensures same { state.new.code ≡ state.old.code }
    ensures longer { IsLonger text.old.items text.new.items }
{
    match instruction {
        Instruction::Begin(_) => {
            state.open();
            state.pass(instruction);
            Ok(())
        }
        Instruction::Next(number, test, exit) => {
            turn(ground, codes, now, state, number, test, exit)?;
            Ok(())
        }
        Instruction::Description => {
            let object = object_at(state.take());
            match description(alloc, ground, codes, now, object) {
                Ok(said) => {
                    say(text, said.as_slice())?;
                    state.pass(instruction);
                    Ok(())
                }
                Err(reason) => Err(reason),
            }
        }
        _ => {
            change(alloc, ground, codes, now, state, text, instruction)?;
            Ok(())
        }
    }
}

/// Does an instruction of a body.
#[tactic(auto, using(crate::proofs::Longer::longer_rules), unfolding(play_meaning::specs::Machines::does))]
#[inline(always)]
fn do_in_body<G: GroundMut>(
    alloc: Global,
    ground: &mut G,
    codes: &[Verified],
    now: &ActionNow,
    state: &mut RunState,
    text: &mut Vec<u8>,
    instruction: Instruction,
) -> Result<Step, Abandon>
    requires sound { AreSoundTogether codes.now }
    requires described { AreDescribedBy codes.now (G.fixed ground.old) }
    requires served { IsServed instruction state.old }
    requires loops { LoopsSuit codes.now state.old instruction }
    ensures step { DoneSo (G.fixed ground.old) codes.now now.now (G.world ground.old) instruction state.old text.old.items result (G.world ground.new) state.new text.new.items }
    ensures kept { OnErr result ((G.world ground.new ≡ G.world ground.old) × (G.past ground.new ≡ G.past ground.old)) }
    ensures past { LeadsBack (G.world ground.old) (G.past ground.old) (G.world ground.new) (G.past ground.new) }
    ensures fixed { G.fixed ground.new ≡ G.fixed ground.old }
    ensures small { (z : Counts) → OnOk result (GivesObject (gives z instruction) state.new.operands) }
    ensures same { state.new.code ≡ state.old.code }
    ensures longer { IsLonger text.old.items text.new.items }
{
    match instruction {
        Instruction::Try(silent, action) => {
            let second = object_at(state.take());
            let noun = object_at(state.take());
            state.pass(instruction);
            Ok(Step::Try(ActionNow {
                action: ActNo::new(action),
                noun,
                second,
                silent,
            }))
        }
        Instruction::Follow(book) => {
            state.pass(instruction);
            Ok(Step::Follow(book))
        }
        Instruction::Done => Ok(Step::Done),
        Instruction::NoDecision => Ok(Step::NoDecision),
        Instruction::Success => Ok(Step::Success),
        Instruction::Failure => Ok(Step::Failure),
        _ => {
            carry_on(alloc, ground, codes, now, state, text, instruction)?;
            Ok(Step::GoesOn)
        }
    }
}

/// Does one instruction of a body: what the run comes to, an action or a rulebook that the caller does before the next step
/// among it. What it says is added to the text.
///
/// # Errors
/// Out of range where a sum, a difference or a product is; too much work where a loop turns behind ten thousand units of
/// work; want of memory where a text found none, or a change can't be remembered. The world is as it was then, and nothing more
/// is remembered; a part of the text may have been added.
#[tactic(auto, using(crate::proofs::Longer::longer_rules))]
pub fn step_plain<G: GroundMut>(
    alloc: Global,
    ground: &mut G,
    codes: &[Verified],
    now: &ActionNow,
    state: &mut RunState,
    text: &mut Vec<u8>,
) -> Result<Step, Abandon>
    requires sound { AreSoundTogether codes.now }
    requires described { AreDescribedBy codes.now (G.fixed ground.old) }
    requires stands { MayDo codes.now state.old }
    ensures step { StepsSo (G.fixed ground.old) codes.now now.now (G.world ground.old) state.old text.old.items result (G.world ground.new) state.new text.new.items }
    ensures stands { (came : Step) → result ≡ Ok came → leads_on came ≡ true → MayDo codes.now state.new }
    ensures same { state.new.code ≡ state.old.code }
    ensures kept { OnErr result ((G.world ground.new ≡ G.world ground.old) × (G.past ground.new ≡ G.past ground.old)) }
    ensures past { LeadsBack (G.world ground.old) (G.past ground.old) (G.world ground.new) (G.past ground.new) }
    ensures fixed { G.fixed ground.new ≡ G.fixed ground.old }
    ensures longer { IsLonger text.old.items text.new.items }
{
    match fetch(codes, state) {
        Some(instruction) => {
            let came = do_in_body(alloc, ground, codes, now, state, text, instruction)?;
            Ok(came)
        }
        None => Ok(Step::Done),
    }
}
