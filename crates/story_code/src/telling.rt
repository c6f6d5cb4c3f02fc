//! Instructions of descriptions: what is said, ways on, and ends.
ghost use Rattle.std.specs.Prelude.{◌≡◌, OnOk};
ghost use Rattle.play_meaning.specs.Machines.{does};
ghost use Rattle.play_meaning.specs.Operands.{gives};
ghost use Rattle.play_meaning.specs.Stands.{GivesObject};
ghost use Rattle.play_meaning.specs.declared.operand.Counts.{Counts};
ghost use Rattle.story_code.specs.Runs.{AreSoundTogether, CameTo, IsServed, LoopsSuit, Proceeds};
ghost use Rattle.story_code.specs.Longer.{IsLonger};

use crate::came::Came;
use crate::listing::{Listing, say_passing};
use crate::naming::{say, say_figure, say_name, say_value};
use crate::number::{is_true, object_at};
use crate::state::RunState;
use crate::testing::count_or_ask;
use crate::verified::Verified;
use play_meaning::{ActionNow, Ground, Instruction};
use std::alloc::Global;
use world_meaning::Abandon;

/// Does an instruction that says something, or gives a number, a truth or an object.
#[tactic(auto, using(crate::proofs::Longer::longer_rules), unfolding(play_meaning::specs::Machines::does))]
#[inline(always)]
fn tell<G: Ground>(
    alloc: Global,
    ground: &G,
    codes: &[Verified],
    now: &ActionNow,
    state: &mut RunState,
    text: &mut Vec<u8>,
    instruction: Instruction,
) -> Result<(), Abandon>
    requires sound { AreSoundTogether codes.now }
    requires served { IsServed instruction state.old }
    requires loops { LoopsSuit codes.now state.old instruction }
    ensures step { Proceeds (G.fixed ground.now) codes.now now.now (G.world ground.now) instruction state.old text.old.items result state.new text.new.items }
    ensures small { (z : Counts) → OnOk result (GivesObject (gives z instruction) state.new.operands) }
    ensures same { state.new.code ≡ state.old.code }
    ensures longer { IsLonger text.old.items text.new.items }
{
    match instruction {
        Instruction::Say(string) => say(text, ground.string(string))?,
        Instruction::Name(naming) => {
            let object = object_at(state.take());
            say_name(ground, text, naming, object)?;
        }
        Instruction::ValueName(kind) => {
            let object = object_at(state.take());
            say_value(ground, text, kind, object)?;
        }
        Instruction::Figure => {
            let number = state.take();
            say_figure(alloc, text, number)?;
        }
        _ => {
            count_or_ask(ground, codes, now, state, instruction)?;
            return Ok(());
        }
    }
    state.pass(instruction);
    Ok(())
}

/// Does an instruction that changes nothing but what is said, and behind which a run goes on.
#[tactic(auto, using(crate::proofs::Longer::longer_rules), unfolding(play_meaning::specs::Machines::does))]
#[inline(always)]
pub fn go_on<G: Ground>(
    alloc: Global,
    ground: &G,
    codes: &[Verified],
    now: &ActionNow,
    state: &mut RunState,
    text: &mut Vec<u8>,
    instruction: Instruction,
) -> Result<(), Abandon>
    requires sound { AreSoundTogether codes.now }
    requires served { IsServed instruction state.old }
    requires loops { LoopsSuit codes.now state.old instruction }
    ensures step { Proceeds (G.fixed ground.now) codes.now now.now (G.world ground.now) instruction state.old text.old.items result state.new text.new.items }
    ensures small { (z : Counts) → OnOk result (GivesObject (gives z instruction) state.new.operands) }
    ensures same { state.new.code ≡ state.old.code }
    ensures longer { IsLonger text.old.items text.new.items }
{
    match instruction {
        Instruction::IfZero(place) => {
            let holds = is_true(state.take());
            let ahead = state.place + 3;
            state.leap(if holds { ahead } else { usize::from(place) });
            Ok(())
        }
        Instruction::Jump(place) => {
            state.leap(usize::from(place));
            Ok(())
        }
        Instruction::Names(naming, number, test) => {
            let listing = Listing {
                naming,
                number,
                test,
            };
            say_passing(alloc, ground, codes, now, state, text, listing)?;
            Ok(())
        }
        _ => {
            tell(alloc, ground, codes, now, state, text, instruction)?;
            Ok(())
        }
    }
}

/// Does an instruction of a test or a description.
#[tactic(auto, using(crate::proofs::Longer::longer_rules), unfolding(play_meaning::specs::Machines::does))]
pub fn describe<G: Ground>(
    alloc: Global,
    ground: &G,
    codes: &[Verified],
    now: &ActionNow,
    state: &mut RunState,
    text: &mut Vec<u8>,
    instruction: Instruction,
) -> Result<Came, Abandon>
    requires sound { AreSoundTogether codes.now }
    requires served { IsServed instruction state.old }
    requires loops { LoopsSuit codes.now state.old instruction }
    ensures step { CameTo (G.fixed ground.now) codes.now now.now (G.world ground.now) instruction state.old text.old.items result state.new text.new.items }
    ensures small { (z : Counts) → OnOk result (GivesObject (gives z instruction) state.new.operands) }
    ensures same { state.new.code ≡ state.old.code }
    ensures longer { IsLonger text.old.items text.new.items }
{
    match instruction {
        Instruction::Answer => Ok(Came::Answered(is_true(state.take()))),
        Instruction::Done => Ok(Came::Left),
        _ => {
            go_on(alloc, ground, codes, now, state, text, instruction)?;
            Ok(Came::On)
        }
    }
}
