//! Tests: what they answer, and which objects pass one.
ghost use Rattle.std.specs.Prelude.{◌≡◌, ◌<◌, ℕ, List, Err, Ok, OnOk, length};
ghost use Rattle.play_meaning.specs.Machines.{does};
ghost use Rattle.play_meaning.specs.Operands.{gives};
ghost use Rattle.play_meaning.specs.Stands.{GivesObject};
ghost use Rattle.play_meaning.specs.declared.operand.Counts.{Counts};
ghost use Rattle.story_code.specs.Runs.{AreSoundTogether, CameTo, CountIs, IsNamedTest, IsServed, IsTestAt, LoopsSuit, Proceeds, Tells, TestIs, counted_if};

use crate::came::Came;
use crate::fetching::fetch;
use crate::number::is_true;
use crate::reading::ask;
use crate::state::RunState;
use crate::turning::Turning;
use crate::verified::Verified;
use play_meaning::{ActionNow, Ground, Instruction};
use world_meaning::{Abandon, ObjNo};

/// What a test answers, with these objects of the open loops.
#[cycle(testing)]
pub fn answer<G: Ground>(
    ground: &G,
    codes: &[Verified],
    now: &ActionNow,
    number: u16,
    loops: Turning,
) -> Result<bool, Abandon>
    requires sound { AreSoundTogether codes.now }
    requires there { IsTestAt codes.now number (length loops) }
    ensures { Tells (TestIs (G.fixed ground.now) codes.now now.now (G.world ground.now) number loops) (λ truth. truth) result }
{
    let mut state = RunState::inside(number, loops);
    while let Some(instruction) = fetch(codes, &state) {
        match ask_in_test(ground, codes, now, &mut state, instruction) {
            Ok(Came::On) => {}
            Ok(Came::Left) => return Ok(false),
            Ok(Came::Answered(truth)) => return Ok(truth),
            Err(reason) => return Err(reason),
        }
    }
    Ok(false)
}

/// Does an instruction of a test.
#[cycle(testing)]
#[tactic(auto, unfolding(play_meaning::specs::Machines::does))]
fn ask_in_test<G: Ground>(
    ground: &G,
    codes: &[Verified],
    now: &ActionNow,
    state: &mut RunState,
    instruction: Instruction,
) -> Result<Came, Abandon>
    requires sound { AreSoundTogether codes.now }
    requires served { IsServed instruction state.old }
    requires loops { LoopsSuit codes.now state.old instruction }
    ensures step { (text : List ℕ) → CameTo (G.fixed ground.now) codes.now now.now (G.world ground.now) instruction state.old text result state.new text }
    ensures small { (z : Counts) → OnOk result (GivesObject (gives z instruction) state.new.operands) }
    ensures same { state.new.code ≡ state.old.code }
{
    match instruction {
        Instruction::Answer => Ok(Came::Answered(is_true(state.take()))),
        _ => {
            count_or_ask(ground, codes, now, state, instruction)?;
            Ok(Came::On)
        }
    }
}

/// Does an instruction that gives a number, a truth or an object.
#[cycle(testing)]
#[tactic(auto, unfolding(play_meaning::specs::Machines::does))]
#[inline(always)]
pub fn count_or_ask<G: Ground>(
    ground: &G,
    codes: &[Verified],
    now: &ActionNow,
    state: &mut RunState,
    instruction: Instruction,
) -> Result<(), Abandon>
    requires sound { AreSoundTogether codes.now }
    requires served { IsServed instruction state.old }
    requires loops { LoopsSuit codes.now state.old instruction }
    ensures step { (text : List ℕ) → Proceeds (G.fixed ground.now) codes.now now.now (G.world ground.now) instruction state.old text result state.new text }
    ensures small { (z : Counts) → OnOk result (GivesObject (gives z instruction) state.new.operands) }
    ensures same { state.new.code ≡ state.old.code }
{
    match instruction {
        Instruction::Count(_, test) => match count_in(ground, codes, now, state, test) {
            Ok(count) => {
                state.push(i32::from(count));
                state.pass(instruction);
                Ok(())
            }
            Err(reason) => Err(reason),
        },
        _ => {
            ask(ground, codes, now, state, instruction)?;
            Ok(())
        }
    }
}

/// One more, if so.
fn counted_if(is: bool, count: u16) -> u16
    requires { count < 65535 }
    ensures { result ≡ counted_if is count }
{
    if is { count + 1 } else { count }
}

/// How many objects pass a test that a code names.
#[cycle(testing)]
fn count_in<G: Ground>(
    ground: &G,
    codes: &[Verified],
    now: &ActionNow,
    state: &RunState,
    test: u16,
) -> Result<u16, Abandon>
    requires sound { AreSoundTogether codes.now }
    requires named { IsNamedTest codes.now state.now.code (length state.now.loops) test }
    ensures { Tells (CountIs (G.fixed ground.now) codes.now now.now (G.world ground.now) state.now.loops test) (λ count. count) result }
{
    let mut count = 0;
    for number in 0..ground.object_count() {
        let loops = state.loops.with(ObjNo::new(number));
        match answer(ground, codes, now, test, loops) {
            Ok(passes) => count = counted_if(passes, count),
            Err(reason) => return Err(reason),
        }
    }
    Ok(count)
}
