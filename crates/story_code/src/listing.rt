//! The objects that pass a test, and their names.
ghost use Rattle.std.specs.Prelude.{◌≡◌, Err, Ok, OnErr, OnOk, length};
ghost use Rattle.play_meaning.specs.declared.instruction.Instruction.TheVariants.{Names};
ghost use Rattle.story_code.specs.Runs.{AreSoundTogether, IsNamedTest, IsServed, LoopsSuit, PassingAre, Proceeds, Tells, kept_if};
ghost use Rattle.world_meaning.specs.declared.session.Abandon.TheVariants.{Memory};
ghost use Rattle.story_code.specs.Longer.{IsLonger};

use crate::naming::say_listed;
use crate::state::RunState;
use crate::testing::answer;
use crate::verified::Verified;
use play_meaning::{ActionNow, Ground, Instruction, Naming};
use std::alloc::Global;
use world_meaning::{Abandon, ObjNo};

/// How the objects are listed that pass a test, and the loop that it opens.
#[derive(Clone, Copy)]
pub struct Listing {
    pub naming: Naming,
    pub number: u8,
    pub test: u16,
}

/// Keeps one object more, if so.
fn keep_if(kept: &mut Vec<ObjNo>, is: bool, object: ObjNo) -> Result<(), Abandon>
    ensures kept { OnOk result (kept.new.items ≡ kept_if is kept.old.items object) }
    ensures refused { OnErr result (result ≡ Err Memory) }
{
    if !is {
        return Ok(());
    }
    match kept.push(object) {
        Ok(()) => Ok(()),
        Err(_) => Err(Abandon::Memory),
    }
}

/// The objects that pass a test that a code names, by rising number.
fn passing_in<G: Ground>(
    alloc: Global,
    ground: &G,
    codes: &[Verified],
    now: &ActionNow,
    state: &RunState,
    test: u16,
) -> Result<Vec<ObjNo>, Abandon>
    requires sound { AreSoundTogether codes.now }
    requires named { IsNamedTest codes.now state.now.code (length state.now.loops) test }
    ensures { Tells (PassingAre (G.fixed ground.now) codes.now now.now (G.world ground.now) state.now.loops test) (λ objects. objects.items) result }
{
    let mut objects = Vec::new(alloc);
    for number in 0..ground.object_count() {
        let object = ObjNo::new(number);
        match answer(ground, codes, now, test, state.loops.with(object)) {
            Ok(passes) => keep_if(&mut objects, passes, object)?,
            Err(reason) => return Err(reason),
        }
    }
    Ok(objects)
}

/// Says the names of the objects that pass a test.
#[tactic(auto, using(crate::proofs::Longer::longer_rules))]
pub fn say_passing<G: Ground>(
    alloc: Global,
    ground: &G,
    codes: &[Verified],
    now: &ActionNow,
    state: &mut RunState,
    text: &mut Vec<u8>,
    listing: Listing,
) -> Result<(), Abandon>
    requires sound { AreSoundTogether codes.now }
    requires served { IsServed (Names listing.naming listing.number listing.test) state.old }
    requires loops { LoopsSuit codes.now state.old (Names listing.naming listing.number listing.test) }
    ensures step { Proceeds (G.fixed ground.now) codes.now now.now (G.world ground.now) (Names listing.naming listing.number listing.test) state.old text.old.items result state.new text.new.items }
    ensures same { state.new.code ≡ state.old.code }
    ensures longer { IsLonger text.old.items text.new.items }
{
    match passing_in(alloc, ground, codes, now, state, listing.test) {
        Ok(objects) => {
            say_listed(ground, text, listing.naming, objects.as_slice())?;
            let Listing {
                naming,
                number,
                test,
            } = listing;
            state.pass(Instruction::Names(naming, number, test));
            Ok(())
        }
        Err(reason) => Err(reason),
    }
}
