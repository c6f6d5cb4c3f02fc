//! A test or a description, run whole.
ghost use Rattle.story_code.specs.Runs.{AreSoundTogether, MayRead};
ghost use Rattle.story_code.specs.Testing.{IsReadFrom};
ghost use Rattle.story_code.specs.Longer.{IsLonger};

use crate::came::Came;
use crate::fetching::fetch;
use crate::state::RunState;
use crate::telling::describe;
use crate::verified::Verified;
use play_meaning::{ActionNow, Ground};
use std::alloc::Global;
use world_meaning::Abandon;

/// Runs a test or a description from where it stands to its end: what the test answers; true for a description, whose
/// text is added to what was said.
///
/// # Errors
/// Out of range where a sum, a difference or a product is; want of memory where the text found none. A part of the text may
/// have been added then.
#[tactic(auto, using(crate::proofs::Longer::longer_rules))]
pub fn read_plain<G: Ground>(
    alloc: Global,
    ground: &G,
    codes: &[Verified],
    now: &ActionNow,
    state: &mut RunState,
    text: &mut Vec<u8>,
) -> Result<bool, Abandon>
    requires sound { AreSoundTogether codes.now }
    requires stands { MayRead codes.now state.old }
    ensures read { IsReadFrom (G.fixed ground.now) codes.now now.now (G.world ground.now) state.old text.old.items state.new.work text.new.items result }
    ensures longer { IsLonger text.old.items text.new.items }
{
    while let Some(instruction) = fetch(codes, state) {
        match describe(alloc, ground, codes, now, state, text, instruction) {
            Ok(Came::On) => {}
            Ok(Came::Left) => return Ok(true),
            Ok(Came::Answered(truth)) => return Ok(truth),
            Err(reason) => return Err(reason),
        }
    }
    Ok(false)
}
