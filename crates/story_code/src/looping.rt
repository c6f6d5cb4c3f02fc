//! Loops of a body, which turn to the objects that pass their test.
ghost use Rattle.std.specs.Prelude.{◌≡◌, ◌+◌, Err, Ok, length};
ghost use Rattle.play_meaning.specs.Machines.{number_behind};
ghost use Rattle.story_code.specs.Runs.{AreSoundTogether, IsNamedTest, NextIs, Tells};

use crate::state::RunState;
use crate::testing::answer;
use crate::verified::Verified;
use play_meaning::{ActionNow, Ground};
use world_meaning::{Abandon, ObjNo};

/// The number of the object behind that of a loop's turn, and of the first before any turn.
fn number_behind(object: Option<ObjNo>) -> u32
    ensures { result ≡ number_behind object }
{
    match object {
        Some(object) => u32::from(object.get()) + 1,
        None => 0,
    }
}

/// The object to which the innermost loop turns next, if any is left.
pub fn next_object<G: Ground>(
    ground: &G,
    codes: &[Verified],
    now: &ActionNow,
    state: &RunState,
    number: u8,
    test: u16,
) -> Result<Option<ObjNo>, Abandon>
    requires sound { AreSoundTogether codes.now }
    requires innermost { number + 1 ≡ length state.now.loops }
    requires named { IsNamedTest codes.now state.now.code number test }
    ensures { Tells (NextIs (G.fixed ground.now) codes.now now.now (G.world ground.now) state.now.loops number test) (λ object. object) result }
{
    let mut outer = state.loops.copied();
    outer.keep(number);
    let first = number_behind(state.loops.at(number));
    for next in first..u32::from(ground.object_count()) {
        let object = ObjNo::new(next as u16);
        match answer(ground, codes, now, test, outer.with(object)) {
            Ok(true) => return Ok(Some(object)),
            Ok(false) => {}
            Err(reason) => return Err(reason),
        }
    }
    Ok(None)
}
