//! One step of a body over a loaded story's world, which stays a world of its story.
ghost use Rattle.std.specs.Prelude.{◌≡◌, ◌≤◌, IfOk, OnErr, OnOk, true};
ghost use Rattle.play_meaning.specs.Progress.{most_work};
ghost use Rattle.story_code.specs.Runs.{MayDo};
ghost use Rattle.story_code.specs.Steps.{leads_on};
ghost use Rattle.action_stages.specs.Bodies.{AreCodesIn, StepsSo, playing_in};
ghost use Rattle.action_stages.specs.Returning.{ComesBehind};
ghost use Rattle.world_store.specs.StoryPlay.{coded_story};

use play_meaning::ActionNow;
use std::alloc::Global;
use story_code::{RunState, Step, Verified, step_plain};
use world_meaning::Abandon;
use world_store::{World, worlds_are_whole};

/// Does one instruction of a body; what it tries or follows is left to the caller. What runs a body knows a world by what
/// its words are read against, so the world is told again which story it is of.
///
/// # Errors
/// As `step_plain`: out of range, too much work, want of memory. The world is as it was then.
pub fn step_kept(
    alloc: Global,
    world: &mut World,
    codes: &[Verified],
    now: &ActionNow,
    state: &mut RunState,
    text: &mut Vec<u8>,
) -> Result<Step, Abandon>
    requires told { AreCodesIn codes.now (coded_story world.old.tables) }
    requires stands { MayDo codes.now state.old }
    requires within { state.old.work ≤ most_work }
    ensures tables { world.new.tables ≡ world.old.tables }
    ensures step { StepsSo (coded_story world.old.tables) now.now
        state.old (playing_in world.old text.old.items state.old.work)
        result state.new (playing_in world.new text.new.items state.new.work) }
    ensures left { OnErr result (world.new.world ≡ world.old.world) }
    ensures behind { ComesBehind world.old world.new }
    ensures stands { IfOk result (λ came. leads_on came ≡ true → MayDo codes.now state.new) }
    ensures code { state.new.code ≡ state.old.code }
    ensures within { OnOk result (state.new.work ≤ most_work) }
{
    worlds_are_whole(world);
    let Ok(bound) = world.bound() else {
        return Err(Abandon::Memory);
    };
    let came = step_plain(alloc, world, codes, now, state, text);
    worlds_are_whole(world);
    world.bind(bound);
    came
}
