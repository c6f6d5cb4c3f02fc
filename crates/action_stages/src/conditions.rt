//! What the tests of a story answer, and whether a rule applies.
ghost use Rattle.std.specs.Prelude.{◌≡◌, ℕ, Some};
ghost use Rattle.play_meaning.specs.CodedStories.{game_of_codes};
ghost use Rattle.play_meaning.specs.Consulting.{applies};
ghost use Rattle.story_code.specs.Runs.{IsTestAt};
ghost use Rattle.story_format.specs.Carrying.{code_if_some};
ghost use Rattle.action_stages.specs.Answering.{Answers};
ghost use Rattle.action_stages.specs.Applying.{rule_applies, test_answer};
ghost use Rattle.action_stages.specs.Bodies.{AreCodesIn};
ghost use Rattle.world_store.specs.StoryPlay.{coded_story, rule_told};

use crate::aspects::is_about;
use play_meaning::{ActionNow, sound_codes_run};
use std::alloc::Global;
use story_code::{RunState, Verified, read_plain, runs_begin_standing};
use story_format::RuleEntry;
use world_meaning::Abandon;
use world_store::World;

/// The number that stands for no code.
const NONE: u16 = 65535;

/// What the test of a number answers, in a world and an action.
///
/// # Errors
/// Out of range where a number that it works out is, and want of memory.
pub fn test(
    alloc: Global,
    world: &World,
    codes: &[Verified],
    code: u16,
    now: &ActionNow,
) -> Result<bool, Abandon>
    requires told { AreCodesIn codes.now (coded_story world.now.tables) }
    requires test { IsTestAt codes.now code 0 }
    ensures { Answers result (λ is. is) (test_answer world.now.tables now.now code world.now.world) }
{
    runs_begin_standing();
    sound_codes_run();
    let mut state = RunState::new(code, 0);
    let mut text = Vec::new(alloc);
    match read_plain(alloc, world, codes, now, &mut state, &mut text) {
        Ok(truth) => Ok(truth),
        Err(reason) => Err(reason),
    }
}

/// Whether the rule of an entry applies: its condition is looked at last, and only where what it is about is there.
fn entry_applies(
    alloc: Global,
    world: &World,
    codes: &[Verified],
    rule: &RuleEntry,
    now: &ActionNow,
) -> Result<bool, Abandon>
    requires told { AreCodesIn codes.now (coded_story world.now.tables) }
    requires asked { (n : ℕ) → code_if_some rule.now.condition ≡ Some n → IsTestAt codes.now n 0 }
    ensures { Answers result (λ is. is) (rule_applies world.now.tables (rule_told rule.now) now.now world.now.world) }
{
    if !is_about(world, rule, now) {
        return Ok(false);
    }
    if rule.condition == NONE {
        return Ok(true);
    }
    test(alloc, world, codes, rule.condition, now)
}

/// Whether a rule applies, if it is there.
///
/// # Errors
/// Those of its condition.
pub fn applies(
    alloc: Global,
    world: &World,
    codes: &[Verified],
    rule: u16,
    now: &ActionNow,
) -> Result<bool, Abandon>
    requires told { AreCodesIn codes.now (coded_story world.now.tables) }
    ensures { Answers result (λ is. is) (applies (game_of_codes (coded_story world.now.tables)) rule now.now world.now.world) }
{
    match world.story().rule(usize::from(rule)) {
        None => Ok(false),
        Some(entry) => entry_applies(alloc, world, codes, entry, now),
    }
}
