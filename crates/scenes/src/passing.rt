//! A scene pass: each scene once, in the order of the source, ends and begins where its conditions hold.
ghost use Rattle.std.specs.Prelude.{◌≡◌, ◌==◌, IfSome, false, slice_get, true};
ghost use Rattle.play_meaning.specs.CodedStories.{answer_or};
ghost use Rattle.play_meaning.specs.Turns.{beginning_of, begins_book, ending_of, ends_book, no_action, pass, set_and_follow};
ghost use Rattle.story_format.specs.Carrying.{code_if_some};
ghost use Rattle.story_format.specs.Codes.{codes_told};
ghost use Rattle.world_store.specs.StorySettings.{setting_of};
ghost use Rattle.action_stages.specs.Answering.{Answers};
ghost use Rattle.action_stages.specs.Returning.{IsThere};
ghost use Rattle.action_stages.specs.Stages.{back_of, progress_of, story_of, tables_of};
ghost use Rattle.world_store.specs.StoryPlay.{game_in_play};
ghost use Rattle.scenes.specs.Passes.{IsSceneOf, IsTestIfSome, begins_now, ends_now, in_turn, may_begin};

use action_stages::{Stage, follow, holds, set_scene};
use play_meaning::SceneNow;
use play_meaning::standard_books::{SCENE_BEGINS, SCENE_ENDS};
use std::alloc::Global;
use story_format::SceneEntry;
use world_meaning::Abandon;

/// The number that stands for no code.
const NONE: u16 = 65535;

/// A scene that happens.
const HAPPENS: SceneNow = SceneNow {
    happens: true,
    has_begun: true,
};

/// A scene that has ended.
const ENDED: SceneNow = SceneNow {
    happens: false,
    has_begun: true,
};

/// The rulebook that is followed where a scene begins.
fn begins_book(scene: u8) -> u16
    ensures { result ≡ begins_book scene }
{
    SCENE_BEGINS + 2 * u16::from(scene)
}

/// The rulebook that is followed where a scene ends.
fn ends_book(scene: u8) -> u16
    ensures { result ≡ ends_book scene }
{
    SCENE_ENDS + 2 * u16::from(scene)
}

/// The entry of a scene of the story, if it is there.
fn entry_of(stage: &Stage<'_>, scene: u8) -> Option<SceneEntry>
    requires told { tables_of stage.now ≡ story_of stage.now }
    ensures there { result ≡ slice_get (story_of stage.now).rules.scenes scene }
    ensures entry { IfSome result (λ entry. IsSceneOf (story_of stage.now) scene entry) }
{
    match stage.world().story().scene(usize::from(scene)) {
        None => None,
        Some(entry) => Some(*entry),
    }
}

/// Whether the condition of a number holds; where there is none, it doesn't.
fn holds_if_some(alloc: Global, stage: &mut Stage<'_>, code: u16) -> Result<bool, Abandon>
    requires told { tables_of stage.old ≡ story_of stage.old }
    requires test { IsTestIfSome (story_of stage.old) (code_if_some code) }
    ensures answer { Answers result (λ is. is) (answer_or false (codes_told (story_of stage.old)) (setting_of (story_of stage.old)) no_action (progress_of stage.old).world (code_if_some code)) }
    ensures story { story_of stage.new ≡ story_of stage.old }
    ensures tables { tables_of stage.new ≡ story_of stage.old }
    ensures back { back_of stage.new ≡ back_of stage.old }
    ensures progress { progress_of stage.new ≡ progress_of stage.old }
{
    if code == NONE {
        return Ok(false);
    }
    holds(alloc, stage, code)
}

/// Whether a scene ends now: it happens, and its condition holds.
fn ends_now(
    alloc: Global,
    stage: &mut Stage<'_>,
    scene: u8,
    entry: &SceneEntry,
) -> Result<bool, Abandon>
    requires told { tables_of stage.old ≡ story_of stage.old }
    requires entry { IsSceneOf (story_of stage.old) scene entry.now }
    ensures answer { Answers result (λ is. is) (ends_now (story_of stage.old) scene entry.now (progress_of stage.old).world) }
    ensures story { story_of stage.new ≡ story_of stage.old }
    ensures tables { tables_of stage.new ≡ story_of stage.old }
    ensures back { back_of stage.new ≡ back_of stage.old }
    ensures progress { progress_of stage.new ≡ progress_of stage.old }
{
    if !stage.world().scene(scene).happens {
        return Ok(false);
    }
    holds_if_some(alloc, stage, entry.ends)
}

/// Whether the condition of a scene that doesn't happen holds, so that it begins if it may.
fn begins_now(
    alloc: Global,
    stage: &mut Stage<'_>,
    scene: u8,
    entry: &SceneEntry,
) -> Result<bool, Abandon>
    requires told { tables_of stage.old ≡ story_of stage.old }
    requires entry { IsSceneOf (story_of stage.old) scene entry.now }
    ensures answer { Answers result (λ is. is) (begins_now (story_of stage.old) scene entry.now (progress_of stage.old).world) }
    ensures story { story_of stage.new ≡ story_of stage.old }
    ensures tables { tables_of stage.new ≡ story_of stage.old }
    ensures back { back_of stage.new ≡ back_of stage.old }
    ensures progress { progress_of stage.new ≡ progress_of stage.old }
{
    if stage.world().scene(scene).happens {
        return Ok(false);
    }
    holds_if_some(alloc, stage, entry.begins)
}

/// Sets where a scene stands, and follows the rulebook of that.
fn set_and_follow(
    alloc: Global,
    stage: &mut Stage<'_>,
    scene: u8,
    now: SceneNow,
    book: u16,
) -> Result<(), Abandon>
    requires told { tables_of stage.old ≡ story_of stage.old }
    requires there { IsThere (back_of stage.old) }
    ensures answer { Answers result (λ done. progress_of stage.new) (set_and_follow true (game_in_play (story_of stage.old)) scene now book (progress_of stage.old)) }
    ensures story { story_of stage.new ≡ story_of stage.old }
    ensures tables { tables_of stage.new ≡ story_of stage.old }
    ensures back { back_of stage.new ≡ back_of stage.old }
{
    set_scene(stage, scene, now)?;
    follow(alloc, stage, book)
}

/// Ends a scene that happens, where its condition holds.
fn end_if_due(
    alloc: Global,
    stage: &mut Stage<'_>,
    scene: u8,
    entry: &SceneEntry,
) -> Result<(), Abandon>
    requires told { tables_of stage.old ≡ story_of stage.old }
    requires there { IsThere (back_of stage.old) }
    requires entry { IsSceneOf (story_of stage.old) scene entry.now }
    ensures answer { Answers result (λ done. progress_of stage.new) (ending_of (game_in_play (story_of stage.old)) scene (progress_of stage.old)) }
    ensures story { story_of stage.new ≡ story_of stage.old }
    ensures tables { tables_of stage.new ≡ story_of stage.old }
    ensures back { back_of stage.new ≡ back_of stage.old }
{
    if !ends_now(alloc, stage, scene, entry)? {
        return Ok(());
    }
    set_and_follow(alloc, stage, scene, ENDED, ends_book(scene))
}

/// Whether a scene may begin: it recurs, or it never began.
fn may_begin(stage: &Stage<'_>, scene: u8, entry: &SceneEntry) -> bool
    ensures { result ≡ may_begin scene entry.now (progress_of stage.now).world }
{
    entry.recurring == 1 || !stage.world().scene(scene).has_begun
}

/// Begins a scene that doesn't happen, where its condition holds and it may begin.
#[tactic(auto, using(crate::proofs::Scenes::beginning_rules))]
fn begin_if_due(
    alloc: Global,
    stage: &mut Stage<'_>,
    scene: u8,
    entry: &SceneEntry,
) -> Result<(), Abandon>
    requires told { tables_of stage.old ≡ story_of stage.old }
    requires there { IsThere (back_of stage.old) }
    requires entry { IsSceneOf (story_of stage.old) scene entry.now }
    ensures answer { Answers result (λ done. progress_of stage.new) (beginning_of (game_in_play (story_of stage.old)) (entry.now.recurring == 1) scene (progress_of stage.old)) }
    ensures story { story_of stage.new ≡ story_of stage.old }
    ensures tables { tables_of stage.new ≡ story_of stage.old }
    ensures back { back_of stage.new ≡ back_of stage.old }
{
    let begins = begins_now(alloc, stage, scene, entry)?;
    if !begins || !may_begin(stage, scene, entry) {
        return Ok(());
    }
    set_and_follow(alloc, stage, scene, HAPPENS, begins_book(scene))
}

/// A scene's turn in a pass: it ends, and then it begins, each where that is due.
#[tactic(auto, using(crate::proofs::Scenes::turn_rules))]
fn in_turn(alloc: Global, stage: &mut Stage<'_>, scene: u8) -> Result<(), Abandon>
    requires told { tables_of stage.old ≡ story_of stage.old }
    requires there { IsThere (back_of stage.old) }
    ensures answer { Answers result (λ done. progress_of stage.new) (in_turn (game_in_play (story_of stage.old)) scene (slice_get (story_of stage.old).rules.scenes scene) (progress_of stage.old)) }
    ensures story { story_of stage.new ≡ story_of stage.old }
    ensures tables { tables_of stage.new ≡ story_of stage.old }
    ensures back { back_of stage.new ≡ back_of stage.old }
{
    let Some(entry) = entry_of(stage, scene) else {
        return Ok(());
    };
    end_if_due(alloc, stage, scene, &entry)?;
    begin_if_due(alloc, stage, scene, &entry)
}

/// A scene pass: each scene once, in the order of the source; one that happens ends where its condition holds and its ends
/// rules are followed, and one that doesn't begins where its condition holds and it recurs or never began, and its begins
/// rules are followed (*Writing with Inform*, chapter 10).
///
/// # Errors
/// As `consult`, and out of range where a number that a condition works out is, also of a scene that can't begin again.
#[tactic(auto, using(crate::proofs::Scenes::pass_rules))]
pub fn pass(alloc: Global, stage: &mut Stage<'_>) -> Result<(), Abandon>
    requires told { tables_of stage.old ≡ story_of stage.old }
    requires there { IsThere (back_of stage.old) }
    ensures answer { Answers result (λ done. progress_of stage.new) (pass (game_in_play (story_of stage.old)) (progress_of stage.old)) }
    ensures story { story_of stage.new ≡ story_of stage.old }
    ensures tables { tables_of stage.new ≡ story_of stage.old }
    ensures back { back_of stage.new ≡ back_of stage.old }
{
    let count = stage.world().story().scene_count();
    for scene in 0..count as u8 {
        in_turn(alloc, stage, scene)?;
    }
    Ok(())
}
