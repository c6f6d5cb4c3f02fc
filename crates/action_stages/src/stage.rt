//! What is done on a stage: rulebooks are consulted, actions performed, tests asked, texts said.
ghost use Rattle.std.specs.Prelude.{◌≡◌, ◌≤◌, Err, OnErr, OnOk};
ghost use Rattle.play_meaning.specs.Acting.{act};
ghost use Rattle.play_meaning.specs.Consulting.{consult};
ghost use Rattle.play_meaning.specs.Progress.{change, fresh, say};
ghost use Rattle.play_meaning.specs.Turns.{count_turn, follow, most_turns, no_action};
ghost use Rattle.play_meaning.specs.Worlds.{set_scene};
ghost use Rattle.standard_rules.specs.HostTables.{rule_count};
ghost use Rattle.story_format.specs.Codes.{AreCodesOf, IsTestOf};
ghost use Rattle.world_meaning.specs.declared.session.Abandon.TheVariants.{Memory, NumberOutOfRange};
ghost use Rattle.world_store.specs.StoryWorlds.{StoryWorld};
ghost use Rattle.action_stages.specs.Answering.{Answers, asked};
ghost use Rattle.action_stages.specs.Applying.{test_answer};
ghost use Rattle.action_stages.specs.Bodies.{AreCodesIn};
ghost use Rattle.action_stages.specs.Performing.{below, ended_so, performed};
ghost use Rattle.action_stages.specs.Returning.{IsThere, back_at, back_to};
ghost use Rattle.action_stages.specs.Stages.{back_of, progress_of, story_of, tables_of};
ghost use Rattle.world_store.specs.StoryPlay.{coded_story, game_in_play};

use crate::acting::{act_in, consult_in};
use crate::conditions::test;
use crate::effects::Rules;
use crate::going::Stage;
use crate::playing::Playing;
use crate::work::Work;
use play_meaning::{ActNo, ActionNow, Outcome, SceneNow, WorldFault};
use rule_index::Index;
use standard_rules::HostTable;
use std::alloc::Global;
use story_code::Verified;
use story_format::Story;
use world_meaning::Abandon;
use world_store::World;

/// The highest turn count.
const MOST_TURNS: u32 = 2_147_483_647;

/// How many levels actions and rulebooks may be nested below a command's own, or below what is done outside an action.
pub const LEVELS: u8 = 16;

/// The action that stands for none.
const NO_ACTION: ActionNow = ActionNow {
    action: ActNo::NONE,
    noun: None,
    second: None,
    silent: false,
};

/// The codes of a story, each sound for what it is named for.
fn codes_of(story: &Story) -> &[Verified]
    ensures told { AreCodesIn result.now (coded_story story.now) }
    ensures codes { AreCodesOf story.now result.now }
{
    story.codes()
}

impl<'a> Stage<'a> {
    /// A stage of a story in this world, to which it may go back, where nothing was said and no work done.
    #[tactic(auto, using(crate::proofs::Returning::back_here, crate::proofs::Returning::there_here))]
    pub fn new(
        alloc: Global,
        story: &'a Story,
        index: &'a Index,
        table: &'a HostTable,
        world: World,
    ) -> Stage<'a>
        requires complete { rule_count table.now ≡ 61 }
        requires index { index.now ≡ story.now }
        requires told { world.tables ≡ story.now }
        ensures story { story_of result ≡ story.now }
        ensures tables { tables_of result ≡ story.now }
        ensures progress { progress_of result ≡ fresh world.world }
        ensures back { back_of result ≡ back_to world }
        ensures there { IsThere (back_of result) }
    {
        let since = world.mark();
        Stage {
            story,
            rules: Rules::new(table),
            world,
            text: Vec::new(alloc),
            work: Work::none(),
            since,
            index,
            tests: 0,
        }
    }

    /// How many rules were asked so far, or the highest number where that is more. No contract says anything of it.
    pub fn tests(&self) -> u64 {
        self.tests
    }

    /// The story that is played.
    pub fn story(&self) -> &'a Story
        ensures { result.now ≡ story_of self.now }
    {
        self.story
    }

    /// What was said.
    pub fn text(&self) -> &[u8]
        ensures { result.now ≡ (progress_of self.now).text }
    {
        self.text.as_slice()
    }

    /// The world that play has come to.
    pub fn world(&self) -> &World
        ensures world { result.now.world ≡ (progress_of self.now).world }
        ensures tables { result.now.tables ≡ tables_of self.now }
    {
        &self.world
    }

    /// The world that play has come to, and what was said, taken out.
    pub fn into_parts(self) -> (World, Vec<u8>)
        ensures world { result.0.world ≡ (progress_of self.entry).world }
        ensures tables { result.0.tables ≡ tables_of self.entry }
        ensures back { back_at (back_of self.entry).since result.0 ≡ back_of self.entry }
        ensures text { result.1.items ≡ (progress_of self.entry).text }
    {
        let Stage { world, text, .. } = self;
        (world, text)
    }

    /// The world that play has come to, taken out.
    pub fn into_world(self) -> World
        ensures world { result.world ≡ (progress_of self.entry).world }
        ensures tables { result.tables ≡ tables_of self.entry }
        ensures back { back_at (back_of self.entry).since result ≡ back_of self.entry }
    {
        let Stage { world, .. } = self;
        world
    }

    /// The world as it was when the stage was set up, taken out. Takes no memory.
    #[tactic(auto, using(crate::proofs::Returning::back_again, crate::proofs::Returning::there_within))]
    pub fn into_world_before(self) -> World
        requires there { IsThere (back_of self) }
        ensures { (before : StoryWorld) → tables_of self.entry ≡ before.tables → back_of self.entry ≡ back_to before → result ≡ before }
    {
        let Stage {
            mut world,
            since,
            ..
        } = self;
        world.revert(since);
        world
    }
}

/// Consults a rulebook in an action, with so many levels left below: its rules in order, each asked in the world of its
/// moment, up to the first decision (*Writing with Inform*, chapter 19).
///
/// # Errors
/// Nested too deep, too much work and out of range as the meaning of the story's rules has it, and want of memory. The stage
/// holds some world of the story then.
pub fn consult(
    alloc: Global,
    stage: &mut Stage<'_>,
    book: u16,
    now: &ActionNow,
    depth: u8,
) -> Result<Option<Outcome>, Abandon>
    requires told { tables_of stage.old ≡ story_of stage.old }
    requires there { IsThere (back_of stage.old) }
    requires depth { depth ≤ 16 }
    ensures answer { Answers result (asked (progress_of stage.new)) (consult (game_in_play (story_of stage.old)) (below (story_of stage.old) depth) book now.now (progress_of stage.old)) }
    ensures story { story_of stage.new ≡ story_of stage.old }
    ensures tables { tables_of stage.new ≡ story_of stage.old }
    ensures back { back_of stage.new ≡ back_of stage.old }
{
    let codes = codes_of(stage.story);
    consult_in(alloc, codes, stage, book, now, depth)
}

/// Follows a rulebook outside an action: its decision is dropped.
///
/// # Errors
/// As `consult`.
#[tactic(auto, using(crate::proofs::Following::followed_so, crate::proofs::Following::followed_not))]
pub fn follow(alloc: Global, stage: &mut Stage<'_>, book: u16) -> Result<(), Abandon>
    requires told { tables_of stage.old ≡ story_of stage.old }
    requires there { IsThere (back_of stage.old) }
    ensures answer { Answers result (λ done. progress_of stage.new) (follow (game_in_play (story_of stage.old)) book (progress_of stage.old)) }
    ensures story { story_of stage.new ≡ story_of stage.old }
    ensures tables { tables_of stage.new ≡ story_of stage.old }
    ensures back { back_of stage.new ≡ back_of stage.old }
{
    consult(alloc, stage, book, &NO_ACTION, LEVELS)?;
    Ok(())
}

/// Performs an action, with so many levels left below: its stages in order, up to the first decision; an action that nothing
/// decides succeeds (*Writing with Inform*, chapter 12).
///
/// # Errors
/// As `consult`.
pub fn perform(
    alloc: Global,
    stage: &mut Stage<'_>,
    now: ActionNow,
    depth: u8,
) -> Result<Outcome, Abandon>
    requires told { tables_of stage.old ≡ story_of stage.old }
    requires there { IsThere (back_of stage.old) }
    requires depth { depth ≤ 16 }
    ensures answer { Answers result (ended_so (progress_of stage.new)) (performed (act (game_in_play (story_of stage.old)) (below (story_of stage.old) depth) now (progress_of stage.old))) }
    ensures story { story_of stage.new ≡ story_of stage.old }
    ensures tables { tables_of stage.new ≡ story_of stage.old }
    ensures back { back_of stage.new ≡ back_of stage.old }
{
    let codes = codes_of(stage.story);
    match act_in(alloc, codes, stage, &now, depth)? {
        None => Ok(Outcome::Success),
        Some(outcome) => Ok(outcome),
    }
}

/// Counts the turn, if there is a number for it.
///
/// # Errors
/// Out of range, exactly at the highest count, and below it want of memory for taking the count back; nothing is counted then.
pub fn count_turn(stage: &mut Stage<'_>) -> Result<(), Abandon>
    requires there { IsThere (back_of stage.old) }
    ensures answer { Answers result (λ done. progress_of stage.new) (count_turn (progress_of stage.old)) }
    ensures last { most_turns ≤ (progress_of stage.old).world.turns → result ≡ Err NumberOutOfRange }
    ensures left { OnErr result (progress_of stage.new ≡ progress_of stage.old) }
    ensures story { story_of stage.new ≡ story_of stage.old }
    ensures tables { tables_of stage.new ≡ tables_of stage.old }
    ensures back { back_of stage.new ≡ back_of stage.old }
{
    if stage.world.turns() >= MOST_TURNS {
        return Err(Abandon::NumberOutOfRange);
    }
    match stage.world.next_turn() {
        Ok(()) => Ok(()),
        Err(_) => Err(Abandon::Memory),
    }
}

/// Sets where a scene stands.
///
/// # Errors
/// Want of memory for taking that back; nothing is set then.
pub fn set_scene(stage: &mut Stage<'_>, scene: u8, now: SceneNow) -> Result<(), Abandon>
    requires there { IsThere (back_of stage.old) }
    ensures set { OnOk result (progress_of stage.new ≡ change (set_scene scene now) (progress_of stage.old)) }
    ensures refused { OnErr result ((result ≡ Err Memory) × (progress_of stage.new ≡ progress_of stage.old)) }
    ensures story { story_of stage.new ≡ story_of stage.old }
    ensures tables { tables_of stage.new ≡ tables_of stage.old }
    ensures back { back_of stage.new ≡ back_of stage.old }
{
    match stage.world.set_scene(scene, now) {
        Err(WorldFault::Memory) => Err(Abandon::Memory),
        _ => Ok(()),
    }
}

/// What a test of the story answers, outside an action. Nothing is said or done.
///
/// # Errors
/// Out of range where a number that the test works out is, and want of memory.
pub fn holds(alloc: Global, stage: &mut Stage<'_>, code: u16) -> Result<bool, Abandon>
    requires told { tables_of stage.old ≡ story_of stage.old }
    requires test { IsTestOf (story_of stage.old) code }
    ensures answer { Answers result (λ is. is) (test_answer (story_of stage.old) no_action code (progress_of stage.old).world) }
    ensures story { story_of stage.new ≡ story_of stage.old }
    ensures tables { tables_of stage.new ≡ story_of stage.old }
    ensures back { back_of stage.new ≡ back_of stage.old }
    ensures progress { progress_of stage.new ≡ progress_of stage.old }
{
    let codes = codes_of(stage.story);
    test(alloc, &stage.world, codes, code, &NO_ACTION)
}

/// Adds to the text.
///
/// # Errors
/// Want of memory alone; nothing is added then.
pub fn say(_alloc: Global, stage: &mut Stage<'_>, text: &[u8]) -> Result<(), Abandon>
    ensures said { OnOk result (progress_of stage.new ≡ say text.now (progress_of stage.old)) }
    ensures refused { OnErr result ((result ≡ Err Memory) × (progress_of stage.new ≡ progress_of stage.old)) }
    ensures story { story_of stage.new ≡ story_of stage.old }
    ensures tables { tables_of stage.new ≡ tables_of stage.old }
    ensures back { back_of stage.new ≡ back_of stage.old }
{
    Playing::say(stage, text)
}
