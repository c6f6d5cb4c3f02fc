//! Play from a world, the opening or what a command does, and what is told of it.
ghost use Rattle.std.specs.Prelude.{◌≡◌, ◌≢◌, ◌<◌, ◌+◌, IfErr, IfOk, OnErr, OnOk};
ghost use Rattle.play_meaning.specs.Progress.{fresh};
ghost use Rattle.play_meaning.specs.Sessions.{abandon_text, parted_by_break};
ghost use Rattle.standard_rules.specs.HostTables.{rule_count};
ghost use Rattle.world_meaning.specs.declared.session.Abandon.TheVariants.{Memory};
ghost use Rattle.world_store.specs.StoryWorlds.{StoryWorld};
ghost use Rattle.action_stages.specs.Returning.{ComesBehind, IsThere, back_at, back_to};
ghost use Rattle.action_stages.specs.Stages.{back_of, progress_of, tables_of};
ghost use Rattle.world_store.specs.StoryPlay.{game_in_play};
ghost use Rattle.story_player.specs.Begun.{IsBegun};
ghost use Rattle.story_player.specs.Turns.{IsTried, done_by, told_text};

use crate::deed::{Deed, done};
use crate::fault::StartFault;
use crate::line_text::LineText;
use crate::telling::{abandon_text, tell};
use action_stages::Stage;
use rule_index::Index;
use standard_rules::HostTable;
use std::alloc::Global;
use std::rc::Rc;
use story_format::Story;
use world_meaning::Abandon;
use world_store::{Mark, World};

/// A world that play has come to, and what is told of it.
#[derive(Drop)]
pub(crate) struct Told {
    pub(crate) world: World,
    pub(crate) text: LineText,
}

/// Tells where play has come to the end of what was done, which was taken up at this place of the world's log; where memory is
/// refused to that, the world is as it was there.
#[tactic(auto, using(action_stages::proofs::Returning::back_again, action_stages::proofs::Returning::there_within))]
fn tell_of(stage: Stage<'_>, mark: Mark, text: &mut LineText) -> (World, Result<(), Abandon>)
    requires mark { mark ≡ (back_of stage).since }
    requires there { IsThere (back_of stage) }
    requires room { 0 < text.old.left }
    ensures text { OnOk result.1 (text.new.said ≡ parted_by_break text.old.said (told_text (progress_of stage.entry).text (progress_of stage.entry).world.ended)) }
    ensures room { OnOk result.1 (text.new.left + 1 ≡ text.old.left) }
    ensures world { OnOk result.1 (result.0.world ≡ (progress_of stage.entry).world) }
    ensures back { OnOk result.1 (back_at mark result.0 ≡ back_of stage.entry) }
    ensures story { result.0.tables ≡ tables_of stage.entry }
    ensures refused { IfErr result.1 (λ reason. reason ≡ Memory) }
    ensures same { OnErr result.1 (text.new ≡ text.old) }
    ensures left { OnErr result.1 ((before : StoryWorld) → tables_of stage.entry ≡ before.tables → back_of stage.entry ≡ back_to before → result.0 ≡ before) }
{
    let (mut world, said) = stage.into_parts();
    match tell(said, world.ended(), text) {
        Ok(()) => (world, Ok(())),
        Err(reason) => {
            world.revert(mark);
            (world, Err(reason))
        }
    }
}

/// Does something on a world, and tells of it; where it is abandoned nothing is told, and the world is as it was.
pub(crate) fn tried(
    alloc: Global,
    story: &Story,
    index: &Index,
    hosts: &HostTable,
    world: World,
    deed: &Deed,
    text: &mut LineText,
) -> (World, Result<(), Abandon>)
    requires whole { rule_count hosts.now ≡ 61 }
    requires told { world.tables ≡ story.now }
    requires index { index.now ≡ story.now }
    requires room { 0 < text.old.left }
    ensures told { IsTried result.1 (done_by deed.now (game_in_play story.now) (fresh world.world)) result.0.world text.old.said text.new.said }
    ensures room { OnOk result.1 (text.new.left + 1 ≡ text.old.left) }
    ensures same { OnErr result.1 (text.new ≡ text.old) }
    ensures story { result.0.tables ≡ story.now }
    ensures behind { OnOk result.1 (ComesBehind world result.0) }
    ensures left { OnErr result.1 (result.0 ≡ world) }
{
    let mark = world.mark();
    let mut stage = Stage::new(alloc, story, index, hosts, world);
    match done(alloc, &mut stage, deed) {
        Ok(()) => tell_of(stage, mark, text),
        Err(reason) => (stage.into_world_before(), Err(reason)),
    }
}

/// Says that the opening was abandoned, unless that was for want of memory.
fn say_unopened(reason: Abandon, text: &mut LineText) -> Result<(), StartFault>
    requires room { 0 < text.old.left }
    ensures known { OnOk result (reason ≢ Memory) }
    ensures said { OnOk result (text.new.said ≡ parted_by_break text.old.said (abandon_text reason)) }
    ensures refused { IfErr result (λ fault. fault ≡ StartFault.Memory) }
{
    if reason == Abandon::Memory {
        return Err(StartFault::Memory);
    }
    text.add_fixed(abandon_text(reason));
    Ok(())
}

/// A world and a text with which a story begins. An opening that is abandoned leaves the start world.
pub(crate) fn opened(
    alloc: Global,
    story: &Rc<Story>,
    index: &Index,
    hosts: &HostTable,
) -> Result<Told, StartFault>
    requires whole { rule_count hosts.now ≡ 61 }
    requires index { index.now ≡ story.now.value }
    ensures begun { IfOk result (λ told. IsBegun story.now.value told.world told.text.said) }
    ensures refused { IfErr result (λ fault. fault ≡ StartFault.Memory) }
{
    let Ok(world) = World::start(alloc, story) else {
        return Err(StartFault::Memory);
    };
    let mut text = LineText::new(alloc);
    let (world, told) = tried(
        alloc,
        story.as_ref(),
        index,
        hosts,
        world,
        &Deed::Opening,
        &mut text,
    );
    match told {
        Ok(()) => Ok(Told { world, text }),
        Err(reason) => {
            say_unopened(reason, &mut text)?;
            Ok(Told { world, text })
        }
    }
}
