//! A turn of an action on several things: the action on each of them, behind its name, and the rest of a turn once.
ghost use Rattle.std.specs.Prelude.{◌≡◌, Err, OnErr, OnOk, map};
ghost use Rattle.play_meaning.specs.Progress.{say};
ghost use Rattle.play_meaning.specs.Turns.{completed, name_first, parts, perform_upon, turn_upon, unless_over, upon};
ghost use Rattle.action_stages.specs.Answering.{Answers};
ghost use Rattle.action_stages.specs.Returning.{IsThere};
ghost use Rattle.action_stages.specs.Stages.{back_of, progress_of, story_of, tables_of};
ghost use Rattle.world_meaning.specs.declared.session.Abandon.TheVariants.{Memory};
ghost use Rattle.world_store.specs.StoryPlay.{game_in_play};

use crate::telling::lacks_break;
use crate::turns::{act, behind_action};
use action_stages::{Stage, say};
use play_meaning::{ActNo, ActionNow};
use std::alloc::Global;
use world_meaning::{Abandon, ObjNo};

/// The action upon a thing.
fn upon(action: ActNo, object: ObjNo) -> ActionNow
    ensures { result ≡ upon action object }
{
    ActionNow {
        action,
        noun: Some(object),
        second: None,
        silent: false,
    }
}

/// Says the name of an object, as what is done to it is told of.
fn say_name_first(alloc: Global, stage: &mut Stage<'_>, object: ObjNo) -> Result<(), Abandon>
    requires told { tables_of stage.old ≡ story_of stage.old }
    ensures said { OnOk result (progress_of stage.new ≡ say (name_first (game_in_play (story_of stage.old)) object) (progress_of stage.old)) }
    ensures refused { OnErr result (result ≡ Err Memory) }
    ensures story { story_of stage.new ≡ story_of stage.old }
    ensures tables { tables_of stage.new ≡ story_of stage.old }
    ensures back { back_of stage.new ≡ back_of stage.old }
{
    say(alloc, stage, stage.story().name(object))?;
    say(alloc, stage, b": ")?;
    Ok(())
}

/// Ends the line of what is said.
fn end_line(alloc: Global, stage: &mut Stage<'_>) -> Result<(), Abandon>
    requires told { tables_of stage.old ≡ story_of stage.old }
    ensures said { OnOk result (progress_of stage.new ≡ record (progress_of stage.old) { text = completed (progress_of stage.old).text }) }
    ensures refused { OnErr result (result ≡ Err Memory) }
    ensures story { story_of stage.new ≡ story_of stage.old }
    ensures tables { tables_of stage.new ≡ story_of stage.old }
    ensures back { back_of stage.new ≡ back_of stage.old }
{
    if lacks_break(stage.text()) {
        say(alloc, stage, b"\n")?;
    }
    Ok(())
}

/// Performs an action on one of several things, behind its name, on lines of its own.
fn act_upon(
    alloc: Global,
    stage: &mut Stage<'_>,
    action: ActNo,
    object: ObjNo,
) -> Result<(), Abandon>
    requires told { tables_of stage.old ≡ story_of stage.old }
    requires there { IsThere (back_of stage.old) }
    ensures answer { Answers result (λ done. progress_of stage.new) (perform_upon (game_in_play (story_of stage.old)) action object (progress_of stage.old)) }
    ensures story { story_of stage.new ≡ story_of stage.old }
    ensures tables { tables_of stage.new ≡ story_of stage.old }
    ensures back { back_of stage.new ≡ back_of stage.old }
{
    say_name_first(alloc, stage, object)?;
    act(alloc, stage, upon(action, object))?;
    end_line(alloc, stage)?;
    Ok(())
}

/// Performs an action on one of several things, unless the story has ended.
fn act_upon_unless_over(
    alloc: Global,
    stage: &mut Stage<'_>,
    action: ActNo,
    object: ObjNo,
) -> Result<(), Abandon>
    requires told { tables_of stage.old ≡ story_of stage.old }
    requires there { IsThere (back_of stage.old) }
    ensures answer { Answers result (λ done. progress_of stage.new)
        (unless_over (progress_of stage.old).world.ended (perform_upon (game_in_play (story_of stage.old)) action object) (progress_of stage.old)) }
    ensures story { story_of stage.new ≡ story_of stage.old }
    ensures tables { tables_of stage.new ≡ story_of stage.old }
    ensures back { back_of stage.new ≡ back_of stage.old }
{
    match stage.world().ended() {
        Some(_) => Ok(()),
        None => Ok(act_upon(alloc, stage, action, object)?),
    }
}

/// Performs an action on each of several things, up to the story's end.
fn act_upon_each(
    alloc: Global,
    stage: &mut Stage<'_>,
    action: ActNo,
    objects: &[ObjNo],
) -> Result<(), Abandon>
    requires told { tables_of stage.old ≡ story_of stage.old }
    requires there { IsThere (back_of stage.old) }
    ensures answer { Answers result (λ done. progress_of stage.new) (parts (map (perform_upon (game_in_play (story_of stage.old)) action) objects.now) (progress_of stage.old)) }
    ensures story { story_of stage.new ≡ story_of stage.old }
    ensures tables { tables_of stage.new ≡ story_of stage.old }
    ensures back { back_of stage.new ≡ back_of stage.old }
{
    let mut rest = objects;
    while let [object, after @ ..] = rest {
        act_upon_unless_over(alloc, stage, action, *object)?;
        rest = after;
    }
    Ok(())
}

/// A turn of an action on several things: the action on each, and what follows an action, once.
#[tactic(auto, using(crate::proofs::Parts::all_rules))]
pub(crate) fn turn_upon(
    alloc: Global,
    stage: &mut Stage<'_>,
    action: ActNo,
    objects: &[ObjNo],
) -> Result<(), Abandon>
    requires told { tables_of stage.old ≡ story_of stage.old }
    requires there { IsThere (back_of stage.old) }
    ensures answer { Answers result (λ done. progress_of stage.new) (turn_upon (game_in_play (story_of stage.old)) action objects.now (progress_of stage.old)) }
    ensures story { story_of stage.new ≡ story_of stage.old }
    ensures tables { tables_of stage.new ≡ story_of stage.old }
    ensures back { back_of stage.new ≡ back_of stage.old }
{
    act_upon_each(alloc, stage, action, objects)?;
    behind_action(alloc, stage)?;
    Ok(())
}
