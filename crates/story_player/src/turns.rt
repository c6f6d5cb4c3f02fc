//! Turns and the opening over a stage: their parts in order, each of which is skipped once the story has ended.
ghost use Rattle.std.specs.Prelude.{◌≡◌, ◌≤◌, [], ◌∷◌, Err, None, Ok};
ghost use Rattle.play_meaning.specs.Consulting.{every_turn_book};
ghost use Rattle.play_meaning.specs.Turns.{behind_action, count_turn, follow, look_round, most_turns, opening, parts, pass, perform, turn, unless_over};
ghost use Rattle.action_stages.specs.Answering.{Answers};
ghost use Rattle.action_stages.specs.Returning.{IsThere};
ghost use Rattle.action_stages.specs.Stages.{back_of, progress_of, story_of, tables_of};
ghost use Rattle.world_meaning.specs.declared.session.Abandon.TheVariants.{NumberOutOfRange};
ghost use Rattle.world_store.specs.StoryPlay.{game_in_play};
ghost use Rattle.story_player.specs.Begun.{begin_play};

use action_stages::{LEVELS, Stage, count_turn, follow, perform};
use play_meaning::standard_actions::LOOKING;
use play_meaning::standard_books::{EVERY_TURN, PLAY_BEGINS};
use play_meaning::{ActNo, ActionNow};
use scenes::pass;
use std::alloc::Global;
use world_meaning::Abandon;

/// The action of looking round.
fn look_round() -> ActionNow
    ensures { result ≡ look_round }
{
    ActionNow {
        action: ActNo::new(LOOKING),
        noun: None,
        second: None,
        silent: false,
    }
}

/// Performs an action.
#[tactic(auto, using(crate::proofs::Parts::performed_so, crate::proofs::Parts::performed_not))]
pub(crate) fn act(alloc: Global, stage: &mut Stage<'_>, now: ActionNow) -> Result<(), Abandon>
    requires told { tables_of stage.old ≡ story_of stage.old }
    requires there { IsThere (back_of stage.old) }
    ensures answer { Answers result (λ done. progress_of stage.new) (perform (game_in_play (story_of stage.old)) now (progress_of stage.old)) }
    ensures story { story_of stage.new ≡ story_of stage.old }
    ensures tables { tables_of stage.new ≡ story_of stage.old }
    ensures back { back_of stage.new ≡ back_of stage.old }
{
    perform(alloc, stage, now, LEVELS)?;
    Ok(())
}

/// Performs an action, unless the story has ended.
fn act_unless_over(alloc: Global, stage: &mut Stage<'_>, now: ActionNow) -> Result<(), Abandon>
    requires told { tables_of stage.old ≡ story_of stage.old }
    requires there { IsThere (back_of stage.old) }
    ensures answer { Answers result (λ done. progress_of stage.new) (unless_over (progress_of stage.old).world.ended (perform (game_in_play (story_of stage.old)) now) (progress_of stage.old)) }
    ensures story { story_of stage.new ≡ story_of stage.old }
    ensures tables { tables_of stage.new ≡ story_of stage.old }
    ensures back { back_of stage.new ≡ back_of stage.old }
{
    match stage.world().ended() {
        Some(_) => Ok(()),
        None => Ok(act(alloc, stage, now)?),
    }
}

/// Follows a rulebook, unless the story has ended.
fn follow_unless_over(alloc: Global, stage: &mut Stage<'_>, book: u16) -> Result<(), Abandon>
    requires told { tables_of stage.old ≡ story_of stage.old }
    requires there { IsThere (back_of stage.old) }
    ensures answer { Answers result (λ done. progress_of stage.new) (unless_over (progress_of stage.old).world.ended (follow (game_in_play (story_of stage.old)) book) (progress_of stage.old)) }
    ensures story { story_of stage.new ≡ story_of stage.old }
    ensures tables { tables_of stage.new ≡ story_of stage.old }
    ensures back { back_of stage.new ≡ back_of stage.old }
{
    match stage.world().ended() {
        Some(_) => Ok(()),
        None => Ok(follow(alloc, stage, book)?),
    }
}

/// Makes a scene pass, unless the story has ended.
fn pass_unless_over(alloc: Global, stage: &mut Stage<'_>) -> Result<(), Abandon>
    requires told { tables_of stage.old ≡ story_of stage.old }
    requires there { IsThere (back_of stage.old) }
    ensures answer { Answers result (λ done. progress_of stage.new) (unless_over (progress_of stage.old).world.ended (pass (game_in_play (story_of stage.old))) (progress_of stage.old)) }
    ensures story { story_of stage.new ≡ story_of stage.old }
    ensures tables { tables_of stage.new ≡ story_of stage.old }
    ensures back { back_of stage.new ≡ back_of stage.old }
{
    match stage.world().ended() {
        Some(_) => Ok(()),
        None => Ok(pass(alloc, stage)?),
    }
}

/// Counts the turn, unless the story has ended. Where there is no number for it, it is out of range.
fn count_unless_over(stage: &mut Stage<'_>) -> Result<(), Abandon>
    requires told { tables_of stage.old ≡ story_of stage.old }
    requires there { IsThere (back_of stage.old) }
    ensures answer { Answers result (λ done. progress_of stage.new) (unless_over (progress_of stage.old).world.ended count_turn (progress_of stage.old)) }
    ensures last { (progress_of stage.old).world.ended ≡ None → most_turns ≤ (progress_of stage.old).world.turns → result ≡ Err NumberOutOfRange }
    ensures story { story_of stage.new ≡ story_of stage.old }
    ensures tables { tables_of stage.new ≡ story_of stage.old }
    ensures back { back_of stage.new ≡ back_of stage.old }
{
    match stage.world().ended() {
        Some(_) => Ok(()),
        None => Ok(count_turn(stage)?),
    }
}

/// The parts of a turn behind its first scene pass: the every turn rules, the count, and the second scene pass.
#[tactic(auto, using(crate::proofs::Parts::parts_rules))]
fn behind_pass(alloc: Global, stage: &mut Stage<'_>) -> Result<(), Abandon>
    requires told { tables_of stage.old ≡ story_of stage.old }
    requires there { IsThere (back_of stage.old) }
    ensures answer { Answers result (λ done. progress_of stage.new)
        (parts (follow (game_in_play (story_of stage.old)) every_turn_book ∷ count_turn ∷ pass (game_in_play (story_of stage.old)) ∷ []) (progress_of stage.old)) }
    ensures story { story_of stage.new ≡ story_of stage.old }
    ensures tables { tables_of stage.new ≡ story_of stage.old }
    ensures back { back_of stage.new ≡ back_of stage.old }
{
    follow_unless_over(alloc, stage, EVERY_TURN)?;
    count_unless_over(stage)?;
    pass_unless_over(alloc, stage)?;
    Ok(())
}

/// The parts of a turn behind its action: a scene pass, and those behind it.
#[tactic(auto, using(crate::proofs::Parts::behind_rules))]
pub(crate) fn behind_action(alloc: Global, stage: &mut Stage<'_>) -> Result<(), Abandon>
    requires told { tables_of stage.old ≡ story_of stage.old }
    requires there { IsThere (back_of stage.old) }
    ensures answer { Answers result (λ done. progress_of stage.new)
        (parts (behind_action (game_in_play (story_of stage.old))) (progress_of stage.old)) }
    ensures story { story_of stage.new ≡ story_of stage.old }
    ensures tables { tables_of stage.new ≡ story_of stage.old }
    ensures back { back_of stage.new ≡ back_of stage.old }
{
    pass_unless_over(alloc, stage)?;
    behind_pass(alloc, stage)?;
    Ok(())
}

/// A turn: the action, a scene pass, the every turn rules, the count, a scene pass (*Writing with Inform*, chapters 9 and 10).
#[tactic(auto, using(crate::proofs::Parts::behind_rules), unfolding(play_meaning::specs::Turns::turn))]
pub(crate) fn turn(alloc: Global, stage: &mut Stage<'_>, now: ActionNow) -> Result<(), Abandon>
    requires told { tables_of stage.old ≡ story_of stage.old }
    requires there { IsThere (back_of stage.old) }
    ensures answer { Answers result (λ done. progress_of stage.new) (turn (game_in_play (story_of stage.old)) now (progress_of stage.old)) }
    ensures story { story_of stage.new ≡ story_of stage.old }
    ensures tables { tables_of stage.new ≡ story_of stage.old }
    ensures back { back_of stage.new ≡ back_of stage.old }
{
    act_unless_over(alloc, stage, now)?;
    behind_action(alloc, stage)?;
    Ok(())
}

/// The parts of the opening behind its scene pass: the rules of when play begins, and looking.
#[tactic(auto, using(crate::proofs::Parts::parts_rules))]
fn begin_play(alloc: Global, stage: &mut Stage<'_>) -> Result<(), Abandon>
    requires told { tables_of stage.old ≡ story_of stage.old }
    requires there { IsThere (back_of stage.old) }
    ensures answer { Answers result (λ done. progress_of stage.new) (begin_play (game_in_play (story_of stage.old)) (progress_of stage.old)) }
    ensures story { story_of stage.new ≡ story_of stage.old }
    ensures tables { tables_of stage.new ≡ story_of stage.old }
    ensures back { back_of stage.new ≡ back_of stage.old }
{
    follow_unless_over(alloc, stage, PLAY_BEGINS)?;
    act_unless_over(alloc, stage, look_round())?;
    Ok(())
}

/// The opening: a scene pass, the rules of when play begins, and looking.
#[tactic(auto, using(crate::proofs::Parts::behind_rules), unfolding(play_meaning::specs::Turns::opening))]
pub(crate) fn opening(alloc: Global, stage: &mut Stage<'_>) -> Result<(), Abandon>
    requires told { tables_of stage.old ≡ story_of stage.old }
    requires there { IsThere (back_of stage.old) }
    ensures answer { Answers result (λ done. progress_of stage.new) (opening (game_in_play (story_of stage.old)) (progress_of stage.old)) }
    ensures story { story_of stage.new ≡ story_of stage.old }
    ensures tables { tables_of stage.new ≡ story_of stage.old }
    ensures back { back_of stage.new ≡ back_of stage.old }
{
    pass_unless_over(alloc, stage)?;
    begin_play(alloc, stage)?;
    Ok(())
}
