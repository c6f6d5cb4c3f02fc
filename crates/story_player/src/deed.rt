//! What is done on a world: the opening, an action, a turn.
ghost use Rattle.std.specs.Prelude.{◌≡◌};
ghost use Rattle.action_stages.specs.Answering.{Answers};
ghost use Rattle.action_stages.specs.Returning.{IsThere};
ghost use Rattle.action_stages.specs.Stages.{back_of, progress_of, story_of, tables_of};
ghost use Rattle.world_store.specs.StoryPlay.{game_in_play};
ghost use Rattle.story_player.specs.Turns.{done_by, is_turn};

use crate::several::turn_upon;
use crate::turns::{act, opening, turn};
use action_stages::Stage;
use command_parser::Objects;
use play_meaning::{ActNo, ActionNow};
use std::alloc::Global;
use world_meaning::Abandon;

/// What is done.
#[derive(Drop)]
pub(crate) enum Deed {
    /// The opening of the story.
    Opening,
    /// An action out of world, by itself.
    Alone(ActionNow),
    /// An action, in a turn.
    Turn(ActionNow),
    /// An action on each of several things, in one turn.
    TurnUpon(ActNo, Objects),
}

impl Deed {
    /// Whether it is a turn, the world before which is kept.
    pub(crate) fn is_turn(&self) -> bool
        ensures { result ≡ is_turn self.now }
    {
        match self {
            Deed::Opening | Deed::Alone(_) => false,
            Deed::Turn(_) | Deed::TurnUpon(_, _) => true,
        }
    }
}

/// Does something.
pub(crate) fn done(alloc: Global, stage: &mut Stage<'_>, deed: &Deed) -> Result<(), Abandon>
    requires told { tables_of stage.old ≡ story_of stage.old }
    requires there { IsThere (back_of stage.old) }
    ensures answer { Answers result (λ done. progress_of stage.new) (done_by deed.now (game_in_play (story_of stage.old)) (progress_of stage.old)) }
    ensures story { story_of stage.new ≡ story_of stage.old }
    ensures tables { tables_of stage.new ≡ story_of stage.old }
    ensures back { back_of stage.new ≡ back_of stage.old }
{
    match deed {
        Deed::Opening => Ok(opening(alloc, stage)?),
        Deed::Alone(now) => Ok(act(alloc, stage, *now)?),
        Deed::Turn(now) => Ok(turn(alloc, stage, *now)?),
        Deed::TurnUpon(action, objects) => Ok(turn_upon(
            alloc,
            stage,
            *action,
            objects.as_slice(),
        )?),
    }
}
