//! A log that is no longer than the turns need that can be taken back.
ghost use Rattle.std.specs.Prelude.{◌≡◌, ◌-◌, length, map, slice_get, true, unwrap_or};
ghost use Rattle.story_player.specs.KeptWorlds.{IsShortened, are_marks};

use crate::session::Session;
use undo_ring::Ring;
use world_store::{Mark, World};

/// Tells each mark as it is once the changes in front of the first are let go of.
fn tell_from(kept: &mut Ring<Mark>, first: Mark)
    ensures { kept.new ≡ map (λ mark. mark - first) kept.old }
{
    if kept.len() == 0 {
        return;
    }
    if let Some(mark) = kept.take_back() {
        tell_from(kept, first);
        kept.keep(mark.behind(first));
    }
}

/// Where the oldest turn began that can be taken back; the present place where there is none.
fn first_needed(kept: &Ring<Mark>, here: Mark) -> Mark
    ensures { result ≡ unwrap_or (slice_get kept.now (length kept.now - 1)) here }
{
    match kept.oldest() {
        Some(mark) => *mark,
        None => here,
    }
}

/// Lets go of the changes in front of the oldest turn that can be taken back, once they are most of the log.
fn shorten(world: &mut World, kept: &mut Ring<Mark>)
    requires { are_marks (length world.old.past) kept.old ≡ true }
    ensures { IsShortened world.old kept.old world.new kept.new }
{
    let first = first_needed(kept, world.mark());
    if !first.is_past_half(world.mark()) {
        return;
    }
    world.let_go(first);
    tell_from(kept, first);
}

impl Session {
    ghost use Rattle.story_player.specs.Sessions.{HasShortLog, game_of, state_of, story_of};

    /// Shortens the log where it can be: so a session of any length holds at most twice the changes that eight turns make, and no line takes
    /// longer for it but the one behind which they are let go of.
    pub(crate) fn let_go(&mut self)
        ensures state { state_of self.new ≡ state_of self.old }
        ensures game { game_of self.new ≡ game_of self.old }
        ensures story { story_of self.new ≡ story_of self.old }
        ensures few { HasShortLog self.new }
    {
        if let Some(world) = &mut self.world {
            shorten(world, &mut self.kept);
        }
    }
}
