//! Which rule of a book is asked next: those that can't be about what is there are passed over.
ghost use Rattle.std.specs.Prelude.{◌≡◌, ◌+◌, ◌<◌, ◌^◌, IfSome};
ghost use Rattle.play_meaning.specs.Worlds.{location_of};
ghost use Rattle.action_stages.specs.Passing.{FindsNext};
ghost use Rattle.world_store.specs.StoryPlay.{game_in_play};

use play_meaning::{ActionNow, rules_passed_over_are_false};
use rule_index::Index;
use world_meaning::ObjNo;
use world_store::World;

/// Where the player is.
fn here(world: &World) -> Option<ObjNo>
    ensures { location_of world.now.world ≡ result }
{
    Some(world.location())
}

/// The first rule of a book that may be about what is there, at a place or behind it, and its place.
pub fn next_rule(
    index: &Index,
    world: &World,
    book: u16,
    now: &ActionNow,
    from: usize,
) -> Option<(usize, u16)>
    requires { index.now ≡ world.now.tables }
    ensures next { FindsNext (game_in_play world.now.tables) book now.now world.now.world from result }
    ensures few { IfSome result (λ next. next.0 + 1 < 2 ^ 64) }
{
    rules_passed_over_are_false();
    match index.first_from(book, now.action, now.noun, here(world), from) {
        None => None,
        Some((place, rule)) => Some((place, rule)),
    }
}
