//! The things of which a rule tells together: those that the player holds, and those held by the noun that are seen.
ghost use Rattle.std.specs.Prelude.{◌≡◌, [], ◌∷◌, IfOk, Some, filter};
ghost use Rattle.play_meaning.specs.Seeing.{has_light};
ghost use Rattle.play_meaning.specs.Settings.{thing_kind};
ghost use Rattle.play_meaning.specs.StandardRules.{things_with_player, visible_things};
ghost use Rattle.play_meaning.specs.Scripts.{scope_of};
ghost use Rattle.play_meaning.specs.Trees.{Visible};
ghost use Rattle.play_meaning.specs.Values.{is_among, those};
ghost use Rattle.world_store.specs.StorySettings.{setting_of};

use crate::numbers::player;
use play_meaning::ActionNow;
use std::alloc::{AllocError, Global};
use world_meaning::{KindNo, ObjNo, Rel};
use world_store::World;

/// Those of these objects that are things.
fn things_among(alloc: Global, world: &World, objects: &[ObjNo]) -> Result<Vec<ObjNo>, AllocError>
    ensures { IfOk result (λ things. things.items ≡ filter (is_among (setting_of world.now.tables) world.now.world [] (Some thing_kind)) objects.now) }
{
    let mut things = Vec::new(alloc);
    let mut rest = objects;
    while let [object, after @ ..] = rest {
        if world.is_of(*object, KindNo::THING) {
            things.push(*object)?;
        }
        rest = after;
    }
    Ok(things)
}

/// Whether an object is a thing that is seen, where it is known whether there is light.
fn is_seen(world: &World, light: bool, object: ObjNo) -> bool
    requires { light ≡ has_light (setting_of world.now.tables) world.now.world }
    ensures { result ≡ is_among (setting_of world.now.tables) world.now.world (Visible ∷ []) (Some thing_kind) object }
{
    world.is_of(object, KindNo::THING) && world.visible_in(light, object)
}

/// Those of these objects that are things and seen.
fn seen_among(alloc: Global, world: &World, objects: &[ObjNo]) -> Result<Vec<ObjNo>, AllocError>
    ensures { IfOk result (λ seen. seen.items ≡ filter (is_among (setting_of world.now.tables) world.now.world (Visible ∷ []) (Some thing_kind)) objects.now) }
{
    let light = world.lit_here();
    let mut seen = Vec::new(alloc);
    let mut rest = objects;
    while let [object, after @ ..] = rest {
        if is_seen(world, light, *object) {
            seen.push(*object)?;
        }
        rest = after;
    }
    Ok(seen)
}

/// The things that the player holds in this relation, by rising number.
#[tactic(auto, using(crate::proofs::Lists::things_held))]
pub fn things_held(
    alloc: Global,
    world: &World,
    now: &ActionNow,
    relation: Rel,
) -> Result<Vec<ObjNo>, AllocError>
    ensures { IfOk result (λ things. things.items ≡ those (setting_of world.now.tables) (scope_of now.now) world.now.world (things_with_player relation)) }
{
    let held = world.held(alloc, relation, player())?;
    Ok(things_among(alloc, world, held.as_slice())?)
}

/// The things that are seen and that the noun holds in this relation, by rising number.
#[tactic(auto, using(crate::proofs::Lists::things_seen, crate::proofs::Lists::none_seen))]
pub fn things_seen(
    alloc: Global,
    world: &World,
    now: &ActionNow,
    relation: Rel,
) -> Result<Vec<ObjNo>, AllocError>
    ensures { IfOk result (λ things. things.items ≡ those (setting_of world.now.tables) (scope_of now.now) world.now.world (visible_things relation)) }
{
    match now.noun {
        None => Ok(Vec::new(alloc)),
        Some(noun) => {
            let held = world.held(alloc, relation, noun)?;
            Ok(seen_among(alloc, world, held.as_slice())?)
        }
    }
}
