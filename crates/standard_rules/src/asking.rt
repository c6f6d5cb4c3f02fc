//! What the standard rules ask of objects: of nothing, nothing is so but that it is the same as nothing.
ghost use Rattle.std.specs.Prelude.{◌≡◌, [], Some};
ghost use Rattle.std.specs.List.{list_any};
ghost use Rattle.play_meaning.specs.Seeing.{is_same};
ghost use Rattle.play_meaning.specs.Trees.{First, Second};
ghost use Rattle.play_meaning.specs.Truth.{has_thing, of_some};
ghost use Rattle.play_meaning.specs.Values.{has_quality, is_among, is_held};
ghost use Rattle.world_meaning.specs.declared.place.Rel.TheVariants.{Part};
ghost use Rattle.world_store.specs.StorySettings.{setting_of};
ghost use Rattle.standard_rules.specs.Answers.{things_in};

use crate::numbers::player;
use play_meaning::ActionNow;
use story_code::{holder_by, is_held};
use world_meaning::{KindNo, ObjNo, Rel};
use world_store::World;

/// Whether two nouns are the same object, or both nothing.
pub fn are_same(one: Option<ObjNo>, other: Option<ObjNo>) -> bool
    ensures { result ≡ is_same one other }
{
    match one {
        None => other.is_none(),
        Some(one) => match other {
            None => false,
            Some(other) => one.get() == other.get(),
        },
    }
}

/// Whether an object has an either-or property by its first name.
pub fn is_so(world: &World, object: Option<ObjNo>, property: u8) -> bool
    ensures { result ≡ of_some object (has_quality (setting_of world.now.tables) world.now.world property First) }
{
    match object {
        None => false,
        Some(object) => world.is_so(object, property),
    }
}

/// Whether an object has an either-or property by its second name.
pub fn is_otherwise(world: &World, object: Option<ObjNo>, property: u8) -> bool
    ensures { result ≡ of_some object (has_quality (setting_of world.now.tables) world.now.world property Second) }
{
    match object {
        None => false,
        Some(object) => world.has_flag(object, property) && !world.flag(object, property),
    }
}

/// Whether an object is of a kind.
pub fn is_of_kind(world: &World, object: Option<ObjNo>, kind: KindNo) -> bool
    ensures { result ≡ of_some object (is_among (setting_of world.now.tables) world.now.world [] (Some kind)) }
{
    match object {
        None => false,
        Some(object) => world.is_of(object, kind),
    }
}

/// Whether the player carries or wears an object.
pub fn is_had(world: &World, object: Option<ObjNo>) -> bool
    ensures { result ≡ of_some object (has_thing world.now.world 0) }
{
    match object {
        None => false,
        Some(object) => {
            is_held(world, Rel::Carried, Some(player()), object)
                || is_held(world, Rel::Worn, Some(player()), object)
        }
    }
}

/// Whether an object is part of a thing.
#[tactic(auto, using(crate::proofs::Lists::part_of_those))]
pub fn is_part(world: &World, now: &ActionNow) -> bool
    ensures { result ≡ of_some now.now.noun (λ n. list_any (λ holder. is_held world.now.world Part (Some holder) n) (things_in world.now now.now)) }
{
    is_of_kind(world, holder_by(world, Rel::Part, now.noun), KindNo::THING)
}
