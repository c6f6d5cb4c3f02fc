//! The things that are meant where all are to be taken or dropped.
ghost use Rattle.std.specs.Prelude.{◌≡◌, [], ◌∷◌, ◌++◌, IfOk, OnErr, OnOk, if◌then◌else◌, true};
ghost use Rattle.std.specs.List.{list_all};
ghost use Rattle.play_meaning.specs.AllThings.{all_things, at_hand, is_for_all, is_part, is_to_drop, is_to_take};
ghost use Rattle.play_meaning.specs.Values.{is_so};
ghost use Rattle.story_player.specs.Meant.{is_there};
ghost use Rattle.world_store.specs.StorySettings.{setting_of};

use play_meaning::ActNo;
use play_meaning::standard_actions::TAKING;
use std::alloc::{AllocError, Global};
use story_code::is_held;
use world_meaning::standard_properties::{FIXED_IN_PLACE, SCENERY};
use world_meaning::{KindNo, ObjNo, Place, Rel};
use world_store::World;

/// The number of the player.
const PLAYER: u16 = 0;

/// Whether an object is visible, portable and no scenery.
fn is_at_hand(world: &World, object: ObjNo) -> bool
    ensures { result ≡ list_all (λ adjective. is_so (setting_of world.now.tables) world.now.world adjective object) at_hand }
{
    world.visible(object)
        && world.has_flag(object, FIXED_IN_PLACE)
        && !world.flag(object, FIXED_IN_PLACE)
        && !world.is_so(object, SCENERY)
}

/// Whether an object that is there is part of another.
fn is_part(place: Option<Place>) -> bool
    ensures { result ≡ is_part place }
{
    match place {
        Some(
            Place {
                relation: Rel::Part,
                ..
            },
        ) => true,
        _ => false,
    }
}

/// Whether an object is a thing at hand that can be taken, and that the player has nowhere about him.
fn is_to_take(world: &World, object: ObjNo) -> bool
    ensures { result ≡ is_to_take (setting_of world.now.tables) world.now.world object }
{
    world.is_of(object, KindNo::THING)
        && is_at_hand(world, object)
        && !world.is_of(object, KindNo::PERSON)
        && !world.is_of(object, KindNo::DOOR)
        && !is_part(world.holder(object))
        && !world.encloses(ObjNo::new(PLAYER), object)
}

/// Whether the player carries an object.
fn is_to_drop(world: &World, object: ObjNo) -> bool
    ensures { result ≡ is_to_drop world.now.world object }
{
    is_held(world, Rel::Carried, Some(ObjNo::new(PLAYER)), object)
}

/// Whether a command for all things means an object.
fn is_for_all(world: &World, action: ActNo, object: ObjNo) -> bool
    ensures { result ≡ is_for_all (setting_of world.now.tables) world.now.world action object }
{
    if action.get() == TAKING {
        is_to_take(world, object)
    } else {
        is_to_drop(world, object)
    }
}

/// Adds an object, if it is one of those that are meant.
fn add_if(things: &mut Vec<ObjNo>, is_one: bool, object: ObjNo) -> Result<(), AllocError>
    ensures added { OnOk result (things.new.items ≡ (if is_one then things.old.items ++ object ∷ [] else things.old.items)) }
    ensures refused { OnErr result (is_one ≡ true) }
{
    if is_one {
        things.push(object)?;
    }
    Ok(())
}

/// The things that a command for all means, by rising number. Takes no memory where there are none.
#[tactic(auto, unfolding(play_meaning::specs::AllThings::all_things, world_store::specs::StorySettings::setting_of))]
pub(crate) fn all_things(
    alloc: Global,
    world: &World,
    action: ActNo,
) -> Result<Vec<ObjNo>, AllocError>
    ensures things { IfOk result (λ things. things.items ≡ all_things (setting_of world.now.tables) world.now.world action) }
    ensures refused { OnErr result (is_there (all_things (setting_of world.now.tables) world.now.world action) ≡ true) }
{
    let mut things = Vec::new(alloc);
    let count = world.story().object_count() as u16;
    for number in 0..count {
        let object = ObjNo::new(number);
        let is_one = is_for_all(world, action, object);
        add_if(&mut things, is_one, object)?;
    }
    Ok(things)
}
