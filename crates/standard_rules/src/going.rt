//! The rules of going from room to room (the Standard Rules).
ghost use Rattle.std.specs.Prelude.{◌≡◌, IfOk};
ghost use Rattle.play_meaning.specs.Values.{beyond};
ghost use Rattle.play_meaning.specs.Worlds.{location_of};
ghost use Rattle.standard_rules.specs.Answers.{HasEffect};
ghost use Rattle.world_store.specs.StorySettings.{setting_of};

use crate::answer::{HostAnswer, putting, refused_if, trying};
use crate::asking::{are_same, is_otherwise};
use crate::numbers::{look_round, player};
use crate::texts::refused_from_name;
use play_meaning::ActionNow;
use std::alloc::{AllocError, Global};
use story_code::{door_beyond, room_beyond};
use world_meaning::standard_properties::OPEN;
use world_meaning::{ObjNo, Rel};
use world_store::World;

/// The door on the way that the noun is.
fn door_there(world: &World, now: &ActionNow) -> Option<ObjNo>
    ensures { result ≡ beyond (setting_of world.now.tables) (setting_of world.now.tables).door_beyond now.now.noun (location_of world.now.world) }
{
    door_beyond(world, now.noun, Some(world.location()))
}

/// The room to which the way leads that the noun is.
fn room_there(world: &World, now: &ActionNow) -> Option<ObjNo>
    ensures { result ≡ beyond (setting_of world.now.tables) (setting_of world.now.tables).room_beyond now.now.noun (location_of world.now.world) }
{
    room_beyond(world, now.noun, Some(world.location()))
}

/// Check going (the can't go through closed doors rule): if the door noun from the location is closed, say "[The door noun
/// from the location] is closed." instead.
#[tactic(auto, using(crate::proofs::GoingRules::rule_39))]
pub fn rule_39(alloc: Global, world: &World, now: &ActionNow) -> Result<HostAnswer, AllocError>
    ensures { IfOk result (λ answer. HasEffect 39 world.now now.now answer) }
{
    let door = door_there(world, now);
    let is = is_otherwise(world, door, OPEN);
    Ok(refused_from_name(alloc, world, is, door, b" is closed.\n")?)
}

/// Check going (the can't go that way rule): if the room noun from the location is nothing, say "You can't go that way."
/// instead.
#[tactic(auto, using(crate::proofs::GoingRules::rule_40))]
pub fn rule_40(alloc: Global, world: &World, now: &ActionNow) -> Result<HostAnswer, AllocError>
    ensures { IfOk result (λ answer. HasEffect 40 world.now now.now answer) }
{
    let is = are_same(room_there(world, now), None);
    Ok(refused_if(alloc, is, b"You can't go that way.\n")?)
}

/// Carry out going: now the player is in the room noun from the location.
#[tactic(auto, using(crate::proofs::GoingRules::rule_41))]
pub fn rule_41(alloc: Global, world: &World, now: &ActionNow) -> Result<HostAnswer, AllocError>
    ensures { IfOk result (λ answer. HasEffect 41 world.now now.now answer) }
{
    Ok(putting(alloc, Some(player()), Rel::In, room_there(world, now)))
}

/// Report going: try looking.
#[tactic(auto, using(crate::proofs::GoingRules::rule_42))]
pub fn rule_42(alloc: Global, world: &World, now: &ActionNow) -> Result<HostAnswer, AllocError>
    ensures { IfOk result (λ answer. HasEffect 42 world.now now.now answer) }
{
    Ok(trying(alloc, look_round()))
}
