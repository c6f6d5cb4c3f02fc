//! The rules of wearing things and taking them off (the Standard Rules).
ghost use Rattle.std.specs.Prelude.{IfOk};
ghost use Rattle.standard_rules.specs.Answers.{HasEffect};

use crate::answer::{HostAnswer, putting, refused_if, saying};
use crate::asking::is_so;
use crate::numbers::player;
use crate::texts::{with_name, within};
use play_meaning::ActionNow;
use std::alloc::{AllocError, Global};
use story_code::is_some_held;
use world_meaning::Rel;
use world_meaning::standard_properties::WEARABLE;
use world_store::World;

/// Check wearing (the can't wear what's not wearable rule): if the noun is not wearable, say "You can't wear that."
/// instead.
#[tactic(auto, using(crate::proofs::WearingRules::rule_43))]
pub fn rule_43(alloc: Global, world: &World, now: &ActionNow) -> Result<HostAnswer, AllocError>
    ensures { IfOk result (λ answer. HasEffect 43 world.now now.now answer) }
{
    let is = !is_so(world, now.noun, WEARABLE);
    Ok(refused_if(alloc, is, b"You can't wear that.\n")?)
}

/// Check wearing (the can't wear what's worn rule): if the noun is worn by the player, say "You are already wearing that."
/// instead.
#[tactic(auto, using(crate::proofs::WearingRules::rule_44))]
pub fn rule_44(alloc: Global, world: &World, now: &ActionNow) -> Result<HostAnswer, AllocError>
    ensures { IfOk result (λ answer. HasEffect 44 world.now now.now answer) }
{
    let is = is_some_held(world, Rel::Worn, now.noun, Some(player()));
    Ok(refused_if(alloc, is, b"You are already wearing that.\n")?)
}

/// Carry out wearing: now the player wears the noun.
#[tactic(auto, using(crate::proofs::WearingRules::rule_45))]
pub fn rule_45(alloc: Global, world: &World, now: &ActionNow) -> Result<HostAnswer, AllocError>
    ensures { IfOk result (λ answer. HasEffect 45 world.now now.now answer) }
{
    Ok(putting(alloc, now.noun, Rel::Worn, Some(player())))
}

/// Report wearing: say "You put on [the noun]."
#[tactic(auto, using(crate::proofs::WearingRules::rule_46))]
pub fn rule_46(alloc: Global, world: &World, now: &ActionNow) -> Result<HostAnswer, AllocError>
    ensures { IfOk result (λ answer. HasEffect 46 world.now now.now answer) }
{
    let name = within(now.noun);
    let text = with_name(alloc, world, b"You put on ", name, b".\n")?;
    Ok(saying(alloc, text))
}

/// Check taking off (the can't take off what's not worn rule): if the noun is not worn by the player, say "You aren't
/// wearing that." instead.
#[tactic(auto, using(crate::proofs::WearingRules::rule_47))]
pub fn rule_47(alloc: Global, world: &World, now: &ActionNow) -> Result<HostAnswer, AllocError>
    ensures { IfOk result (λ answer. HasEffect 47 world.now now.now answer) }
{
    let is = !is_some_held(world, Rel::Worn, now.noun, Some(player()));
    Ok(refused_if(alloc, is, b"You aren't wearing that.\n")?)
}

/// Carry out taking off: now the player carries the noun.
#[tactic(auto, using(crate::proofs::WearingRules::rule_48))]
pub fn rule_48(alloc: Global, world: &World, now: &ActionNow) -> Result<HostAnswer, AllocError>
    ensures { IfOk result (λ answer. HasEffect 48 world.now now.now answer) }
{
    Ok(putting(alloc, now.noun, Rel::Carried, Some(player())))
}

/// Report taking off: say "You take off [the noun]."
#[tactic(auto, using(crate::proofs::WearingRules::rule_49))]
pub fn rule_49(alloc: Global, world: &World, now: &ActionNow) -> Result<HostAnswer, AllocError>
    ensures { IfOk result (λ answer. HasEffect 49 world.now now.now answer) }
{
    let name = within(now.noun);
    let text = with_name(alloc, world, b"You take off ", name, b".\n")?;
    Ok(saying(alloc, text))
}
