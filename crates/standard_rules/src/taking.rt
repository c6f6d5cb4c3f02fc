//! The rules of taking and dropping things (the Standard Rules).
ghost use Rattle.std.specs.Prelude.{IfOk};
ghost use Rattle.standard_rules.specs.Answers.{HasEffect};

use crate::answer::{HostAnswer, putting, refused_if, said};
use crate::asking::{are_same, is_had, is_of_kind, is_part, is_so};
use crate::numbers::player;
use crate::texts::refused_from_name;
use play_meaning::ActionNow;
use std::alloc::{AllocError, Global};
use story_code::is_some_held;
use world_meaning::standard_properties::{FIXED_IN_PLACE, SCENERY};
use world_meaning::{KindNo, Rel};
use world_store::World;

/// Check taking (the can't take yourself rule): if the noun is the player, say "You can't take yourself." instead.
#[tactic(auto, using(crate::proofs::TakingRules::rule_9))]
pub fn rule_9(alloc: Global, world: &World, now: &ActionNow) -> Result<HostAnswer, AllocError>
    ensures { IfOk result (λ answer. HasEffect 9 world.now now.now answer) }
{
    let is = are_same(now.noun, Some(player()));
    Ok(refused_if(alloc, is, b"You can't take yourself.\n")?)
}

/// Check taking (the can't take people rule): if the noun is a person, say "[The noun] wouldn't like that." instead.
#[tactic(auto, using(crate::proofs::TakingRules::rule_10))]
pub fn rule_10(alloc: Global, world: &World, now: &ActionNow) -> Result<HostAnswer, AllocError>
    ensures { IfOk result (λ answer. HasEffect 10 world.now now.now answer) }
{
    let is = is_of_kind(world, now.noun, KindNo::PERSON);
    Ok(refused_from_name(alloc, world, is, now.noun, b" wouldn't like that.\n")?)
}

/// Check taking (the can't take parts rule): if the noun is part of something, say "That is part of something else."
/// instead.
#[tactic(auto, using(crate::proofs::TakingRules::rule_11))]
pub fn rule_11(alloc: Global, world: &World, now: &ActionNow) -> Result<HostAnswer, AllocError>
    ensures { IfOk result (λ answer. HasEffect 11 world.now now.now answer) }
{
    let is = is_part(world, now);
    Ok(refused_if(alloc, is, b"That is part of something else.\n")?)
}

/// Check taking (the can't take what's held rule): if the player has the noun, say "You already have that." instead.
#[tactic(auto, using(crate::proofs::TakingRules::rule_12))]
pub fn rule_12(alloc: Global, world: &World, now: &ActionNow) -> Result<HostAnswer, AllocError>
    ensures { IfOk result (λ answer. HasEffect 12 world.now now.now answer) }
{
    let is = is_had(world, now.noun);
    Ok(refused_if(alloc, is, b"You already have that.\n")?)
}

/// Check taking (the can't take scenery rule): if the noun is scenery, say "That is hardly portable." instead.
#[tactic(auto, using(crate::proofs::TakingRules::rule_13))]
pub fn rule_13(alloc: Global, world: &World, now: &ActionNow) -> Result<HostAnswer, AllocError>
    ensures { IfOk result (λ answer. HasEffect 13 world.now now.now answer) }
{
    let is = is_so(world, now.noun, SCENERY);
    Ok(refused_if(alloc, is, b"That is hardly portable.\n")?)
}

/// Check taking (the can't take what's fixed rule): if the noun is fixed in place, say "That is fixed in place." instead.
#[tactic(auto, using(crate::proofs::TakingRules::rule_14))]
pub fn rule_14(alloc: Global, world: &World, now: &ActionNow) -> Result<HostAnswer, AllocError>
    ensures { IfOk result (λ answer. HasEffect 14 world.now now.now answer) }
{
    let is = is_so(world, now.noun, FIXED_IN_PLACE);
    Ok(refused_if(alloc, is, b"That is fixed in place.\n")?)
}

/// Carry out taking: now the player carries the noun.
#[tactic(auto, using(crate::proofs::TakingRules::rule_15))]
pub fn rule_15(alloc: Global, world: &World, now: &ActionNow) -> Result<HostAnswer, AllocError>
    ensures { IfOk result (λ answer. HasEffect 15 world.now now.now answer) }
{
    Ok(putting(alloc, now.noun, Rel::Carried, Some(player())))
}

/// Report taking: say "Taken."
#[tactic(auto, using(crate::proofs::TakingRules::rule_16))]
pub fn rule_16(alloc: Global, world: &World, now: &ActionNow) -> Result<HostAnswer, AllocError>
    ensures { IfOk result (λ answer. HasEffect 16 world.now now.now answer) }
{
    Ok(said(alloc, b"Taken.\n")?)
}

/// Check dropping (the can't drop what's not held rule): if the noun is not carried by the player and the noun is not worn
/// by the player, say "You don't have that." instead.
#[tactic(auto, using(crate::proofs::TakingRules::rule_17))]
pub fn rule_17(alloc: Global, world: &World, now: &ActionNow) -> Result<HostAnswer, AllocError>
    ensures { IfOk result (λ answer. HasEffect 17 world.now now.now answer) }
{
    let carries = is_some_held(world, Rel::Carried, now.noun, Some(player()));
    let wears = is_some_held(world, Rel::Worn, now.noun, Some(player()));
    Ok(refused_if(alloc, !carries && !wears, b"You don't have that.\n")?)
}

/// Carry out dropping: now the noun is in the location.
#[tactic(auto, using(crate::proofs::TakingRules::rule_18))]
pub fn rule_18(alloc: Global, world: &World, now: &ActionNow) -> Result<HostAnswer, AllocError>
    ensures { IfOk result (λ answer. HasEffect 18 world.now now.now answer) }
{
    Ok(putting(alloc, now.noun, Rel::In, Some(world.location())))
}

/// Report dropping: say "Dropped."
#[tactic(auto, using(crate::proofs::TakingRules::rule_19))]
pub fn rule_19(alloc: Global, world: &World, now: &ActionNow) -> Result<HostAnswer, AllocError>
    ensures { IfOk result (λ answer. HasEffect 19 world.now now.now answer) }
{
    Ok(said(alloc, b"Dropped.\n")?)
}
