//! The rules of looking (the Standard Rules).
ghost use Rattle.std.specs.Prelude.{◌≡◌, ◌≢◌, ◌∷◌, ◌++◌, [], IfOk, OnErr, Some, codes, not};
ghost use Rattle.play_meaning.specs.Saying.{chosen, description_in};
ghost use Rattle.play_meaning.specs.Worlds.{location_of};
ghost use Rattle.play_meaning.specs.declared.naming.Naming.TheVariants.{Plain};
ghost use Rattle.standard_rules.specs.Answers.{HasEffect, IsTold, answer_of, is_lit, name_of, out_of_range, telling_in};
ghost use Rattle.world_meaning.specs.Texts.{said};
ghost use Rattle.world_meaning.specs.declared.session.Abandon.TheVariants.{NumberOutOfRange};

use crate::answer::{HostAnswer, making, out_of_range, said, saying, silence};
use crate::texts::{Named, listed_if_any, with_name};
use play_meaning::{ActionNow, Naming};
use std::alloc::{AllocError, Global};
use world_meaning::standard_properties::VISITED;
use world_meaning::{Abandon, ObjNo};
use world_store::World;

/// The answer of a rule whose text can't be said.
fn untold(alloc: Global, reason: Abandon) -> Result<HostAnswer, AllocError>
    ensures abandoned { IfOk result (λ answer. (reason ≡ NumberOutOfRange) × (answer_of answer ≡ out_of_range)) }
    ensures refused { OnErr result (reason ≢ NumberOutOfRange) }
{
    match reason {
        Abandon::NumberOutOfRange => Ok(out_of_range(alloc)),
        Abandon::NestedTooDeep | Abandon::Memory | Abandon::TooMuchWork => Err(AllocError),
    }
}

/// The answer that describes an object, with a line break behind it, where it is described.
pub fn described(
    alloc: Global,
    world: &World,
    now: &ActionNow,
    object: ObjNo,
) -> Result<HostAnswer, AllocError>
    ensures { IfOk result (λ answer. IsTold (description_in (telling_in world.now.tables) now.now world.now.world (Some object)) (answer_of answer)) }
{
    match world.describe(alloc, now, object) {
        Ok(text) => Ok(saying(alloc, text)),
        Err(reason) => untold(alloc, reason),
    }
}

/// The name of the player's room, or that it is dark.
fn heading(alloc: Global, world: &World) -> Result<Vec<u8>, AllocError>
    ensures { IfOk result (λ text. text.items ≡ chosen (not (is_lit world.now)) (said (codes "Darkness")) (name_of world.now Plain (location_of world.now.world) ++ 10 ∷ [])) }
{
    if !world.lit_here() {
        return Vec::from_slice(alloc, b"Darkness\n");
    }
    let room = Named {
        naming: Naming::Plain,
        object: Some(world.location()),
    };
    Ok(with_name(alloc, world, b"", room, b"\n")?)
}

/// Carry out looking (the room heading rule): if in darkness, say "Darkness[line break]"; otherwise say "[location][line
/// break]".
#[tactic(auto, using(crate::proofs::LookingRules::rule_1))]
pub fn rule_1(alloc: Global, world: &World, now: &ActionNow) -> Result<HostAnswer, AllocError>
    ensures { IfOk result (λ answer. HasEffect 1 world.now now.now answer) }
{
    let text = heading(alloc, world)?;
    Ok(saying(alloc, text))
}

/// Carry out looking (the room body text rule): if in darkness, say "It is pitch dark, and you can't see a thing.";
/// otherwise say "[description of the location]".
#[tactic(auto, using(crate::proofs::LookingRules::rule_2_in_light, crate::proofs::LookingRules::rule_2_in_darkness))]
pub fn rule_2(alloc: Global, world: &World, now: &ActionNow) -> Result<HostAnswer, AllocError>
    ensures { IfOk result (λ answer. HasEffect 2 world.now now.now answer) }
{
    if world.lit_here() {
        Ok(described(alloc, world, now, world.location())?)
    } else {
        Ok(said(alloc, b"It is pitch dark, and you can't see a thing.\n")?)
    }
}

/// Carry out looking (the room contents rule): if not in darkness and the number of described not scenery things in the
/// location is at least 1, say "You can see [a list of described not scenery things in the location] here."
#[tactic(auto, using(crate::proofs::LookingRules::rule_3_in_light, crate::proofs::LookingRules::rule_3_in_darkness))]
pub fn rule_3(alloc: Global, world: &World, now: &ActionNow) -> Result<HostAnswer, AllocError>
    ensures { IfOk result (λ answer. HasEffect 3 world.now now.now answer) }
{
    if world.lit_here() {
        let things = world.on_view(alloc)?;
        Ok(listed_if_any(
            alloc,
            world,
            b"You can see ",
            things.as_slice(),
            b" here.\n",
        )?)
    } else {
        Ok(silence(alloc))
    }
}

/// Carry out looking (the mark visited rule): if not in darkness, now the location is visited.
#[tactic(auto, using(crate::proofs::LookingRules::rule_4_in_light, crate::proofs::LookingRules::rule_4_in_darkness))]
pub fn rule_4(alloc: Global, world: &World, now: &ActionNow) -> Result<HostAnswer, AllocError>
    ensures { IfOk result (λ answer. HasEffect 4 world.now now.now answer) }
{
    if world.lit_here() {
        Ok(making(alloc, Some(world.location()), VISITED, true))
    } else {
        Ok(silence(alloc))
    }
}
