//! The rules of switching devices on and off (the Standard Rules).
ghost use Rattle.std.specs.Prelude.{IfOk};
ghost use Rattle.standard_rules.specs.Answers.{HasEffect};

use crate::answer::{HostAnswer, making, refused_if, saying};
use crate::asking::{is_of_kind, is_otherwise, is_so};
use crate::texts::{with_name, within};
use play_meaning::ActionNow;
use std::alloc::{AllocError, Global};
use world_meaning::KindNo;
use world_meaning::standard_properties::SWITCHED_ON;
use world_store::World;

/// Check switching on (the can't switch on non-devices rule): if the noun is not a device, say "You can't switch that."
/// instead.
#[tactic(auto, using(crate::proofs::SwitchingRules::rule_54))]
pub fn rule_54(alloc: Global, world: &World, now: &ActionNow) -> Result<HostAnswer, AllocError>
    ensures { IfOk result (λ answer. HasEffect 54 world.now now.now answer) }
{
    let is = !is_of_kind(world, now.noun, KindNo::DEVICE);
    Ok(refused_if(alloc, is, b"You can't switch that.\n")?)
}

/// Check switching on (the can't switch on what's on rule): if the noun is switched on, say "That is already on."
/// instead.
#[tactic(auto, using(crate::proofs::SwitchingRules::rule_55))]
pub fn rule_55(alloc: Global, world: &World, now: &ActionNow) -> Result<HostAnswer, AllocError>
    ensures { IfOk result (λ answer. HasEffect 55 world.now now.now answer) }
{
    let is = is_so(world, now.noun, SWITCHED_ON);
    Ok(refused_if(alloc, is, b"That is already on.\n")?)
}

/// Carry out switching on: now the noun is switched on.
#[tactic(auto, using(crate::proofs::SwitchingRules::rule_56))]
pub fn rule_56(alloc: Global, world: &World, now: &ActionNow) -> Result<HostAnswer, AllocError>
    ensures { IfOk result (λ answer. HasEffect 56 world.now now.now answer) }
{
    Ok(making(alloc, now.noun, SWITCHED_ON, true))
}

/// Report switching on: say "You switch [the noun] on."
#[tactic(auto, using(crate::proofs::SwitchingRules::rule_57))]
pub fn rule_57(alloc: Global, world: &World, now: &ActionNow) -> Result<HostAnswer, AllocError>
    ensures { IfOk result (λ answer. HasEffect 57 world.now now.now answer) }
{
    let name = within(now.noun);
    let text = with_name(alloc, world, b"You switch ", name, b" on.\n")?;
    Ok(saying(alloc, text))
}

/// Check switching off (the can't switch off non-devices rule): if the noun is not a device, say "You can't switch that."
/// instead.
#[tactic(auto, using(crate::proofs::SwitchingRules::rule_58))]
pub fn rule_58(alloc: Global, world: &World, now: &ActionNow) -> Result<HostAnswer, AllocError>
    ensures { IfOk result (λ answer. HasEffect 58 world.now now.now answer) }
{
    let is = !is_of_kind(world, now.noun, KindNo::DEVICE);
    Ok(refused_if(alloc, is, b"You can't switch that.\n")?)
}

/// Check switching off (the can't switch off what's off rule): if the noun is switched off, say "That is already off."
/// instead.
#[tactic(auto, using(crate::proofs::SwitchingRules::rule_59))]
pub fn rule_59(alloc: Global, world: &World, now: &ActionNow) -> Result<HostAnswer, AllocError>
    ensures { IfOk result (λ answer. HasEffect 59 world.now now.now answer) }
{
    let is = is_otherwise(world, now.noun, SWITCHED_ON);
    Ok(refused_if(alloc, is, b"That is already off.\n")?)
}

/// Carry out switching off: now the noun is switched off.
#[tactic(auto, using(crate::proofs::SwitchingRules::rule_60))]
pub fn rule_60(alloc: Global, world: &World, now: &ActionNow) -> Result<HostAnswer, AllocError>
    ensures { IfOk result (λ answer. HasEffect 60 world.now now.now answer) }
{
    Ok(making(alloc, now.noun, SWITCHED_ON, false))
}

/// Report switching off: say "You switch [the noun] off."
#[tactic(auto, using(crate::proofs::SwitchingRules::rule_61))]
pub fn rule_61(alloc: Global, world: &World, now: &ActionNow) -> Result<HostAnswer, AllocError>
    ensures { IfOk result (λ answer. HasEffect 61 world.now now.now answer) }
{
    let name = within(now.noun);
    let text = with_name(alloc, world, b"You switch ", name, b" off.\n")?;
    Ok(saying(alloc, text))
}
