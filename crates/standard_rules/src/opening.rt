//! The rules of opening and closing things (the Standard Rules).
ghost use Rattle.std.specs.Prelude.{IfOk};
ghost use Rattle.standard_rules.specs.Answers.{HasEffect};

use crate::answer::{HostAnswer, making, refused_if, saying};
use crate::asking::{is_otherwise, is_so};
use crate::texts::{with_name, within};
use play_meaning::ActionNow;
use std::alloc::{AllocError, Global};
use world_meaning::standard_properties::{OPEN, OPENABLE};
use world_store::World;

/// Check opening (the can't open unopenable rule): if the noun is not openable, say "You can't open that." instead.
#[tactic(auto, using(crate::proofs::OpeningRules::rule_31))]
pub fn rule_31(alloc: Global, world: &World, now: &ActionNow) -> Result<HostAnswer, AllocError>
    ensures { IfOk result (λ answer. HasEffect 31 world.now now.now answer) }
{
    let is = !is_so(world, now.noun, OPENABLE);
    Ok(refused_if(alloc, is, b"You can't open that.\n")?)
}

/// Check opening (the can't open open rule): if the noun is open, say "That is already open." instead.
#[tactic(auto, using(crate::proofs::OpeningRules::rule_32))]
pub fn rule_32(alloc: Global, world: &World, now: &ActionNow) -> Result<HostAnswer, AllocError>
    ensures { IfOk result (λ answer. HasEffect 32 world.now now.now answer) }
{
    let is = is_so(world, now.noun, OPEN);
    Ok(refused_if(alloc, is, b"That is already open.\n")?)
}

/// Carry out opening: now the noun is open.
#[tactic(auto, using(crate::proofs::OpeningRules::rule_33))]
pub fn rule_33(alloc: Global, world: &World, now: &ActionNow) -> Result<HostAnswer, AllocError>
    ensures { IfOk result (λ answer. HasEffect 33 world.now now.now answer) }
{
    Ok(making(alloc, now.noun, OPEN, true))
}

/// Report opening: say "You open [the noun]."
#[tactic(auto, using(crate::proofs::OpeningRules::rule_34))]
pub fn rule_34(alloc: Global, world: &World, now: &ActionNow) -> Result<HostAnswer, AllocError>
    ensures { IfOk result (λ answer. HasEffect 34 world.now now.now answer) }
{
    let name = within(now.noun);
    let text = with_name(alloc, world, b"You open ", name, b".\n")?;
    Ok(saying(alloc, text))
}

/// Check closing (the can't close unopenable rule): if the noun is not openable, say "You can't close that." instead.
#[tactic(auto, using(crate::proofs::OpeningRules::rule_35))]
pub fn rule_35(alloc: Global, world: &World, now: &ActionNow) -> Result<HostAnswer, AllocError>
    ensures { IfOk result (λ answer. HasEffect 35 world.now now.now answer) }
{
    let is = !is_so(world, now.noun, OPENABLE);
    Ok(refused_if(alloc, is, b"You can't close that.\n")?)
}

/// Check closing (the can't close closed rule): if the noun is closed, say "That is already closed." instead.
#[tactic(auto, using(crate::proofs::OpeningRules::rule_36))]
pub fn rule_36(alloc: Global, world: &World, now: &ActionNow) -> Result<HostAnswer, AllocError>
    ensures { IfOk result (λ answer. HasEffect 36 world.now now.now answer) }
{
    let is = is_otherwise(world, now.noun, OPEN);
    Ok(refused_if(alloc, is, b"That is already closed.\n")?)
}

/// Carry out closing: now the noun is closed.
#[tactic(auto, using(crate::proofs::OpeningRules::rule_37))]
pub fn rule_37(alloc: Global, world: &World, now: &ActionNow) -> Result<HostAnswer, AllocError>
    ensures { IfOk result (λ answer. HasEffect 37 world.now now.now answer) }
{
    Ok(making(alloc, now.noun, OPEN, false))
}

/// Report closing: say "You close [the noun]."
#[tactic(auto, using(crate::proofs::OpeningRules::rule_38))]
pub fn rule_38(alloc: Global, world: &World, now: &ActionNow) -> Result<HostAnswer, AllocError>
    ensures { IfOk result (λ answer. HasEffect 38 world.now now.now answer) }
{
    let name = within(now.noun);
    let text = with_name(alloc, world, b"You close ", name, b".\n")?;
    Ok(saying(alloc, text))
}
