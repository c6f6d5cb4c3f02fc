//! The rules of putting things on others and inserting them into others (the Standard Rules).
ghost use Rattle.std.specs.Prelude.{IfOk};
ghost use Rattle.standard_rules.specs.Answers.{HasEffect};

use crate::answer::{HostAnswer, putting, refused_if, saying};
use crate::asking::{are_same, is_of_kind, is_otherwise};
use crate::texts::{refused_from_name, refused_with_name, with_names};
use play_meaning::ActionNow;
use std::alloc::{AllocError, Global};
use story_code::encloses;
use world_meaning::standard_properties::OPEN;
use world_meaning::{KindNo, Rel};
use world_store::World;

/// Check putting it on (the can't put on itself rule): if the noun is the second noun, say "You can't put something on
/// itself." instead.
#[tactic(auto, using(crate::proofs::PuttingRules::rule_20))]
pub fn rule_20(alloc: Global, world: &World, now: &ActionNow) -> Result<HostAnswer, AllocError>
    ensures { IfOk result (λ answer. HasEffect 20 world.now now.now answer) }
{
    let is = are_same(now.noun, now.second);
    Ok(refused_if(alloc, is, b"You can't put something on itself.\n")?)
}

/// Check putting it on (the can't put on non-supporters rule): if the second noun is not a supporter, say "You can't put
/// things on [the second noun]." instead.
#[tactic(auto, using(crate::proofs::PuttingRules::rule_21))]
pub fn rule_21(alloc: Global, world: &World, now: &ActionNow) -> Result<HostAnswer, AllocError>
    ensures { IfOk result (λ answer. HasEffect 21 world.now now.now answer) }
{
    let is = !is_of_kind(world, now.second, KindNo::SUPPORTER);
    Ok(refused_with_name(
        alloc,
        world,
        is,
        b"You can't put things on ",
        now.second,
        b".\n",
    )?)
}

/// Check putting it on (the can't put on its contents rule): if the noun encloses the second noun, say "You can't put
/// something on what it holds." instead.
#[tactic(auto, using(crate::proofs::PuttingRules::rule_22))]
pub fn rule_22(alloc: Global, world: &World, now: &ActionNow) -> Result<HostAnswer, AllocError>
    ensures { IfOk result (λ answer. HasEffect 22 world.now now.now answer) }
{
    let is = encloses(world, now.noun, now.second);
    Ok(refused_if(alloc, is, b"You can't put something on what it holds.\n")?)
}

/// Carry out putting it on: now the noun is on the second noun.
#[tactic(auto, using(crate::proofs::PuttingRules::rule_23))]
pub fn rule_23(alloc: Global, world: &World, now: &ActionNow) -> Result<HostAnswer, AllocError>
    ensures { IfOk result (λ answer. HasEffect 23 world.now now.now answer) }
{
    Ok(putting(alloc, now.noun, Rel::On, now.second))
}

/// Report putting it on: say "You put [the noun] on [the second noun]."
#[tactic(auto, using(crate::proofs::PuttingRules::rule_24))]
pub fn rule_24(alloc: Global, world: &World, now: &ActionNow) -> Result<HostAnswer, AllocError>
    ensures { IfOk result (λ answer. HasEffect 24 world.now now.now answer) }
{
    let text = with_names(alloc, world, b"You put ", now.noun, b" on ", now.second)?;
    Ok(saying(alloc, text))
}

/// Check inserting it into (the can't insert into itself rule): if the noun is the second noun, say "You can't put
/// something into itself." instead.
#[tactic(auto, using(crate::proofs::PuttingRules::rule_25))]
pub fn rule_25(alloc: Global, world: &World, now: &ActionNow) -> Result<HostAnswer, AllocError>
    ensures { IfOk result (λ answer. HasEffect 25 world.now now.now answer) }
{
    let is = are_same(now.noun, now.second);
    Ok(refused_if(alloc, is, b"You can't put something into itself.\n")?)
}

/// Check inserting it into (the can't insert into non-containers rule): if the second noun is not a container, say "You
/// can't put things into [the second noun]." instead.
#[tactic(auto, using(crate::proofs::PuttingRules::rule_26))]
pub fn rule_26(alloc: Global, world: &World, now: &ActionNow) -> Result<HostAnswer, AllocError>
    ensures { IfOk result (λ answer. HasEffect 26 world.now now.now answer) }
{
    let is = !is_of_kind(world, now.second, KindNo::CONTAINER);
    Ok(refused_with_name(
        alloc,
        world,
        is,
        b"You can't put things into ",
        now.second,
        b".\n",
    )?)
}

/// Check inserting it into (the can't insert into its contents rule): if the noun encloses the second noun, say "You can't
/// put something into what it holds." instead.
#[tactic(auto, using(crate::proofs::PuttingRules::rule_27))]
pub fn rule_27(alloc: Global, world: &World, now: &ActionNow) -> Result<HostAnswer, AllocError>
    ensures { IfOk result (λ answer. HasEffect 27 world.now now.now answer) }
{
    let is = encloses(world, now.noun, now.second);
    Ok(refused_if(alloc, is, b"You can't put something into what it holds.\n")?)
}

/// Check inserting it into (the can't insert into closed containers rule): if the second noun is closed, say "[The second
/// noun] is closed." instead.
#[tactic(auto, using(crate::proofs::PuttingRules::rule_28))]
pub fn rule_28(alloc: Global, world: &World, now: &ActionNow) -> Result<HostAnswer, AllocError>
    ensures { IfOk result (λ answer. HasEffect 28 world.now now.now answer) }
{
    let is = is_otherwise(world, now.second, OPEN);
    Ok(refused_from_name(alloc, world, is, now.second, b" is closed.\n")?)
}

/// Carry out inserting it into: now the noun is in the second noun.
#[tactic(auto, using(crate::proofs::PuttingRules::rule_29))]
pub fn rule_29(alloc: Global, world: &World, now: &ActionNow) -> Result<HostAnswer, AllocError>
    ensures { IfOk result (λ answer. HasEffect 29 world.now now.now answer) }
{
    Ok(putting(alloc, now.noun, Rel::In, now.second))
}

/// Report inserting it into: say "You put [the noun] into [the second noun]."
#[tactic(auto, using(crate::proofs::PuttingRules::rule_30))]
pub fn rule_30(alloc: Global, world: &World, now: &ActionNow) -> Result<HostAnswer, AllocError>
    ensures { IfOk result (λ answer. HasEffect 30 world.now now.now answer) }
{
    let text = with_names(alloc, world, b"You put ", now.noun, b" into ", now.second)?;
    Ok(saying(alloc, text))
}
