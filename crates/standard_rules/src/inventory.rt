//! The rules of taking inventory, and those of waiting and jumping (the Standard Rules).
ghost use Rattle.std.specs.Prelude.{IfOk};
ghost use Rattle.standard_rules.specs.Answers.{HasEffect};

use crate::answer::{HostAnswer, said, saying};
use crate::listing::things_held;
use crate::texts::{listed_if_any, with_list};
use play_meaning::ActionNow;
use std::alloc::{AllocError, Global};
use world_meaning::Rel;
use world_store::World;

/// Carry out taking inventory (the list carried rule): say "You are carrying [a list of things carried by the player]."
#[tactic(auto, using(crate::proofs::InventoryRules::rule_50))]
pub fn rule_50(alloc: Global, world: &World, now: &ActionNow) -> Result<HostAnswer, AllocError>
    ensures { IfOk result (λ answer. HasEffect 50 world.now now.now answer) }
{
    let things = things_held(alloc, world, now, Rel::Carried)?;
    let text = with_list(
        alloc,
        world,
        b"You are carrying ",
        things.as_slice(),
        b".\n",
    )?;
    Ok(saying(alloc, text))
}

/// Carry out taking inventory (the list worn rule): if the number of things worn by the player is at least 1, say "You are
/// wearing [a list of things worn by the player]."
#[tactic(auto, using(crate::proofs::InventoryRules::rule_51))]
pub fn rule_51(alloc: Global, world: &World, now: &ActionNow) -> Result<HostAnswer, AllocError>
    ensures { IfOk result (λ answer. HasEffect 51 world.now now.now answer) }
{
    let things = things_held(alloc, world, now, Rel::Worn)?;
    Ok(listed_if_any(alloc, world, b"You are wearing ", things.as_slice(), b".\n")?)
}

/// Report waiting: say "Time passes."
#[tactic(auto, using(crate::proofs::InventoryRules::rule_52))]
pub fn rule_52(alloc: Global, world: &World, now: &ActionNow) -> Result<HostAnswer, AllocError>
    ensures { IfOk result (λ answer. HasEffect 52 world.now now.now answer) }
{
    Ok(said(alloc, b"Time passes.\n")?)
}

/// Report jumping: say "You jump on the spot."
#[tactic(auto, using(crate::proofs::InventoryRules::rule_53))]
pub fn rule_53(alloc: Global, world: &World, now: &ActionNow) -> Result<HostAnswer, AllocError>
    ensures { IfOk result (λ answer. HasEffect 53 world.now now.now answer) }
{
    Ok(said(alloc, b"You jump on the spot.\n")?)
}
