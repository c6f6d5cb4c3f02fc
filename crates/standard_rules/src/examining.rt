//! The rules of examining (the Standard Rules).
ghost use Rattle.std.specs.Prelude.{◌≡◌, ◌++◌, IfOk, MatchOption, Some, codes, false, true};
ghost use Rattle.play_meaning.specs.Saying.{chosen};
ghost use Rattle.play_meaning.specs.Truth.{of_some};
ghost use Rattle.play_meaning.specs.declared.naming.Naming.TheVariants.{Definite, Indefinite};
ghost use Rattle.standard_rules.specs.Answers.{HasEffect, answer_of, are_any, said_if, stop, name_of, names_of};
ghost use Rattle.world_meaning.specs.Texts.{said};
ghost use Rattle.world_store.specs.StorySettings.{setting_of};

use crate::answer::{HostAnswer, said_if, saying, silence};
use crate::asking::{is_of_kind, is_so};
use crate::listing::things_seen;
use crate::looking::described;
use crate::texts::{add_list, at_the_start, with_name, within};
use play_meaning::{ActionNow, Ground};
use std::alloc::{AllocError, Global};
use world_meaning::standard_properties::SWITCHED_ON;
use world_meaning::{KindNo, ObjNo, Rel};
use world_store::World;

/// The noun, if it has a description.
fn described_noun(world: &World, now: &ActionNow) -> Option<ObjNo>
    ensures { MatchOption result (of_some now.now.noun (setting_of world.now.tables).has_description ≡ false)
        (λ noun. (now.now.noun ≡ Some noun) × ((setting_of world.now.tables).has_description noun ≡ true)) }
{
    let noun = now.noun?;
    if world.has_description(noun) {
        Some(noun)
    } else {
        None
    }
}

/// Carry out examining (the examine description rule): if the noun has a description, say "[description of the noun]";
/// otherwise say "You see nothing special about [the noun]."
#[tactic(auto, using(crate::proofs::ExaminingRules::rule_5_described, crate::proofs::ExaminingRules::rule_5_plain))]
pub fn rule_5(alloc: Global, world: &World, now: &ActionNow) -> Result<HostAnswer, AllocError>
    ensures { IfOk result (λ answer. HasEffect 5 world.now now.now answer) }
{
    match described_noun(world, now) {
        Some(noun) => Ok(described(alloc, world, now, noun)?),
        None => {
            let front = b"You see nothing special about ";
            let text = with_name(alloc, world, front, within(now.noun), b".\n")?;
            Ok(saying(alloc, text))
        }
    }
}

/// What is told of the things in or on the noun, if there is one.
fn told_of(
    alloc: Global,
    world: &World,
    front: &[u8],
    noun: Option<ObjNo>,
    things: &[ObjNo],
) -> Result<HostAnswer, AllocError>
    ensures { IfOk result (λ answer. answer_of answer ≡ said_if (are_any things.now)
        (front.now ++ (name_of world.now Definite noun ++ (codes " is " ++ (names_of world.now Indefinite things.now ++ stop))))) }
{
    if let [] = things {
        return Ok(silence(alloc));
    }
    let mut text = with_name(alloc, world, front, within(noun), b" is ")?;
    add_list(&mut text, world, things)?;
    text.extend_from_slice(b".\n")?;
    Ok(saying(alloc, text))
}

/// Carry out examining (the examine containers rule): if the number of visible things in the noun is at least 1, say "In
/// [the noun] is [a list of visible things in the noun]."
#[tactic(auto, using(crate::proofs::ExaminingRules::rule_6))]
pub fn rule_6(alloc: Global, world: &World, now: &ActionNow) -> Result<HostAnswer, AllocError>
    ensures { IfOk result (λ answer. HasEffect 6 world.now now.now answer) }
{
    let things = things_seen(alloc, world, now, Rel::In)?;
    Ok(told_of(alloc, world, b"In ", now.noun, things.as_slice())?)
}

/// Carry out examining (the examine supporters rule): if the number of visible things on the noun is at least 1, say "On
/// [the noun] is [a list of visible things on the noun]."
#[tactic(auto, using(crate::proofs::ExaminingRules::rule_7))]
pub fn rule_7(alloc: Global, world: &World, now: &ActionNow) -> Result<HostAnswer, AllocError>
    ensures { IfOk result (λ answer. HasEffect 7 world.now now.now answer) }
{
    let things = things_seen(alloc, world, now, Rel::On)?;
    Ok(told_of(alloc, world, b"On ", now.noun, things.as_slice())?)
}

/// Whether a device is on, as a text goes on.
fn on_or_off(is_on: bool) -> &'static [u8]
    ensures { result.now ≡ chosen is_on (said (codes " is switched on.")) (said (codes " is switched off.")) }
{
    if is_on {
        b" is switched on.\n"
    } else {
        b" is switched off.\n"
    }
}

/// Carry out examining (the examine devices rule): if the noun is a device, say "[The noun] is switched [if the noun is
/// switched on]on[otherwise]off[end if]."
#[tactic(auto, using(crate::proofs::ExaminingRules::rule_8))]
pub fn rule_8(alloc: Global, world: &World, now: &ActionNow) -> Result<HostAnswer, AllocError>
    ensures { IfOk result (λ answer. HasEffect 8 world.now now.now answer) }
{
    let is = is_of_kind(world, now.noun, KindNo::DEVICE);
    let behind = on_or_off(is_so(world, now.noun, SWITCHED_ON));
    let text = with_name(alloc, world, b"", at_the_start(now.noun), behind)?;
    Ok(said_if(alloc, is, text))
}
