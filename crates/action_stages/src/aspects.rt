//! What a rule is about: its action, its nouns, the place and its scene, read off a story's tables and looked for in a world.
ghost use Rattle.std.specs.Prelude.{◌≡◌, Some};
ghost use Rattle.std.specs.List.{list_all};
ghost use Rattle.play_meaning.specs.CodedStories.{head_of};
ghost use Rattle.play_meaning.specs.Rules.{is_about, is_action, is_happening, is_met};
ghost use Rattle.play_meaning.specs.Values.{is_so};
ghost use Rattle.story_format.specs.Carrying.{number_if_some};
ghost use Rattle.story_format.specs.declared.rule_entry.Aspect.TheVariants.{Kind};
ghost use Rattle.world_store.specs.StorySettings.{setting_of};
ghost use Rattle.world_store.specs.StoryPlay.{adjective_told, aspect_told, rule_told};

use play_meaning::{ActNo, ActionNow};
use story_format::{Aspect, KindAspect, PropertySide, RuleEntry};
use world_meaning::{KindNo, ObjNo};
use world_store::World;

/// The number that stands for no action, and for no scene.
const NONE: u8 = 255;

/// Whether a property is asked so of an object rightly.
#[tactic(auto, unfolding(play_meaning::specs::Values::is_so))]
fn is_so(world: &World, side: &PropertySide, object: ObjNo) -> bool
    ensures { result ≡ is_so (setting_of world.now.tables) world.now.world (adjective_told side.now) object }
{
    let is_had = world.has_flag(object, side.property);
    let value = world.flag(object, side.property);
    match side.side {
        0 => is_had && !value,
        1 => is_had && value,
        2 => !(is_had && !value),
        _ => !(is_had && value),
    }
}

/// Whether all these properties are asked so of an object rightly.
fn are_so(world: &World, sides: &[PropertySide], object: ObjNo) -> bool
    ensures { result ≡ list_all (λ side. is_so (setting_of world.now.tables) world.now.world (adjective_told side) object) sides.now }
{
    sides.iter().all(|side| is_so(world, side, object))
}

/// Whether an object is of a kind and has the properties that are asked.
#[tactic(auto, using(crate::proofs::Asked::asked_rules))]
fn is_of_kind(world: &World, kind: &KindAspect, object: ObjNo) -> bool
    ensures { result ≡ is_met (setting_of world.now.tables) world.now.world (aspect_told (Kind kind.now)) (Some object) }
{
    world.is_of(object, KindNo::new(kind.kind)) && are_so(world, kind.properties.as_slice(), object)
}

/// Whether what a rule asks of a noun or the place is there; of nothing every aspect is false that asks anything.
fn is_met(world: &World, aspect: &Aspect, object: &Option<ObjNo>) -> bool
    ensures { result ≡ is_met (setting_of world.now.tables) world.now.world (aspect_told aspect.now) object.now }
{
    match aspect {
        Aspect::Anything => true,
        Aspect::Unknown(_) => true,
        Aspect::Object(number) => match object {
            None => false,
            Some(object) => object.get() == *number,
        },
        Aspect::Kind(kind) => match object {
            None => false,
            Some(object) => is_of_kind(world, kind, *object),
        },
    }
}

/// Whether the action is the one that a rule is about, if it is about one.
fn is_action(number: u8, action: ActNo) -> bool
    ensures { result ≡ is_action (number_if_some number) action }
{
    number == NONE || number == action.get()
}

/// Whether the scene that a rule names happens, if it names one.
fn is_happening(world: &World, number: u8) -> bool
    ensures { result ≡ is_happening world.now.world (number_if_some number) }
{
    number == NONE || world.scene(number).happens
}

/// Whether what a rule is about is there; its condition isn't looked at.
#[tactic(auto, unfolding(play_meaning::specs::Rules::is_about))]
pub fn is_about(world: &World, rule: &RuleEntry, now: &ActionNow) -> bool
    ensures { result ≡ is_about (setting_of world.now.tables) world.now.world now.now (head_of (rule_told rule.now)) }
{
    let here = Some(world.location());
    is_action(rule.action, now.action)
        && is_met(world, &rule.noun, &now.noun)
        && is_met(world, &rule.second, &now.second)
        && is_met(world, &rule.place, &here)
        && is_happening(world, rule.scene)
}
