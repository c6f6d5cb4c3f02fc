//! What a rule's entry admits. No condition, property or scene is looked at.
ghost use Rattle.std.specs.Prelude.{◌≡◌, Some};
ghost use Rattle.play_meaning.specs.Admitting.{may_be_met};
ghost use Rattle.play_meaning.specs.Rules.{is_action};
ghost use Rattle.story_format.specs.Carrying.{number_if_some};
ghost use Rattle.world_store.specs.StoryPlay.{aspect_told};
ghost use Rattle.world_store.specs.StorySettings.{setting_of};
ghost use Rattle.rule_index.specs.Buckets.{entry_admits, rule_admits};
ghost use Rattle.rule_index.specs.Classes.{rule_has, rule_suits};

use play_meaning::ActNo;
use story_format::{Aspect, RuleEntry, Story};
use world_meaning::{KindNo, ObjNo};

/// The number that stands for no action.
const NONE: u8 = 255;

/// What a walk asks of rules: an action, a noun and a room.
#[derive(Clone, Copy)]
pub struct Asked {
    pub action: ActNo,
    pub noun: Option<ObjNo>,
    pub room: Option<ObjNo>,
}

/// Whether an object may be what an aspect asks: it is that very one, or of that kind.
#[tactic(auto, unfolding(world_store::specs::StorySettings::setting_of))]
fn may_be_met(story: &Story, aspect: &Aspect, object: Option<ObjNo>) -> bool
    ensures { result ≡ may_be_met (setting_of story.now) (aspect_told aspect.now) object }
{
    match aspect {
        Aspect::Anything => true,
        Aspect::Unknown(_) => true,
        Aspect::Object(number) => match object {
            None => false,
            Some(object) => object.get() == *number,
        },
        Aspect::Kind(kind) => match object {
            None => false,
            Some(object) => story.is_of(object, KindNo::new(kind.kind)),
        },
    }
}

/// Whether the number of a rule's action is none, or this action's.
fn is_action(number: u8, action: u8) -> bool
    ensures { result ≡ is_action (number_if_some number) action }
{
    number == NONE || number == action
}

/// Whether a rule's entry admits what is asked.
#[tactic(auto, unfolding(play_meaning::specs::Admitting::admits))]
fn entry_admits(story: &Story, entry: &RuleEntry, asked: &Asked) -> bool
    ensures { result ≡ entry_admits (setting_of story.now) asked.now.action asked.now.noun asked.now.room (Some entry.now) }
{
    is_action(entry.action, asked.action.get())
        && may_be_met(story, &entry.noun, asked.noun)
        && may_be_met(story, &entry.place, asked.room)
}

/// Whether a rule admits what is asked; one that isn't there doesn't.
#[tactic(auto, unfolding(crate::specs::Buckets::rule_admits))]
pub fn admits(story: &Story, rule: u16, asked: &Asked) -> bool
    ensures { result ≡ rule_admits story.now asked.now.action asked.now.noun asked.now.room rule }
{
    match story.rule(usize::from(rule)) {
        None => false,
        Some(entry) => entry_admits(story, entry, asked),
    }
}

/// Whether a rule names no action or this one.
#[tactic(auto, unfolding(crate::specs::Classes::rule_suits))]
pub fn suits(story: &Story, rule: u16, action: u8) -> bool
    ensures { result ≡ rule_suits story.now action rule }
{
    match story.rule(usize::from(rule)) {
        None => false,
        Some(entry) => is_action(entry.action, action),
    }
}

/// Whether the number in a rule is that of this action.
#[tactic(auto, unfolding(crate::specs::Classes::rule_has))]
pub fn has_action(story: &Story, rule: u16, action: u8) -> bool
    ensures { result ≡ rule_has story.now action rule }
{
    match story.rule(usize::from(rule)) {
        None => false,
        Some(entry) => entry.action == action,
    }
}
