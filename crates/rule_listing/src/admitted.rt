//! Which rules an action, its noun and a room admit. No condition, property, second noun or scene is looked at.
ghost use Rattle.std.specs.Prelude.{◌≡◌, IfOk, Some};
ghost use Rattle.story_format.specs.Carrying.{number_if_some};
ghost use Rattle.play_meaning.specs.Admitting.{may_be_met};
ghost use Rattle.play_meaning.specs.Rules.{is_action};
ghost use Rattle.rule_listing.specs.Admitted.{entry_sought, is_action_sought, is_sought, may_be, rules_sought};
ghost use Rattle.world_store.specs.StoryPlay.{aspect_told};
ghost use Rattle.world_store.specs.StorySettings.{setting_of};

use play_meaning::ActNo;
use std::alloc::{AllocError, Global};
use story_format::{Aspect, RuleEntry, Story};
use world_meaning::{KindNo, ObjNo};

/// The number that stands for no action.
const NONE: u8 = 255;

/// The noun or the room for which rules are sought.
#[derive(Clone, Copy, Debug)]
pub enum SoughtObject {
    /// It is left open.
    Any,
    /// There is none.
    Nothing,
    The(ObjNo),
}

/// The action, the noun and the room for which rules are sought.
#[derive(Clone, Copy, Debug)]
pub struct Sought {
    /// None where it is left open.
    pub action: Option<ActNo>,
    pub noun: SoughtObject,
    pub room: SoughtObject,
}

impl Sought {
    /// All rules.
    pub const ALL: Sought = Sought {
        action: None,
        noun: SoughtObject::Any,
        room: SoughtObject::Any,
    };
}

/// Whether an object may be what an aspect asks: it is that very one, or of that kind.
#[tactic(auto, unfolding(world_store::specs::StorySettings::setting_of))]
fn may_be_met(story: &Story, aspect: &Aspect, object: Option<ObjNo>) -> bool
    ensures { result ≡ may_be_met (setting_of story.now) (aspect_told aspect.now) object }
{
    match aspect {
        Aspect::Anything => true,
        Aspect::Unknown(_) => true,
        Aspect::Object(number) => match object {
            None => false,
            Some(object) => object.get() == *number,
        },
        Aspect::Kind(kind) => match object {
            None => false,
            Some(object) => story.is_of(object, KindNo::new(kind.kind)),
        },
    }
}

/// Whether an object that is sought may be what an aspect asks.
fn may_be(story: &Story, aspect: &Aspect, object: SoughtObject) -> bool
    ensures { result ≡ may_be (setting_of story.now) (aspect_told aspect.now) object }
{
    match object {
        SoughtObject::Any => true,
        SoughtObject::Nothing => may_be_met(story, aspect, None),
        SoughtObject::The(object) => may_be_met(story, aspect, Some(object)),
    }
}

/// Whether the number of a rule's action is none, or this action's.
fn is_action(number: u8, action: u8) -> bool
    ensures { result ≡ is_action (number_if_some number) action }
{
    number == NONE || number == action
}

/// Whether the number of a rule's action is none, or that of the action that is sought.
fn is_action_sought(number: u8, action: Option<ActNo>) -> bool
    ensures { result ≡ is_action_sought (number_if_some number) action }
{
    match action {
        None => true,
        Some(action) => is_action(number, action.get()),
    }
}

/// Whether a rule's entry admits what is sought.
fn entry_sought(story: &Story, sought: &Sought, entry: &RuleEntry) -> bool
    ensures { result ≡ entry_sought (setting_of story.now) sought.now (Some entry.now) }
{
    is_action_sought(entry.action, sought.action)
        && may_be(story, &entry.noun, sought.noun)
        && may_be(story, &entry.place, sought.room)
}

/// Whether a rule admits what is sought; one that isn't there doesn't.
#[tactic(auto, unfolding(crate::specs::Admitted::is_sought))]
fn is_sought(story: &Story, sought: &Sought, rule: u16) -> bool
    ensures { result ≡ is_sought story.now sought.now rule }
{
    match story.rule(usize::from(rule)) {
        None => false,
        Some(entry) => entry_sought(story, sought, entry),
    }
}

/// The rules of a book that admit what is sought, in the order in which they are asked.
pub fn rules_sought(
    alloc: Global,
    story: &Story,
    sought: &Sought,
    book: u16,
) -> Result<Vec<u16>, AllocError>
    ensures { IfOk result (λ rules. rules.items ≡ rules_sought story.now sought.now book) }
{
    let mut rules = Vec::new(alloc);
    let mut rest = story.rules_listed(book);
    while let [rule, after @ ..] = rest {
        if is_sought(story, sought, *rule) {
            rules.push(*rule)?;
        }
        rest = after;
    }
    Ok(rules)
}
