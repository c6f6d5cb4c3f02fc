//! What a story's actions need.
ghost use Rattle.std.specs.Prelude.{◌≡◌};
ghost use Rattle.play_meaning.specs.CodedStories.{game_of_codes};
ghost use Rattle.world_store.specs.StoryPlay.{coded_story, needs_told, slot_of};

use play_meaning::ActNo;
use story_format::{ActionEntry, Story};
use world_meaning::{Needs, Slot};

/// What an action asks for that isn't there.
const NOTHING: Needs = Needs {
    noun: Slot::Absent,
    second: Slot::Absent,
    light: false,
    out_of_world: false,
};

/// What is asked of a noun.
fn slot_of(number: u8) -> Slot
    ensures { result ≡ slot_of number }
{
    match number {
        0 => Slot::Visible,
        1 => Slot::Touched,
        2 => Slot::Carried,
        _ => Slot::Absent,
    }
}

/// What an action's entry says that it needs.
fn needs_told(entry: &ActionEntry) -> Needs
    ensures { result ≡ needs_told entry.now }
{
    Needs {
        noun: slot_of(entry.noun),
        second: slot_of(entry.second),
        light: entry.marks == 1 || entry.marks == 3,
        out_of_world: entry.marks == 2 || entry.marks == 3,
    }
}

/// What an action needs; one that isn't there needs nothing.
#[tactic(auto, unfolding(play_meaning::specs::CodedStories::game_of_codes, world_store::specs::StoryPlay::coded_story))]
pub fn needs_of(story: &Story, action: ActNo) -> Needs
    ensures { result ≡ (game_of_codes (coded_story story.now)).needs action }
{
    match story.action(usize::from(action.get())) {
        None => NOTHING,
        Some(entry) => needs_told(entry),
    }
}
