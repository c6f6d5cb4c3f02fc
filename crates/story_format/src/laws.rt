//! What holds of stories whatever the bytes are.
ghost use Rattle.std.specs.Prelude.{◌≡◌, ◌≢◌, ◌⊎◌, ℕ, List, true};
ghost use Rattle.world_meaning.specs.Sorts.{is_at};
ghost use Rattle.world_meaning.specs.Standing.{is_at_or_none};
ghost use Rattle.world_meaning.specs.declared.tale.Tale.{Tale};
ghost use Rattle.story_format.specs.declared.fault.LoadFault.{LoadFault};
ghost use Rattle.story_format.specs.declared.fault.LoadFault.TheVariants.{Memory};
ghost use Rattle.story_format.specs.declared.tables.Tables.{Tables};
ghost use Rattle.story_format.specs.Carrying.{Carries};
ghost use Rattle.story_format.specs.Contents.{Contents};
ghost use Rattle.story_format.specs.Facts.{start_of, way_of};
ghost use Rattle.story_format.specs.FirstVersion.{FirstVersionStands};
ghost use Rattle.story_format.specs.Formats.{IsBytes};
ghost use Rattle.story_format.specs.Placed.{sorts_in};
ghost use Rattle.story_format.specs.Holding.{AreHeld, IsHeld, NeverHeldAndNot, PlainTextsAreHeld};
ghost use Rattle.story_format.specs.Making.{tables_of};
ghost use Rattle.story_format.specs.Spells.{IsStory, Spells};
ghost use Rattle.story_format.specs.Refusals.{IsRefused};
ghost use Rattle.story_format.specs.Telling.{AreToldAlike};

use code_table::never_table_and_none;

/// No story has two spellings.
pub fn one_spelling()
    ensures { (a b : List ℕ) (tables : Tables) → Spells a tables → Spells b tables → a ≡ b }
{}

/// No bytes spell two stories.
pub fn one_story()
    ensures { (bytes : List ℕ) (tables other : Tables) → Spells bytes tables → Spells bytes other → tables ≡ other }
{}

/// The bytes of a story are not refused, unless memory is.
pub fn stories_stand()
    ensures { (bytes : List ℕ) (tables : Tables) (fault : LoadFault) → Spells bytes tables → IsRefused fault bytes → fault ≡ Memory }
{}

/// No bytes stand for two faults.
pub fn one_fault()
    ensures { (bytes : List ℕ) (fault other : LoadFault) → IsRefused fault bytes → IsRefused other bytes → fault ≢ Memory → other ≢ Memory → fault ≡ other }
{}

/// Bytes spell a story, or stand for a fault.
pub fn spelled_or_refused()
    ensures { (bytes : List ℕ) → IsBytes bytes → ((tables : Tables) × Spells bytes tables) ⊎ ((fault : LoadFault) × (fault ≢ Memory) × IsRefused fault bytes) }
{}

/// A file of version 1 spells a story exactly as tables 1 to 13 say it by themselves, and the story has no kind of value; so who
/// reads such files need know nothing of the others.
pub fn first_version_stands()
    ensures { FirstVersionStands }
{}

/// The tables of a tale that a story file holds, and of which it says this, are a story's.
pub fn tales_are_stories()
    ensures { (tale : Tale) (said : Contents) → IsHeld tale → AreHeld tale said → IsStory (tables_of tale said) }
{}

/// They say of each object's name and ways, and of the start, what the tale says, of each object the text that describes
/// it, of each action what it asks for, of each rule what it asks and does, of each rulebook in which order it asks its rules, as
/// sentences list them, and of each scene on what it begins and ends.
pub fn story_carries_tale()
    ensures { (tale : Tale) (said : Contents) → IsHeld tale → AreHeld tale said → Carries (tables_of tale said) tale said }
{}

/// A story file says descriptions that say bytes alone, each at most 65,535, where there is no rule, nothing begins or ends a
/// scene, no object's name has over 32 words, the names of values have at most 65,535 bytes, and there are 184 actions of the
/// author's at most, none with a second noun alone.
pub fn plain_texts_are_held()
    ensures { PlainTextsAreHeld }
{}

/// What a story file says of a tale is not held for no reason but memory.
pub fn never_held_and_not()
    ensures { NeverHeldAndNot }
{
    never_table_and_none();
}

/// A story begins in one of its rooms, and each way leads to one of them or nowhere.
pub fn stories_lead_to_rooms()
    ensures start { (tables : Tables) → IsStory tables → is_at (sorts_in tables).rooms (start_of tables) ≡ true }
    ensures ways { (tables : Tables) (room direction : ℕ) → IsStory tables → is_at_or_none (sorts_in tables).rooms (way_of tables room direction) ≡ true }
{}

/// Stories that say the same of their objects and rules, text by text and code by code, and have all else as it is, are
/// one: a renumbering of a story's strings or codes is no other story.
pub fn told_alike_are_one()
    ensures { (story other : Tables) → IsStory story → IsStory other → AreToldAlike story other → story ≡ other }
{}
