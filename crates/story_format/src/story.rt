//! A story that was loaded, and what it says of its objects.
ghost use Rattle.std.specs.Prelude.{◌≡◌, ◌≤◌, ◌-◌, [], ℕ, Some, length, map, slice_index_or};
ghost use Rattle.std.specs.List.{list_any};
ghost use Rattle.story_format.specs.Facts.{body_of_rule, condition_of_rule, description_code_of, exits_at, name_of, object_count_of, start_of, text_at, way_of, words_of};
ghost use Rattle.story_code.specs.Runs.{AreSoundTogether, IsBody, IsDescription, IsTestAt};
ghost use Rattle.story_format.specs.Codes.{AreCodesOf};
ghost use Rattle.world_meaning.specs.Spelling.{is_spelled};

use crate::facts::way_in;
use crate::place::NONE;
use crate::standing::{count_of_rooms, is_room_entry};
use crate::tables::{Entry, Tables};
use std::marker::Model;
use story_code::Verified;
use world_meaning::{Exits, KindNo, ObjNo, TextBytes, is_spelled};

/// A story: its tables, and its codes verified.
#[derive(Drop)]
pub struct Story {
    tables: Tables,
    codes: Vec<Verified>,
}

impl Model for Story {
    ghost use Rattle.story_format.specs.Loaded.{IsLoaded};
    ghost use Rattle.story_format.specs.declared.tables.Tables.{Tables};

    ghost Value = { Tables };

    ghost view = { λ story. story.tables };

    ghost invariant = { λ story. IsLoaded story.tables story.codes.items };
}

/// The string of a number; no bytes where there is no such string.
fn text_at(strings: &[TextBytes], number: u16) -> &[u8]
    ensures { result.now ≡ text_at strings.now number }
{
    match strings.get(number as usize) {
        Some(text) => text.as_slice(),
        None => &[],
    }
}

/// Whether one of the strings of these numbers is the word, whatever the case of its letters.
fn hold_word(strings: &[TextBytes], numbers: &[u16], word: &[u8]) -> bool
    ensures { result ≡ list_any (λ n. is_spelled word.now (text_at strings.now n)) numbers.now }
{
    numbers
        .iter()
        .any(|number| is_spelled(word, text_at(strings, *number)))
}

/// The ways of a room: they stand in the order of the rooms.
pub(crate) fn exits_at(
    parents: &[Option<KindNo>],
    entries: &[Entry],
    ways: &[Exits],
    room: usize,
) -> Option<Exits>
    ensures { result ≡ exits_at parents.now entries.now ways.now room }
{
    match entries.get(room) {
        Some(entry) if is_room_entry(parents, entry) => {
            let (before, _) = entries.split_at(room);
            ways.get(count_of_rooms(parents, before)).copied()
        }
        _ => None,
    }
}

/// The place among a room's ways of the one in the direction of a number.
pub(crate) fn place_of_way(direction: ObjNo) -> usize
    ensures { result ≡ direction - 1 }
{
    (direction.get() as usize).saturating_sub(1)
}

impl Story {
    ghost use Rattle.story_format.specs.Spells.{IsStory};

    /// The story of these tables, with their codes.
    pub(crate) fn new(tables: Tables, codes: Vec<Verified>) -> Story
        requires story { IsStory tables }
        requires judged { AreCodesOf tables codes.items }
        ensures { result ≡ tables }
    {
        Story { tables, codes }
    }

    /// The tables, which are a story's.
    pub(crate) fn tables(&self) -> &Tables
        ensures tables { result.now ≡ self.now }
        ensures story { IsStory self.now }
    {
        &self.tables
    }

    /// How many objects there are: the player, the directions and the author's.
    pub fn object_count(&self) -> usize
        ensures count { result ≡ object_count_of self.now }
        ensures few { result ≤ 1000 }
    {
        self.tables.objects.as_slice().len()
    }

    /// The object's name, as it is printed; no bytes where there is no such object.
    pub fn name(&self, object: ObjNo) -> &[u8]
        ensures { result.now ≡ name_of self.now object }
    {
        match self.tables.objects.as_slice().get(object.get() as usize) {
            Some(entry) => text_at(self.tables.strings.as_slice(), entry.name),
            None => &[],
        }
    }

    /// Whether a command may name the object by the word, whatever the case of its letters.
    pub fn has_word(&self, object: ObjNo, word: &[u8]) -> bool
        ensures { result ≡ list_any (is_spelled word.now) (words_of self.now object) }
    {
        hold_word(self.tables.strings.as_slice(), self.words(object), word)
    }

    /// How many words a command may name the object by.
    pub fn word_count(&self, object: ObjNo) -> usize
        ensures { result ≡ length (words_of self.now object) }
    {
        self.words(object).len()
    }

    /// A word that a command may name the object by, by its place; no bytes where there is none.
    pub fn word(&self, object: ObjNo, place: usize) -> &[u8]
        ensures { result.now ≡ slice_index_or (words_of self.now object) place [] }
    {
        match self.words(object).get(place) {
            Some(number) => self.string(*number),
            None => &[],
        }
    }

    /// The numbers of the words that a command may name the object by.
    fn words(&self, object: ObjNo) -> &[u16]
        ensures { map (text_at self.now.strings) result.now ≡ words_of self.now object }
    {
        match self.tables.objects.as_slice().get(object.get() as usize) {
            Some(entry) => entry.words.as_slice(),
            None => &[],
        }
    }

    /// The number of the code that describes the object, if it is described.
    pub fn description_code(&self, object: ObjNo) -> Option<u16>
        ensures { result ≡ description_code_of self.now object }
    {
        let entry = self.tables.objects.as_slice().get(object.get() as usize)?;
        if entry.description == NONE {
            None
        } else {
            Some(entry.description)
        }
    }

    /// The string of a number; no bytes where there is no such string.
    pub fn string(&self, number: u16) -> &[u8]
        ensures { result.now ≡ text_at self.now.strings number }
    {
        text_at(self.tables.strings.as_slice(), number)
    }

    /// The room beyond the way in the direction of that number; no way leads in a direction of the author's.
    pub fn way(&self, room: ObjNo, direction: ObjNo) -> Option<ObjNo>
        ensures { result ≡ way_of self.now room direction }
    {
        way_in(&self.exits(room), direction)
    }

    /// The codes, by number, each verified for what it is for: they are sound together, a described object is described by one
    /// that is a description's, a rule's condition is answered by a test inside no loop, and what a rule does is a body's.
    pub fn codes(&self) -> &[Verified]
        ensures codes { AreCodesOf self.now result.now }
        ensures sound { AreSoundTogether result.now }
        ensures described { (o n : ℕ) → description_code_of self.now o ≡ Some n → IsDescription result.now n }
        ensures asked { (r n : ℕ) → condition_of_rule self.now r ≡ Some n → IsTestAt result.now n 0 }
        ensures done { (r n : ℕ) → body_of_rule self.now r ≡ Some n → IsBody result.now n }
    {
        self.codes.as_slice()
    }

    /// The room in which the player stands as the story begins.
    pub fn start(&self) -> ObjNo
        ensures { result ≡ start_of self.now }
    {
        match self.tables.objects.as_slice().get(0) {
            Some(player) => ObjNo::new(player.holder),
            None => ObjNo::new(0),
        }
    }
}
