//! The objects of a source by their names: 0 the player, 1 to 12 the directions, then the author's by
//! first mention.
ghost use Rattle.std.specs.Prelude.{◌≡◌, fold, map, IfOk, OnOk};
ghost use Rattle.i7_claims.specs.Beings.{names_said};
ghost use Rattle.i7_claims.specs.Statements.{built_in_keys, key_of, named_by, number_in, number_of, with_name, with_names_of};
ghost use Rattle.i7_claims.specs.Views.{names_of};

use i7_sentences::{Assertion, Being, Name, Sentence};
use object_words::Strings;
use std::alloc::{AllocError, Global};
use world_meaning::{Direction, is_spelled};

/// The first number of an object of the author's.
pub const FIRST_OF_AUTHOR: usize = 13;

/// The first mention of an object of the author's.
#[derive(Clone, Copy)]
pub struct Mention<'a> {
    pub name: &'a Name,
    pub line: u32,
}

/// The names of a source's objects: their keys by number, and the author's objects by first mention.
#[derive(Drop)]
pub struct Names<'a> {
    keys: Strings,
    mentions: Vec<Mention<'a>>,
}

/// The key of a name: its bytes in small letters; the player's names have one key.
pub fn key_of(alloc: Global, name: &[u8]) -> Result<Vec<u8>, AllocError>
    ensures { IfOk result (λ key. key.items ≡ key_of name.now) }
{
    if is_spelled(name, b"player") {
        return Vec::from_slice(alloc, b"yourself");
    }
    name.to_ascii_lowercase(alloc)
}

/// The keys of the built-in objects: the player's, and the directions' by number.
#[tactic(auto, unfolding(world_meaning::specs::Directions::direction_name))]
pub fn built_in_keys(alloc: Global) -> Result<Strings, AllocError>
    ensures { IfOk result (λ keys. keys ≡ built_in_keys) }
{
    let mut keys = Strings::new(alloc);
    keys.mention(alloc, b"yourself")?;
    let mut rest: &[Direction] = &Direction::ALL;
    while let [direction, after @ ..] = rest {
        keys.mention(alloc, direction.name())?;
        rest = after;
    }
    Ok(keys)
}

/// The place of a key.
pub fn number_in(keys: &Strings, key: &[u8]) -> usize
    ensures { result ≡ number_in keys.now key.now }
{
    match keys.place_of(key) {
        Some(place) => place,
        None => keys.len(),
    }
}

/// Takes up a name, if it is new.
fn take_up<'a>(
    alloc: Global,
    names: &mut Names<'a>,
    name: &'a Name,
    line: u32,
) -> Result<(), AllocError>
    ensures { OnOk result (names_of names.new ≡ with_name (names_of names.old) (record { name = name.now; line = line })) }
{
    let key = key_of(alloc, name.text.as_slice())?;
    let before = names.keys.len();
    names.keys.mention(alloc, key.as_slice())?;
    if names.keys.len() != before {
        names.mentions.push(Mention { name, line })?;
    }
    Ok(())
}

/// Takes up names.
fn take_up_names<'a>(
    alloc: Global,
    names: &mut Names<'a>,
    mentioned: &'a [Name],
    line: u32,
) -> Result<(), AllocError>
    ensures { OnOk result (names_of names.new ≡ fold with_name (names_of names.old) (map (λ name. record { name = name; line = line }) mentioned.now)) }
{
    let mut rest = mentioned;
    while let [name, after @ ..] = rest {
        take_up(alloc, names, name, line)?;
        rest = after;
    }
    Ok(())
}

/// Takes up the names of what objects are said to be.
fn take_up_being<'a>(
    alloc: Global,
    names: &mut Names<'a>,
    being: &'a Being,
    line: u32,
) -> Result<(), AllocError>
    ensures { OnOk result (names_of names.new ≡ fold with_name (names_of names.old) (map (λ name. record { name = name; line = line }) (names_said being.now))) }
{
    take_up_names(alloc, names, being.subjects.as_slice(), line)?;
    match &being.place {
        None => Ok(()),
        Some(holder) => take_up(alloc, names, &holder.name, line),
    }
}

/// Takes up the names of a sentence, in the order of its words.
fn take_up_all<'a>(
    alloc: Global,
    names: &mut Names<'a>,
    sentence: &'a Sentence,
) -> Result<(), AllocError>
    ensures { OnOk result (names_of names.new ≡ with_names_of (names_of names.old) sentence.now) }
{
    let line = sentence.line;
    match &sentence.said {
        Assertion::Are(being) => take_up_being(alloc, names, being, line),
        Assertion::Way(way) => {
            let (first, second) = if way.is_room_first {
                (&way.room, &way.subject)
            } else {
                (&way.subject, &way.room)
            };
            take_up(alloc, names, first, line)?;
            take_up(alloc, names, second, line)
        }
        Assertion::DescriptionOf { object, .. } => take_up(alloc, names, object, line),
        Assertion::NumberOf { object, .. } => take_up(alloc, names, object, line),
        Assertion::ValueOf { object, .. } => take_up(alloc, names, object, line),
        Assertion::Door {
            door,
            first,
            second,
        } => {
            take_up(alloc, names, door, line)?;
            take_up(alloc, names, &first.room, line)?;
            take_up(alloc, names, &second.room, line)
        }
        Assertion::Holds { holder, things, .. } => {
            take_up(alloc, names, holder, line)?;
            take_up_names(alloc, names, things.as_slice(), line)
        }
        _ => Ok(()),
    }
}

/// The names of the sentences.
pub fn names_of<'a>(alloc: Global, sentences: &'a [Sentence]) -> Result<Names<'a>, AllocError>
    ensures { IfOk result (λ names. names_of names ≡ named_by sentences.now) }
{
    let mut names = Names {
        keys: built_in_keys(alloc)?,
        mentions: Vec::new(alloc),
    };
    let mut rest = sentences;
    while let [sentence, after @ ..] = rest {
        take_up_all(alloc, &mut names, sentence)?;
        rest = after;
    }
    Ok(names)
}

impl<'a> Names<'a> {
    ghost use Rattle.i7_claims.specs.Views.{mentions_of};

    /// The author's objects, in order.
    pub fn mentions(&self) -> &[Mention<'a>]
        ensures { mentions_of result.now ≡ (names_of self.now).mentions }
    {
        self.mentions.as_slice()
    }

    /// The keys of the objects, by number.
    pub fn keys(&self) -> &Strings
        ensures { result.now ≡ (names_of self.now).keys }
    {
        &self.keys
    }

    /// The number of the object of this name.
    pub(crate) fn number_of(&self, alloc: Global, name: &Name) -> Result<usize, AllocError>
        ensures { IfOk result (λ number. number ≡ number_of (names_of self.now) name.now) }
    {
        let key = key_of(alloc, name.text.as_slice())?;
        Ok(number_in(&self.keys, key.as_slice()))
    }
}
