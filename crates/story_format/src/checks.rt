//! What the tables say together, whatever the codes are: each test is named after what it asks.
ghost use Rattle.std.specs.Prelude.{◌≡◌, ◌≤◌, ◌++◌, IfOk, OnOk, filter, length, map, not};
ghost use Rattle.std.specs.List.{list_all, flat_map};
ghost use Rattle.story_format.specs.Placed.{sorts_in};
ghost use Rattle.story_format.specs.RuleChecks.{is_slot_number, strings_in_line};
ghost use Rattle.story_format.specs.Sizes.{sizes_of};
ghost use Rattle.story_format.specs.Checks.{are_distinct, is_named, begin_with, has_words, have_words, is_small_byte, is_small, is_small_at, has_small_words, is_player_entry, is_direction_entry, are_direction_entries, are_in_place, are_named_in_order, strings_in_tables, strings_named, codes_named, heads_named, are_right_objects, is_right_frame, are_first_right, are_right};

use crate::counts::counts_of;
use crate::kind_tables::suit_kinds;
use crate::place::NONE;
use crate::row::{Sizes, are_right_entries};
use crate::rule_checks::{are_right_rules, is_slot_number};
use crate::rule_codes::add_codes;
use crate::rule_tables::LineEntry;
use crate::standing::{are_right_ways, sorts_in, stand_rightly};
use crate::tables::{Entry, Tables};
use crate::value_checks::are_right_values;
use crate::world_checks::is_right_world;
use object_words::{Strings, words_for};
use std::alloc::{AllocError, Global};
use world_meaning::{Direction, KindNo, Sorts, TextBytes, is_at, is_under};

/// How many entries the tables have.
fn sizes_of(tables: &Tables) -> Sizes
    ensures { result ≡ sizes_of tables.now }
{
    Sizes {
        kinds: tables.world.kinds.as_slice().len(),
        codes: tables.codes.as_slice().len(),
    }
}

/// Whether no string stands twice.
#[tactic(auto, unfolding(crate::specs::Checks::are_distinct), using(object_words::proofs::StringLemmas::length_mapped))]
fn are_distinct(alloc: Global, strings: &[TextBytes]) -> Result<bool, AllocError>
    ensures { IfOk result (λ distinct. distinct ≡ are_distinct strings.now) }
{
    let mut once = Strings::new(alloc);
    for string in strings {
        once.mention(alloc, string.as_slice())?;
    }
    Ok(once.as_slice().len() == strings.len())
}

#[tactic(auto, unfolding(crate::specs::Checks::is_named))]
fn is_named(strings: &[TextBytes], number: u16, text: &[u8]) -> bool
    ensures { result ≡ is_named strings.now number text.now }
{
    match strings.get(number as usize) {
        None => false,
        Some(string) => string.as_slice() == text,
    }
}

/// Whether the first of the numbers name these texts, in order.
#[tactic(auto, unfolding(crate::specs::Checks::begin_with))]
fn begin_with(strings: &[TextBytes], numbers: &[u16], texts: &[Vec<u8>]) -> bool
    ensures { result ≡ begin_with strings.now numbers.now (map (λ text. text.items) texts.now) }
{
    let mut numbers = numbers;
    let mut texts = texts;
    while let [text, others @ ..] = texts {
        match numbers {
            [number, after @ ..] if is_named(strings, *number, text.as_slice()) => numbers = after,
            _ => return false,
        }
        texts = others;
    }
    true
}

/// Whether the words of an object begin with those of its number and name.
#[tactic(auto, unfolding(crate::specs::Checks::has_words))]
fn has_words(
    alloc: Global,
    strings: &[TextBytes],
    number: usize,
    entry: &Entry,
) -> Result<bool, AllocError>
    ensures { IfOk result (λ has. has ≡ has_words strings.now number entry.now) }
{
    let Some(name) = strings.get(entry.name as usize) else {
        return Ok(false);
    };
    let words = words_for(alloc, number, name.as_slice())?;
    Ok(begin_with(strings, entry.words.as_slice(), words.as_slice()))
}

/// Whether the words of each object begin with those of its number and name.
#[tactic(auto, unfolding(crate::specs::Checks::have_words))]
fn have_words(alloc: Global, strings: &[TextBytes], entries: &[Entry]) -> Result<bool, AllocError>
    ensures { IfOk result (λ have. have ≡ have_words strings.now 0 entries.now) }
{
    let mut number = 0usize;
    let mut rest = entries;
    while let [entry, after @ ..] = rest {
        if !has_words(alloc, strings, number, entry)? {
            return Ok(false);
        }
        number += 1;
        rest = after;
    }
    Ok(true)
}

fn is_small_byte(byte: u8) -> bool
    ensures { result ≡ is_small_byte byte }
{
    byte.to_ascii_lowercase() == byte
}

fn is_small(text: &[u8]) -> bool
    ensures { result ≡ is_small text.now }
{
    text.iter().all(|byte| is_small_byte(*byte))
}

/// Of each string, whether it has no capital letter.
fn smallness(alloc: Global, strings: &[TextBytes]) -> Result<Vec<bool>, AllocError>
    ensures { IfOk result (λ small. small.items ≡ map is_small strings.now) }
{
    strings
        .iter()
        .map(|string| is_small(string.as_slice()))
        .collect(alloc)
}

fn is_small_at(small: &[bool], number: u16) -> bool
    ensures { result ≡ is_small_at small.now number }
{
    match small.get(number as usize) {
        Some(is_small) => *is_small,
        None => false,
    }
}

fn has_small_words(small: &[bool], entry: &Entry) -> bool
    ensures { result ≡ has_small_words small.now entry.now }
{
    let words = entry.words.as_slice();
    words.iter().all(|word| is_small_at(small, *word))
}

fn have_small_words(small: &[bool], entries: &[Entry]) -> bool
    ensures { result ≡ list_all (has_small_words small.now) entries.now }
{
    entries.iter().all(|entry| has_small_words(small, entry))
}

#[tactic(auto, unfolding(crate::specs::Checks::is_player_entry))]
fn is_player_entry(
    strings: &[TextBytes],
    parents: &[Option<KindNo>],
    rooms: &[bool],
    entry: &Entry,
) -> bool
    ensures { result ≡ is_player_entry strings.now parents.now rooms.now entry.now }
{
    is_under(parents, KindNo::new(entry.kind), KindNo::PERSON)
        && is_named(strings, entry.name, b"yourself")
        && entry.article == 0
        && entry.relation == 0
        && is_at(rooms, entry.holder as usize)
}

#[tactic(auto, unfolding(crate::specs::Checks::is_direction_entry))]
fn is_direction_entry(
    strings: &[TextBytes],
    parents: &[Option<KindNo>],
    direction: Direction,
    entry: &Entry,
) -> bool
    ensures { result ≡ is_direction_entry strings.now parents.now direction entry.now }
{
    is_under(parents, KindNo::new(entry.kind), KindNo::DIRECTION)
        && is_named(strings, entry.name, direction.name())
        && entry.article == 0
        && entry.relation == 255
        && entry.holder == NONE
}

#[tactic(auto, unfolding(crate::specs::Checks::are_direction_entries))]
fn are_direction_entries(
    strings: &[TextBytes],
    parents: &[Option<KindNo>],
    directions: &[Direction],
    entries: &[Entry],
) -> bool
    ensures { result ≡ are_direction_entries strings.now parents.now directions.now entries.now }
{
    let mut directions = directions;
    let mut entries = entries;
    while let [direction, others @ ..] = directions {
        match entries {
            [entry, after @ ..] if is_direction_entry(strings, parents, *direction, entry) => {
                entries = after
            }
            _ => return false,
        }
        directions = others;
    }
    entries.is_empty()
}

/// Whether the entries begin with the player and the directions.
#[tactic(auto, unfolding(crate::specs::Checks::are_in_place))]
fn are_in_place(
    strings: &[TextBytes],
    parents: &[Option<KindNo>],
    rooms: &[bool],
    entries: &[Entry],
) -> bool
    ensures { result ≡ are_in_place strings.now parents.now rooms.now entries.now }
{
    match entries {
        [] => false,
        [player, others @ ..] => {
            if others.len() < 12 {
                return false;
            }
            let (directions, _) = others.split_at(12);
            is_player_entry(strings, parents, rooms, player)
                && are_direction_entries(strings, parents, &Direction::ALL, directions)
        }
    }
}

/// Whether no number comes before a lower one has come.
#[tactic(auto, unfolding(crate::specs::Checks::are_named_in_order))]
fn are_named_in_order(numbers: &[u16]) -> bool
    ensures { result ≡ are_named_in_order 0 numbers.now }
{
    let mut next = 0usize;
    let mut rest = numbers;
    while let [number, after @ ..] = rest {
        let number = *number as usize;
        if number > next {
            return false;
        }
        next = next.max(number + 1);
        rest = after;
    }
    true
}

/// The strings that the entries of objects name, in order.
fn strings_named(alloc: Global, entries: &[Entry]) -> Result<Vec<u16>, AllocError>
    ensures { IfOk result (λ numbers. numbers.items ≡ flat_map strings_named entries.now) }
{
    let mut numbers = Vec::new(alloc);
    for entry in entries {
        numbers.push(entry.name)?;
        numbers.extend_from_slice(entry.words.as_slice())?;
    }
    Ok(numbers)
}

/// Adds the strings that a line names, in order.
fn add_strings(numbers: &mut Vec<u16>, tokens: &[u16]) -> Result<(), AllocError>
    ensures { OnOk result (numbers.new.items ≡ numbers.old.items ++ filter (λ n. not (is_slot_number n)) tokens.now) }
{
    let mut rest = tokens;
    while let [number, behind @ ..] = rest {
        if !is_slot_number(*number) {
            numbers.push(*number)?;
        }
        rest = behind;
    }
    Ok(())
}

/// Adds the strings that lines of the grammar name, in order.
fn add_line_strings(numbers: &mut Vec<u16>, lines: &[LineEntry]) -> Result<(), AllocError>
    ensures { OnOk result (numbers.new.items ≡ numbers.old.items ++ flat_map strings_in_line lines.now) }
{
    let mut rest = lines;
    while let [line, behind @ ..] = rest {
        add_strings(numbers, line.tokens.as_slice())?;
        rest = behind;
    }
    Ok(())
}

/// The strings that objects name, then those that lines of the grammar name.
#[tactic(auto, unfolding(crate::specs::Checks::strings_in_tables))]
pub fn strings_in_tables(alloc: Global, tables: &Tables) -> Result<Vec<u16>, AllocError>
    ensures { IfOk result (λ numbers. numbers.items ≡ strings_in_tables tables.now) }
{
    let mut numbers = strings_named(alloc, tables.objects.as_slice())?;
    add_line_strings(&mut numbers, tables.rules.grammar.as_slice())?;
    Ok(numbers)
}

/// The codes that the entries name, in order.
pub fn codes_named(alloc: Global, entries: &[Entry]) -> Result<Vec<u16>, AllocError>
    ensures { IfOk result (λ numbers. numbers.items ≡ codes_named entries.now) }
{
    let mut numbers = Vec::new(alloc);
    for entry in entries {
        if entry.description != NONE {
            numbers.push(entry.description)?;
        }
    }
    Ok(numbers)
}

/// The codes that objects name, then those that rules name, and then those that scenes name.
pub fn heads_named(alloc: Global, tables: &Tables) -> Result<Vec<u16>, AllocError>
    ensures { IfOk result (λ numbers. numbers.items ≡ heads_named tables.now) }
{
    let mut numbers = codes_named(alloc, tables.objects.as_slice())?;
    add_codes(&mut numbers, &tables.rules)?;
    Ok(numbers)
}

/// Whether the objects are those of a story, and name strings and codes in order.
#[tactic(auto, unfolding(crate::specs::Checks::are_right_objects))]
fn are_right_objects(alloc: Global, tables: &Tables, sorts: &Sorts) -> Result<bool, AllocError>
    requires few { length tables.now.world.kinds ≤ 100 }
    requires sorts { sorts.now ≡ sorts_in tables.now }
    ensures { IfOk result (λ right. right ≡ are_right_objects tables.now) }
{
    let strings = tables.strings.as_slice();
    let entries = tables.objects.as_slice();
    let parents = tables.world.kinds.as_slice();
    Ok(
        are_right_entries(sizes_of(tables), entries)
            && are_in_place(strings, parents, sorts.rooms.as_slice(), entries)
            && have_words(alloc, strings, entries)?
            && have_small_words(smallness(alloc, strings)?.as_slice(), entries)
            && are_named_in_order(strings_in_tables(alloc, tables)?.as_slice())
            && are_named_in_order(heads_named(alloc, tables)?.as_slice())
            && suit_kinds(alloc, sizes_of(tables), &tables.world, entries)?,
    )
}

/// Whether tables 2 to 5 and 8 to 12 are a story's, and the others not too long.
#[tactic(auto, unfolding(crate::specs::Checks::is_right_frame))]
fn is_right_frame(alloc: Global, tables: &Tables) -> Result<bool, AllocError>
    ensures { IfOk result (λ right. right ≡ is_right_frame tables.now) }
{
    Ok(
        is_right_world(alloc, &tables.world)?
            && are_right_rules(alloc, &counts_of(tables), &tables.rules)?
            && tables.objects.as_slice().len() <= 1000
            && tables.strings.as_slice().len() < 65535,
    )
}

/// Whether tables 1 to 12 are those of a story.
#[tactic(auto, unfolding(crate::specs::Checks::are_first_right), using(crate::proofs::KindLemmas::frame_few))]
fn are_first_right(alloc: Global, tables: &Tables) -> Result<bool, AllocError>
    ensures { IfOk result (λ right. right ≡ are_first_right tables.now) }
{
    if !is_right_frame(alloc, tables)? {
        return Ok(false);
    }
    let sorts = sorts_in(alloc, tables)?;
    Ok(
        are_distinct(alloc, tables.strings.as_slice())?
            && are_right_objects(alloc, tables, &sorts)?
            && stand_rightly(alloc, tables, &sorts)?
            && are_right_ways(tables, &sorts),
    )
}

/// Whether tables 1 to 12, 14 and 15 are those of a story.
#[tactic(auto, unfolding(crate::specs::Checks::are_right))]
pub fn are_right(alloc: Global, tables: &Tables) -> Result<bool, AllocError>
    ensures { IfOk result (λ right. right ≡ are_right tables.now) }
{
    Ok(are_first_right(alloc, tables)? && are_right_values(alloc, tables)?)
}
