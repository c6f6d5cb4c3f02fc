//! What an entry of table 6 may say by itself, where the tables have so many entries.
ghost use Rattle.std.specs.Prelude.{◌≡◌};
ghost use Rattle.std.specs.List.{list_all};
ghost use Rattle.world_meaning.specs.Declarations.{is_among};
ghost use Rattle.story_format.specs.Sizes.{are_different, is_right_entry};

use crate::place::{NONE, is_place};
use crate::tables::Entry;

/// How many entries the tables have.
#[derive(Clone, Copy)]
pub struct Sizes {
    pub kinds: usize,
    pub codes: usize,
}

fn is_among(number: u16, numbers: &[u16]) -> bool
    ensures { result ≡ is_among number numbers.now }
{
    numbers.iter().any(|other| number == *other)
}

/// Whether no number stands twice.
#[tactic(auto, unfolding(crate::specs::Sizes::are_different))]
fn are_different(numbers: &[u16]) -> bool
    ensures { result ≡ are_different numbers.now }
{
    let mut rest = numbers;
    while let [number, after @ ..] = rest {
        if is_among(*number, after) {
            return false;
        }
        rest = after;
    }
    true
}

#[tactic(auto, unfolding(crate::specs::Sizes::is_right_entry))]
fn is_right_entry(sizes: Sizes, entry: &Entry) -> bool
    ensures { result ≡ is_right_entry sizes entry.now }
{
    (entry.kind as usize) < sizes.kinds
        && entry.article <= 3
        && (entry.description == NONE || (entry.description as usize) < sizes.codes)
        && entry.words.as_slice().len() <= 32
        && are_different(entry.words.as_slice())
        && is_place(entry)
}

/// Whether each entry says what it may by itself.
pub fn are_right_entries(sizes: Sizes, entries: &[Entry]) -> bool
    ensures { result ≡ list_all (is_right_entry sizes) entries.now }
{
    entries.iter().all(|entry| is_right_entry(sizes, entry))
}
