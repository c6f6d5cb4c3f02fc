//! The listed rules of a story, as they are put in order.
ghost use Rattle.std.specs.Prelude.{◌≡◌, ◌+◌, ◌≤◌, ◌++◌, length, IfOk, OnOk};
ghost use Rattle.std.specs.Option.{option_to_list};
ghost use Rattle.rule_order.specs.Entries.{count_of, entries_from, entry_of, numbers_of};

use crate::heading::Heading;
use crate::key::{Key, key_of};
use std::alloc::{AllocError, Global};
use world_meaning::KindNo;

/// A listed rule: entries are compared by their books, and then by their keys.
#[derive(Clone, Copy, PartialEq, Eq, PartialOrd, Ord)]
pub struct Entry {
    pub book: u16,
    pub key: Key,
    pub number: u16,
}

/// The rule of this number, if it is listed.
#[tactic(auto, unfolding(crate::specs::Entries::entry_of))]
fn entry_of(kinds: &[Option<KindNo>], number: u16, heading: &Heading<'_>) -> Option<Entry>
    requires few { length kinds.now ≤ 255 }
    ensures { result ≡ entry_of kinds.now number heading.now }
{
    match key_of(kinds, number, heading) {
        None => None,
        Some(key) => Some(Entry {
            book: heading.book,
            key,
            number,
        }),
    }
}

/// Puts an entry behind the others, if there is one.
fn push_if(entries: &mut Vec<Entry>, entry: Option<Entry>) -> Result<(), AllocError>
    ensures { OnOk result (entries.new.items ≡ entries.old.items ++ option_to_list entry) }
{
    match entry {
        None => Ok(()),
        Some(entry) => Ok(entries.push(entry)?),
    }
}

/// The listed rules, by their numbers.
pub fn entries_of(
    alloc: Global,
    kinds: &[Option<KindNo>],
    headings: &[Heading<'_>],
) -> Result<Vec<Entry>, AllocError>
    requires few { length kinds.now ≤ 255 }
    requires countable { length headings.now ≤ 65535 }
    ensures { IfOk result (λ entries. entries.items ≡ entries_from kinds.now 0 headings.now) }
{
    let mut entries = Vec::new(alloc);
    let mut number = 0u16;
    let mut rest = headings;
    while let [heading, after @ ..] = rest {
        push_if(&mut entries, entry_of(kinds, number, heading))?;
        number += 1;
        rest = after;
    }
    Ok(entries)
}

/// How many rulebooks there are up to the entry's.
fn count_to(entry: Entry) -> u32
    ensures value { result ≡ entry.book + 1 }
    ensures bound { result ≤ 65536 }
{
    u32::from(entry.book) + 1
}

/// How many rulebooks there are, up to the last that lists a rule.
pub fn count_of(entries: &[Entry]) -> u32
    ensures value { result ≡ count_of entries.now }
    ensures bound { result ≤ 65536 }
{
    let mut count = 0u32;
    let mut rest = entries;
    while let [entry, after @ ..] = rest {
        count = count.max(count_to(*entry));
        rest = after;
    }
    count
}

/// The rules of a rulebook, by their numbers, as the entries stand.
pub fn numbers_of(alloc: Global, entries: &[Entry], book: u32) -> Result<Vec<u16>, AllocError>
    ensures { IfOk result (λ numbers. numbers.items ≡ numbers_of book entries.now) }
{
    let mut numbers = Vec::new(alloc);
    let mut rest = entries;
    while let [entry, after @ ..] = rest {
        if u32::from(entry.book) == book {
            numbers.push(entry.number)?;
        }
        rest = after;
    }
    Ok(numbers)
}
